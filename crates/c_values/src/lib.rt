//! Values by their declarations for C, and records marked anew: what each such call does, and how C sees its answer.
//!
//! Each call answers a status, and reports the rest through what the caller lends. `c_library` exports it under the
//! name that `include/oncrpc.h` gives it.
//!
//! - `check`, `declarations`: bytes checked by a text, or by declarations that were read. `unread`: a text is read.
//! - `show`: the lines of a value. `parts`, `listing`, `part`, `listed`: its parts, how they are listed, how C sees a
//!   part, and the answers. `room`: whether they go into the buffers. `normal`: records marked anew.
//! - `write`: a value written by its items. `item`, `numbers`: an item as C tells it, and numbers that come first.
//!   `straight`, `writing`: the encoding of all, and why there is none. `encoding`: bytes whose last content is lent.
//! - `handle`, `state`: the declarations that C keeps, and what they hold. `asking`, `judge`: what is asked of bytes,
//!   and what they come to. `answer`: answers, and how C sees them. `buffer`: bytes put into what C lends.
//! - `examples`: what the contracts make certain for chosen inputs.
#![tactic(auto)]

mod answer;
mod asking;
mod buffer;
mod check;
mod declarations;
mod encoding;
mod examples;
mod handle;
mod item;
pub mod judge;
mod listed;
mod listing;
mod normal;
mod numbers;
mod part;
mod parts;
mod room;
mod show;
mod state;
mod straight;
mod unread;
mod write;
mod writing;

pub use answer::Answer;
pub use buffer::put;
pub use check::check_by_text;
pub use declarations::{check_by_declarations, free_declarations, read_declarations};
pub use handle::Handle;
pub use item::ValueItem;
pub use listed::PartsOutcome;
pub use normal::normalise_records;
pub use part::{ValuePart, role_number, type_number};
pub use parts::parts_by_declarations;
pub use show::show_by_declarations;
pub use state::State;
pub use write::write_by_declarations;

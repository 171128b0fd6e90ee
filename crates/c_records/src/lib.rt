//! A reader of records in fragments (RFC 5531 section 11) for C: what each such call does, and how C sees its answer.
//!
//! Each call answers a status, and reports the rest through what the caller lends. `c_library` exports it under the
//! name that `include/oncrpc.h` gives it.
//!
//! - `start`, `feeding`, `taking`, `ending`: a reader begins and is freed, gets pieces, hands records out, and ends.
//! - `header`: the header of a fragment, for its sender.
//! - `handle`, `state`: the reader that C keeps, and what it holds. `answer`: answers, and how C sees them. `buffer`:
//!   bytes put into what C lends.
//! - `examples`: what the contracts make certain for chosen inputs.
#![tactic(auto)]

mod answer;
mod buffer;
mod ending;
mod examples;
mod feeding;
mod handle;
mod header;
mod start;
mod state;
mod taking;

pub use ending::end_records;
pub use feeding::feed_records;
pub use handle::Records;
pub use header::put_header;
pub use start::{free_records, start_records};
pub use taking::take_record;

//! The engines of the program `oncrpc`, over readers and writers: what is printed, and the exit status.
//!
//! - `task`: how what the words ask for is done. `target`: the kind that they name. `declaring`: what declares it, the
//!   `texts` of files as they are `meant`. `open`: how a text is opened. `unusable`: why words name nothing, and the
//!   `refusal_line` of it. `said`: a line on the stream of faults.
//! - `check`: reads one value, and prints what the input holds. `question`: what is asked of the input. `judge`: judges
//!   the bytes as they come.
//! - `records`: writes a stream of records in its normal form.
//! - `given`: an input that is a text of hexadecimal. `hexadecimal`: the bytes that such a text spells.
#![tactic(auto)]

mod check;
mod declaring;
mod given;
mod hexadecimal;
mod judge;
mod meant;
mod open;
mod question;
mod records;
mod refusal_line;
mod said;
mod target;
mod task;
mod texts;
mod unusable;

pub use check::{answer_over, check_over, show_over};
pub use declaring::declared;
pub use hexadecimal::bytes_of_text;
pub use open::{MemoryOpener, Opener};
pub use question::{Form, Question};
pub use records::{MOST_LIMIT, Marking, records_over};
pub use said::say_line;
pub use target::{Target, target_of};
pub use task::task_over;
pub use unusable::{Unusable, refuse, refuse_texts};

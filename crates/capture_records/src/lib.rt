//! The records in one direction of a connection over TCP (RFC 9293 section 3.4, RFC 5531 section 11).
//!
//! - `side` is one direction, put together by `sequence` numbers, of which a `step` comes.
//! - `finding` finds the first record behind a hole, and `told` is what is said of bytes without a record.
//! - `laws` are theorems about the definitions.
#![tactic(auto)]

mod finding;
mod laws;
mod sequence;
mod side;
mod step;
mod told;

pub use finding::is_reply;
pub use laws::told_records_begin_all;
pub use sequence::{bytes_of, first_of};
pub use side::Side;
pub use step::Step;
pub use told::Told;

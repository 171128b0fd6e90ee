//! What the crates for C share of an answer: bytes in a buffer that C lends, and the outcome beside a status.
#![tactic(auto)]

mod buffer;
mod outcome;

pub use buffer::put;
pub use outcome::Outcome;

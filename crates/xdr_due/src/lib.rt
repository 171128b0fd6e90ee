//! What comes next for a reader: the part in which the next unit stands, in each value that goes on with its bytes.
#![tactic(auto)]

mod due;

pub use due::{Due, due_of};

//! Worked facts of the records in one direction of a connection over TCP, proved from the contracts alone.
//!
//! - `numbers`: the number of a segment's first byte, and its bytes.
//! - `records`: a record in one segment, in two out of order, and under other bytes for the same places.
//! - `limit`: a header above the limit. `begun`: how each of these directions begins, and takes bytes.
#![tactic(auto)]

mod begun;
pub mod limit;
pub mod numbers;
pub mod records;

pub use begun::Stop;

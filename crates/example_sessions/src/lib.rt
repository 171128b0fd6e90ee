//! Worked examples of the registry's sessions and of its answers by who calls, each proved from the contracts alone.
//!
//! - `one`: one session, by its pieces, its output and its bound
//! - `turns`: sessions of a table that take turns
//! - `changes`: SET and UNSET of callers of other hosts; `owners`: whose the rows are
//! - `addresses`: how addresses are told; `rows`: which rows are there again
#![tactic(auto)]

pub mod addresses;
pub mod changes;
pub mod one;
pub mod owners;
pub mod rows;
pub mod turns;

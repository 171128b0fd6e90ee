//! Worked examples of the registry for users of the libraries, each proved from the contracts alone.
//!
//! - `addresses`: universal addresses; `directory`: rows are set, removed and kept; `looking`: rows are looked up
//! - `dumps`: the rows as values, and the schema of their kinds
//! - `answers`: one message answered; `served`, `datagrams`: a stream and datagrams of them
#![tactic(auto)]

pub mod addresses;
pub mod answers;
pub mod datagrams;
pub mod directory;
pub mod dumps;
pub mod looking;
pub mod served;

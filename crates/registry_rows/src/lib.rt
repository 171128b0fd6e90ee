//! The rows of the registry of RFC 1833 section 2, and the entries of a map that hold them.
//!
//! - `row`: a row, and who may remove it; `key`: the key under which it stands
//! - `entries`: a row is found, added at the end, or removed with the rest in order
//! - `column`: the same with the program of each row in a column beside the rows
//! - `looking`: the look-up that falls back to the greatest version; `scan`: where a program stands in a column
//! - `program`, `transports`: the numbers of the registry's program and of the transports
#![tactic(auto)]

mod column;
mod entries;
mod key;
mod looking;
mod program;
mod row;
mod scan;
mod transports;

pub use column::{Programs, append_beside, remove_all_beside, remove_one_beside};
pub use entries::{append, count, find, remove_all, remove_one};
pub use key::Key;
pub use looking::{look_up, look_up_beside};
pub use program::{HIGHEST_VERSION, LOWEST_VERSION, PROGRAM};
pub use row::Row;
pub use transports::{netid_of_prot, prot_of_netid};

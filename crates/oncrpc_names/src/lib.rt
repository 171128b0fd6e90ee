//! Names of the arguments and results of procedures: `P.V.N.K` and `P.V.N.result`.
//!
//! P is a program's number, V a version's and N a procedure's (RFC 5531 section 12.3). K counts the arguments from 1.
//! All are decimal, below 2^32 and without leading zeros.
#![tactic(auto)]

mod numbers;
mod reading;

pub use reading::{Part, PartName, read_part_name};

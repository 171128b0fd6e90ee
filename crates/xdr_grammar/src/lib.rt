//! The grammar of the XDR language: what definitions spell, and what they declare
//! (RFC 4506 section 6.3, RFC 5531 section 12.2).
//!
//! - `outline`: what definitions declare, with names in place of what they stand for; `adding` adds to it
//! - `parser`: the tokens that are left; `values` takes names, numbers and basic types from them
//! - `definitions`, `declarators`, `enums`, `bodies`, `programs`: the productions of the grammar
//! - `nesting`: bodies inside one another, at most 32
//! - `misread`: why a token cannot stand where it does
#![tactic(auto)]

mod adding;
mod bodies;
mod declarators;
mod definitions;
mod enums;
mod misread;
mod nesting;
mod outline;
mod parser;
mod programs;
mod values;

pub use definitions::read_outline;
pub use outline::{
    Arm, Basic, Draft, Entry, Field, Late, Member, Name, Number, Outline, Part, Procedure, Program,
    Shape, Version,
};

//! Names that stand for numbers in rpcgen's dialect (own, after rpcgen): values of constants, and numbers of programs,
//! versions and procedures, that are names of constants and procedures.
//!
//! - `given`: the names to which tokens give numbers; `followed`: those to which they give names
//! - `resolved`: the public call; `laws`: what a name stands for, said of the whole text, and which tokens stay
#![tactic(auto)]

mod followed;
mod given;
mod laws;
mod resolved;

pub use laws::{aliases_are, aliases_stay};
pub use resolved::resolved_tokens;

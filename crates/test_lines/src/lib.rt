//! Lines for tests: a call that is asked for in words `key=value`, and what is told of it in the same form.
//! `tool_probe` and `tool_probe_more` make the calls.
//!
//! - `case`: what a line asks for. `asked`: the kind that it names. `served`: the registry that it serves first.
//! - `reported`: the line of what is answered. `lent`: parts of values, and why there are none. `declared`: what texts
//!   declare.
//! - `growths`: memory that is counted and refused. `random`: schemas, inputs and limits that a generator makes.
#![tactic(auto)]

pub mod asked;
pub mod case;
pub mod declared;
pub mod growths;
pub mod lent;
pub mod random;
pub mod reported;
pub mod served;

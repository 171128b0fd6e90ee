//! Worked examples of XDR for users of the libraries, each proved from the contracts alone: schemas, values and limits,
//! encoding and decoding, the lines of a value.
//!
//! - `schemas`, `answers`, `limits`, `values`: what makes a schema, what it answers, limits, and values. `look_ups`:
//!   numbers looked for in long enumerations and unions. `made`: what these examples share.
//! - `encoding`, `decoding`, `checking`, `pieces`: bytes of values, values of bytes, whole, unkept, and piece by piece.
//!   `reasons`: the reason and the place of each refusal. `further_reasons`: of discriminants of each kind, and of two
//!   reasons at one place. `holding`: what a decoder and a checker hold. `writing`: the items of a value.
//! - `lending`, `lines`: parts, and what is shown. `units`, `stacks`, `devices`: numbers and padding, the stack of
//!   nodes, sources and sinks.
#![tactic(auto)]

pub mod answers;
pub mod checking;
pub mod decoding;
pub mod devices;
pub mod encoding;
pub mod further_reasons;
pub mod holding;
pub mod lending;
pub mod limits;
pub mod lines;
pub mod look_ups;
mod made;
pub mod pieces;
pub mod reasons;
pub mod schemas;
pub mod stacks;
pub mod units;
pub mod values;
pub mod writing;

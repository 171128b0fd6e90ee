//! Worked examples of values as JSON, each proved from the contracts alone.
//!
//! - `writing`: what is written for a value. `reading`: what is read of a text.
#![tactic(auto)]

pub mod reading;
pub mod writing;

//! What a text declares, as text: its constants, its types with how many bytes their values have, and its programs.
//!
//! - `listing`: the public calls. `lines`: a line for each constant and type. `programs`: lines of programs and
//!   versions. `procedures`: those of procedures, by their `paths`.
//! - `json_listing`: the same as one JSON value. `json_types`: kinds in it. `json_programs`: programs in it.
//!   `json_text`: JSON as it is written.
//! - `types`: the kinds, their names and their counts. `names`: the first name of each. `words`: what is said of them
//!   in lines.
#![tactic(auto)]

mod json_listing;
mod json_programs;
mod json_text;
mod json_types;
mod lines;
mod listing;
mod names;
mod paths;
mod procedures;
mod programs;
mod types;
mod words;

pub use listing::{list_declared, list_json};

//! Worked examples of the program over readers and writers, each proved from the contracts alone.
//!
//! - `words`: what the words ask for, and how the program ends where they ask for no task.
//! - `tasks`: tasks as the words ask for them. `values`: one value checked or shown. `records`: streams of records.
//! - `encoded`: a value that is read as JSON. `items`: the items of an array. `listed`: what texts declare.
//! - `service`: the registry asked and served.
#![tactic(auto)]

pub mod encoded;
pub mod items;
pub mod listed;
pub mod records;
pub mod service;
pub mod tasks;
pub mod values;
pub mod words;

//! Values as JSON for C: what `oncrpc_declarations_to_json` and `oncrpc_declarations_from_json` do.
//!
//! - `telling`: the JSON of a value, by declarations that were read.
//! - `reading`: the encoding of the value that a JSON text spells. `spelled`: answers to it, and how C sees them.
//! - `examples`: what the contracts make certain for chosen inputs.
#![tactic(auto)]

mod examples;
mod reading;
mod spelled;
mod telling;

pub use reading::encoding_by_declarations;
pub use telling::json_by_declarations;

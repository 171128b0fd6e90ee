//! Values of XDR (RFC 4506) as JSON (RFC 8259), both ways: one JSON value is written for each value, and every JSON
//! text that spells a value is read as that value.
//!
//! - `writing`: a value as JSON. `encoded`: the same from the bytes of a value, over what stands at their `front`, and
//!   over `single` nodes.
//! - `output`: tokens as they are written, in one of two layouts. `leaf`: names, numbers and content as tokens.
//! - `laws`: a value has one JSON value, and a JSON value spells one value at most.
#![tactic(auto)]

mod encoded;
mod front;
mod laws;
mod leaf;
mod output;
mod single;
mod writing;

pub use encoded::json_of_bytes;
pub use laws::{each_json_is_one_value, each_json_spells, each_spells_one_value};
pub use output::Layout;
pub use writing::write_json;

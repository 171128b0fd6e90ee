//! One part of a value for C: that which a path names, and the number that a part has. What each such call does, and
//! how C sees its answer.
//!
//! - `finding`: the part that a path names. `found`: the answers, and how C sees them. `part`: a part alone.
//! - `number`: the number that a part has, and the answers. `examples`: what the contracts make certain.
#![tactic(auto)]

mod examples;
mod finding;
mod found;
mod number;
mod part;

pub use finding::find_by_declarations;
pub use number::{PartNumber, number_by_declarations};
pub use part::part_alone;

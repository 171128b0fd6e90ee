//! The parts of the value that begins an input (RFC 4506), lent from its bytes.
//!
//! - `listing`: the parts of the value that begins an input. `counting`: how many they are. `part`: a part, lent from
//!   the input.
//! - `judge`: whether a value begins the input, and how many bytes it has. `walk`: its parts, one after another.
//!   `numbers`: those of them that are numbers. `whole`: all together.
//! - `coming`: the parts of a value whose bytes were judged before, a few at a time.
//! - `taken`: what a walk takes of the parts. `next`: the kind of the part that comes next.
#![tactic(auto)]

mod coming;
mod counting;
pub mod judge;
mod listing;
mod next;
mod numbers;
pub mod part;
mod taken;
mod walk;
mod whole;

pub use coming::PartWalk;
pub use counting::{PartCounts, count_parts};
pub use listing::{SizedParts, parts, sized_parts};
pub use part::{Lent, Role};

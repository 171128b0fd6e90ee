//! How many bytes the values of a kind have at least and at most (RFC 4506).
//!
//! - `bounds`: both counts for all kinds of a schema. `range`, `greatest`: what is told of one kind.
//! - `shape`: what decides the counts of a kind, the bytes of a node and the kinds of its parts. `shaping`: the shapes
//!   of kinds. `unions`: the parts of a union that a legal discriminant picks.
//! - `amounts`: sums, products, the lowest and the highest of counts, none from 2^64 on. `fewest`: the least counts.
//!   `most`: the greatest. `order`: in which order they are looked for.
#![tactic(auto)]

mod amounts;
mod bounds;
mod fewest;
mod greatest;
mod most;
mod order;
mod range;
mod shape;
mod shaping;
mod unions;

pub use bounds::Bounds;
pub use greatest::Greatest;
pub use range::Range;

//! What the handles of the crates for C share: a box behind a pointer, taken out and kept.
#![tactic(auto)]

mod keeper;
mod loose;

pub use keeper::{Keeper, keep, taken};
pub use loose::Loose;

//! The engine of `oncrpc types`, over writers and what opens texts: what is printed of declarations, and the exit
//! status.
//!
//! - `printing`: the call.
#![tactic(auto)]

mod printing;

pub use printing::types_over;

//! Worked facts of values of known kinds, each proved from the contracts alone.
//!
//! - `filling`: what items fill of a value that is written straight from them, and which fill none
//! - `paths`: paths of an integer; `cursors`: a cursor over its parts, and over those of a structure
//! - `bounds`: how many bytes values have; `listings`: what is printed of declarations, with those bounds
#![tactic(auto)]

pub mod bounds;
pub mod cursors;
pub mod filling;
pub mod listings;
pub mod paths;

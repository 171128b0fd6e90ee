//! The constants of a text, and what values stand for (RFC 4506 section 6.4).
//!
//! - `constants`: numbers in their ranges, and look-ups of constants, sizes and cases
//! - `constant_table`: the constants so far, and the first with each name
#![tactic(auto)]

mod constant_table;
mod constants;

pub use constant_table::ConstantTable;
pub use constants::{
    Known, case_number, entry_number, limit, looked_up, member_number, numbers, place_of_value,
    size, unsigned,
};

//! What XDR, messages and addresses share: numbers, padding and padded content as bytes (RFC 4506 sections 3 and 4),
//! numbers as decimal texts, and the allocation failure. Numbers and content are read from the front of bytes, and
//! written behind them.
#![tactic(auto)]

mod decimals;
mod memory;
mod units;

pub use decimals::{before_dot, decimal_number, push_decimal};
pub use memory::NoMemory;
pub use units::{
    NoContent, are_zeros, first_content, first_long_word, first_word, push_padded, push_word,
};

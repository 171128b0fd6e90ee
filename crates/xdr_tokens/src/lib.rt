//! The tokens of the XDR language (RFC 4506 section 6.2, RFC 5531 section 12).
//!
//! - `token`: a keyword, a name, a constant or a mark, and its place in the text
//! - `cutting`: a text cut into its tokens; `bytes`, `keyword` and `number` read one of them
//! - `fault`: what may be wrong with a text, in whatever crate; `wrong_number` and `flaw_number` number it
#![tactic(auto)]

mod bytes;
mod cutting;
mod fault;
mod flaw_number;
mod keyword;
mod number;
mod token;
mod wrong_number;

pub use cutting::tokens;
pub use fault::{Fault, Wrong};
pub use flaw_number::FlawNumber;
pub use token::{Keyword, Mark, Token};

//! The bytes of one direction of a TCP connection, put together from its segments by sequence number (RFC 9293, section
//! 3.4), whatever order they come in.
//!
//! - `direction` is one direction: it takes segments, hands on the bytes that are due, and skips holes.
//! - `pieces` has the bytes behind a hole, up to a limit, as pieces (`piece`) that share no place; `stretch` says what
//!   comes at a place.
//! - `refusal` has why a segment is refused, and `side` where one begins; `laws` are theorems about the definitions.
#![tactic(auto)]

mod direction;
mod laws;
mod piece;
mod pieces;
mod refusal;
mod side;
mod stretch;

pub use direction::Direction;
pub use laws::{
    any_order, first_one_wins, handed_is_the_stream, one_stream, places_by_number,
    refused_gives_less,
};
pub use refusal::Refusal;
pub use side::Ending;

//! Worked calls of programs, each proved from the contracts alone.
//!
//! - `replies`: what is printed of a reply over a connection, and what is said. `datagrams`: what is sent.
//! - `failures`: what is said where memory was refused. `arguments`: which are refused, and where. `asking`: what a
//!   name and arguments ask for.
//! - `ports`: how a registry is asked for a port, and which it tells.
#![tactic(auto)]

mod arguments;
mod asking;
mod datagrams;
mod failures;
mod ports;
mod replies;

pub use arguments::{counts_what_follows, refuses_the_only_argument};
pub use asking::{asks_for_a_square, tells_the_name_first};
pub use datagrams::{
    answers_to_no_datagram, counts_for_each_sending, keeps_no_count_for_later, sends_the_call,
};
pub use failures::says_that_memory_was_refused;
pub use ports::{
    asks_over_ipv6, tells_the_port_as_a_number, tells_the_port_over_ipv4, tells_the_port_over_ipv6,
};
pub use replies::{
    is_cut_at_once, prints_the_bytes_of_a_number, takes_no_byte_behind, takes_no_other_reply,
    tells_the_versions, tells_why_it_is_denied,
};

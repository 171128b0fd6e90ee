//! What a captured packet carries, as slices of its bytes: a datagram of UDP, a segment of TCP, or neither, with the
//! reason. Nothing is allocated: no call takes an allocator.
//!
//! - `read` goes through the layers: `links` has what stands before an internet packet, `ipv4` and `ipv6` that packet,
//!   `transport` the datagram or the segment in it.
//! - `packet` has the results, `reason` why a packet carries neither, `carried` what an internet packet has for the
//!   transport, `fields` the numbers of headers. `laws` are theorems about the definitions.
//!
//! Fragments are told as such and not put together.
#![tactic(auto)]

mod carried;
mod fields;
mod ipv4;
mod ipv6;
mod laws;
mod links;
mod packet;
mod read;
mod reason;
mod transport;

pub use laws::{slices_lie_in_the_packet, spelled_datagrams_are_read, spelled_segments_are_read};
pub use packet::{Datagram, Endpoint, Flags, Packet, Segment};
pub use read::read_packet;
pub use reason::Reason;

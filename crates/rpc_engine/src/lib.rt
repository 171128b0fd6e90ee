//! The registry as a server over a stream of records or over datagrams, and the exchange of a call for a reply (RFC
//! 5531 sections 9 and 11, RFC 1833 sections 2 and 3).
//!
//! - `server` reads records and has each answered; `session` writes the reply to one and counts it.
//! - `client` writes a call and reads its reply.
//! - `port` is where datagrams come from and go to, and `memory_port` one over memory; `datagrams` serves and
//!   `datagram_client` calls over a port.
//! - `fault` has why any of these stops, and the counts; `laws` are theorems about the definitions.
#![tactic(auto)]

mod client;
mod datagram_client;
mod datagrams;
mod fault;
mod laws;
mod memory_port;
mod port;
mod server;
mod session;

pub use client::{exchange, reply_to};
pub use datagram_client::exchange_datagram;
pub use datagrams::serve_datagrams;
pub use fault::{ClientFault, DatagramFault, ServeFault, Served};
pub use laws::{exchanges_have_one_outcome, messages_have_one_case, runs_join};
pub use memory_port::MemoryPort;
pub use port::{DatagramPort, PortFault};
pub use registry_answer::{Answered, Transport, answer};
pub use server::serve;

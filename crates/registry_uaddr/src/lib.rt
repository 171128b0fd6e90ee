//! Universal addresses over IPv4 (RFC 5665 sections 5.2.3.1 to 5.2.3.3): read, written, and their laws.
#![tactic(auto)]

mod address;
mod from_text;
mod laws;

pub use address::{Uaddr, write_uaddr};
pub use from_text::read_uaddr;
pub use laws::uaddr_reads_back;
pub use xdr_units::NoMemory;

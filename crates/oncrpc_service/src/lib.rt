//! The registry asked and served: what a server's rows are printed as, and how connections are served, and datagrams
//! answered, one after another.
//!
//! - `info`, `rows`, `refusal`: a registry is asked, its rows are printed, or why there are none. `printing`: a line.
//! - `serving`, `datagrams`: connections served, and datagrams answered, a line for each. `listener`: where connections
//!   come from. `loopback`, `udp`: those of this host over TCP, and its ports of datagrams over UDP.
#![tactic(auto)]

mod datagrams;
mod info;
mod listener;
mod loopback;
mod printing;
mod refusal;
mod rows;
mod serving;
mod udp;

pub use datagrams::datagrams_on;
pub use info::{info_datagram, info_over};
pub use listener::{AcceptFault, Listener};
pub use loopback::Loopback;
pub use refusal::{fault_line, status_line};
pub use serving::{report_socket, serve_on};
pub use udp::LoopbackPort;

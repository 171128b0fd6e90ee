//! Many connections of the registry served at once, without sockets (RFC 5531 sections 9 and 11, RFC 1833 sections 2
//! and 3). Each has a session, which takes bytes as they come and holds the replies that wait to be written.
//!
//! - `session` takes the bytes of one connection and answers its records; `origin` says whence they came, and
//!   `replies` writes a reply behind others.
//! - `table` has the sessions by the numbers of their connections, beside the datagrams.
//! - `fault` has what these answer; `laws` are theorems about the definitions.
#![tactic(auto)]

mod fault;
mod laws;
mod origin;
mod replies;
mod session;
mod table;

pub use fault::{OpenFault, SessionFault, Taken};
pub use laws::{arrivals_have_one_order, one_connection_is_served, steps_join, tables_interleave};
pub use origin::Origin;
pub use session::Session;
pub use table::SessionTable;

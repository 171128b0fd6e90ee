//! The rows of the registry as values of XDR, and the schema of their kinds (RFC 1833 sections 2.1 and 3.1).
#![tactic(auto)]

mod listing;
mod schema;

pub use listing::{linked, mapping, rpcb};
pub use schema::directory_schema;

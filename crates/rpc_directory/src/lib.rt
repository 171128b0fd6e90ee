//! The registry of RFC 1833 sections 2 and 3: universal addresses, and a list of rows in order of insertion.
#![tactic(auto)]

mod directory;
mod dumps;
mod ports;

pub use directory::Directory;
pub use registry_dumps::directory_schema;
pub use registry_rows::Row;
pub use registry_uaddr::{NoMemory, Uaddr, read_uaddr, write_uaddr};

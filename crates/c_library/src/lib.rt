//! The library for C: `include/oncrpc.h` says it in words, for those who write C.
//!
//! Each export answers a status, and reports the rest through what the caller lends. None wants anything but pointers
//! that lead where their counts say. What it does is the function that it calls, proved in the crate of that function.
//!
//! - `values`: values by their declarations, and records marked anew. `paths`: one part of a value. `cursors`: its
//!   parts one by one. `kinds`: what was declared. `json`: values as JSON. `dialect`: declarations in rpcgen's dialect.
//!   `records`: a stream of records.
//! - `calls`, `replies`, `credentials`: messages. `registry`: a registry that a program of C keeps. `sessions`: the
//!   connections over which it serves that. `addresses`: universal addresses. `version`: that of the library.
#![tactic(auto)]

mod addresses;
mod calls;
mod credentials;
mod cursors;
mod dialect;
mod json;
mod kinds;
mod paths;
mod records;
mod registry;
mod replies;
mod sessions;
mod values;
mod version;

pub use addresses::{oncrpc_uaddr_read, oncrpc_uaddr_write};
pub use calls::{oncrpc_call_read, oncrpc_call_write};
pub use credentials::{oncrpc_auth_sys_read, oncrpc_auth_sys_write};
pub use cursors::{
    oncrpc_declarations_parts_next, oncrpc_declarations_parts_skip,
    oncrpc_declarations_parts_start, oncrpc_parts_free,
};
pub use dialect::oncrpc_declarations_read_dialect;
pub use json::{oncrpc_declarations_from_json, oncrpc_declarations_to_json};
pub use kinds::{
    oncrpc_declarations_kind, oncrpc_declarations_member, oncrpc_declarations_named,
    oncrpc_declarations_picked, oncrpc_declarations_type,
};
pub use paths::{oncrpc_declarations_find, oncrpc_part_number};
pub use records::{
    oncrpc_record_header, oncrpc_records_end, oncrpc_records_feed, oncrpc_records_free,
    oncrpc_records_start, oncrpc_records_take,
};
pub use registry::{
    oncrpc_registry_answer, oncrpc_registry_answer_from, oncrpc_registry_free,
    oncrpc_registry_reply, oncrpc_registry_rows, oncrpc_registry_set, oncrpc_registry_start,
    oncrpc_registry_unset,
};
pub use replies::{oncrpc_reply_read, oncrpc_reply_write};
pub use sessions::{
    oncrpc_session_feed, oncrpc_session_free, oncrpc_session_output, oncrpc_session_start,
    oncrpc_session_took,
};
pub use values::{
    oncrpc_check, oncrpc_declarations_check, oncrpc_declarations_free, oncrpc_declarations_parts,
    oncrpc_declarations_read, oncrpc_declarations_show, oncrpc_declarations_write,
    oncrpc_normalise,
};
pub use version::oncrpc_version;

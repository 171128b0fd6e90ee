//! Declarations in rpcgen's dialect for C: what `oncrpc_declarations_read_dialect` does.
//!
//! - `reading`: the call. `unread`: a text is read, with the `names` that are defined for its lines of `#`.
//! - `examples`: what the contract makes certain for a chosen input.
#![tactic(auto)]

mod examples;
mod names;
mod reading;
mod unread;

pub use reading::read_dialect_declarations;

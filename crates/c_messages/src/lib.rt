//! Messages of ONC RPC for C: what each such call does, and how C sees its answer.
//!
//! Each call answers a status, and reports the rest through what the caller lends. `c_library` exports it under the
//! name that `include/oncrpc.h` gives it.
//!
//! - `calls`, `replies`, `credentials`: messages read and written. `asked`: the reply that C asks for.
//! - `answer`: answers, and how C sees them. `part`: where a part of a message lies. `buffer`: bytes put into what C
//!   lends.
//! - `examples`: what the contracts make certain for chosen inputs.
#![tactic(auto)]

mod answer;
mod asked;
mod buffer;
mod calls;
mod credentials;
mod examples;
mod part;
mod replies;

pub use calls::{CallParts, read_call_parts, write_call_parts};
pub use credentials::{AuthSysParts, read_auth_sys_parts, write_auth_sys_parts};
pub use part::Part;
pub use replies::{ReplyParts, read_reply_parts, write_reply_parts};

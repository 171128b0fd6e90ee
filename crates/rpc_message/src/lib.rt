//! Calls, replies and AUTH_SYS credentials of ONC RPC version 2 (RFC 5531), as values and as bytes. Values and bytes
//! correspond one to one: a writer gives the bytes of its value, and a reader accepts these and no others.
//!
//! - `message` has the values, `fault` why bytes are no reply, `numbers` what RFC 5531 calls the numbers.
//! - `calls`, `replies` and `credentials` read and write a call, a reply and the body of AUTH_SYS; `fields` has the
//!   parts of which these are made.
//! - `uid` reads the uid of such a body alone, without memory.
//! - `heads` writes replies word by word, where there is no memory for a value.
//! - `laws` are theorems about the definitions.
#![tactic(auto)]

mod calls;
mod credentials;
mod fault;
mod fields;
mod heads;
mod laws;
mod message;
mod numbers;
mod replies;
mod uid;

pub use calls::{read_call, read_lent_call, write_call};
pub use credentials::{read_auth_sys, write_auth_sys};
pub use fault::ReplyFault;
pub use heads::{accepted_head, append_denial, append_head, cut_to_system_error, system_error};
pub use laws::{auth_sys_bytes_are_exact, call_bytes_are_exact, five_cases, reply_bytes_are_exact};
pub use message::{
    AuthSys, Call, CallRead, LentAuth, LentCall, LentRead, OpaqueAuth, Reply, Status, Why,
};
pub use numbers::{
    AUTH_BADCRED, AUTH_BADVERF, AUTH_ERROR, AUTH_NONE, AUTH_REJECTEDCRED, AUTH_SYS, CALL,
    GARBAGE_ARGS, MSG_ACCEPTED, MSG_DENIED, PROC_UNAVAIL, PROG_MISMATCH, PROG_UNAVAIL, REPLY,
    RPC_MISMATCH, RPC_VERSION, SUCCESS, SYSTEM_ERR,
};
pub use replies::{append_reply, read_reply, write_reply};
pub use uid::read_auth_sys_uid;
pub use xdr_units::NoMemory;

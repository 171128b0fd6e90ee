//! Who calls the registry, and what it answers (this project's own, after rpcbind). It is the answer of
//! `registry_answer`, but for four cases: changes of a caller from another host, an owner that the kernel names, a row
//! that is set again, and addresses at host 0.0.0.0.
//!
//! - `callers`: who calls, and to which host; `asking`: which calls change rows, and which look addresses up
//! - `vouching`: the credential by which a row's owner is found
//! - `registering`: a SET of a row that may be there already; `addresses`: the addresses that are looked up
//! - `answering`: a record is answered, or none is; `laws`: theorems about the definitions
#![tactic(auto)]

mod addresses;
mod answering;
mod asking;
mod callers;
mod laws;
mod registering;
mod vouching;

pub use answering::append_answer_from;
pub use callers::{AUTH_TOOWEAK, Caller, Peer};
pub use laws::{
    each_caller_has_an_answer, local_is_as_ever, nobody_afar_is_superuser, one_answer_from,
    others_are_as_ever, refused_rows_stay, remote_is_denied, superusers_rows_stay, user_is_owner,
};

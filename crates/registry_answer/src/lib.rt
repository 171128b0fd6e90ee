//! The registry's answer to a record (RFC 5531 section 9, RFC 1833 sections 2 and 3): the order of a server's checks,
//! and its table of procedures.
//!
//! - `answering`: a record is answered, or none is; `transport`: what a transport carries
//! - `callers`: who calls; `accepted`: the checks of a call of a caller who is believed
//! - `table`: the procedures by their numbers; `arguments`: what they are called with
//! - `procedures`: the steps on rows, each with its reply; `dumps`: the lists of rows
//! - `laws`: a record has one answer
#![tactic(auto)]

mod accepted;
mod answering;
mod arguments;
mod callers;
mod dumps;
mod laws;
mod procedures;
mod table;
mod transport;

pub use answering::{Answered, Appended, answer, append_answer};
pub use laws::{each_record_has_an_answer, one_answer};
pub use rpc_message::system_error;
pub use transport::Transport;

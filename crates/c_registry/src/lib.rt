//! The registry of rpcbind for C: what each such call does, and how C sees its answer.
//!
//! Each call answers a status, and reports the rest through what the caller lends. `c_library` exports it under the
//! name that `include/oncrpc.h` gives it.
//!
//! - `start`, `rows`, `answering`, `reply`: a registry begins and is freed, has rows set and removed, answers a record,
//!   and hands out a reply that waits.
//! - `listing`, `row`, `listed`: its rows are listed, each as C sees it, and what such a call answers.
//! - `answering_from`, `caller`: it answers a record by who sent it, as C tells it.
//! - `session`, `feeding`, `output`: a session of a connection begins and is freed, takes the bytes that come, and
//!   hands out the replies that wait to be written. `connection`, `connected`, `session_answer`: the session that C
//!   keeps, what its handle holds, and what such a call answers.
//! - `address`: universal addresses between texts and numbers.
//! - `handle`, `state`, `hasher`: the registry that C keeps, what it holds, and how its rows are hashed. `transport`:
//!   transports by their netids.
//! - `answer`: answers, and how C sees them. `buffer`: bytes put into what C lends. `examples`, `session_examples`:
//!   what the contracts make certain for chosen inputs.
#![tactic(auto)]

mod address;
mod answer;
mod answering;
mod answering_from;
mod buffer;
mod caller;
mod connected;
mod connection;
mod examples;
mod feeding;
mod handle;
mod hasher;
mod listed;
mod listing;
mod output;
mod reply;
mod row;
mod rows;
mod session;
mod session_answer;
mod session_examples;
mod start;
mod state;
mod transport;

pub use address::{read_address, write_address};
pub use answering::answer_record;
pub use answering_from::answer_record_from;
pub use caller::CallerParts;
pub use connection::Connection;
pub use feeding::feed_session;
pub use handle::Registry;
pub use listed::RowCounts;
pub use listing::list_rows;
pub use output::{show_output, take_written};
pub use reply::take_reply;
pub use row::RowParts;
pub use rows::{set_row, unset_rows};
pub use session::{free_session, start_session};
pub use start::{free_registry, start_registry};

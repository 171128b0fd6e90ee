//! Worked examples of records and messages for users of the libraries, each proved from the contracts alone.
//!
//! - `records`: records of a stream, marked and read. `normal_form`: streams brought to their normal form.
//! - `calls`, `replies`, `bodies`: calls, replies and bodies of AUTH_SYS, read and written.
#![tactic(auto)]

pub mod bodies;
pub mod calls;
pub mod normal_form;
pub mod records;
pub mod replies;

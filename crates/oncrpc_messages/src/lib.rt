//! What is printed of one message (RFC 5531). A record is read as a call or a reply, and its arguments or results are
//! judged by the declared kinds. Every byte that is refused is named with its place.
//!
//! - `message`: what is printed of any bytes, over `calls`, `replies` and, of what is neither, `flaws`. `page` is what
//!   comes out, with what a call `asked`; `settings` is how messages are read, `form` how they are printed, and `show`
//!   whether they are.
//! - `fronts`: the line over a message. `credential`: the fields of AUTH_SYS. `bodies`: arguments and results.
//!   `values`: values of kinds, one behind another, each found by `judge`.
//! - `procedures`: the kinds of a procedure's arguments and result. `heads`: the types by which heads are judged,
//!   out of the `head_text`.
//! - `refusal`: why bytes are refused, and where. `closing`: how a message is closed with it. `laws`: what follows from
//!   the definitions.
#![tactic(auto)]

mod asked;
mod bodies;
mod calls;
mod closing;
mod credential;
mod flaws;
mod form;
mod fronts;
mod head_text;
mod heads;
mod judge;
mod laws;
mod message;
mod page;
mod procedures;
mod refusal;
mod replies;
mod settings;
mod show;
mod values;

pub use asked::Asked;
pub use closing::close_page;
pub use form::Form;
pub use head_text::read_heads;
pub use heads::Heads;
pub use laws::canonical_is_encoded;
pub use message::{call_program, judge_message, read_message, reply_xid};
pub use page::{Found, Page, Said};
pub use refusal::{Refusal, Verdict, Why};
pub use settings::Settings;

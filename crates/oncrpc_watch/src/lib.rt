//! The engine of `oncrpc messages`, over readers and writers. The messages of a stream of records, or of both
//! directions of a connection, are printed and judged.
//!
//! - `messages`: the call. `task`: what the words ask for, and in which `style`. `both`: two directions, each reply
//!   behind its call. `stream`: one direction, whose records are told by their `ending` line at last.
//! - `watch`: a message told or judged, by `terms`, with the call to which it answers; `counts` and the closing line of
//!   them.
//! - `table`: the calls that wait, by the way that they went and by their xid, of which the newest are kept, each under
//!   its `key`.
//! - `placed`: a source beside which `fragments` tell the places of a record's bytes.
#![tactic(auto)]

mod both;
mod counts;
mod ending;
mod fragments;
mod key;
mod messages;
mod placed;
mod stream;
mod style;
mod table;
mod task;
mod terms;
mod watch;

pub use counts::{Counts, counts_line};
pub use messages::messages_over;
pub use style::Style;
pub use table::{CallTable, MOST_CALLS};
pub use task::{Known, MessagesTask};
pub use terms::Terms;
pub use watch::{Judged, Told, Watch};

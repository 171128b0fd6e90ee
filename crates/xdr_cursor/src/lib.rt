//! A cursor over the parts of a value (RFC 4506), which borrows neither the declarations nor the bytes.
//!
//! - `cursor`: where it stands, the start of it, and the next part. `skip`: parts that are passed over. `fault`: why it
//!   does not go on.
//! - `frame`: a node at work. `shown`: what a node shows before the parts inside it. `step`: one part.
#![tactic(auto)]

mod cursor;
mod fault;
mod frame;
mod shown;
mod skip;
mod step;

pub use cursor::Cursor;
pub use fault::CursorFault;

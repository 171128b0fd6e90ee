//! A value of XDR (RFC 4506) as lines of text: one for each part of its layout, in the order of its bytes.
//!
//! - `shown`: the lines of a value. `lent`: the same of parts that are lent from bytes.
//! - `line`: what all lines have. `head`, `number`, `content`: what a line says of a node, of a number and of content.
//!   `part_head`: what a node shows, read back from the bytes of a part. `short`: short lines, put together on the
//!   stack. `backwards`: texts written from their end.
//! - `laws`: the lines are those of the layout.
#![tactic(auto)]

mod backwards;
mod content;
mod head;
mod laws;
mod lent;
mod line;
mod number;
mod part_head;
mod short;
mod shown;

pub use content::push_escaped_bytes;
pub use laws::lines_are_of_the_layout;
pub use lent::{show_bytes, show_parts, show_whole};
pub use shown::show;

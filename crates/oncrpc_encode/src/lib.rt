//! Values that are read as JSON, and their bytes: what `oncrpc encode` does over a reader and writers, and what the
//! arguments of a call are.
//!
//! - `encode`: what the words ask for. `encoded`: what an input stands for, the bytes of a value or why there are none.
//! - `arguments`: the same of an array with a value of each kind, by its `items`, each an `item` by its place. Where
//!   one ends is told by `scan`, from the `mark` that a byte is.
//! - `refusal`: why there are none, and the line of it. `laws`: what follows from the definitions.
#![tactic(auto)]

mod arguments;
mod encode;
mod encoded;
mod item;
mod items;
mod laws;
mod mark;
mod refusal;
mod scan;

pub use arguments::{Arguments, arguments_over, has_each};
pub use encode::{encode_over, encode_value_over};
pub use encoded::{Encoded, encoded_over};
pub use item::Item;
pub use items::items_of;
pub use laws::an_array_has_one_reading;
pub use refusal::{Refusal, line_of as refusal_line};

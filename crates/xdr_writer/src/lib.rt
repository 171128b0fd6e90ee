//! The encoding of a value of a declared kind (RFC 4506), written an item at a time, without a tree of values.
//!
//! - `writer`: a writer, and what it is asked: the next item, the count of the value's bytes.
//! - `item`: the items of a value, and what each brings. `refusal`: why an item is refused.
//! - `forms`: what becomes of an item, by what is due. `units`: its bytes.
//! - `runs`: which numbers are due one after another. `numbers`: several that are put at once.
//! - `judging`: what decoding says of its bytes. `taking`: what is due, and an item judged and then written.
//! - `sinking`: an item whose bytes go to a sink.
//! - `laws`: theorems about items and values.
#![tactic(auto)]

mod forms;
mod item;
mod judging;
pub mod laws;
mod numbers;
mod refusal;
mod runs;
mod sinking;
mod taking;
mod units;
mod writer;

pub use item::{Item, Step};
pub use refusal::{Why, WriteRefusal};
pub use sinking::PutFault;
pub use writer::Writer;

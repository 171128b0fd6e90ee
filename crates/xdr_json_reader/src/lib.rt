//! JSON (RFC 8259) as values of XDR (RFC 4506): every text that spells a value is read as that value, in the mapping of
//! `xdr_json`.
//!
//! A text is read in three steps, none of which recurses.
//!
//! - `tape_text`: the text as a tree (`tape`) of JSON values with their places; `tape_frames` and `tape_stack` keep
//!   what is open.
//! - `reading_tree`: the tree as the bytes of the value that it spells; `reading_entry` keeps what is still to be read.
//!   `reading_node` reads one node, by its kind: `reading_leaf`, `reading_number`, `reading_tag` and `reading_content`
//!   those without parts, `reading_list`, `reading_group` and `reading_union` the others. `reading_names` has tables
//!   of long enumerations. `reading_look` and `reading_member` look at the tree, `reading_bytes` writes units.
//! - `reading`: the bytes as a value, within the limits.
//!
//! A text that spells no value is gone over once more, in its own order: `first_fault` finds the first fault in the
//! tree. `first_members` goes over the members of an object, and `first_wanted` says what they are to be.
//! `first_fields` has tables of long structures.
//!
//! `fault`: why a text is refused; `reading_place`: its place as line and column.
#![tactic(auto)]

mod fault;
mod first_fault;
mod first_fields;
mod first_members;
mod first_wanted;
mod reading;
mod reading_bytes;
mod reading_content;
mod reading_entry;
mod reading_group;
mod reading_leaf;
mod reading_list;
mod reading_look;
mod reading_member;
mod reading_names;
mod reading_node;
mod reading_number;
mod reading_place;
mod reading_tag;
mod reading_tree;
mod reading_union;
mod tape;
mod tape_frames;
mod tape_stack;
mod tape_text;

pub use fault::{JsonFault, JsonReason};
pub use reading::read_json;
pub use reading_place::line_and_column;

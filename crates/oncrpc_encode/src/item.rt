//! The place of an item in a text.

/// An item: the place of its first byte that is no white space, and the place behind its last byte.
#[derive(Clone, Copy, PartialEq, Eq)]
pub struct Item {
    pub begin: usize,
    pub end: usize,
}

//! Whether the text of a message is made.

/// Whether the text of a message is made.
#[derive(Clone, Copy)]
pub enum Show {
    /// All of it.
    Text,
    /// Nothing of it: a message is only judged.
    Nothing,
}

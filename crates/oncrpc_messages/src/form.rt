//! How messages are printed.

/// How messages are printed.
#[derive(Clone, Copy, Debug, PartialEq, Eq)]
pub enum Form {
    /// A line, and below it the lines of the values.
    Lines,
    /// An object of JSON on a line.
    Json,
}

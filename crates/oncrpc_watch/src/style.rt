//! How the words ask for messages to be printed.

/// How the words ask for messages to be printed.
#[derive(Clone, Copy, Debug, PartialEq, Eq)]
pub struct Style {
    /// Whether each message is an object of JSON on a line.
    pub json: bool,
    /// Whether nothing is printed of arguments and results that are values.
    pub brief: bool,
}

//! What is said of bytes that no record has.

/// What is said of so many bytes of a direction, or of a datagram.
#[derive(Clone, Copy, Debug, PartialEq, Eq)]
pub enum Told {
    /// The capture does not have them.
    Missing,
    /// They are of a record whose end is not there.
    Unfinished,
    /// They stand before the next record that was found, or before the end where none was.
    Passed,
    /// They were held, and all directions together held too much.
    Dropped,
}

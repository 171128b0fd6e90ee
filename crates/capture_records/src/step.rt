//! What comes of one direction of a connection.
use crate::told::Told;

/// What comes of a direction.
#[derive(Clone, Copy, Debug, PartialEq, Eq)]
pub enum Step {
    /// A record, in the buffer.
    Record,
    /// Something is said of so many bytes.
    Tells(Told, u64),
    /// A header that no record has.
    TooLong,
    /// Nothing more for now.
    Waits,
}

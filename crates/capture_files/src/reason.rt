//! Why a file is refused.

use thiserror::Error;

/// Why a file of captured packets is refused.
#[derive(Clone, Copy, Debug, PartialEq, Eq, Error)]
pub enum CaptureReason {
    /// Neither the first four bytes nor those of a section's order of bytes are a number of these formats.
    #[error("no file of captured packets")]
    NotACapture = 1,
    /// The version is neither 2.4 of the classic format, nor 1.0 or 1.2 of pcapng.
    #[error("a version that is not read")]
    UnknownVersion = 2,
    /// The file ends inside of a header, a record or a block.
    #[error("the file is cut")]
    Truncated = 3,
    /// A length contradicts another, or a block's length is no multiple of four.
    #[error("a length that cannot be")]
    BadLength = 4,
    /// A packet has more than 262144 bytes.
    #[error("a packet that is too long")]
    PacketTooLong = 5,
    /// A packet names an interface that its section has not described.
    #[error("an interface that is not described")]
    UnknownInterface = 6,
    /// A section describes more than 256 interfaces.
    #[error("too many interfaces")]
    TooManyInterfaces = 7,
    /// Memory was refused.
    #[error("out of memory")]
    NoMemory = 8,
}

//! What goes wrong with records, and what is counted.
use thiserror::Error;

/// Why records could not be read or written. Places and counts are of bytes, and `u64::MAX` stands for every greater
/// one.
#[derive(Clone, Copy, Debug, PartialEq, Eq, Error)]
pub enum RecordFault {
    /// The fragment whose header stands at this place in the stream would bring its record above the limit.
    #[error("the record is too long at {at}")]
    TooLong { at: u64 },
    /// The input ended inside a record, after so many bytes.
    #[error("the input ends inside a record at {at}")]
    Truncated { at: u64 },
    /// A read failed.
    #[error("a read failed")]
    Read,
    /// A write failed, after so many bytes of the output.
    #[error("a write failed after {written} bytes")]
    Write { written: u64 },
    /// One more than the most reads would be needed.
    #[error("too many reads")]
    TooManyReads,
    /// Memory was refused.
    #[error("out of memory")]
    NoMemory,
}

/// How far a record reader has come.
#[derive(Clone, Copy, Debug, PartialEq, Eq)]
pub enum RecordStep {
    /// It took the whole piece, and no whole record waits.
    More,
    /// A whole record waits. It ends with the last of the first `used` bytes of the piece, and these alone were taken.
    Whole { used: usize },
}

/// How many records were written, and how many bytes of output. `u64::MAX` stands for every greater number.
#[derive(Clone, Copy, Debug, PartialEq, Eq)]
pub struct Count {
    pub records: u64,
    pub bytes: u64,
}

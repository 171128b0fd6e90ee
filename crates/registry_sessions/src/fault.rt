//! What a session answers.
use rpc_record::RecordFault;
use thiserror::Error;

/// Why a session stopped. Places are of bytes, and `u64::MAX` stands for every greater one.
#[derive(Clone, Copy, Debug, PartialEq, Eq, Error)]
pub enum SessionFault {
    /// The bytes are no stream of records of at most 65536 bytes: `TooLong` or `Truncated`.
    #[error("{0}")]
    Record(RecordFault),
    /// Memory was refused for a record or its reply.
    #[error("out of memory")]
    NoMemory,
}

/// What a session did with a piece of bytes.
#[derive(Clone, Copy, Debug, PartialEq, Eq)]
pub enum Taken {
    /// All of them were taken, and no record is whole with them.
    More,
    /// The first `used` were taken. With the last of these a record was whole, and it was answered.
    Answered { used: usize },
    /// None was taken: the output is to drain first.
    Full,
}

/// Why a table takes no further connection.
#[derive(Clone, Copy, Debug, PartialEq, Eq, Error)]
pub enum OpenFault {
    /// As many are open as may be, or all numbers were given.
    #[error("as many connections are open as may be")]
    Full,
    /// Memory was refused for it.
    #[error("out of memory")]
    NoMemory,
}

//! The greatest count of bytes.

/// How many bytes the values of a kind have at most.
#[derive(Clone, Copy, Debug, PartialEq, Eq)]
pub enum Greatest {
    /// No value has more bytes, and one has so many.
    Bytes(u64),
    /// There is such a count, and it is 2^64 or more.
    MoreThanU64,
    /// There is no such count: whatever the number, some value has more bytes.
    Unbounded,
}

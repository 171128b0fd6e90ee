//! Where a sequence number stands beside the due place.

/// Where a segment begins: so many places ahead of the due one, at least one, or so many behind it, which may be none.
#[derive(Clone, Copy)]
pub(crate) enum Side {
    Ahead(u32),
    Behind(u32),
}

/// How a direction ends, by the sequence number behind its last byte.
#[derive(Clone, Copy, Debug, PartialEq, Eq)]
pub enum Ending {
    /// All bytes before that number were handed on.
    Whole,
    /// So many places before that number are still due: bytes are missing.
    Cut { missing: u32 },
    /// So many bytes from that number on were handed on, or skipped.
    Past { beyond: u32 },
}

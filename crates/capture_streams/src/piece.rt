//! Bytes that are held.

/// Bytes behind a hole, and the place of the first of them.
#[derive(Drop)]
pub(crate) struct Piece {
    pub(crate) at: u64,
    pub(crate) bytes: Vec<u8>,
}

//! Bytes put into what a caller lends.
ghost use Rattle.std.specs.Prelude.{MatchBool};
ghost use Rattle.c_answers.specs.Buffers.{AreAtFront, HasTooFew};

/// Puts the bytes at the front of the buffer where they fit into it, and tells whether they do.
pub fn put(bytes: &[u8], buffer: &mut [u8]) -> bool
    ensures { MatchBool result (AreAtFront bytes.now buffer.old buffer.new)
        (HasTooFew bytes.now buffer.old buffer.new) }
{
    if buffer.len() < bytes.len() {
        return false;
    }
    buffer[..bytes.len()].copy_from_slice(bytes);
    true
}

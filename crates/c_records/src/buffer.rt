//! Bytes put into what the caller lends, as an answer.
ghost use Rattle.c_records.specs.Buffers.{IsPlaced};

use super::answer::Answer;
use c_answers::put;

/// Puts the bytes at the front of the buffer where they fit into it.
pub fn place(bytes: &[u8], buffer: &mut [u8]) -> Answer
    ensures { IsPlaced bytes.now buffer.old buffer.new result }
{
    if put(bytes, buffer) {
        Answer::Whole { count: bytes.len() }
    } else {
        Answer::NoRoom {
            needed: bytes.len(),
        }
    }
}

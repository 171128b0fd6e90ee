//! Bytes put into what the caller lends, as an answer.
ghost use Rattle.c_messages.specs.Buffers.{IsPlaced};

use super::answer::Answer;
use c_answers::put;

/// Puts the bytes at the front of the buffer where they fit into it, and tells how many they are.
pub fn place(bytes: &[u8], buffer: &mut [u8], count: &mut usize) -> Answer
    ensures { IsPlaced bytes.now buffer.old buffer.new count.new result }
{
    *count = bytes.len();
    if put(bytes, buffer) {
        Answer::Whole
    } else {
        Answer::NoRoom
    }
}

//! Bytes put into a buffer that C lends.
ghost use Rattle.std.specs.Prelude.{◌≡◌, ◌≢◌, ◌<◌, false, true, length};
ghost use Rattle.c_answers.specs.Buffers.{IsRetained};
ghost use Rattle.c_values.specs.Buffer.{IsPut};

/// Puts the bytes at the front of the buffer, and counts them. Where they do not go into it the buffer stays as it is,
/// and the count is 0.
pub fn put(buffer: &mut [u8], bytes: &[u8], written: &mut usize) -> bool
    // True: the bytes stand at the front of the buffer and are counted. False: nothing is written,
    ensures put { result ≡ true → IsPut bytes.now buffer.old buffer.new written.new }
    ensures retained { result ≡ false → IsRetained buffer.old buffer.new written.new }
    // which comes only where the buffer is too small.
    ensures small { result ≡ false → length buffer.old < length bytes.now }
{
    *written = 0;
    if !c_answers::put(bytes, buffer) {
        return false;
    }
    *written = bytes.len();
    true
}

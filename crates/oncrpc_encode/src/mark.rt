//! What a byte is in a text of JSON.
ghost use Rattle.std.specs.Prelude.{◌≡◌};
ghost use Rattle.oncrpc_encode.specs.Arrays.{is_space, mark_of};

/// What a byte is that stands outside of strings.
#[derive(Clone, Copy, PartialEq, Eq)]
pub enum Mark {
    Quote,
    Backslash,
    Comma,
    Opening,
    Closing,
    Other,
}

/// What this byte is (RFC 8259 sections 2 and 7).
pub fn mark_of(byte: u8) -> Mark
    ensures { result ≡ mark_of byte }
{
    match byte {
        b'"' => Mark::Quote,
        b'\\' => Mark::Backslash,
        b',' => Mark::Comma,
        b'[' | b'{' => Mark::Opening,
        b']' | b'}' => Mark::Closing,
        _ => Mark::Other,
    }
}

/// Whether it is white space (RFC 8259 section 2).
pub fn is_space(byte: u8) -> bool
    ensures { result ≡ is_space byte }
{
    byte == b' ' || byte == b'\t' || byte == b'\n' || byte == b'\r'
}

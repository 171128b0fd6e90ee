//! The numbers of headers, the highest byte first (RFC 791 appendix B), and parts of bytes.

ghost use Rattle.std.specs.Prelude.{◌≡◌, ◌≤◌, ◌+◌, length, take, drop};
ghost use Rattle.capture_packets.specs.Fields.{half_at, word_at};

use byteorder::{BigEndian, ByteOrder};

/// The number of 16 bits at this place.
#[tactic(auto, unfolding(crate::specs::Fields::half_at))]
pub fn half_at(bytes: &[u8], place: usize) -> u16
    requires { place + 2 ≤ length bytes.now }
    ensures { result ≡ half_at place bytes.now }
{
    BigEndian::read_u16(&bytes[place..])
}

/// The number of 32 bits at this place.
#[tactic(auto, unfolding(crate::specs::Fields::word_at))]
pub fn word_at(bytes: &[u8], place: usize) -> u32
    requires { place + 4 ≤ length bytes.now }
    ensures { result ≡ word_at place bytes.now }
{
    BigEndian::read_u32(&bytes[place..])
}

/// The first so many bytes, or all where there are fewer.
pub fn front(bytes: &[u8], count: usize) -> &[u8]
    ensures { result.now ≡ take count bytes.now }
{
    if count < bytes.len() {
        &bytes[..count]
    } else {
        bytes
    }
}

/// So many bytes from this place, or those of them that are there.
pub fn part(bytes: &[u8], place: usize, count: usize) -> &[u8]
    requires { place ≤ length bytes.now }
    ensures { result.now ≡ take count (drop place bytes.now) }
{
    front(&bytes[place..], count)
}

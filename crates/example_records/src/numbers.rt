//! Sequence numbers, and bytes of the stream (RFC 9293 section 3.4).
ghost use Rattle.std.specs.Prelude.{◌≡◌, [], true, false};
ghost use Rattle.capture_packets.specs.View.{segment_view};

use capture_packets::Segment;
use capture_records::{bytes_of, first_of};

/// Behind a SYN with the number 2^32 - 1 the first byte has the number 0.
pub fn behind_the_last_number(segment: Segment<'_>) -> u32
    requires syn { (segment_view segment).flags.syn ≡ true }
    requires number { (segment_view segment).sequence ≡ 4294967295 }
    ensures { result ≡ 0 }
{
    first_of(segment)
}

/// Without a SYN the first byte has the segment's own number.
pub fn its_own_number(segment: Segment<'_>) -> u32
    requires syn { (segment_view segment).flags.syn ≡ false }
    requires number { (segment_view segment).sequence ≡ 4294967295 }
    ensures { result ≡ 4294967295 }
{
    first_of(segment)
}

/// What a RST carries is no part of the stream (RFC 9293 section 3.5.3).
pub fn none_of_a_reset<'a>(segment: Segment<'a>) -> &'a [u8]
    requires { (segment_view segment).flags.reset ≡ true }
    ensures { result.now ≡ [] }
{
    bytes_of(segment)
}

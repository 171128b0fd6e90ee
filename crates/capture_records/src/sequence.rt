//! The sequence numbers of a segment (RFC 9293 section 3.4).
ghost use Rattle.std.specs.Prelude.{◌≡◌, ◌^◌, ◌<◌};
ghost use Rattle.capture_packets.specs.View.{segment_view};
ghost use Rattle.capture_records.specs.Carried.{bytes_of, first_of};

use capture_packets::Segment;

/// The sequence number of the first byte of a segment: behind the SYN, where it has one.
pub fn first_of(segment: Segment<'_>) -> u32
    ensures number { result ≡ first_of (segment_view segment.entry) }
    ensures small { result < 2 ^ 32 }
{
    if segment.flags.syn {
        segment.sequence.wrapping_add(1)
    } else {
        segment.sequence
    }
}

/// The captured bytes that a segment has of its stream. What a RST carries is no part of it (section 3.5.3).
pub fn bytes_of<'a>(segment: Segment<'a>) -> &'a [u8]
    ensures { result.now ≡ bytes_of (segment_view segment.entry) }
{
    if segment.flags.reset {
        &[]
    } else {
        segment.bytes
    }
}

/// Whether a segment has no byte of its stream, captured or not.
pub fn is_empty(segment: Segment<'_>) -> bool {
    segment.flags.reset || segment.bytes.is_empty() && segment.missing == 0
}

/// The sequence number behind the last byte of a segment, whether it was captured or not.
pub fn end_of(segment: Segment<'_>) -> u32 {
    let size = segment.bytes.len().saturating_add(segment.missing);
    first_of(segment).wrapping_add((size % (1 << 32)) as u32)
}

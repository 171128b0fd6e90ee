//! The datagram of UDP (RFC 768), and the segment of TCP (RFC 9293 section 3.1).

ghost use Rattle.std.specs.Prelude.{◌≡◌};
ghost use Rattle.capture_packets.specs.Steps.{Reads};
ghost use Rattle.capture_packets.specs.Transport.{datagram_of, segment_of, flags_of};
ghost use Rattle.capture_packets.specs.View.{carried_view, datagram_view, flags_view, segment_view};

use crate::carried::{Carried, require};
use crate::fields::{half_at, part, word_at};
use crate::packet::{Datagram, Endpoint, Flags, Segment};
use crate::reason::Reason;

/// The datagram of UDP: the ports, its length with the eight bytes of the header, the sum, and the data.
#[tactic(auto, unfolding(crate::specs::Transport::datagram_of))]
pub fn datagram(carried: Carried<'_>) -> Result<Datagram<'_>, Reason>
    ensures { Reads datagram_view result (datagram_of (carried_view carried.entry)) }
{
    require(carried, 8, Reason::BadDatagram)?;
    let header = carried.payload;
    let size = half_at(header, 4) as usize;
    if size < 8 || carried.size < size {
        return Err(Reason::BadDatagram);
    }
    let bytes = part(header, 8, size - 8);
    Ok(Datagram {
        from: Endpoint {
            address: carried.from,
            port: half_at(header, 0),
        },
        to: Endpoint {
            address: carried.to,
            port: half_at(header, 2),
        },
        bytes,
        missing: (size - 8).saturating_sub(bytes.len()),
    })
}

/// The control bits in the byte at place 13.
fn flags_of(bits: u8) -> Flags
    ensures { flags_view result ≡ flags_of bits }
{
    Flags {
        fin: bits % 2 == 1,
        syn: bits / 2 % 2 == 1,
        reset: bits / 4 % 2 == 1,
    }
}

/// The segment of TCP: the ports, the sequence number, the header's length in words, the control bits, and the data.
#[tactic(auto, unfolding(crate::specs::Transport::segment_of))]
pub fn segment(carried: Carried<'_>) -> Result<Segment<'_>, Reason>
    ensures { Reads segment_view result (segment_of (carried_view carried.entry)) }
{
    require(carried, 20, Reason::BadSegment)?;
    let header = carried.payload;
    let offset = 4 * (header[12] / 16) as usize;
    if offset < 20 {
        return Err(Reason::BadSegment);
    }
    require(carried, offset, Reason::BadSegment)?;
    let bytes = &header[offset..];
    Ok(Segment {
        from: Endpoint {
            address: carried.from,
            port: half_at(header, 0),
        },
        to: Endpoint {
            address: carried.to,
            port: half_at(header, 2),
        },
        sequence: word_at(header, 4),
        flags: flags_of(header[13]),
        bytes,
        missing: (carried.size - offset).saturating_sub(bytes.len()),
    })
}

//! The packet of IPv4 (RFC 791 section 3.1).

ghost use Rattle.std.specs.Prelude.{◌≡◌, ◌≤◌, length};
ghost use Rattle.capture_packets.specs.Steps.{Reads};
ghost use Rattle.capture_packets.specs.Internet.{ipv4_of, header_length};
ghost use Rattle.capture_packets.specs.View.{carried_view};

use crate::carried::Carried;
use crate::fields::{half_at, part};
use crate::reason::Reason;

/// How many bytes the header has: the lower half of its first byte, in words.
fn header_length(bytes: &[u8]) -> usize
    requires { 20 ≤ length bytes.now }
    ensures { result ≡ header_length bytes.now }
{
    4 * (bytes[0] % 16) as usize
}

/// What a packet of IPv4 carries. Bytes behind its total length are padding and belong to nothing.
#[tactic(auto, unfolding(crate::specs::Internet::ipv4_of))]
pub fn ipv4(bytes: &[u8]) -> Result<Carried<'_>, Reason>
    ensures { Reads carried_view result (ipv4_of bytes.now) }
{
    if bytes.len() < 20 {
        return Err(Reason::Cut);
    }
    let header = header_length(bytes);
    let total = half_at(bytes, 2) as usize;
    if bytes[0] / 16 != 4 || header < 20 || total < header {
        return Err(Reason::BadInternet);
    }
    if bytes.len() < header {
        return Err(Reason::Cut);
    }
    if half_at(bytes, 6) % 0x4000 != 0 {
        return Err(Reason::Fragment);
    }
    let size = total - header;
    Ok(Carried {
        from: part(bytes, 12, 4),
        to: part(bytes, 16, 4),
        protocol: bytes[9],
        size,
        payload: part(bytes, header, size),
    })
}

//! The packet of IPv6, and the headers of extension in it (RFC 8200 sections 3 and 4).

ghost use Rattle.std.specs.Prelude.{◌≡◌, ◌≤◌, length};
ghost use Rattle.capture_packets.specs.Steps.{Reads};
ghost use Rattle.capture_packets.specs.Internet.{behind, extension_passed, fragment_passed, header_passed};
ghost use Rattle.capture_packets.specs.Internet.{extensions_passed, fixed_of, ipv6_of};
ghost use Rattle.capture_packets.specs.View.{carried_view};

use crate::carried::{Carried, require};
use crate::fields::{half_at, part};
use crate::reason::Reason;

// The numbers of the headers of extension (RFC 8200 section 4).
const HOP_BY_HOP: u8 = 0;

const ROUTING: u8 = 43;

const FRAGMENT: u8 = 44;

const DESTINATION: u8 = 60;

/// How many headers of extension are passed at most.
const MOST_EXTENSIONS: usize = 8;

/// The packet behind its first header of extension, which has so many bytes. The first of them is the number of what
/// follows.
#[tactic(auto, unfolding(crate::specs::Internet::behind))]
fn behind(carried: Carried<'_>, count: usize) -> Result<Carried<'_>, Reason>
    requires { 1 ≤ count }
    ensures { Reads carried_view result (behind count (carried_view carried.entry)) }
{
    require(carried, count, Reason::BadInternet)?;
    Ok(Carried {
        from: carried.from,
        to: carried.to,
        protocol: carried.payload[0],
        size: carried.size.saturating_sub(count),
        payload: &carried.payload[count..],
    })
}

/// Passes a header of hop-by-hop options, of routing or of destination options: its second byte is how many units of
/// eight bytes it has beside the first.
#[tactic(auto, unfolding(crate::specs::Internet::extension_passed))]
fn past_extension(carried: Carried<'_>) -> Result<Carried<'_>, Reason>
    ensures { Reads carried_view result (extension_passed (carried_view carried.entry)) }
{
    require(carried, 8, Reason::BadInternet)?;
    behind(carried, 8 * (carried.payload[1] as usize + 1))
}

/// Passes the header of a fragment that is the whole packet (RFC 6946).
#[tactic(auto, unfolding(crate::specs::Internet::fragment_passed))]
fn past_fragment(carried: Carried<'_>) -> Result<Carried<'_>, Reason>
    ensures { Reads carried_view result (fragment_passed (carried_view carried.entry)) }
{
    require(carried, 8, Reason::BadInternet)?;
    let place = half_at(carried.payload, 2);
    if place / 8 != 0 || place % 2 != 0 {
        return Err(Reason::Fragment);
    }
    behind(carried, 8)
}

/// Passes a header of extension, where one comes next.
#[tactic(auto, unfolding(crate::specs::Internet::header_passed))]
fn past_header(carried: Carried<'_>) -> Result<Carried<'_>, Reason>
    ensures { Reads carried_view result (header_passed (carried_view carried.entry)) }
{
    match carried.protocol {
        HOP_BY_HOP | ROUTING | DESTINATION => past_extension(carried),
        FRAGMENT => past_fragment(carried),
        _ => Ok(carried),
    }
}

/// Passes the headers of extension, at most eight.
fn past_headers(carried: Carried<'_>) -> Result<Carried<'_>, Reason>
    ensures { Reads carried_view result (extensions_passed 8 (carried_view carried.entry)) }
{
    let mut rest = carried;
    for _passed in 0..MOST_EXTENSIONS {
        rest = past_header(rest)?;
    }
    Ok(rest)
}

/// The header that each packet begins with.
#[tactic(auto, unfolding(crate::specs::Internet::fixed_of))]
fn fixed(bytes: &[u8]) -> Result<Carried<'_>, Reason>
    ensures { Reads carried_view result (fixed_of bytes.now) }
{
    if bytes.len() < 40 {
        return Err(Reason::Cut);
    }
    if bytes[0] / 16 != 6 {
        return Err(Reason::BadInternet);
    }
    let size = half_at(bytes, 4) as usize;
    Ok(Carried {
        from: part(bytes, 8, 16),
        to: part(bytes, 24, 16),
        protocol: bytes[6],
        size,
        payload: part(bytes, 40, size),
    })
}

/// What a packet of IPv6 carries. Bytes behind its payload's length are padding and belong to nothing.
#[tactic(auto, unfolding(crate::specs::Internet::ipv6_of))]
pub fn ipv6(bytes: &[u8]) -> Result<Carried<'_>, Reason>
    ensures { Reads carried_view result (ipv6_of bytes.now) }
{
    past_headers(fixed(bytes)?)
}

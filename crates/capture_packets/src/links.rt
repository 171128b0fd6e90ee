//! What stands before an internet packet: the header of the link on which it was captured.

ghost use Rattle.std.specs.Prelude.{◌≡◌, ◌≤◌, ◌+◌, length};
ghost use Rattle.capture_packets.specs.Steps.{Reads};
ghost use Rattle.capture_packets.specs.Links.{typed_of, tag_passed, network_of_type, raw_of, family_of};
ghost use Rattle.capture_packets.specs.Links.{loopback_of, behind_type, network_of};

use crate::fields::half_at;
use crate::reason::Reason;
use byteorder::{BigEndian, ByteOrder, LittleEndian};

/// The version of IP that a link says that it carries.
#[derive(Clone, Copy, Debug, PartialEq, Eq)]
pub enum Network {
    V4,
    V6,
}

// The numbers of Ethernet types: IPv4 (RFC 894), IPv6 (RFC 2464 section 3), the tags of IEEE 802.1Q and 802.1ad.
const TYPE_IPV4: u16 = 0x0800;

const TYPE_IPV6: u16 = 0x86dd;

const TYPE_TAG: u16 = 0x8100;

const TYPE_SERVICE_TAG: u16 = 0x88a8;

/// The version of IP that an Ethernet type names.
fn network_of_type(kind: u16) -> Result<Network, Reason>
    ensures { result ≡ network_of_type kind }
{
    match kind {
        TYPE_IPV4 => Ok(Network::V4),
        TYPE_IPV6 => Ok(Network::V6),
        _ => Err(Reason::NotInternet),
    }
}

/// Passes a tag, where the type says that one follows.
#[tactic(auto, unfolding(crate::specs::Links::tag_passed))]
fn past_tag(kind: u16, bytes: &[u8]) -> Result<(u16, &[u8]), Reason>
    ensures { Reads (λ x. (x.0, x.1.now)) result (tag_passed kind bytes.now) }
{
    if kind != TYPE_TAG && kind != TYPE_SERVICE_TAG {
        return Ok((kind, bytes));
    }
    if bytes.len() < 4 {
        return Err(Reason::Cut);
    }
    Ok((half_at(bytes, 2), &bytes[4..]))
}

/// What an Ethernet type says of the bytes that follow it, behind two tags at most.
#[tactic(auto, unfolding(crate::specs::Links::typed_of))]
fn typed(kind: u16, bytes: &[u8]) -> Result<(Network, &[u8]), Reason>
    ensures { Reads (λ x. (x.0, x.1.now)) result (typed_of kind bytes.now) }
{
    let (kind, bytes) = past_tag(kind, bytes)?;
    let (kind, bytes) = past_tag(kind, bytes)?;
    let network = network_of_type(kind)?;
    Ok((network, bytes))
}

/// A packet without a header of a link: its first four bits are the version.
#[tactic(auto, unfolding(crate::specs::Links::raw_of))]
fn raw(bytes: &[u8]) -> Result<(Network, &[u8]), Reason>
    ensures { Reads (λ x. (x.0, x.1.now)) result (raw_of bytes.now) }
{
    if bytes.is_empty() {
        return Err(Reason::Cut);
    }
    match bytes[0] / 16 {
        4 => Ok((Network::V4, bytes)),
        6 => Ok((Network::V6, bytes)),
        _ => Err(Reason::NotInternet),
    }
}

/// The number of a family in the first four bytes, in whichever order it is the smaller.
#[tactic(auto, unfolding(crate::specs::Links::family_of))]
fn family_of(bytes: &[u8]) -> u32
    requires { 4 ≤ length bytes.now }
    ensures { result ≡ family_of bytes.now }
{
    BigEndian::read_u32(bytes).min(LittleEndian::read_u32(bytes))
}

/// A packet behind the number of its family, in the order of the bytes of the machine that captured it.
#[tactic(auto, unfolding(crate::specs::Links::loopback_of))]
fn loopback(bytes: &[u8]) -> Result<(Network, &[u8]), Reason>
    ensures { Reads (λ x. (x.0, x.1.now)) result (loopback_of bytes.now) }
{
    if bytes.len() < 4 {
        return Err(Reason::Cut);
    }
    let rest = &bytes[4..];
    match family_of(bytes) {
        2 => Ok((Network::V4, rest)),
        10 | 24 | 28 | 30 => Ok((Network::V6, rest)),
        _ => Err(Reason::NotInternet),
    }
}

/// A packet behind a link's header of so many bytes, which has an Ethernet type at this place.
#[tactic(auto, unfolding(crate::specs::Links::behind_type))]
fn behind_type(bytes: &[u8], place: usize, header: usize) -> Result<(Network, &[u8]), Reason>
    requires { place + 2 ≤ header }
    ensures { Reads (λ x. (x.0, x.1.now)) result (behind_type place header bytes.now) }
{
    if bytes.len() < header {
        return Err(Reason::Cut);
    }
    typed(half_at(bytes, place), &bytes[header..])
}

/// What a link's packet carries: the version of IP, and the bytes behind the link's header.
#[tactic(auto, unfolding(crate::specs::Links::network_of))]
pub fn network_in(link: u16, bytes: &[u8]) -> Result<(Network, &[u8]), Reason>
    ensures { Reads (λ x. (x.0, x.1.now)) result (network_of link bytes.now) }
{
    match link {
        1 => behind_type(bytes, 12, 14),
        113 => behind_type(bytes, 14, 16),
        276 => behind_type(bytes, 0, 20),
        12 | 14 | 101 => raw(bytes),
        228 => Ok((Network::V4, bytes)),
        229 => Ok((Network::V6, bytes)),
        0 | 108 => loopback(bytes),
        _ => Err(Reason::UnknownLink),
    }
}

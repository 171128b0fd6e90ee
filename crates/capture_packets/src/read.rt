//! The layers of a packet, one after another.

ghost use Rattle.std.specs.Prelude.{◌≡◌};
ghost use Rattle.capture_packets.specs.Steps.{Reads};
ghost use Rattle.capture_packets.specs.Packets.{transport_of, internet_of, carried_packet, packet_of};
ghost use Rattle.capture_packets.specs.View.{carried_view, packet_view};

use crate::carried::Carried;
use crate::ipv4::ipv4;
use crate::ipv6::ipv6;
use crate::links::{Network, network_in};
use crate::packet::Packet;
use crate::reason::Reason;
use crate::transport::{datagram, segment};

// The numbers of protocols: TCP (RFC 9293 section 3.1) and UDP (RFC 768).
const TCP: u8 = 6;

const UDP: u8 = 17;

/// What the transport layer has.
#[tactic(auto, unfolding(crate::specs::Packets::transport_of))]
fn transport(carried: Carried<'_>) -> Result<Packet<'_>, Reason>
    ensures { Reads packet_view result (transport_of (carried_view carried.entry)) }
{
    match carried.protocol {
        UDP => Ok(Packet::Datagram(datagram(carried)?)),
        TCP => Ok(Packet::Segment(segment(carried)?)),
        _ => Err(Reason::OtherProtocol),
    }
}

/// What the internet layer has.
fn internet(network: Network, bytes: &[u8]) -> Result<Carried<'_>, Reason>
    ensures { Reads carried_view result (internet_of network bytes.now) }
{
    match network {
        Network::V4 => ipv4(bytes),
        Network::V6 => ipv6(bytes),
    }
}

/// What a packet of a link carries, or why it carries neither a datagram nor a segment.
#[tactic(auto, unfolding(crate::specs::Packets::carried_packet))]
fn packet_in(link: u16, bytes: &[u8]) -> Result<Packet<'_>, Reason>
    ensures { Reads packet_view result (carried_packet link bytes.now) }
{
    let (network, rest) = network_in(link, bytes)?;
    transport(internet(network, rest)?)
}

/// What a packet carries that was captured on a link of this type, a LINKTYPE_ number. Links are Ethernet with at most
/// two tags (1), Linux cooked (113 and 276), none (12, 14, 101, 228 and 229) and loopback (0 and 108). Over them come
/// IPv4 (RFC 791) or IPv6 (RFC 8200), and UDP (RFC 768) or TCP (RFC 9293). Each slice lies in the packet. Nothing is
/// allocated, and no sum is compared.
#[tactic(auto, unfolding(crate::specs::Packets::packet_of))]
pub fn read_packet(link: u16, bytes: &[u8]) -> Packet<'_>
    ensures { packet_view result ≡ packet_of link bytes.now }
{
    match packet_in(link, bytes) {
        Ok(packet) => packet,
        Err(reason) => Packet::Other(reason),
    }
}

//! When and from whom something came.
ghost use Rattle.std.specs.Prelude.{◌≡◌, length};
ghost use Rattle.std.specs.Net.Addr.{IsV4And, IsV6And, ipv4_octets, ipv6_segments, segments_of};
ghost use Rattle.capture_packets.specs.View.{endpoint_view};
ghost use Rattle.oncrpc_capture.specs.Nodes.{IsNode};

use capture_packets::Endpoint;
use std::net::{IpAddr, Ipv4Addr, Ipv6Addr, SocketAddr};

/// The packet that ended a message: its number in the file from 1, its time in nanoseconds since 1970 UTC, and who sent
/// it to whom.
#[derive(Clone, Copy)]
pub struct Seen {
    pub frame: u64,
    pub time: u64,
    pub from: SocketAddr,
    pub to: SocketAddr,
    /// Whether the message stood behind a hole, so that the packet is the last of its direction by then.
    pub late: bool,
}

/// The address and the port of a packet.
pub fn node_of(endpoint: Endpoint<'_>) -> SocketAddr
    ensures { IsNode (endpoint_view endpoint.entry) result }
{
    SocketAddr::new(address_of(endpoint.address), endpoint.port)
}

// An address of 4 bytes is one of IPv4, and one of 16 of IPv6.
fn address_of(bytes: &[u8]) -> IpAddr
    ensures four { length bytes.now ≡ 4 → IsV4And result (λ ip. ipv4_octets ip ≡ bytes.now) }
    ensures sixteen { length bytes.now ≡ 16 → IsV6And result (λ ip. ipv6_segments ip ≡ segments_of bytes.now) }
{
    match bytes {
        [a, b, c, d] => IpAddr::V4(Ipv4Addr::new(*a, *b, *c, *d)),
        _ => {
            let mut octets = [0; 16];
            let size = bytes.len().min(16);
            octets[..size].copy_from_slice(&bytes[..size]);
            IpAddr::V6(Ipv6Addr::from(octets))
        }
    }
}

//! What an internet packet carries for the transport layer.

ghost use Rattle.std.specs.Prelude.{◌≡◌, ◌≤◌, length, OnOk};
ghost use Rattle.capture_packets.specs.View.{carried_view};
ghost use Rattle.capture_packets.specs.Internet.{required};

use crate::reason::Reason;

/// The addresses, the protocol's number, and the bytes that follow the headers of IPv4 or IPv6: how many the packet
/// has, and those of them that were captured.
#[derive(Clone, Copy, Debug)]
pub struct Carried<'a> {
    pub from: &'a [u8],
    pub to: &'a [u8],
    pub protocol: u8,
    pub size: usize,
    pub payload: &'a [u8],
}

/// Whether so many bytes are there. Where the packet does not have them `lacking` is answered, and `Cut` where they
/// were not captured.
pub fn require(carried: Carried<'_>, count: usize, lacking: Reason) -> Result<(), Reason>
    ensures required { result ≡ required count lacking (carried_view carried.entry) }
    ensures whole { OnOk result (count ≤ length carried.entry.payload.now) }
{
    if carried.size < count {
        return Err(lacking);
    }
    if carried.payload.len() < count {
        return Err(Reason::Cut);
    }
    Ok(())
}

//! Theorems about the definitions.

ghost use Rattle.capture_packets.specs.Lies.{AllLie};
ghost use Rattle.capture_packets.specs.Spelled.{DatagramsAreRead, SegmentsAreRead};

/// The addresses and the data of what a packet carries stand in the packet.
pub fn slices_lie_in_the_packet()
    ensures { AllLie }
{}

/// A frame of Ethernet that is spelled from its fields, with IPv4 and UDP, carries that datagram, whatever pads it.
pub fn spelled_datagrams_are_read()
    ensures { DatagramsAreRead }
{}

/// A frame of Ethernet that is spelled from its fields, with IPv4 and TCP, carries that segment, whatever pads it.
pub fn spelled_segments_are_read()
    ensures { SegmentsAreRead }
{}

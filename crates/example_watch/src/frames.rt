//! Frames of Ethernet, and what is read in them.

ghost use Rattle.std.specs.Prelude.{◌≡◌, [], ◌∷◌, true, false, take};
ghost use Rattle.capture_packets.specs.Packet.{Datagram, Segment, Other};
ghost use Rattle.capture_packets.specs.View.{packet_view};
ghost use Rattle.capture_packets.specs.declared.reason.Reason.TheVariants as reasons;
ghost use Rattle.example_watch.specs.Frames.{padded_frame, first_frame, client, server, loopback};
ghost use Rattle.example_watch.specs.Frames.{options_frame, fragment_frame, first_address, second_address};

use capture_packets::{Packet, read_packet};

/// A datagram of 4 bytes in a frame of 60: the 14 bytes behind the total length of IPv4 are padding (RFC 791
/// section 3.1, RFC 768).
pub fn padded_datagram(frame: &[u8]) -> Packet<'_>
    requires { frame.now ≡ padded_frame }
    ensures { packet_view result ≡ Datagram (record {
      from = record { address = client; port = 1022 };
      to = record { address = server; port = 111 };
      content = 112 ∷ 105 ∷ 110 ∷ 103 ∷ [];
      missing = 0;
    }) }
{
    read_packet(1, frame)
}

/// Of the same frame the first 44 bytes were captured: two bytes of the datagram are there, and two are missing.
pub fn cut_datagram(frame: &[u8]) -> Packet<'_>
    requires { frame.now ≡ take 44 padded_frame }
    ensures { packet_view result ≡ Datagram (record {
      from = record { address = client; port = 1022 };
      to = record { address = server; port = 111 };
      content = 112 ∷ 105 ∷ [];
      missing = 2;
    }) }
{
    read_packet(1, frame)
}

/// The first segment of a connection, as a client of NFS sent it: it carries SYN, and no data (RFC 9293 section 3.1).
pub fn first_segment(frame: &[u8]) -> Packet<'_>
    requires { frame.now ≡ first_frame }
    ensures { packet_view result ≡ Segment (record {
      from = record { address = loopback; port = 766 };
      to = record { address = loopback; port = 111 };
      sequence = 2294206155;
      flags = record { fin = false; syn = true; reset = false };
      content = [];
      missing = 0;
    }) }
{
    read_packet(1, frame)
}

/// A datagram of IPv6 behind a header of hop-by-hop options (RFC 8200 sections 3 and 4.3).
pub fn datagram_behind_options(frame: &[u8]) -> Packet<'_>
    requires { frame.now ≡ options_frame }
    ensures { packet_view result ≡ Datagram (record {
      from = record { address = first_address; port = 1 };
      to = record { address = second_address; port = 2 };
      content = 97 ∷ 98 ∷ 99 ∷ 100 ∷ [];
      missing = 0;
    }) }
{
    read_packet(1, frame)
}

/// A fragment is told as one, even the first, which has the ports (RFC 791 section 2.3).
pub fn first_fragment(frame: &[u8]) -> Packet<'_>
    requires { frame.now ≡ fragment_frame }
    ensures { packet_view result ≡ Other reasons.Fragment }
{
    read_packet(1, frame)
}

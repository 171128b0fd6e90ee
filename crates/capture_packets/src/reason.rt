//! Why a packet carries neither a datagram nor a segment.

/// Why a packet carries neither a datagram of UDP nor a segment of TCP: the first reason that is met from its front.
#[derive(Clone, Copy, Debug, PartialEq, Eq)]
pub enum Reason {
    /// The link type is none of those that are read.
    UnknownLink = 1,
    /// The captured bytes end inside of a header that the packet has.
    Cut = 2,
    /// The link carries neither IPv4 nor IPv6.
    NotInternet = 3,
    /// The header of IPv4 or IPv6 contradicts itself: its version, its lengths (RFC 791 section 3.1, RFC 8200
    /// section 3).
    BadInternet = 4,
    /// The packet is a fragment of another (RFC 791 section 2.3, RFC 8200 section 4.5).
    Fragment = 5,
    /// The protocol is neither UDP nor TCP.
    OtherProtocol = 6,
    /// The length of UDP is below 8, or above what the internet packet has (RFC 768).
    BadDatagram = 7,
    /// The data offset of TCP is below 5 words, or above what the internet packet has (RFC 9293 section 3.1).
    BadSegment = 8,
}

//! What packets carry, as slices of their bytes.

use crate::reason::Reason;

/// An address and a port. The address has 4 bytes in IPv4 and 16 in IPv6.
#[derive(Clone, Copy, Debug)]
pub struct Endpoint<'a> {
    pub address: &'a [u8],
    pub port: u16,
}

/// A datagram of UDP (RFC 768). Its last `missing` bytes were not captured, at most 65527.
#[derive(Clone, Copy, Debug)]
pub struct Datagram<'a> {
    pub from: Endpoint<'a>,
    pub to: Endpoint<'a>,
    pub bytes: &'a [u8],
    pub missing: usize,
}

/// The control bits of TCP that begin and end a connection (RFC 9293 section 3.1).
#[derive(Clone, Copy, Debug, PartialEq, Eq)]
pub struct Flags {
    pub fin: bool,
    pub syn: bool,
    pub reset: bool,
}

/// A segment of TCP (RFC 9293). The number is that of its first byte, or of SYN. Its last `missing` bytes were not
/// captured, at most 65515.
#[derive(Clone, Copy, Debug)]
pub struct Segment<'a> {
    pub from: Endpoint<'a>,
    pub to: Endpoint<'a>,
    pub sequence: u32,
    pub flags: Flags,
    pub bytes: &'a [u8],
    pub missing: usize,
}

/// What a packet carries.
#[derive(Clone, Copy, Debug)]
pub enum Packet<'a> {
    Datagram(Datagram<'a>),
    Segment(Segment<'a>),
    Other(Reason),
}

//! A packet that a file has, and the interface on which it was captured.

/// What a section says of an interface (draft-ietf-opsawg-pcapng section 4.2).
#[derive(Clone, Copy, Debug, PartialEq, Eq)]
pub struct Interface {
    /// The type of its link, a LINKTYPE_ number.
    pub link: u16,
    /// How many bytes of a packet were captured at most, 0 for any number.
    pub snapshot: u32,
    /// The unit of its times: below 128 the tenth of a second so many times, else the half of one, so many times less
    /// 128.
    pub resolution: u8,
}

/// A packet whose record stands whole in some bytes.
#[derive(Clone, Copy, Debug, PartialEq, Eq)]
pub struct Found {
    /// The type of the link, a LINKTYPE_ number.
    pub link: u16,
    /// The time since 1970 UTC in units of the resolution. A simple packet of pcapng has none.
    pub time: Option<u64>,
    /// The unit of the time, as an interface has it.
    pub resolution: u8,
    /// How many bytes the packet had on the link.
    pub original: u32,
    /// Where in those bytes the packet begins.
    pub from: usize,
    /// How many bytes were captured.
    pub size: usize,
}

/// A packet as it was captured, in the buffer of its reader.
#[derive(Clone, Copy, Debug)]
pub struct Captured<'a> {
    /// The type of the link, a LINKTYPE_ number.
    pub link: u16,
    /// The time since 1970 UTC in units of the resolution. A simple packet of pcapng has none.
    pub time: Option<u64>,
    /// The unit of the time, as an interface has it.
    pub resolution: u8,
    /// How many bytes the packet had on the link: where there are more than `bytes`, the capture cut it.
    pub original: u32,
    /// Where in the file its record or block begins, u64::MAX for any place behind.
    pub at: u64,
    /// The bytes that were captured, at most 262144.
    pub bytes: &'a [u8],
}

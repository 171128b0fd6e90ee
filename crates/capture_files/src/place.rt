//! Where in a file a unit stands, and what is made of its bytes.

use crate::captured::{Found, Interface};
use crate::numbers::Order;
use crate::reason::CaptureReason;

/// What the header of the classic format says of each record.
#[derive(Clone, Copy, Debug, PartialEq, Eq)]
pub struct Classic {
    pub order: Order,
    pub nanoseconds: bool,
    pub link: u16,
}

/// What comes next in a file.
#[derive(Clone, Copy, Debug, PartialEq, Eq)]
pub enum Place {
    /// The first byte.
    Start,
    /// A record of the classic format, or the end.
    Record(Classic),
    /// A block of a section of pcapng, or the end.
    Block {
        order: Order,
    },
    /// So many bytes of options of an interface, and then the length of its block once more.
    Options {
        order: Order,
        interface: Interface,
        left: u32,
        total: u32,
    },
    /// So many bytes that are passed over, and then the length of their block once more. The block may describe an
    /// interface.
    Passing {
        order: Order,
        interface: Option<Interface>,
        left: u32,
        total: u32,
    },
}

/// What some bytes are that stand at a place.
#[derive(Clone, Copy, Debug, PartialEq, Eq)]
pub enum Step {
    /// The front of a unit, which has at least so many bytes.
    Need(usize),
    /// A unit without more, and where the next stands.
    Moved(Place),
    /// The same, and a section begins, which has no interfaces yet.
    Section(Place),
    /// The same, and the section has one more interface.
    Described(Place, Interface),
    /// A unit with a packet.
    Packet(Place, Found),
    /// No unit, for this reason.
    Refused(CaptureReason),
}

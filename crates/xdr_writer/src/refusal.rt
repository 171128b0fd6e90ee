//! Why an item is refused.
ghost use Rattle.xdr_writer.specs.Private.Judged.{IsWhy, IsEnd};

use thiserror::Error;
use xdr_codec::{DecodeFault, Reason};

/// Why no value goes on with an item.
#[derive(Clone, Copy, Debug, PartialEq, Eq, Error)]
pub enum Why {
    /// Another item is due: a number, a flag, a count or content, or content of another fixed size (RFC 4506
    /// section 4).
    #[error("another item is due")]
    WrongItem,
    /// The number does not go into the bytes of the kind that is due (sections 4.1 to 4.5, 4.15).
    #[error("out of range")]
    NotInRange,
    /// Decoding refuses the item's bytes for this reason, at the count of bytes before the unit or the node that it is
    /// about (sections 3 and 4). It is never that memory was refused.
    #[error("{0}")]
    Refused(DecodeFault),
    /// The value is whole already.
    #[error("behind the value")]
    PastEnd,
    /// With the item there are more bytes than the limit allows.
    #[error("larger than the limit")]
    PastLimit,
    /// The value is not whole, and no item is left. `finish` alone answers it.
    #[error("not whole")]
    Unfinished,
    /// Memory was refused, for a frame or for the bytes written.
    #[error("out of memory")]
    NoMemory,
}

/// A reason, and how many items were taken before the item that it is about.
#[derive(Clone, Copy, Debug, PartialEq, Eq, Error)]
#[error("item {item}: {why}")]
pub struct WriteRefusal {
    pub why: Why,
    pub item: usize,
}

/// Why an item is refused whose bytes the checker refuses.
pub(crate) fn why_of(fault: DecodeFault) -> Why
    ensures { IsWhy fault result }
{
    match fault.why {
        Reason::NoMemory => Why::NoMemory,
        _ => Why::Refused(fault),
    }
}

/// Why the end is refused where the checker refuses it.
pub(crate) fn end_of(fault: DecodeFault) -> Why
    ensures { IsEnd fault result }
{
    match fault.why {
        Reason::Truncated => Why::Unfinished,
        _ => why_of(fault),
    }
}

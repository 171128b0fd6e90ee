//! A part that may be there whole.
ghost use Rattle.std.specs.Prelude.{◌<◌, ◌≤◌, ◌+◌, IfSome, length};
ghost use Rattle.xdr_stream.specs.Frames.{left_of};
ghost use Rattle.xdr_stream.specs.Private.Entire.{IsEntire, IsNested};

use crate::machine::frame::{Frame, next};
use xdr_types::{KindId, Limits, Schema};

/// How many bytes are looked at for a part at most, so that what is looked at in vain is bounded.
const MOST_BYTES: usize = 65536;

/// A part that may be there whole.
#[derive(Clone, Copy)]
pub struct Entire {
    /// Its kind.
    pub kind: KindId,
    /// How many levels its values have.
    pub levels: u32,
    /// How many of the bytes it may have.
    pub most: usize,
}

/// The part that comes next, where the values of its kind have one size, and the limit on depth is not passed inside
/// it. So many nodes stand around the one at work. It has no bytes behind those that are
/// there, nor behind the limit on bytes. Where it has the kind of the part before it, as an item mostly has, it is
/// known to be one.
#[inline(always)]
pub(crate) fn entire_due(
    schema: &Schema,
    work: Frame<'_>,
    limits: Limits,
    outside: usize,
    read: usize,
    there: usize,
    before: Option<Entire>,
) -> Option<Entire>
    requires { IfSome before (IsNested schema.now.kinds limits outside) }
    ensures { IfSome result (IsEntire schema.now.kinds (left_of work.entry) limits outside read there) }
{
    let _in_range = limits.depth();
    let kind = next(&work)?;
    if let Some(part) = before {
        if part.kind.place == kind.place {
            return Some(Entire {
                kind,
                levels: part.levels,
                most: most_of(limits, read, there),
            });
        }
    }
    schema.extent(kind)?;
    let levels = schema.levels(kind)?;
    let left = (limits.depth() as usize).saturating_sub(outside);
    if outside == 0 || levels as usize > left {
        return None;
    }
    Some(Entire {
        kind,
        levels,
        most: most_of(limits, read, there),
    })
}

/// How many bytes a part may have: those that are there, up to the limit on bytes, where so many are read.
#[inline(always)]
pub(crate) fn most_of(limits: Limits, read: usize, there: usize) -> usize
    ensures there { result ≤ there }
    ensures space { 0 < result → result + read ≤ limits.bytes }
{
    let space = (limits.bytes() as usize).saturating_sub(read);
    there.min(space).min(MOST_BYTES)
}

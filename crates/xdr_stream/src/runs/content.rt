//! Content that is there whole, behind its length.
ghost use Rattle.std.specs.Prelude.{◌<◌, length, IfSome};
ghost use Rattle.xdr_types.specs.KindViews.{kind_view};
ghost use Rattle.xdr_stream.specs.Private.Whole.{IsCounted, IsWhole};

use crate::machine::unit::{number_of, unit_at};
use crate::runs::ahead::content_ahead;
use xdr_types::{Kind, KindId, Schema};

/// Content that is there whole.
#[derive(Clone, Copy)]
pub struct Whole {
    /// How many bytes of content.
    pub size: usize,
    /// How many with the length before them and the padding after them.
    pub all: usize,
}

// The most bytes of content of a kind, where its length comes first.
#[inline(always)]
fn most_of(kind: &Kind) -> Option<u32>
    ensures { IfSome result (IsCounted (kind_view kind.now)) }
{
    match kind {
        Kind::OpaqueUpTo { max } => Some(*max),
        Kind::Text { max } => Some(*max),
        _ => None,
    }
}

/// Whether the kind is content behind its length.
#[inline(always)]
pub(crate) fn is_counted(kind: &Kind) -> bool {
    most_of(kind).is_some()
}

/// The content that the bytes begin with, where its length comes first, as in a string.
#[inline(always)]
pub(crate) fn whole_ahead(schema: &Schema, id: KindId, bytes: &[u8]) -> Option<Whole>
    requires { id.place < length schema.now.kinds }
    ensures { IfSome result (IsWhole schema.now.kinds id.place bytes.now) }
{
    let most = most_of(schema.kind(id))?;
    if bytes.len() < 4 {
        return None;
    }
    let number = number_of(&unit_at(bytes, 0));
    if number > most {
        return None;
    }
    let padded = content_ahead(number, &bytes[4..])?;
    let all = 4 + padded;
    Some(Whole {
        size: number as usize,
        all,
    })
}

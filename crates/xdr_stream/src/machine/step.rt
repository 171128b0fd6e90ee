//! How a value of a kind begins.
ghost use Rattle.xdr_types.specs.KindViews.{kind_view};
ghost use Rattle.xdr_stream.specs.Steps.{IsStep};

use xdr_types::{Kind, KindId, Member};

/// How a value of a kind begins.
#[derive(Clone, Copy)]
pub enum Step<'s> {
    /// With a unit that makes it, or with a length.
    Unit,
    /// With its fields.
    Fields(&'s [Member]),
    /// With so many items.
    Items { item: KindId, size: u32 },
    /// With the two units of a hyper integer, signed or not.
    Wide(bool),
    /// With so many bytes of content.
    Content(u32),
    /// With nothing: it is void, and takes no byte.
    Void,
}

/// What the bytes of any value of the kind begin with (RFC 4506 sections 4.1 to 4.19).
#[inline(always)]
pub fn step_of<'s>(kind: &'s Kind) -> Step<'s>
    ensures { IsStep (kind_view kind.now) result }
{
    match kind {
        Kind::Int => Step::Unit,
        Kind::Unsigned => Step::Unit,
        Kind::Hyper => Step::Wide(true),
        Kind::UnsignedHyper => Step::Wide(false),
        Kind::Bool => Step::Unit,
        Kind::Numbered { .. } => Step::Unit,
        Kind::Opaque { size } => Step::Content(*size),
        Kind::OpaqueUpTo { .. } => Step::Unit,
        Kind::Text { .. } => Step::Unit,
        Kind::Fixed { item, size } => Step::Items {
            item: *item,
            size: *size,
        },
        Kind::UpTo { .. } => Step::Unit,
        Kind::Structure { fields } => Step::Fields(fields),
        Kind::Choice { .. } => Step::Unit,
        Kind::Maybe { .. } => Step::Unit,
        Kind::Nothing => Step::Void,
    }
}

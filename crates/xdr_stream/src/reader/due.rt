//! What is due before any byte.
ghost use Rattle.std.specs.Prelude.{◌≡◌, ◌<◌, [], length, MatchOption, MatchBool};
ghost use Rattle.xdr_types.specs.Kinds.{kind_at};
ghost use Rattle.xdr_types.specs.KindViews.{kind_view};
ghost use Rattle.xdr_types.specs.Fits.{parts};
ghost use Rattle.xdr_types.specs.Outcome.{Outcome, TooDeep, Pending};
ghost use Rattle.xdr_laws.specs.Owed.{lead_of, IsSilent, silent_head};
ghost use Rattle.xdr_stream.specs.Frames.{Begins};
ghost use Rattle.xdr_laws.specs.Owed.{IsSolid};

use xdr_types::{Kind, KindId, Limits, Schema};

/// The kind of the first part of a structure or a fixed array.
pub fn first_part(kind: &Kind) -> Option<KindId>
    ensures { MatchOption result
        (IsSilent (lead_of (kind_view kind.now)) → parts (kind_view kind.now) (silent_head (kind_view kind.now)) ≡ [])
        (λ k. IsSilent (lead_of (kind_view kind.now))
        × Begins (parts (kind_view kind.now) (silent_head (kind_view kind.now))) k.place) }
{
    match kind {
        Kind::Structure { fields } => match fields.as_slice() {
            [first, ..] => Some(first.kind),
            [] => None,
        },
        Kind::Fixed { item, size } => { if *size == 0 { None } else { Some(*item) } }
        Kind::Int => None,
        Kind::Unsigned => None,
        Kind::Hyper => None,
        Kind::UnsignedHyper => None,
        Kind::Bool => None,
        Kind::Numbered { .. } => None,
        Kind::Opaque { .. } => None,
        Kind::OpaqueUpTo { .. } => None,
        Kind::Text { .. } => None,
        Kind::UpTo { .. } => None,
        Kind::Choice { .. } => None,
        Kind::Maybe { .. } => None,
        Kind::Nothing => None,
    }
}

/// Whether a node lies too deep before any byte; else a unit is needed. The kind is one of the schema, and not void.
pub fn is_deep(schema: &Schema, kind: KindId, limits: Limits) -> bool
    requires known { kind.place < length schema.now.kinds }
    requires solid { IsSolid (kind_at schema.now.kinds kind.place) }
    ensures { MatchBool result (Outcome schema.now.kinds kind.place limits [] (TooDeep 0))
        (Outcome schema.now.kinds kind.place limits [] Pending) }
{
    let _known = schema.len();
    let mut id = kind;
    let mut depth = 1;
    while depth <= limits.depth() {
        let Some(next) = first_part(schema.kind(id)) else {
            return false;
        };
        id = next;
        depth += 1;
    }
    true
}

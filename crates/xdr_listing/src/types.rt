//! The kinds that a text declares, their names, and how many bytes their values have.
ghost use Rattle.std.specs.Prelude.{◌≡◌, option_map, slice_get};
ghost use Rattle.xdr_types.specs.Kinds.{kind_at};
ghost use Rattle.xdr_listing.specs.Private.Firsts.{AreFirst};
ghost use Rattle.xdr_listing.specs.Words.{kind_word, name_of_place};

use xdr_bounds::{Bounds, Range};
use xdr_types::{Kind, KindId, Schema};

/// The kinds and names of a schema, the first name of each kind by its place, and their bounds.
#[derive(Clone, Copy)]
pub struct Types<'a> {
    pub schema: &'a Schema,
    pub bounds: &'a Bounds,
    pub firsts: &'a [Option<&'a str>],
    ghost first: { AreFirst schema.now.names firsts.now },
}

/// The word of a kind (RFC 4506 sections 4.1 to 4.19); none of one that the schema does not have.
#[tactic(auto, using(std::proofs::lemmas::List::get_or_past))]
pub fn word_of(types: &Types<'_>, id: KindId) -> &'static str
    ensures { result.now ≡ kind_word (kind_at types.now.schema.now.kinds id.place) }
{
    if !types.schema.has(id) {
        return "";
    }
    match types.schema.kind(id) {
        Kind::Int => "int",
        Kind::Unsigned => "unsigned",
        Kind::Hyper => "hyper",
        Kind::UnsignedHyper => "unsigned-hyper",
        Kind::Bool => "bool",
        Kind::Numbered { .. } => "enum",
        Kind::Opaque { .. } => "opaque",
        Kind::OpaqueUpTo { .. } => "opaque",
        Kind::Text { .. } => "string",
        Kind::Fixed { .. } => "array",
        Kind::UpTo { .. } => "list",
        Kind::Structure { .. } => "struct",
        Kind::Choice { .. } => "union",
        Kind::Maybe { .. } => "optional",
        Kind::Nothing => "void",
    }
}

/// How many bytes the values of a kind have; none of one that the schema does not have.
pub fn range_of(types: &Types<'_>, id: KindId) -> Option<Range>
    ensures { result ≡ slice_get types.now.bounds.now id.place }
{
    types.bounds.range(id)
}

/// The first name of a kind, where it has one.
pub fn name_of<'a>(types: &Types<'a>, id: KindId) -> Option<&'a str>
    ensures { option_map (λ s. s.now) result ≡ name_of_place types.now.schema.now.names id.place }
{
    let place = id.place as usize;
    if place >= types.firsts.len() {
        return None;
    }
    types.firsts[place]
}

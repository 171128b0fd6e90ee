//! The places of kinds that parts stand for.
ghost use Rattle.std.specs.Prelude.{◌≡◌, Some, None, length, map, ◌+◌};
ghost use Rattle.xdr_tokens.specs.Due.{Gives};
ghost use Rattle.xdr_grammar.specs.View.{part_of};
ghost use Rattle.xdr_lang.specs.Views.{types_of};
ghost use Rattle.xdr_lang.specs.LookUp.{basic_place, struct_place, place_with, named_place, place_of};

use crate::type_table::TypeTable;
use xdr_grammar::{Basic, Name, Part};
use xdr_tokens::{Fault, Wrong};
use xdr_types::KindId;

/// The place of a basic kind.
pub fn basic_place(basic: Basic) -> u32
    ensures { result ≡ basic_place basic }
{
    match basic {
        Basic::Int => 0,
        Basic::Unsigned => 1,
        Basic::Hyper => 2,
        Basic::UnsignedHyper => 3,
        Basic::Bool => 4,
    }
}

/// The place of one of the text's own kinds, after the eight basic ones. A text has far fewer than
/// 2^32.
pub fn own_place(made: usize) -> Result<u32, Fault>
    ensures { Gives (λ x. x) result (Some (8 + made)) }
{
    if made < 1 << 31 {
        Ok(made as u32 + 8)
    } else {
        Err(Fault::NoMemory)
    }
}

/// The place that `struct` with a name denotes: that of the kind of the definition `struct NAME {..}`.
pub fn struct_place(types: &TypeTable<'_>, name: Name<'_>) -> Result<u32, Fault>
    ensures { Gives (λ x. x) result (struct_place (types_of types.now.list.items) name.entry.text.now) }
{
    match types.named(name.text) {
        Some(Part::StructMade(made)) => own_place(made),
        _ => Err(Fault::Refused {
            wrong: Wrong::NameUnknown,
            left: name.left,
        }),
    }
}

/// The place of the kind that a name stands for, through at most so many names.
#[tactic(auto, unfolding(crate::specs::LookUp::named_place))]
fn named_within<'a>(types: &TypeTable<'a>, steps: usize, first: Name<'a>) -> Result<u32, Fault>
    ensures { Gives (λ x. x) result (named_place steps (types_of types.now.list.items) first.entry.text.now) }
{
    let mut name = first;
    for step in 0..steps {
        match types.named(name.text) {
            Some(Part::Basic(basic)) => return Ok(basic_place(basic)),
            Some(Part::Made(made)) => return own_place(made),
            Some(Part::StructMade(made)) => return own_place(made),
            Some(Part::Struct(named)) => return struct_place(types, named),
            Some(Part::Text) => return Ok(7),
            Some(Part::Void) => return Ok(5),
            Some(Part::Named(next)) => name = next,
            None => {
                return Err(Fault::Refused {
                    wrong: Wrong::NameUnknown,
                    left: name.left,
                });
            }
        }
    }
    Err(Fault::Refused {
        wrong: Wrong::TypedefLoop,
        left: name.left,
    })
}

/// The place of the kind that a part of a type stands for, through at most so many names.
fn place_within<'a>(types: &TypeTable<'a>, steps: usize, part: Part<'a>) -> Result<u32, Fault>
    ensures { Gives (λ x. x) result (place_with (types_of types.now.list.items)
        (named_place steps (types_of types.now.list.items)) (part_of part.entry)) }
{
    match part {
        Part::Basic(basic) => Ok(basic_place(basic)),
        Part::Made(made) | Part::StructMade(made) => own_place(made),
        Part::Struct(name) => struct_place(types, name),
        Part::Text => Ok(7),
        Part::Void => Ok(5),
        Part::Named(name) => named_within(types, steps, name),
    }
}

/// The place of the kind that a name stands for, through names whose places are known or that lead to one another.
#[tactic(auto, unfolding(crate::specs::LookUp::named_place))]
fn place_through_names(types: &TypeTable<'_>, name: Name<'_>) -> Result<u32, Fault>
    ensures { Gives (λ x. x) result
        (named_place (length (types_of types.now.list.items)) (types_of types.now.list.items) name.entry.text.now) }
{
    if let Some(place) = types.place(name.text) {
        return Ok(place);
    }
    if types.is_endless(name.text) {
        return Err(Fault::Refused {
            wrong: Wrong::TypedefLoop,
            left: name.left,
        });
    }
    let steps = types.list.len();
    match types.named(name.text) {
        Some(part) if steps > 0 => place_within(types, steps - 1, part),
        _ => Err(Fault::Refused {
            wrong: Wrong::NameUnknown,
            left: name.left,
        }),
    }
}

/// The place of the kind that a name stands for. Most names are no others, and need one look-up.
#[tactic(auto, unfolding(crate::specs::LookUp::named_place))]
fn named_place(types: &TypeTable<'_>, name: Name<'_>) -> Result<u32, Fault>
    ensures { Gives (λ x. x) result
        (named_place (length (types_of types.now.list.items)) (types_of types.now.list.items) name.entry.text.now) }
{
    let steps = types.list.len();
    match types.named(name.text) {
        Some(Part::Named(_)) => place_through_names(types, name),
        Some(part) if steps > 0 => place_within(types, steps - 1, part),
        _ => Err(Fault::Refused {
            wrong: Wrong::NameUnknown,
            left: name.left,
        }),
    }
}

/// The kind that a part stands for, through names.
pub fn kind_of(types: &TypeTable<'_>, part: Part<'_>) -> Result<KindId, Fault>
    ensures { Gives (λ k. k.place) result (place_of (types_of types.now.list.items) (part_of part.entry)) }
{
    let place = match part {
        Part::Basic(basic) => basic_place(basic),
        Part::Made(made) | Part::StructMade(made) => own_place(made)?,
        Part::Struct(name) => struct_place(types, name)?,
        Part::Text => 7,
        Part::Void => 5,
        Part::Named(name) => named_place(types, name)?,
    };
    Ok(KindId { place })
}

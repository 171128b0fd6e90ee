//! How many levels the values of a kind have at most, where these are few.
ghost use Rattle.std.specs.Prelude.{◌≡◌, ◌<◌, ℕ, ℤ, List, length, map, option_map, max, IfSome};
ghost use Rattle.xdr_types.specs.Kinds.{KindView, kind_at};
ghost use Rattle.xdr_types.specs.KindViews.{kind_view, part_of_member, branch_of};
ghost use Rattle.xdr_types.specs.Fits.{part_of, optional_part};
ghost use Rattle.xdr_types.specs.Levels.{IsMostLevels};
ghost use Rattle.xdr_types.specs.Private.Notes.{AreNotes, AreWithin, IsUnder};

use crate::kind::{Arm, Kind, KindId, Member};
use crate::notes::Noted;

// No kind whose levels are noted has more.
const MOST_LEVELS: u32 = 16;

/// A count of levels that no value of a kind passes, where one is noted of each of its parts, 15 at most.
pub fn levels_of(notes: &Vec<Noted>, kind: &Kind) -> Option<u32>
    ensures { (kinds : List KindView) (place : ℕ) → AreNotes kinds notes.now.items → place < length kinds
        → kind_at kinds place ≡ kind_view kind.now → IfSome result (IsMostLevels kinds place) }
{
    let under = levels_under(notes, kind)?;
    if under >= MOST_LEVELS {
        return None;
    }
    Some(under + 1)
}

// How many levels the parts of a value have at most; 0 where it has no parts.
fn levels_under(notes: &Vec<Noted>, kind: &Kind) -> Option<u32>
    ensures { (kinds : List KindView) → AreNotes kinds notes.now.items
        → IfSome result (IsUnder kinds (kind_view kind.now)) }
{
    match kind {
        Kind::Fixed { item, size: _ } => noted_levels(notes, *item),
        // Items of an array are taken many at once where the array is at work, so that nothing of it is to be tried.
        Kind::UpTo { item: _, max: _ } => None,
        Kind::Maybe { item } => noted_levels(notes, *item),
        Kind::Structure { fields } => levels_of_fields(notes, fields),
        Kind::Choice {
            tag: _,
            arms,
            other,
        } => levels_of_arms(notes, arms, other),
        _ => Some(0),
    }
}

// What is noted of the kind at a place.
fn noted_levels(notes: &Vec<Noted>, id: KindId) -> Option<u32>
    ensures { (kinds : List KindView) → AreNotes kinds notes.now.items
        → IfSome result (IsMostLevels kinds id.place) }
{
    let place = id.place as usize;
    if place >= notes.len() {
        return None;
    }
    notes[place].levels
}

// The most levels of the fields, from the last to the first.
fn levels_of_fields(notes: &Vec<Noted>, fields: &Vec<Member>) -> Option<u32>
    ensures { (kinds : List KindView) → AreNotes kinds notes.now.items
        → IfSome result (AreWithin kinds (map part_of_member fields.now.items)) }
{
    let mut most = 0;
    for done in 0..fields.len() {
        let field = &fields[fields.len() - 1 - done];
        most = higher(most, noted_levels(notes, field.kind)?);
    }
    Some(most)
}

// The most levels of the part under any discriminant, from the default and the last arm to the first.
fn levels_of_arms(notes: &Vec<Noted>, arms: &Vec<Arm>, other: &Option<Member>) -> Option<u32>
    ensures { (kinds : List KindView) → AreNotes kinds notes.now.items
        → IfSome result (λ n. (z : ℤ) → AreWithin kinds
        (optional_part (part_of (map branch_of arms.now.items) (option_map part_of_member other.now) z)) n) }
{
    let mut most = levels_of_default(notes, other)?;
    for done in 0..arms.len() {
        let arm = &arms[arms.len() - 1 - done];
        most = higher(most, noted_levels(notes, arm.member.kind)?);
    }
    Some(most)
}

// The most levels of the default, 0 where there is none.
fn levels_of_default(notes: &Vec<Noted>, other: &Option<Member>) -> Option<u32>
    ensures { (kinds : List KindView) → AreNotes kinds notes.now.items
        → IfSome result (AreWithin kinds (optional_part (option_map part_of_member other.now))) }
{
    match other {
        Some(member) => noted_levels(notes, member.kind),
        None => Some(0),
    }
}

// The higher of two.
fn higher(a: u32, b: u32) -> u32
    ensures { result ≡ max a b }
{
    if a > b { a } else { b }
}

//! The tags and parts of a choice.
ghost use Rattle.std.specs.Prelude.{◌≡◌, map, option_map, not};
ghost use Rattle.xdr_types.specs.Kinds.{kind_at};
ghost use Rattle.xdr_types.specs.KindViews.{kind_view, constant_of, part_of_member, branch_of};
ghost use Rattle.xdr_types.specs.Sound.{has_arm};
ghost use Rattle.xdr_types.specs.Fits.{is_numbered, is_listed, is_tag_of, part_of};

use crate::kind::{Arm, Kind, KindId, Member};
use crate::picked::has_number;
use crate::schema::Schema;
use std::string::String;

/// Whether a discriminant of the kind may have the number (RFC 4506 section 4.15). That of an int goes from -2^31 to
/// 2^31 - 1, and that of an unsigned int from 0 to 2^32 - 1. Of a bool it is 0 or 1, and of an enumeration that of a
/// member. Another kind has none.
#[inline(always)]
pub fn is_legal_tag(schema: &Schema, id: KindId, number: i64) -> bool
    ensures { result ≡ is_tag_of (kind_at schema.now.kinds id.place) number }
{
    let kinds = schema.kinds();
    let place = id.place as usize;
    if place >= kinds.len() {
        return false;
    }
    match &kinds[place] {
        Kind::Numbered { members } => match schema.lookup(id) {
            Some(found) => has_number(found, number),
            None => is_number_of(members, number),
        },
        _ => is_tag_number(kinds, id, number),
    }
}

/// The same, over the list of kinds.
#[inline(always)]
pub fn is_tag_number(kinds: &Vec<Kind>, id: KindId, number: i64) -> bool
    ensures { result ≡ is_tag_of (kind_at (map kind_view kinds.now.items) id.place) number }
{
    let place = id.place as usize;
    if place >= kinds.len() {
        return false;
    }
    match &kinds[place] {
        Kind::Int => number >= -2147483648 && number <= 2147483647,
        Kind::Unsigned => number >= 0 && number <= 4294967295,
        Kind::Bool => number == 0 || number == 1,
        Kind::Numbered { members } => is_number_of(members, number),
        _ => false,
    }
}

/// Whether a member of an enumeration has the number (RFC 4506 section 4.3).
#[inline(always)]
pub fn is_number_of(members: &Vec<(String, i32)>, number: i64) -> bool
    ensures { result ≡ is_numbered (map constant_of members.now.items) number }
{
    if number < -2147483648 || number > 2147483647 {
        return false;
    }
    for member in members {
        if i64::from(member.1) == number {
            return true;
        }
    }
    false
}

/// Whether the cases have the number.
#[inline(always)]
pub fn lists(cases: &[i64], number: i64) -> bool
    ensures { result ≡ is_listed cases.now number }
{
    for case in cases {
        if *case == number {
            return true;
        }
    }
    false
}

/// Whether no arm lists the number.
pub fn has_no_arm(arms: &[Arm], number: i64) -> bool
    ensures { result ≡ not (has_arm (map branch_of arms.now) number) }
{
    for arm in arms {
        if lists(&arm.cases, number) {
            return false;
        }
    }
    true
}

/// The part of a union under a discriminant: that of the arm which lists the number, else the default, where there is
/// one (RFC 4506 section 4.15).
#[inline(always)]
pub fn part_under<'a>(
    arms: &'a Vec<Arm>,
    other: &'a Option<Member>,
    number: i64,
) -> Option<&'a Member>
    ensures { option_map (λ m. part_of_member m.now) result
        ≡ part_of (map branch_of arms.now.items) (option_map part_of_member other.now) number }
{
    for arm in arms {
        if lists(&arm.cases, number) {
            return Some(&arm.member);
        }
    }
    match other {
        Some(member) => Some(member),
        None => None,
    }
}

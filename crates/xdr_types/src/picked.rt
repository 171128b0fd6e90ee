//! The member of an enumeration and the part of a union that a number picks, found in few steps.
ghost use Rattle.std.specs.Prelude.{◌≡◌, ℤ, List, map, option_map};
ghost use Rattle.std.specs.List.{find};
ghost use Rattle.std.specs.Ordering.{int_eq};
ghost use Rattle.xdr_types.specs.Kinds.{Constant, kind_at};
ghost use Rattle.xdr_types.specs.KindViews.{constant_of, part_of_member, branch_of};
ghost use Rattle.xdr_types.specs.Fits.{is_numbered, member_in, part_in, part_of};
ghost use Rattle.xdr_types.specs.Private.Lookups.{member_from, arm_from, first_at, AreInOrder};

use crate::choice::part_under;
use crate::kind::{Arm, Kind, KindId, Member};
use crate::lookups::index_in;
use crate::schema::Schema;
use std::string::String;

/// The first member that has the number, of the enumeration at a place of the schema (RFC 4506 section 4.3); none of
/// another kind. A member of a long enumeration is found in few steps.
pub fn member_in<'s>(schema: &'s Schema, id: KindId, number: i64) -> Option<&'s (String, i32)>
    ensures { option_map (λ m. constant_of m.now) result ≡ member_in (kind_at schema.now.kinds id.place) number }
{
    let kinds = schema.kinds();
    let place = id.place as usize;
    if place >= kinds.len() {
        return None;
    }
    match &kinds[place] {
        Kind::Numbered { members } => match schema.lookup(id) {
            Some(found) => member_found(found, members, number),
            None => member_in_turn(members, number),
        },
        _ => None,
    }
}

/// The part under a discriminant, of the union at a place of the schema (RFC 4506 section 4.15); none of another kind.
/// An arm of a long union is found in few steps.
#[inline(always)]
pub fn part_in<'s>(schema: &'s Schema, id: KindId, number: i64) -> Option<&'s Member>
    ensures { option_map (λ m. part_of_member m.now) result ≡ part_in (kind_at schema.now.kinds id.place) number }
{
    let kinds = schema.kinds();
    let place = id.place as usize;
    if place >= kinds.len() {
        return None;
    }
    match &kinds[place] {
        Kind::Choice {
            tag: _,
            arms,
            other,
        } => match schema.lookup(id) {
            Some(found) => part_found(found, arms, other, number),
            None => part_under(arms, other, number),
        },
        _ => None,
    }
}

/// Whether an enumeration has a number, by the entries of its members.
pub fn has_number(found: &Vec<(i64, usize)>, number: i64) -> bool
    requires { AreInOrder found.now.items }
    ensures { (constants : List Constant) → ((z : ℤ) → first_at found.now.items z ≡ member_from 0 constants z)
        → result ≡ is_numbered constants number }
{
    if number < -2147483648 || number > 2147483647 {
        return false;
    }
    index_in(found, number).is_some()
}

// The first member that has the number, by entries.
fn member_found<'s>(
    found: &Vec<(i64, usize)>,
    members: &'s Vec<(String, i32)>,
    number: i64,
) -> Option<&'s (String, i32)>
    requires ordered { AreInOrder found.now.items }
    requires finds { (z : ℤ) → first_at found.now.items z ≡ member_from 0 (map constant_of members.now.items) z }
    ensures { option_map (λ m. constant_of m.now) result
        ≡ find (λ (c : Constant). int_eq c.number number) (map constant_of members.now.items) }
{
    match index_in(found, number) {
        Some(index) => Some(&members[index]),
        None => None,
    }
}

// The same, one by one.
fn member_in_turn<'s>(members: &'s Vec<(String, i32)>, number: i64) -> Option<&'s (String, i32)>
    ensures { option_map (λ m. constant_of m.now) result
        ≡ find (λ (c : Constant). int_eq c.number number) (map constant_of members.now.items) }
{
    for member in members {
        if i64::from(member.1) == number {
            return Some(member);
        }
    }
    None
}

// The part under a discriminant, by entries.
fn part_found<'s>(
    found: &Vec<(i64, usize)>,
    arms: &'s Vec<Arm>,
    other: &'s Option<Member>,
    number: i64,
) -> Option<&'s Member>
    requires ordered { AreInOrder found.now.items }
    requires finds { (z : ℤ) → first_at found.now.items z ≡ arm_from 0 (map branch_of arms.now.items) z }
    ensures { option_map (λ m. part_of_member m.now) result
        ≡ part_of (map branch_of arms.now.items) (option_map part_of_member other.now) number }
{
    match index_in(found, number) {
        Some(index) => Some(&arms[index].member),
        None => match other {
            Some(member) => Some(member),
            None => None,
        },
    }
}

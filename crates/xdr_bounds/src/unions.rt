//! The parts of a union that a legal discriminant picks (RFC 4506 section 4.15).
ghost use Rattle.std.specs.Prelude.{◌≡◌, ◌↔◌, ◌≤ℤ◌, ◌<ℤ◌, ℤ, map, option_map, true, false, IfOk, OnOk, MatchOption};
ghost use Rattle.xdr_types.specs.Kinds as xdr;
ghost use Rattle.xdr_types.specs.Kinds.{kind_at};
ghost use Rattle.xdr_types.specs.KindViews.{constant_of, branch_of, part_of_member};
ghost use Rattle.xdr_types.specs.Fits.{is_constant, is_listed, is_tag_of};
ghost use Rattle.xdr_types.specs.Sound.{has_arm};
ghost use Rattle.xdr_bounds.specs.Private.Unions.{PicksKind, PicksDefault, IsSeen, Adds, ArePicked};

use std::alloc::{AllocError, Global};
use std::string::String;
use xdr_types::{Arm, Kind, KindId, Member, Schema, is_legal_tag, part_in};

// A union of a schema, and the kind of its discriminant.
#[derive(Drop)]
struct Choice<'s> {
    schema: &'s Schema,
    id: KindId,
    tag: KindId,
}

// Adds the kind of the part under a number, where a discriminant of the kind may have the number.
fn add(choice: &Choice, number: i64, parts: &mut Vec<KindId>) -> Result<(), AllocError>
    ensures adds { Adds choice.now.schema.now.kinds choice.now.id.place choice.now.tag.place parts.old.items
        parts.new.items }
    ensures seen { OnOk result (IsSeen choice.now.schema.now.kinds choice.now.id.place choice.now.tag.place
        parts.new.items number) }
{
    if !is_legal_tag(choice.schema, choice.tag, number) {
        return Ok(());
    }
    match part_in(choice.schema, choice.id, number) {
        Some(part) => {
            parts.push(part.kind)?;
            Ok(())
        }
        None => Ok(()),
    }
}

// The same for each of the cases of an arm.
fn add_listed(choice: &Choice, cases: &[i64], parts: &mut Vec<KindId>) -> Result<(), AllocError>
    ensures adds { Adds choice.now.schema.now.kinds choice.now.id.place choice.now.tag.place parts.old.items
        parts.new.items }
    ensures seen { OnOk result ((z : ℤ) → is_listed cases.now z ≡ true
        → IsSeen choice.now.schema.now.kinds choice.now.id.place choice.now.tag.place parts.new.items z) }
{
    for case in cases {
        add(choice, *case, parts)?;
    }
    Ok(())
}

// The same for each case of the arms.
fn add_cases(choice: &Choice, arms: &[Arm], parts: &mut Vec<KindId>) -> Result<(), AllocError>
    ensures adds { Adds choice.now.schema.now.kinds choice.now.id.place choice.now.tag.place parts.old.items
        parts.new.items }
    ensures seen { OnOk result ((z : ℤ) → has_arm (map branch_of arms.now) z ≡ true
        → IsSeen choice.now.schema.now.kinds choice.now.id.place choice.now.tag.place parts.new.items z) }
{
    for arm in arms {
        add_listed(choice, &arm.cases, parts)?;
    }
    Ok(())
}

// The same for the number of each member of an enumeration.
fn add_members(
    choice: &Choice,
    members: &[(String, i32)],
    parts: &mut Vec<KindId>,
) -> Result<(), AllocError>
    ensures adds { Adds choice.now.schema.now.kinds choice.now.id.place choice.now.tag.place parts.old.items
        parts.new.items }
    ensures seen { OnOk result ((z : ℤ) → is_constant (map constant_of members.now) z ≡ true
        → IsSeen choice.now.schema.now.kinds choice.now.id.place choice.now.tag.place parts.new.items z) }
{
    for member in members {
        add(choice, i64::from(member.1), parts)?;
    }
    Ok(())
}

// Whether the part under a number is of a kind.
fn picks(choice: &Choice, number: i64, part: KindId) -> bool
    ensures yes { result ≡ true → PicksKind choice.now.schema.now.kinds choice.now.id.place number part.place }
    ensures no { result ≡ false → PicksKind choice.now.schema.now.kinds choice.now.id.place number part.place → ⊥ }
{
    match part_in(choice.schema, choice.id, number) {
        Some(member) => member.kind.place == part.place,
        None => false,
    }
}

// The first number from low on and below high under which a part of the default's kind stands. It is found after one
// number more, at most, than there are cases.
fn number_of_default(choice: &Choice, other: &Option<Member>, low: i64, high: i64) -> Option<i64>
    ensures { MatchOption result
        ((z : ℤ) → low ≤ℤ z → z <ℤ high → PicksDefault choice.now.schema.now.kinds choice.now.id.place z
        (option_map part_of_member other.now) → ⊥)
        (λ z. (low ≤ℤ z) × (z <ℤ high) × PicksDefault choice.now.schema.now.kinds choice.now.id.place z
        (option_map part_of_member other.now)) }
{
    match other {
        Some(default) => first_under(choice, default.kind, low, high),
        None => None,
    }
}

// The first number from low on and below high under which a part of the kind stands.
fn first_under(choice: &Choice, part: KindId, low: i64, high: i64) -> Option<i64>
    ensures { MatchOption result
        ((z : ℤ) → low ≤ℤ z → z <ℤ high
        → PicksKind choice.now.schema.now.kinds choice.now.id.place z part.place → ⊥)
        (λ z. (low ≤ℤ z) × (z <ℤ high)
        × PicksKind choice.now.schema.now.kinds choice.now.id.place z part.place) }
{
    for number in low..high {
        if picks(choice, number, part) {
            return Some(number);
        }
    }
    None
}

// Adds the kinds of the parts under the numbers from low on and below high, which are those that a discriminant of the
// kind may have.
fn add_numbers(
    choice: &Choice,
    arms: &Vec<Arm>,
    other: &Option<Member>,
    low: i64,
    high: i64,
    parts: &mut Vec<KindId>,
) -> Result<(), AllocError>
    requires is { kind_at choice.now.schema.now.kinds choice.now.id.place
        ≡ xdr.choice choice.now.tag.place (map branch_of arms.now.items) (option_map part_of_member other.now) }
    requires legal { (z : ℤ) → (is_tag_of (kind_at choice.now.schema.now.kinds choice.now.tag.place) z ≡ true)
        ↔ ((low ≤ℤ z) × (z <ℤ high)) }
    ensures adds { Adds choice.now.schema.now.kinds choice.now.id.place choice.now.tag.place parts.old.items
        parts.new.items }
    ensures seen { OnOk result ((z : ℤ)
        → IsSeen choice.now.schema.now.kinds choice.now.id.place choice.now.tag.place parts.new.items z) }
{
    add_cases(choice, arms, parts)?;
    match number_of_default(choice, other, low, high) {
        Some(number) => add(choice, number, parts),
        None => Ok(()),
    }
}

// Adds the kinds of the parts under all numbers that a discriminant of the kind may have.
fn add_all(
    choice: &Choice,
    arms: &Vec<Arm>,
    other: &Option<Member>,
    parts: &mut Vec<KindId>,
) -> Result<(), AllocError>
    requires { kind_at choice.now.schema.now.kinds choice.now.id.place
        ≡ xdr.choice choice.now.tag.place (map branch_of arms.now.items) (option_map part_of_member other.now) }
    ensures adds { Adds choice.now.schema.now.kinds choice.now.id.place choice.now.tag.place parts.old.items
        parts.new.items }
    ensures seen { OnOk result ((z : ℤ)
        → IsSeen choice.now.schema.now.kinds choice.now.id.place choice.now.tag.place parts.new.items z) }
{
    if !choice.schema.has(choice.tag) {
        return Ok(());
    }
    match choice.schema.kind(choice.tag) {
        Kind::Int => add_numbers(choice, arms, other, -2147483648, 2147483648, parts),
        Kind::Unsigned => add_numbers(choice, arms, other, 0, 4294967296, parts),
        Kind::Bool => add_listed(choice, &[0, 1], parts),
        Kind::Numbered { members } => add_members(choice, members, parts),
        _ => Ok(()),
    }
}

/// The kinds of the parts of a union that some legal discriminant picks. An error is an allocation failure.
pub fn parts_of(
    alloc: Global,
    schema: &Schema,
    id: KindId,
    tag: KindId,
    arms: &Vec<Arm>,
    other: &Option<Member>,
) -> Result<Vec<KindId>, AllocError>
    requires { kind_at schema.now.kinds id.place
        ≡ xdr.choice tag.place (map branch_of arms.now.items) (option_map part_of_member other.now) }
    ensures { IfOk result (λ v. ArePicked schema.now.kinds id.place tag.place v.items) }
{
    let mut parts = Vec::new(alloc);
    add_all(&Choice { schema, id, tag }, arms, other, &mut parts)?;
    Ok(parts)
}

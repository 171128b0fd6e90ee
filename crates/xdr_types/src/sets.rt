//! The numbers of enumerations and the cases of unions as sets, in which a number is found in few steps.
ghost use Rattle.std.specs.Prelude.{◌≡◌, ◌^◌, ◌||◌, ℤ, length, map, true, IfOk, OnOk, IfSome};
ghost use Rattle.std.specs.BTreeSet.{contains, btree_set_len};
ghost use Rattle.std.specs.List.{All};
ghost use Rattle.std.specs.Ordering.{int_cmp, int_eq};
ghost use Rattle.xdr_types.specs.Kinds.{kind_at};
ghost use Rattle.xdr_types.specs.KindViews.{kind_view, constant_of, branch_of};
ghost use Rattle.xdr_types.specs.Fits.{is_numbered, is_listed, is_signed, is_tag_of};
ghost use Rattle.xdr_types.specs.Sound.{has_arm};
ghost use Rattle.xdr_types.specs.Private.Sets.{AreNumbers, HasNumbers, IsFilled};

use crate::choice::is_tag_number;
use crate::kind::{Arm, Kind, KindId};
use std::alloc::{AllocError, Global};
use std::collections::BTreeSet;
use std::string::String;

// So many members are as soon looked at one by one.
const FEW: usize = 16;

/// A member's number as a case.
pub fn as_case(number: i32) -> i64
    ensures value { result ≡ number }
    ensures int { is_signed (2 ^ 31) result ≡ true }
{
    i64::from(number)
}

/// The number of the last member, as a case.
pub fn last_of(members: &[(String, i32)]) -> Option<i64>
    ensures { IfSome result (λ z. is_numbered (map constant_of members.now) z ≡ true) }
{
    if members.is_empty() {
        return None;
    }
    Some(as_case(members[members.len() - 1].1))
}

// Puts a case into a set.
fn add_case(cases: &mut BTreeSet<i64>, case: i64) -> Result<(), AllocError>
    ensures { OnOk result ((z : ℤ) → contains int_cmp cases.new z ≡ (int_eq case z || contains int_cmp cases.old z)) }
{
    cases.insert(case)?;
    Ok(())
}

/// Whether a set has a case.
pub fn has_case(cases: &BTreeSet<i64>, case: i64) -> bool
    ensures { result ≡ contains int_cmp cases.now case }
{
    cases.contains(&case)
}

// The numbers of an enumeration's members. They mostly rise, and the least of a set is found soonest, so they are taken
// from the last one on.
fn numbers_of_members(alloc: Global, members: &[(String, i32)]) -> Result<BTreeSet<i64>, AllocError>
    ensures { IfOk result (λ s. (z : ℤ) → contains int_cmp s z ≡ is_numbered (map constant_of members.now) z) }
{
    let mut numbers = BTreeSet::new(alloc);
    for i in 0..members.len() {
        add_case(&mut numbers, as_case(members[members.len() - 1 - i].1))?;
    }
    Ok(numbers)
}

// The numbers of an enumeration, and none of another kind.
fn numbers_of(alloc: Global, kind: &Kind) -> Result<BTreeSet<i64>, AllocError>
    ensures { IfOk result (HasNumbers (kind_view kind.now)) }
{
    match kind {
        Kind::Numbered { members } => numbers_of_members(alloc, members),
        _ => Ok(BTreeSet::new(alloc)),
    }
}

/// So many sets without numbers. An error is an allocation failure.
pub fn no_numbers(alloc: Global, count: usize) -> Result<Vec<BTreeSet<i64>>, AllocError>
    ensures all { IfOk result (λ v. length v.items ≡ count) }
    ensures none { IfOk result (λ v. All (λ s. btree_set_len s ≡ 0) v.items) }
{
    let mut numbers = Vec::with_capacity(alloc, count)?;
    for _i in 0..count {
        numbers.push(BTreeSet::new(alloc))?;
    }
    Ok(numbers)
}

/// Puts the numbers of the enumeration at a place into its set, where that has none yet. An error is an allocation
/// failure.
pub fn fill_numbers(
    alloc: Global,
    kinds: &Vec<Kind>,
    numbers: &mut Vec<BTreeSet<i64>>,
    id: KindId,
) -> Result<(), AllocError>
    requires all { length numbers.old.items ≡ length kinds.now.items }
    requires numbers { AreNumbers (map kind_view kinds.now.items) numbers.old.items }
    ensures all { length numbers.new.items ≡ length kinds.now.items }
    ensures numbers { AreNumbers (map kind_view kinds.now.items) numbers.new.items }
    ensures filled { OnOk result (IsFilled (map kind_view kinds.now.items) numbers.new.items id.place) }
{
    let place = id.place as usize;
    if place < kinds.len() && numbers[place].is_empty() {
        numbers[place] = numbers_of(alloc, &kinds[place])?;
    }
    Ok(())
}

// Whether an enumeration of many members stands at a place.
fn is_long(kinds: &Vec<Kind>, id: KindId) -> bool {
    let place = id.place as usize;
    if place >= kinds.len() {
        return false;
    }
    match &kinds[place] {
        Kind::Numbered { members } => members.len() > FEW,
        _ => false,
    }
}

// The numbers of each enumeration of many members that is the discriminant of a union, at its place, and no numbers at
// the others. An error is an allocation failure.
fn numbers_of_tags(alloc: Global, kinds: &Vec<Kind>) -> Result<Vec<BTreeSet<i64>>, AllocError>
    ensures { IfOk result (λ v. AreNumbers (map kind_view kinds.now.items) v.items) }
{
    let mut numbers = no_numbers(alloc, kinds.len())?;
    for kind in kinds {
        if let Kind::Choice { tag, .. } = kind {
            if is_long(kinds, *tag) {
                fill_numbers(alloc, kinds, &mut numbers, *tag)?;
            }
        }
    }
    Ok(numbers)
}

/// The numbers of enumerations that are discriminants, each at its place, or no list where memory for them was refused.
pub fn numbers_or_none(alloc: Global, kinds: &Vec<Kind>) -> Vec<BTreeSet<i64>>
    ensures { AreNumbers (map kind_view kinds.now.items) result.items }
{
    match numbers_of_tags(alloc, kinds) {
        Ok(numbers) => numbers,
        Err(_) => Vec::new(alloc),
    }
}

/// Whether a discriminant of the kind may have the number. Members are looked at one by one where there is no set of
/// their numbers.
pub fn is_legal_case(kinds: &Vec<Kind>, numbers: &[BTreeSet<i64>], tag: KindId, number: i64) -> bool
    requires { AreNumbers (map kind_view kinds.now.items) numbers.now }
    ensures { result ≡ is_tag_of (kind_at (map kind_view kinds.now.items) tag.place) number }
{
    let place = tag.place as usize;
    if place >= kinds.len() || place >= numbers.len() {
        return is_tag_number(kinds, tag, number);
    }
    let listed = &numbers[place];
    match &kinds[place] {
        Kind::Numbered { members: _ } if !listed.is_empty() => has_case(listed, number),
        _ => is_tag_number(kinds, tag, number),
    }
}

// Puts cases into a set, from the last one on.
fn add_cases(cases: &mut BTreeSet<i64>, more: &[i64]) -> Result<(), AllocError>
    ensures { OnOk result
        ((z : ℤ) → contains int_cmp cases.new z ≡ (is_listed more.now z || contains int_cmp cases.old z)) }
{
    for i in 0..more.len() {
        add_case(cases, more[more.len() - 1 - i])?;
    }
    Ok(())
}

/// The cases of all the arms, which are taken from the last one on as well. An error is an allocation failure.
pub fn cases_of(alloc: Global, arms: &[Arm]) -> Result<BTreeSet<i64>, AllocError>
    ensures { IfOk result (λ s. (z : ℤ) → contains int_cmp s z ≡ has_arm (map branch_of arms.now) z) }
{
    let mut cases = BTreeSet::new(alloc);
    for i in 0..arms.len() {
        add_cases(&mut cases, &arms[arms.len() - 1 - i].cases)?;
    }
    Ok(cases)
}

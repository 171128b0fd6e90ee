//! Which defaults of unions can be reached: those of a union where some legal discriminant has no arm (RFC 4506 section
//! 4.15).
ghost use Rattle.std.specs.Prelude.{◌≡◌, ◌≤ℤ◌, ◌<ℤ◌, ℤ, ◌↔◌, length, map, IsTrue, IfOk, IfSome, true, false};
ghost use Rattle.std.specs.BTreeSet.{contains};
ghost use Rattle.std.specs.Ordering.{int_cmp};
ghost use Rattle.xdr_types.specs.Kinds.{kind_at};
ghost use Rattle.xdr_types.specs.KindViews.{kind_view, branch_of};
ghost use Rattle.xdr_types.specs.Fits.{is_tag_of};
ghost use Rattle.xdr_types.specs.Sound.{HasFreeTag};
ghost use Rattle.xdr_types.specs.Private.Sets.{AreNumbers, IsFilled, HasNumberOutside, HasFreeNumber, IsReached};
ghost use Rattle.xdr_types.specs.Private.Sets.{AreReached};

use crate::choice::has_no_arm;
use crate::kind::{Arm, Kind, KindId};
use crate::sets::{cases_of, fill_numbers, has_case, last_of, no_numbers};
use std::alloc::{AllocError, Global};
use std::collections::BTreeSet;

fn has_free_between(cases: &BTreeSet<i64>, low: i64, high: i64) -> bool
    requires { low ≤ℤ high }
    ensures { IsTrue result ↔ ((z : ℤ) × (low ≤ℤ z) × (z <ℤ high) × (contains int_cmp cases.now z ≡ false)) }
{
    for number in low..high {
        if !has_case(cases, number) {
            return true;
        }
    }
    false
}

// Whether some number is none of the cases.
fn has_number_outside(numbers: &BTreeSet<i64>, cases: &BTreeSet<i64>) -> bool
    ensures { IsTrue result ↔ HasNumberOutside numbers.now cases.now }
{
    !numbers.is_subset(cases)
}

// A number that a discriminant may have and that is seldom a case: the highest one, or that of the last member.
fn last_number(kinds: &Vec<Kind>, tag: KindId) -> Option<i64>
    ensures { IfSome result (λ z. is_tag_of (kind_at (map kind_view kinds.now.items) tag.place) z ≡ true) }
{
    let place = tag.place as usize;
    if place >= kinds.len() {
        return None;
    }
    match &kinds[place] {
        Kind::Int => Some(2147483647),
        Kind::Unsigned => Some(4294967295),
        Kind::Numbered { members } => last_of(members),
        _ => None,
    }
}

// Whether that number is no arm's, so that no other need be looked at.
fn is_last_free(kinds: &Vec<Kind>, tag: KindId, arms: &[Arm]) -> bool
    ensures { IsTrue result → HasFreeTag (kind_at (map kind_view kinds.now.items) tag.place) (map branch_of arms.now) }
{
    match last_number(kinds, tag) {
        Some(number) => has_no_arm(arms, number),
        None => false,
    }
}

// Whether some legal discriminant is none of the cases.
fn has_free_number(
    kinds: &Vec<Kind>,
    numbers: &Vec<BTreeSet<i64>>,
    tag: KindId,
    cases: &BTreeSet<i64>,
) -> bool
    requires filled { IsFilled (map kind_view kinds.now.items) numbers.now.items tag.place }
    requires all { length numbers.now.items ≡ length kinds.now.items }
    ensures { IsTrue result ↔ HasFreeNumber (kind_at (map kind_view kinds.now.items) tag.place) cases.now }
{
    let place = tag.place as usize;
    if place >= kinds.len() {
        return false;
    }
    match &kinds[place] {
        Kind::Int => has_free_between(cases, -2147483648, 2147483648),
        Kind::Unsigned => has_free_between(cases, 0, 4294967296),
        Kind::Bool => has_free_between(cases, 0, 2),
        Kind::Numbered { members: _ } => has_number_outside(&numbers[place], cases),
        _ => false,
    }
}

// Whether some legal discriminant of a union has no arm. The numbers of an enumeration are put into its set where the
// set is asked for. An error is an allocation failure.
fn has_free_tag(
    alloc: Global,
    kinds: &Vec<Kind>,
    numbers: &mut Vec<BTreeSet<i64>>,
    tag: KindId,
    arms: &[Arm],
) -> Result<bool, AllocError>
    requires numbers { AreNumbers (map kind_view kinds.now.items) numbers.old.items }
    requires all { length numbers.old.items ≡ length kinds.now.items }
    ensures numbers { AreNumbers (map kind_view kinds.now.items) numbers.new.items }
    ensures all { length numbers.new.items ≡ length kinds.now.items }
    ensures free { IfOk result (λ r. IsTrue r
        ↔ HasFreeTag (kind_at (map kind_view kinds.now.items) tag.place) (map branch_of arms.now)) }
{
    if is_last_free(kinds, tag, arms) {
        return Ok(true);
    }
    fill_numbers(alloc, kinds, numbers, tag)?;
    let cases = cases_of(alloc, arms)?;
    Ok(has_free_number(kinds, numbers, tag, &cases))
}

// Whether the default of a union can be reached, where it has one; false of any other kind.
fn is_default_reached(
    alloc: Global,
    kinds: &Vec<Kind>,
    numbers: &mut Vec<BTreeSet<i64>>,
    kind: &Kind,
) -> Result<bool, AllocError>
    requires numbers { AreNumbers (map kind_view kinds.now.items) numbers.old.items }
    requires all { length numbers.old.items ≡ length kinds.now.items }
    ensures numbers { AreNumbers (map kind_view kinds.now.items) numbers.new.items }
    ensures all { length numbers.new.items ≡ length kinds.now.items }
    ensures reached { IfOk result (IsReached (map kind_view kinds.now.items) (kind_view kind.now)) }
{
    match kind {
        Kind::Choice {
            tag,
            arms,
            other: Some(_),
        } => has_free_tag(alloc, kinds, numbers, *tag, arms),
        _ => Ok(false),
    }
}

/// For each kind, whether a default of it can be reached. An error is an allocation failure.
pub fn reached_defaults(alloc: Global, kinds: &Vec<Kind>) -> Result<Vec<bool>, AllocError>
    ensures { IfOk result (λ v. AreReached (map kind_view kinds.now.items) v.items) }
{
    let mut numbers = no_numbers(alloc, kinds.len())?;
    let mut reached = Vec::with_capacity(alloc, kinds.len())?;
    for kind in kinds {
        reached.push(is_default_reached(alloc, kinds, &mut numbers, kind)?)?;
    }
    Ok(reached)
}

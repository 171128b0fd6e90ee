//! The numbers of the members of an enumeration and of the arms of a union in order, so that one is found in few steps.
ghost use Rattle.std.specs.Prelude.{◌≡◌, ◌<◌, ◌≤◌, ◌<ℤ◌, ◌≤ℤ◌, ℕ, ℤ, length, map, Some, None, if◌then◌else◌, IfOk};
ghost use Rattle.std.specs.Prelude.{OnOk};
ghost use Rattle.std.specs.Option.{option_or};
ghost use Rattle.std.specs.Ordering.{int_eq};
ghost use Rattle.xdr_types.specs.KindViews.{kind_view, constant_of, branch_of};
ghost use Rattle.xdr_types.specs.Fits.{is_listed};
ghost use Rattle.xdr_types.specs.Private.Lookups.{member_from, arm_from, number_at, first_at, AreInOrder, MayFind};

use crate::kind::{Arm, Kind};
use crate::sets::as_case;
use std::alloc::{AllocError, Global};
use std::string::String;

// So many numbers are as soon looked at one by one.
const FEW: usize = 8;

// How many entries have lower numbers, by halves.
fn count_lower(found: &Vec<(i64, usize)>, number: i64) -> usize
    requires { AreInOrder found.now.items }
    ensures below { (i : ℕ) → i < result → number_at found.now.items i <ℤ number }
    ensures above { (i : ℕ) → result ≤ i → i < length found.now.items → number ≤ℤ number_at found.now.items i }
{
    let mut low = 0;
    let mut high = found.len();
    while low < high {
        let middle = low + (high - low) / 2;
        if found[middle].0 < number {
            low = middle + 1;
        } else {
            high = middle;
        }
    }
    low
}

/// The index of the first entry with a number.
pub fn index_in(found: &Vec<(i64, usize)>, number: i64) -> Option<usize>
    requires { AreInOrder found.now.items }
    ensures { result ≡ first_at found.now.items number }
{
    let place = count_lower(found, number);
    if place >= found.len() {
        return None;
    }
    let (lowest, index) = found[place];
    if lowest == number { Some(index) } else { None }
}

// One more entry at the end.
fn add_number(found: &mut Vec<(i64, usize)>, number: i64, index: usize) -> Result<(), AllocError>
    ensures { OnOk result ((z : ℤ) → first_at found.new.items z
        ≡ option_or (first_at found.old.items z) (if int_eq number z then Some index else None)) }
{
    found.push((number, index))?;
    Ok(())
}

// Puts entries in order. Those with one number stay in turn. An error is an allocation failure.
fn put_in_order(found: &mut Vec<(i64, usize)>) -> Result<(), AllocError>
    ensures { OnOk result (AreInOrder found.new.items
        × ((z : ℤ) → first_at found.new.items z ≡ first_at found.old.items z)) }
{
    found.sort_by_key(|entry| entry.0)
}

// Leaves the first entry of each number, and gives back the memory of the others.
fn keep_firsts(found: &mut Vec<(i64, usize)>)
    requires { AreInOrder found.old.items }
    ensures ordered { AreInOrder found.new.items }
    ensures firsts { (z : ℤ) → first_at found.new.items z ≡ first_at found.old.items z }
{
    found.dedup_by_key(|entry| entry.0);
    found.shrink_to_fit();
}

// The first member that has a number, for each number of an enumeration.
fn members_by_number(
    alloc: Global,
    members: &[(String, i32)],
) -> Result<Vec<(i64, usize)>, AllocError>
    ensures { IfOk result (λ v. (z : ℤ) → first_at v.items z ≡ member_from 0 (map constant_of members.now) z) }
{
    let mut found = Vec::with_capacity(alloc, members.len())?;
    for (index, member) in members.iter().enumerate() {
        add_number(&mut found, as_case(member.1), index)?;
    }
    Ok(found)
}

// One more entry for each of the cases.
fn add_numbers(found: &mut Vec<(i64, usize)>, cases: &[i64], index: usize) -> Result<(), AllocError>
    ensures { OnOk result ((z : ℤ) → first_at found.new.items z
        ≡ option_or (first_at found.old.items z) (if is_listed cases.now z then Some index else None)) }
{
    for case in cases {
        add_number(found, *case, index)?;
    }
    Ok(())
}

// How many cases the arms have.
fn count_cases(arms: &[Arm]) -> usize {
    let mut count: usize = 0;
    for arm in arms {
        count = count.saturating_add(arm.cases.len());
    }
    count
}

// The first arm that lists a case, for each case of a union.
fn arms_by_case(alloc: Global, arms: &[Arm]) -> Result<Vec<(i64, usize)>, AllocError>
    ensures { IfOk result (λ v. (z : ℤ) → first_at v.items z ≡ arm_from 0 (map branch_of arms.now) z) }
{
    let mut found = Vec::with_capacity(alloc, count_cases(arms))?;
    for (index, arm) in arms.iter().enumerate() {
        add_numbers(&mut found, &arm.cases, index)?;
    }
    Ok(found)
}

// Whether the arms, and the cases of each, are few.
fn are_few(arms: &[Arm]) -> bool {
    if arms.len() > FEW {
        return false;
    }
    for arm in arms {
        if arm.cases.len() > FEW {
            return false;
        }
    }
    true
}

/// The entries of an enumeration or a union whose numbers are many. An error is an allocation failure.
pub fn lookup_of(alloc: Global, kind: &Kind) -> Result<Option<Vec<(i64, usize)>>, AllocError>
    ensures { IfOk result (MayFind (kind_view kind.now)) }
{
    let mut found = match kind {
        Kind::Numbered { members } if members.len() > FEW => members_by_number(alloc, members)?,
        Kind::Choice { arms, .. } if !are_few(arms) => arms_by_case(alloc, arms)?,
        _ => return Ok(None),
    };
    put_in_order(&mut found)?;
    keep_firsts(&mut found);
    Ok(Some(found))
}

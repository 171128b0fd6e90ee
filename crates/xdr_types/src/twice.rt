//! Whether a name or a case is there twice, found by a set of those after one. Where memory for a set is refused, all
//! pairs are looked at, which is slow and needs none.
ghost use Rattle.std.specs.Prelude.{◌≡◌, ◌&&◌, ◌||◌, ℤ, false, not, string_bytes, IfOk, map, option_map};
ghost use Rattle.std.specs.List.{list_any};
ghost use Rattle.std.specs.BTreeSet.{contains};
ghost use Rattle.std.specs.Ordering.{int_cmp};
ghost use Rattle.std.specs.Str.{bytes_eq};
ghost use Rattle.xdr_types.specs.Kinds.{Part, Branch, Constant};
ghost use Rattle.xdr_types.specs.KindViews.{kind_view, constant_of, part_of_member, branch_of};
ghost use Rattle.xdr_types.specs.Fits.{is_listed};
ghost use Rattle.xdr_types.specs.Sound.{has_arm};
ghost use Rattle.xdr_types.specs.Faults.{some_optional, is_none, case_twice, arms_case_twice, has_case_twice};
ghost use Rattle.xdr_types.specs.Faults.{constant_twice, part_twice, arm_twice, has_name_twice};

use crate::choice::{has_no_arm, lists};
use crate::kind::{Arm, Kind, Member};
use crate::rising::cases_rise;
use std::alloc::{AllocError, Global};
use std::collections::BTreeSet;
use std::string::String;

// Whether two members have one name. An error is an allocation failure.
fn constant_repeats(alloc: Global, members: &[(String, i32)]) -> Result<bool, AllocError>
    ensures { IfOk result (λ b. b ≡ constant_twice (map constant_of members.now)) }
{
    let mut later = BTreeSet::new(alloc);
    for i in 0..members.len() {
        let member = &members[members.len() - 1 - i];
        if !later.insert(member.0.as_str())? {
            return Ok(true);
        }
    }
    Ok(false)
}

// Whether two fields have one name. An error is an allocation failure.
fn field_repeats(alloc: Global, fields: &[Member]) -> Result<bool, AllocError>
    ensures { IfOk result (λ b. b ≡ part_twice (map part_of_member fields.now)) }
{
    let mut later = BTreeSet::new(alloc);
    for i in 0..fields.len() {
        let field = &fields[fields.len() - 1 - i];
        if !later.insert(field.name.as_str())? {
            return Ok(true);
        }
    }
    Ok(false)
}

// Whether a name counts and is not new.
fn is_again(name: &String, is_new: bool) -> bool
    ensures { result ≡ (not (is_none (string_bytes name.now)) && not is_new) }
{
    !is_no_name(name) && !is_new
}

// Whether two arms, or an arm and the other part, have one name that is not empty. An error is an allocation failure.
fn arm_repeats(alloc: Global, arms: &[Arm], other: &Option<Member>) -> Result<bool, AllocError>
    ensures { IfOk result (λ b. b ≡ arm_twice (map branch_of arms.now) (option_map part_of_member other.now)) }
{
    let mut later = BTreeSet::new(alloc);
    if let Some(member) = other {
        later.insert(member.name.as_str())?;
    }
    for i in 0..arms.len() {
        let arm = &arms[arms.len() - 1 - i];
        let is_new = later.insert(arm.member.name.as_str())?;
        if is_again(&arm.member.name, is_new) {
            return Ok(true);
        }
    }
    Ok(false)
}

// Puts cases into a set, up to one that it has. Whether there is such a one.
fn is_refilled(later: &mut BTreeSet<i64>, cases: &[i64]) -> Result<bool, AllocError>
    ensures again { IfOk result (λ b. b ≡ (case_twice cases.now || list_any (contains int_cmp later.old) cases.now)) }
    ensures added { IfOk result
        (λ b. b ≡ false → (z : ℤ)
        → contains int_cmp later.new z ≡ (is_listed cases.now z || contains int_cmp later.old z)) }
{
    for i in 0..cases.len() {
        let case = cases[cases.len() - 1 - i];
        if !later.insert(case)? {
            return Ok(true);
        }
    }
    Ok(false)
}

// Whether a case is there twice among the arms. An error is an allocation failure.
fn case_repeats(alloc: Global, arms: &[Arm]) -> Result<bool, AllocError>
    ensures { IfOk result (λ b. b ≡ arms_case_twice (map branch_of arms.now)) }
{
    let mut later = BTreeSet::new(alloc);
    for i in 0..arms.len() {
        let arm = &arms[arms.len() - 1 - i];
        if is_refilled(&mut later, &arm.cases)? {
            return Ok(true);
        }
    }
    Ok(false)
}

/// Whether two texts are the same.
pub fn is_same_name(a: &String, b: &String) -> bool
    ensures { result ≡ bytes_eq (string_bytes a.now) (string_bytes b.now) }
{
    a == b
}

fn names_constant(members: &[(String, i32)], name: &String) -> bool
    ensures { result
        ≡ list_any (λ (d : Constant). bytes_eq (string_bytes name.now) d.name) (map constant_of members.now) }
{
    for member in members {
        if is_same_name(name, &member.0) {
            return true;
        }
    }
    false
}

// Whether two members have one name.
fn constant_in_pairs(members: &Vec<(String, i32)>) -> bool
    ensures { result ≡ constant_twice (map constant_of members.now.items) }
{
    for (i, member) in members.iter().enumerate() {
        if names_constant(&members[i + 1..], &member.0) {
            return true;
        }
    }
    false
}

fn names_field(fields: &[Member], name: &String) -> bool
    ensures { result
        ≡ list_any (λ (q : Part). bytes_eq (string_bytes name.now) q.name) (map part_of_member fields.now) }
{
    for field in fields {
        if is_same_name(name, &field.name) {
            return true;
        }
    }
    false
}

// Whether two fields have one name.
fn field_in_pairs(fields: &Vec<Member>) -> bool
    ensures { result ≡ part_twice (map part_of_member fields.now.items) }
{
    for (i, field) in fields.iter().enumerate() {
        if names_field(&fields[i + 1..], &field.name) {
            return true;
        }
    }
    false
}

fn names_arm(arms: &[Arm], name: &String) -> bool
    ensures { result
        ≡ list_any (λ (b : Branch). bytes_eq (string_bytes name.now) b.part.name) (map branch_of arms.now) }
{
    for arm in arms {
        if is_same_name(name, &arm.member.name) {
            return true;
        }
    }
    false
}

fn names_other(other: &Option<Member>, name: &String) -> bool
    ensures { result
        ≡ some_optional (λ (q : Part). bytes_eq (string_bytes name.now) q.name) (option_map part_of_member other.now) }
{
    match other {
        Some(member) => is_same_name(name, &member.name),
        None => false,
    }
}

// Whether a name that is not empty is one of later arms or of the other part.
fn is_name_again(arms: &[Arm], other: &Option<Member>, name: &String) -> bool
    ensures { result ≡ not (is_none (string_bytes name.now))
        && (list_any (λ (b : Branch). bytes_eq (string_bytes name.now) b.part.name) (map branch_of arms.now)
        || some_optional (λ (q : Part). bytes_eq (string_bytes name.now) q.name)
        (option_map part_of_member other.now)) }
{
    if is_no_name(name) {
        return false;
    }
    names_arm(arms, name) || names_other(other, name)
}

// Whether a name is empty.
fn is_no_name(name: &String) -> bool
    ensures { result ≡ is_none (string_bytes name.now) }
{
    name.is_empty()
}

// Whether two arms, or an arm and the other part, have one name that is not empty.
fn arm_in_pairs(arms: &Vec<Arm>, other: &Option<Member>) -> bool
    ensures { result ≡ arm_twice (map branch_of arms.now.items) (option_map part_of_member other.now) }
{
    for (i, arm) in arms.iter().enumerate() {
        if is_name_again(&arms[i + 1..], other, &arm.member.name) {
            return true;
        }
    }
    false
}

fn case_twice(cases: &Vec<i64>) -> bool
    ensures { result ≡ case_twice cases.now.items }
{
    for (i, case) in cases.iter().enumerate() {
        if lists(&cases[i + 1..], *case) {
            return true;
        }
    }
    false
}

// Whether an arm has one of the cases.
fn some_has_arm(arms: &[Arm], cases: &Vec<i64>) -> bool
    ensures { result ≡ list_any (has_arm (map branch_of arms.now)) cases.now.items }
{
    for case in cases {
        if !has_no_arm(arms, *case) {
            return true;
        }
    }
    false
}

fn case_in_pairs(arms: &Vec<Arm>) -> bool
    ensures { result ≡ arms_case_twice (map branch_of arms.now.items) }
{
    for (i, arm) in arms.iter().enumerate() {
        if case_twice(&arm.cases) || some_has_arm(&arms[i + 1..], &arm.cases) {
            return true;
        }
    }
    false
}

fn arms_case_twice(alloc: Global, arms: &Vec<Arm>) -> bool
    ensures { result ≡ arms_case_twice (map branch_of arms.now.items) }
{
    if cases_rise(arms) {
        return false;
    }
    match case_repeats(alloc, arms) {
        Ok(twice) => twice,
        Err(_) => case_in_pairs(arms),
    }
}

/// Whether the kind is a union with a case that stands twice.
pub fn has_case_twice(alloc: Global, kind: &Kind) -> bool
    ensures { result ≡ has_case_twice (kind_view kind.now) }
{
    match kind {
        Kind::Choice {
            tag: _,
            arms,
            other: _,
        } => arms_case_twice(alloc, arms),
        _ => false,
    }
}

fn constant_twice(alloc: Global, members: &Vec<(String, i32)>) -> bool
    ensures { result ≡ constant_twice (map constant_of members.now.items) }
{
    match constant_repeats(alloc, members) {
        Ok(twice) => twice,
        Err(_) => constant_in_pairs(members),
    }
}

fn field_twice(alloc: Global, fields: &Vec<Member>) -> bool
    ensures { result ≡ part_twice (map part_of_member fields.now.items) }
{
    match field_repeats(alloc, fields) {
        Ok(twice) => twice,
        Err(_) => field_in_pairs(fields),
    }
}

fn arm_twice(alloc: Global, arms: &Vec<Arm>, other: &Option<Member>) -> bool
    ensures { result ≡ arm_twice (map branch_of arms.now.items) (option_map part_of_member other.now) }
{
    match arm_repeats(alloc, arms, other) {
        Ok(twice) => twice,
        Err(_) => arm_in_pairs(arms, other),
    }
}

/// Whether one name stands twice within the kind.
pub fn has_name_twice(alloc: Global, kind: &Kind) -> bool
    ensures { result ≡ has_name_twice (kind_view kind.now) }
{
    match kind {
        Kind::Numbered { members } => constant_twice(alloc, members),
        Kind::Structure { fields } => field_twice(alloc, fields),
        Kind::Choice {
            tag: _,
            arms,
            other,
        } => arm_twice(alloc, arms, other),
        _ => false,
    }
}

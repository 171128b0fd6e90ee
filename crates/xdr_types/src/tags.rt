//! Discriminants of a kind that can be none, and cases that are no number of their discriminant (RFC 4506 section
//! 4.15).
ghost use Rattle.std.specs.Prelude.{◌≡◌, ℤ, map, not};
ghost use Rattle.std.specs.List.{list_any};
ghost use Rattle.xdr_types.specs.Kinds.{Branch, kind_at};
ghost use Rattle.xdr_types.specs.KindViews.{kind_view, branch_of};
ghost use Rattle.xdr_types.specs.Fits.{is_tag_of};
ghost use Rattle.xdr_types.specs.Faults.{is_tag, has_bad_tag, has_illegal_case};
ghost use Rattle.xdr_types.specs.Private.Sets.{AreNumbers};

use crate::kind::{Arm, Kind, KindId};
use crate::sets::is_legal_case;
use std::collections::BTreeSet;

fn is_tag(kinds: &Vec<Kind>, id: KindId) -> bool
    ensures { result ≡ is_tag (kind_at (map kind_view kinds.now.items) id.place) }
{
    let place = id.place as usize;
    if place >= kinds.len() {
        return false;
    }
    match &kinds[place] {
        Kind::Int => true,
        Kind::Unsigned => true,
        Kind::Bool => true,
        Kind::Numbered { members: _ } => true,
        _ => false,
    }
}

/// Whether the kind is a union over a kind that can be no discriminant.
pub fn has_bad_tag(kinds: &Vec<Kind>, kind: &Kind) -> bool
    ensures { result ≡ has_bad_tag (map kind_view kinds.now.items) (kind_view kind.now) }
{
    match kind {
        Kind::Choice {
            tag,
            arms: _,
            other: _,
        } => !is_tag(kinds, *tag),
        _ => false,
    }
}

fn some_illegal(kinds: &Vec<Kind>, numbers: &[BTreeSet<i64>], tag: KindId, cases: &Vec<i64>) -> bool
    requires { AreNumbers (map kind_view kinds.now.items) numbers.now }
    ensures { result
        ≡ list_any (λ (z : ℤ). not (is_tag_of (kind_at (map kind_view kinds.now.items) tag.place) z)) cases.now.items }
{
    for case in cases {
        if !is_legal_case(kinds, numbers, tag, *case) {
            return true;
        }
    }
    false
}

fn some_arm_illegal(
    kinds: &Vec<Kind>,
    numbers: &[BTreeSet<i64>],
    tag: KindId,
    arms: &Vec<Arm>,
) -> bool
    requires { AreNumbers (map kind_view kinds.now.items) numbers.now }
    ensures { result
        ≡ list_any (λ (a : Branch). list_any
        (λ (z : ℤ). not (is_tag_of (kind_at (map kind_view kinds.now.items) tag.place) z)) a.cases)
        (map branch_of arms.now.items) }
{
    for arm in arms {
        if some_illegal(kinds, numbers, tag, &arm.cases) {
            return true;
        }
    }
    false
}

/// Whether the kind is a union with a case that its discriminant may not have.
pub fn has_illegal_case(kinds: &Vec<Kind>, numbers: &[BTreeSet<i64>], kind: &Kind) -> bool
    requires { AreNumbers (map kind_view kinds.now.items) numbers.now }
    ensures { result ≡ has_illegal_case (map kind_view kinds.now.items) (kind_view kind.now) }
{
    match kind {
        Kind::Choice {
            tag,
            arms,
            other: _,
        } => some_arm_illegal(kinds, numbers, *tag, arms),
        _ => false,
    }
}

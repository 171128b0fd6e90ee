//! The first flaw of a kind, in the order in which flaws are listed.
ghost use Rattle.std.specs.Prelude.{◌≡◌, map, length, MatchOption};
ghost use Rattle.xdr_types.specs.KindViews.{kind_view};
ghost use Rattle.xdr_types.specs.Faults.{kind_flaw, kind_flaw_at, AreFlawless};
ghost use Rattle.xdr_types.specs.Refused.{IsFirstFlaw};
ghost use Rattle.xdr_types.specs.Private.Sets.{AreNumbers};

use crate::empty::has_empty_list;
use crate::fault::{Flaw, SchemaFault};
use crate::kind::Kind;
use crate::places::{has_unknown, has_void, is_zero_size};
use crate::sets::numbers_or_none;
use crate::tags::{has_bad_tag, has_illegal_case};
use crate::twice::{has_case_twice, has_name_twice};
use std::alloc::Global;
use std::collections::BTreeSet;

fn kind_flaw(
    alloc: Global,
    kinds: &Vec<Kind>,
    numbers: &[BTreeSet<i64>],
    kind: &Kind,
) -> Option<Flaw>
    requires { AreNumbers (map kind_view kinds.now.items) numbers.now }
    ensures { result ≡ kind_flaw (map kind_view kinds.now.items) (kind_view kind.now) }
{
    if has_unknown(kinds, kind) {
        return Some(Flaw::UnknownKind);
    }
    if is_zero_size(kind) {
        return Some(Flaw::ZeroSize);
    }
    if has_void(kinds, kind) {
        return Some(Flaw::VoidMember);
    }
    if has_bad_tag(kinds, kind) {
        return Some(Flaw::BadDiscriminant);
    }
    if has_case_twice(alloc, kind) {
        return Some(Flaw::CaseTwice);
    }
    if has_illegal_case(kinds, numbers, kind) {
        return Some(Flaw::CaseNotLegal);
    }
    if has_empty_list(kind) {
        return Some(Flaw::EmptyList);
    }
    if has_name_twice(alloc, kind) {
        return Some(Flaw::NameTwice);
    }
    None
}

/// The first flaw of a kind, at its place; none where no kind has one.
pub fn first_in_kinds(alloc: Global, kinds: &Vec<Kind>) -> Option<SchemaFault>
    ensures { MatchOption result
        (AreFlawless (kind_flaw_at (map kind_view kinds.now.items)) (length kinds.now.items))
        (IsFirstFlaw (kind_flaw_at (map kind_view kinds.now.items)) (length kinds.now.items)) }
{
    let numbers = numbers_or_none(alloc, kinds);
    for (place, kind) in kinds.iter().enumerate() {
        if let Some(why) = kind_flaw(alloc, kinds, &numbers, kind) {
            return Some(SchemaFault { why, place });
        }
    }
    None
}

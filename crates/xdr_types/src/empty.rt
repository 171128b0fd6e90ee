//! Enumerations, structures, unions and arms without entries (RFC 4506 sections 4.3, 4.14, 4.15).
ghost use Rattle.std.specs.Prelude.{◌≡◌, ◌^◌, map};
ghost use Rattle.std.specs.List.{list_any};
ghost use Rattle.xdr_types.specs.Kinds.{Branch, Constant};
ghost use Rattle.xdr_types.specs.KindViews.{kind_view, constant_of, branch_of};
ghost use Rattle.xdr_types.specs.Fits.{is_signed};
ghost use Rattle.xdr_types.specs.Faults.{is_none, has_empty_list};

use crate::fit::every_i32_is_int;
use crate::kind::{Arm, Kind};
use std::string::String;

fn has_member(members: &Vec<(String, i32)>) -> bool
    ensures { result ≡ list_any (λ (c : Constant). is_signed (2 ^ 31) c.number) (map constant_of members.now.items) }
{
    for member in members {
        if every_i32_is_int(member.1) {
            return true;
        }
    }
    false
}

fn has_no_case(arm: &Arm) -> bool
    ensures { result ≡ is_none arm.now.cases.items }
{
    arm.cases.is_empty()
}

fn some_arm_empty(arms: &Vec<Arm>) -> bool
    ensures { result ≡ list_any (λ (a : Branch). is_none a.cases) (map branch_of arms.now.items) }
{
    for arm in arms {
        if has_no_case(arm) {
            return true;
        }
    }
    false
}

/// Whether the kind or an arm of it has no entries.
pub fn has_empty_list(kind: &Kind) -> bool
    ensures { result ≡ has_empty_list (kind_view kind.now) }
{
    match kind {
        Kind::Numbered { members } => !has_member(members),
        Kind::Structure { fields } => fields.is_empty(),
        Kind::Choice {
            tag: _,
            arms,
            other: _,
        } => arms.is_empty() || some_arm_empty(arms),
        _ => false,
    }
}

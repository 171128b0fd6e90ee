//! Places that a kind names: outside the list, of a void kind, and an opaque or an array of size 0.
ghost use Rattle.std.specs.Prelude.{◌≡◌, map, option_map};
ghost use Rattle.std.specs.List.{list_any};
ghost use Rattle.xdr_types.specs.Kinds.{Part, Branch};
ghost use Rattle.xdr_types.specs.KindViews.{kind_view, part_of_member, branch_of};
ghost use Rattle.xdr_types.specs.Faults.{some_optional, is_outside, has_unknown, is_zero_size, is_void};
ghost use Rattle.xdr_types.specs.Faults.{has_void};

use crate::kind::{Arm, Kind, KindId, Member};

/// Whether the list does not have the place.
pub fn is_outside(kinds: &Vec<Kind>, id: KindId) -> bool
    ensures { result ≡ is_outside (map kind_view kinds.now.items) id.place }
{
    id.place as usize >= kinds.len()
}

/// Whether the void kind stands at the place.
pub fn is_void(kinds: &Vec<Kind>, id: KindId) -> bool
    ensures { result ≡ is_void (map kind_view kinds.now.items) id.place }
{
    let place = id.place as usize;
    if place >= kinds.len() {
        return false;
    }
    match &kinds[place] {
        Kind::Nothing => true,
        _ => false,
    }
}

fn some_field_outside(kinds: &Vec<Kind>, fields: &Vec<Member>) -> bool
    ensures { result
        ≡ list_any (λ (p : Part). is_outside (map kind_view kinds.now.items) p.kind)
        (map part_of_member fields.now.items) }
{
    for field in fields {
        if is_outside(kinds, field.kind) {
            return true;
        }
    }
    false
}

fn some_field_void(kinds: &Vec<Kind>, fields: &Vec<Member>) -> bool
    ensures { result
        ≡ list_any (λ (p : Part). is_void (map kind_view kinds.now.items) p.kind)
        (map part_of_member fields.now.items) }
{
    for field in fields {
        if is_void(kinds, field.kind) {
            return true;
        }
    }
    false
}

fn some_arm_outside(kinds: &Vec<Kind>, arms: &Vec<Arm>) -> bool
    ensures { result
        ≡ list_any (λ (a : Branch). is_outside (map kind_view kinds.now.items) a.part.kind)
        (map branch_of arms.now.items) }
{
    for arm in arms {
        if is_outside(kinds, arm.member.kind) {
            return true;
        }
    }
    false
}

fn is_other_outside(kinds: &Vec<Kind>, other: &Option<Member>) -> bool
    ensures { result
        ≡ some_optional (λ (p : Part). is_outside (map kind_view kinds.now.items) p.kind)
        (option_map part_of_member other.now) }
{
    match other {
        Some(member) => is_outside(kinds, member.kind),
        None => false,
    }
}

/// Whether the kind names a place outside the list.
pub fn has_unknown(kinds: &Vec<Kind>, kind: &Kind) -> bool
    ensures { result ≡ has_unknown (map kind_view kinds.now.items) (kind_view kind.now) }
{
    match kind {
        Kind::Fixed { item, size: _ } => is_outside(kinds, *item),
        Kind::UpTo { item, max: _ } => is_outside(kinds, *item),
        Kind::Structure { fields } => some_field_outside(kinds, fields),
        Kind::Choice { tag, arms, other } => {
            is_outside(kinds, *tag)
                || (some_arm_outside(kinds, arms) || is_other_outside(kinds, other))
        }
        Kind::Maybe { item } => is_outside(kinds, *item),
        _ => false,
    }
}

/// Whether a field or an item of the kind is void.
pub fn has_void(kinds: &Vec<Kind>, kind: &Kind) -> bool
    ensures { result ≡ has_void (map kind_view kinds.now.items) (kind_view kind.now) }
{
    match kind {
        Kind::Fixed { item, size: _ } => is_void(kinds, *item),
        Kind::UpTo { item, max: _ } => is_void(kinds, *item),
        Kind::Structure { fields } => some_field_void(kinds, fields),
        Kind::Maybe { item } => is_void(kinds, *item),
        _ => false,
    }
}

/// Whether the kind is a fixed opaque or a fixed array of size 0.
pub fn is_zero_size(kind: &Kind) -> bool
    ensures { result ≡ is_zero_size (kind_view kind.now) }
{
    match kind {
        Kind::Opaque { size } => *size == 0,
        Kind::Fixed { item: _, size } => *size == 0,
        _ => false,
    }
}

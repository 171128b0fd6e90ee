//! The first flaw of a name of a schema: it names no kind or a void one, or stands there twice.
ghost use Rattle.std.specs.Prelude.{◌≡◌, map, string_bytes, length, if◌then◌else◌, IfOk, MatchOption};
ghost use Rattle.std.specs.List.{list_any};
ghost use Rattle.std.specs.Str.{bytes_eq};
ghost use Rattle.xdr_types.specs.Kinds.{Part};
ghost use Rattle.xdr_types.specs.KindViews.{kind_view, name_of};
ghost use Rattle.xdr_types.specs.Faults.{name_flaw, name_flaw_at, AreFlawless};
ghost use Rattle.xdr_types.specs.Refused.{IsFirstFlaw};

use crate::fault::{Flaw, SchemaFault};
use crate::kind::{Kind, KindId};
use crate::places::{is_outside, is_void};
use crate::twice::is_same_name;
use std::alloc::{AllocError, Global};
use std::collections::BTreeSet;
use std::string::String;

fn is_named(names: &[(String, KindId)], name: &String) -> bool
    ensures { result ≡ list_any (λ (p : Part). bytes_eq p.name (string_bytes name.now)) (map name_of names.now) }
{
    for entry in names {
        if is_same_name(&entry.0, name) {
            return true;
        }
    }
    false
}

fn name_flaw(
    kinds: &Vec<Kind>,
    before: &[(String, KindId)],
    name: &(String, KindId),
) -> Option<Flaw>
    ensures { result ≡ name_flaw (map kind_view kinds.now.items) (map name_of before.now) (name_of name.now) }
{
    if is_outside(kinds, name.1) {
        return Some(Flaw::UnknownKind);
    }
    if is_void(kinds, name.1) {
        return Some(Flaw::VoidMember);
    }
    if is_named(before, &name.0) {
        return Some(Flaw::NameTwice);
    }
    None
}

// The first flaw of a name, at its place, by a comparison with all names before it, which needs no memory.
fn first_in_turn(kinds: &Vec<Kind>, names: &Vec<(String, KindId)>) -> Option<SchemaFault>
    ensures { MatchOption result
        (AreFlawless (name_flaw_at (map kind_view kinds.now.items) (map name_of names.now.items))
        (length names.now.items))
        (IsFirstFlaw (name_flaw_at (map kind_view kinds.now.items) (map name_of names.now.items))
        (length names.now.items)) }
{
    for (place, name) in names.iter().enumerate() {
        if let Some(why) = name_flaw(kinds, &names[..place], name) {
            return Some(SchemaFault { why, place });
        }
    }
    None
}

// How many of the names before a place are looked at: none for a new name.
fn looked_at(is_new: bool, place: usize) -> usize
    ensures { result ≡ (if is_new then 0 else place) }
{
    if is_new { 0 } else { place }
}

// The first flaw of a name, by a set of the names before one. They are looked at in turn only where it is one of them.
fn first_by_set(
    alloc: Global,
    kinds: &Vec<Kind>,
    names: &Vec<(String, KindId)>,
) -> Result<Option<SchemaFault>, AllocError>
    ensures { IfOk result (λ fault. MatchOption fault
        (AreFlawless (name_flaw_at (map kind_view kinds.now.items) (map name_of names.now.items))
        (length names.now.items))
        (IsFirstFlaw (name_flaw_at (map kind_view kinds.now.items) (map name_of names.now.items))
        (length names.now.items))) }
{
    let mut earlier = BTreeSet::new(alloc);
    for (place, name) in names.iter().enumerate() {
        let is_new = earlier.insert(name.0.as_str())?;
        let before = looked_at(is_new, place);
        if let Some(why) = name_flaw(kinds, &names[..before], name) {
            return Ok(Some(SchemaFault { why, place }));
        }
    }
    Ok(None)
}

/// The first flaw of a name, at its place; none where no name has one.
pub fn first_in_names(
    alloc: Global,
    kinds: &Vec<Kind>,
    names: &Vec<(String, KindId)>,
) -> Option<SchemaFault>
    ensures { MatchOption result
        (AreFlawless (name_flaw_at (map kind_view kinds.now.items) (map name_of names.now.items))
        (length names.now.items))
        (IsFirstFlaw (name_flaw_at (map kind_view kinds.now.items) (map name_of names.now.items))
        (length names.now.items)) }
{
    match first_by_set(alloc, kinds, names) {
        Ok(fault) => fault,
        Err(_) => first_in_turn(kinds, names),
    }
}

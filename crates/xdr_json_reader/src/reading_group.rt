//! Structures and void (RFC 4506 sections 4.14, 4.16).
ghost use Rattle.std.specs.Prelude.{◌≡◌, ◌++◌, ℕ, List, length, map, true, false, OnOk, IfOk};
ghost use Rattle.std.specs.Bool.{MatchBool, OnTrue};
ghost use Rattle.std.specs.BTreeMap.{get_by};
ghost use Rattle.std.specs.Cmp.Lexicographic.{slice_cmp};
ghost use Rattle.std.specs.Ordering.{nat_cmp};
ghost use Rattle.xdr_types.specs.Kinds.{KindView, structure, nothing};
ghost use Rattle.xdr_types.specs.KindViews.{part_of_member};
ghost use Rattle.xdr_types.specs.Faults.{part_twice};
ghost use Rattle.xdr_json.specs.Spelled.{has_each};
ghost use Rattle.xdr_json_reader.specs.Tape.{json_in, members_of};
ghost use Rattle.xdr_json_reader.specs.Private.Look.{pairs};
ghost use Rattle.xdr_json_reader.specs.Nodes.{Due, each};
ghost use Rattle.xdr_json_reader.specs.Private.Entries.{dues};
ghost use Rattle.xdr_json_reader.specs.Private.Groups.{ReadAt};
ghost use Rattle.xdr_json_reader.specs.Private.Fields.{keys, nodes, names, at_each, Finds};

use crate::fault::{JsonFault, JsonReason};
use crate::reading_entry::{Entry, push_node};
use crate::reading_look::{Shape, look};
use crate::reading_member::other_members;
use crate::tape::{Key, Node};
use std::alloc::Global;
use std::collections::BTreeMap;
use xdr_types::{Member, NoMemory};

/// Reads a void, which has no bytes.
pub fn read_nothing(node: &Node<'_>) -> Result<(), JsonFault>
    ensures { (kinds : List KindView) (out : List ℕ) (due : List Due)
        → ReadAt kinds nothing (json_in node.now) out out due due result }
{
    match look(node) {
        Shape::Object(members) => {
            if members.len() == 0 {
                return Ok(());
            }
            Err(JsonFault {
                why: JsonReason::UnknownMember,
                at: members[0].0.at,
            })
        }
        _ => Err(JsonFault {
            why: JsonReason::WrongType,
            at: node.at(),
        }),
    }
}

/// Reads a structure, whose fields are read next. It has no bytes of its own.
pub fn read_group<'v, 'a>(
    alloc: Global,
    fields: &Vec<Member>,
    node: &'v Node<'a>,
    due: &mut Vec<Entry<'v, 'a>>,
) -> Result<(), JsonFault>
    requires { part_twice (map part_of_member fields.now.items) ≡ false }
    ensures { (kinds : List KindView) (out : List ℕ) → ReadAt kinds (structure (map part_of_member fields.now.items))
        (json_in node.now) out out (dues due.old.items) (dues due.new.items) result }
{
    match look(node) {
        Shape::Object(members) => {
            if members.len() != fields.len() {
                return Err(other_members(node.at()));
            }
            match push_fields(alloc, due, fields, members) {
                Ok(true) => Ok(()),
                Ok(false) => Err(other_members(node.at())),
                Err(_) => Err(JsonFault {
                    why: JsonReason::NoMemory,
                    at: 0,
                }),
            }
        }
        _ => Err(JsonFault {
            why: JsonReason::WrongType,
            at: node.at(),
        }),
    }
}

// The members by the names of the fields; false where a field has none.
fn push_fields<'v, 'a>(
    alloc: Global,
    due: &mut Vec<Entry<'v, 'a>>,
    fields: &Vec<Member>,
    members: &'v Vec<(Key<'a>, Node<'a>)>,
) -> Result<bool, NoMemory>
    requires same { length members.now.items ≡ length fields.now.items }
    requires apart { part_twice (map part_of_member fields.now.items) ≡ false }
    ensures { IfOk result (λ b. MatchBool b
        ((has_each (map part_of_member fields.now.items) (members_of (pairs members.now.items)) ≡ true)
        × (dues due.new.items ≡ each (map part_of_member fields.now.items)
        (at_each (map part_of_member fields.now.items) (members_of (pairs members.now.items))) ++ dues due.old.items))
        (has_each (map part_of_member fields.now.items) (members_of (pairs members.now.items)) ≡ false)) }
{
    if are_in_order(fields, members) {
        push_in_order(due, fields, members)?;
        return Ok(true);
    }
    push_by_name(alloc, due, fields, members)
}

// Whether the members are the fields, in their order.
fn are_in_order(fields: &Vec<Member>, members: &Vec<(Key<'_>, Node<'_>)>) -> bool
    requires { length members.now.items ≡ length fields.now.items }
    ensures { OnTrue result (keys members.now.items ≡ names (map part_of_member fields.now.items)) }
{
    for (i, member) in members.iter().enumerate() {
        if member.0.name != fields[i].name.as_str() {
            return false;
        }
    }
    true
}

// The members as they stand.
fn push_in_order<'v, 'a>(
    due: &mut Vec<Entry<'v, 'a>>,
    fields: &Vec<Member>,
    members: &'v Vec<(Key<'a>, Node<'a>)>,
) -> Result<(), NoMemory>
    requires { length members.now.items ≡ length fields.now.items }
    ensures { OnOk result (dues due.new.items
        ≡ each (map part_of_member fields.now.items) (nodes members.now.items) ++ dues due.old.items) }
{
    let mut left = members.len();
    while left > 0 {
        left -= 1;
        push_node(due, fields[left].kind, &members[left].1)?;
    }
    Ok(())
}

// The nodes by their keys.
fn by_key<'v, 'a>(
    alloc: Global,
    members: &'v Vec<(Key<'a>, Node<'a>)>,
) -> Result<BTreeMap<&'a str, &'v Node<'a>>, NoMemory>
    ensures { IfOk result (λ m. (key : List ℕ) → Finds (get_by (λ k. slice_cmp nat_cmp key k.now) m)
        (members_of (pairs members.now.items)) key) }
{
    let mut named = BTreeMap::new(alloc);
    let mut left = members.len();
    while left > 0 {
        left -= 1;
        let member = &members[left];
        named.insert(member.0.name, &member.1)?;
    }
    Ok(named)
}

// The members by the names of the fields, in any order.
fn push_by_name<'v, 'a>(
    alloc: Global,
    due: &mut Vec<Entry<'v, 'a>>,
    fields: &Vec<Member>,
    members: &'v Vec<(Key<'a>, Node<'a>)>,
) -> Result<bool, NoMemory>
    ensures { IfOk result (λ b. MatchBool b
        ((has_each (map part_of_member fields.now.items) (members_of (pairs members.now.items)) ≡ true)
        × (dues due.new.items ≡ each (map part_of_member fields.now.items)
        (at_each (map part_of_member fields.now.items) (members_of (pairs members.now.items))) ++ dues due.old.items))
        (has_each (map part_of_member fields.now.items) (members_of (pairs members.now.items)) ≡ false)) }
{
    let named = by_key(alloc, members)?;
    let mut left = fields.len();
    while left > 0 {
        left -= 1;
        let field = &fields[left];
        match named.get(field.name.as_str()) {
            Some(node) => push_node(due, field.kind, *node)?,
            None => return Ok(false),
        }
    }
    Ok(true)
}

//! The members of an object in the order of the text, up to the first that is unknown or stands twice.
ghost use Rattle.std.specs.Prelude.{◌≡◌, ◌++◌, ◌≤◌, List, length, take, OnOk, IfOk};
ghost use Rattle.xdr_types.specs.Kinds.{Part};
ghost use Rattle.xdr_json_reader.specs.Tape.{members_of};
ghost use Rattle.xdr_json_reader.specs.Reasons.{values};
ghost use Rattle.xdr_json_reader.specs.Private.Entries.{dues};
ghost use Rattle.xdr_json_reader.specs.Private.Look.{pairs};
ghost use Rattle.xdr_json_reader.specs.Private.Walk.{MembersMet};
ghost use Rattle.xdr_json_reader.specs.Private.Wanted.{IsWanted, IsFront, IsOf};

use crate::fault::{JsonFault, JsonReason};
use crate::first_wanted::Wanted;
use crate::reading_entry::{Entry, push_node};
use crate::tape::{Key, Node};
use std::alloc::Global;
use std::collections::BTreeMap;
use xdr_types::NoMemory;

/// An object: its members, and how many bytes of the text stand before it.
#[derive(Clone, Copy)]
pub struct Object<'v, 'a> {
    pub members: &'v Vec<(Key<'a>, Node<'a>)>,
    pub at: usize,
}

// How many members stand before the first that is unknown or stands twice, and which of both it is; all of them, where
// none is.
#[derive(Clone, Copy)]
struct Front {
    count: usize,
    why: Option<JsonReason>,
}

// The members that are wanted, each once, with which an object begins.
fn front_of(
    alloc: Global,
    wanted: Wanted<'_, '_>,
    members: &Vec<(Key<'_>, Node<'_>)>,
) -> Result<Front, NoMemory>
    ensures of { IfOk result (λ f. IsOf members.now.items f) }
    ensures front { (ps : List Part) → IsWanted wanted.entry ps
        → IfOk result (λ f. IsFront ps members.now.items f) }
{
    let mut stood: BTreeMap<&str, bool> = BTreeMap::new(alloc);
    for (count, member) in members.iter().enumerate() {
        let name = member.0.name;
        if wanted.kind_under(name).is_none() {
            let why = Some(JsonReason::UnknownMember);
            return Ok(Front { count, why });
        }
        if stood.contains_key(name) {
            let why = Some(JsonReason::MemberTwice);
            return Ok(Front { count, why });
        }
        stood.insert(name, true)?;
    }
    Ok(Front {
        count: members.len(),
        why: None,
    })
}

// The values of so many members, the first of which is judged next.
fn push_values<'v, 'a>(
    due: &mut Vec<Entry<'v, 'a>>,
    wanted: Wanted<'_, '_>,
    members: &'v Vec<(Key<'a>, Node<'a>)>,
    count: usize,
) -> Result<(), NoMemory>
    requires { count ≤ length members.now.items }
    ensures { (ps : List Part) → IsWanted wanted.entry ps
        → OnOk result (dues due.new.items
        ≡ values ps (members_of (pairs (take count members.now.items))) ++ dues due.old.items) }
{
    let mut left = count;
    while left > 0 {
        left -= 1;
        let member = &members[left];
        match wanted.kind_under(member.0.name) {
            Some(kind) => push_node(due, kind, &member.1)?,
            None => {}
        }
    }
    Ok(())
}

// A growth was refused.
const NO_MEMORY: JsonFault = JsonFault {
    why: JsonReason::NoMemory,
    at: 0,
};

/// Has the values of an object's members judged next. Where a member is unknown or stands twice, nothing behind it is
/// due any more, and it is told; else one that is missing is refused.
pub fn meet_members<'v, 'a>(
    alloc: Global,
    wanted: Wanted<'_, '_>,
    object: Object<'v, 'a>,
    due: &mut Vec<Entry<'v, 'a>>,
) -> Result<Option<JsonFault>, JsonFault>
    ensures { (ps : List Part) → IsWanted wanted.entry ps
        → MembersMet ps (members_of (pairs object.entry.members.now.items)) (dues due.old.items)
        (dues due.new.items) result }
{
    let members = object.members;
    let Ok(front) = front_of(alloc, wanted, members) else {
        return Err(NO_MEMORY);
    };
    if let Some(why) = front.why {
        let at = members[front.count].0.at;
        due.clear();
        return match push_values(due, wanted, members, front.count) {
            Ok(()) => Ok(Some(JsonFault { why, at })),
            Err(_) => Err(NO_MEMORY),
        };
    }
    if members.len() != wanted.len() {
        return Err(JsonFault {
            why: JsonReason::MissingMember,
            at: object.at,
        });
    }
    match push_values(due, wanted, members, members.len()) {
        Ok(()) => Ok(None),
        Err(_) => Err(NO_MEMORY),
    }
}

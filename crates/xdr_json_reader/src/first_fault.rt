//! The first fault of a tree of JSON in the order of the text. What is still to be judged lies in a list, so that no
//! call recurses.
ghost use Rattle.std.specs.Prelude.{◌≡◌, ◌⊎◌, [], ◌∷◌};
ghost use Rattle.json.specs.Json.{object, no_members};
ghost use Rattle.xdr_types.specs.Kinds.{kind_at};
ghost use Rattle.xdr_json_reader.specs.Tape.{json_in};
ghost use Rattle.xdr_json_reader.specs.Reasons.{IsFirst, IsRight, WantsNone};
ghost use Rattle.xdr_json_reader.specs.Private.Entries.{due_of, dues};
ghost use Rattle.xdr_json_reader.specs.Private.Names.{MayBeTable, names_of};
ghost use Rattle.xdr_json_reader.specs.Private.Walk.{Judged};
ghost use Rattle.xdr_json_reader.specs.Private.Wanted.{AreFieldTables};
ghost use Rattle.xdr_json_reader.specs.declared.fault.JsonReason.TheVariants.{NoMemory};

use crate::fault::{JsonFault, JsonReason};
use crate::first_fields::{Groups, note_fields};
use crate::first_members::{Object, meet_members};
use crate::first_wanted::wanted_of;
use crate::reading_entry::{Entry, Turn, push_node};
use crate::reading_look::{Shape, look};
use crate::reading_names::{Tables, names_for, note_names};
use crate::reading_node::read_node;
use crate::tape::Node;
use std::alloc::Global;
use std::collections::BTreeMap;
use xdr_types::{KindId, Schema};

// A growth was refused.
const NO_MEMORY: JsonFault = JsonFault {
    why: JsonReason::NoMemory,
    at: 0,
};

/// The first fault in the order of the text, of a tree that spells no value of the kind, in which this one was found.
/// Where a growth was refused, that is told.
pub fn first_fault(
    alloc: Global,
    schema: &Schema,
    kind: KindId,
    tree: &Node<'_>,
    found: JsonFault,
) -> JsonFault
    // It is the first fault, where the tree spells no value;
    ensures first { (result.why ≡ NoMemory) ⊎ (IsFirst schema.now.kinds (kind.place, json_in tree.now) result.why
        ⊎ IsRight schema.now.kinds (kind.place, json_in tree.now)) }
    // an allocation failure stays one.
    ensures memory { found.why ≡ NoMemory → result.why ≡ NoMemory }
{
    match found.why {
        JsonReason::NoMemory => found,
        _ => {
            let members = Vec::new(alloc);
            let empty = Node::Object { members, at: 0 };
            first_with(alloc, schema, Entry { kind, node: tree }, &empty, found)
        }
    }
}

// The same, with an object without members at hand. What is told so far stands behind all that is due.
fn first_with<'v, 'a, 's>(
    alloc: Global,
    schema: &'s Schema,
    root: Entry<'v, 'a>,
    empty: &'v Node<'a>,
    found: JsonFault,
) -> JsonFault
    requires { json_in empty.now ≡ object no_members }
    ensures { (result.why ≡ NoMemory) ⊎ (IsFirst schema.now.kinds (due_of root.entry) result.why
        ⊎ IsRight schema.now.kinds (due_of root.entry)) }
{
    let _known = schema.len();
    let mut told = found;
    let mut due: Vec<Entry<'v, 'a>> = Vec::new(alloc);
    let mut tables: Tables<'s> = BTreeMap::new(alloc);
    let mut groups: Groups<'s> = BTreeMap::new(alloc);
    let mut out = Vec::new(alloc);
    if push_node(&mut due, root.kind, root.node).is_err() {
        return NO_MEMORY;
    }
    while let Some(next) = due.pop() {
        if note_names(alloc, schema, next.kind, &mut tables).is_err()
            || note_fields(alloc, schema, next.kind, &mut groups).is_err()
        {
            return NO_MEMORY;
        }
        let names = names_for(schema, next.kind, &tables);
        let turn = Turn { next, names, empty };
        match judge(alloc, schema, turn, &groups, &mut out, &mut due) {
            Ok(None) => {}
            Ok(Some(fault)) => told = fault,
            Err(fault) => return fault,
        }
    }
    told
}

// Judges a node, and has what stands in it judged next. A member that is refused is told where what stands before it is
// still to be judged.
fn judge<'v, 'a, 's>(
    alloc: Global,
    schema: &'s Schema,
    turn: Turn<'v, 'a, '_, 's>,
    groups: &Groups<'s>,
    out: &mut Vec<u8>,
    due: &mut Vec<Entry<'v, 'a>>,
) -> Result<Option<JsonFault>, JsonFault>
    requires names { MayBeTable (names_of schema.now.kinds (kind_at schema.now.kinds turn.next.kind.place))
        turn.names }
    requires tables { AreFieldTables schema.now.kinds groups.now }
    requires empty { json_in turn.empty.now ≡ object no_members }
    ensures { Judged schema.now.kinds (due_of turn.entry.next) (dues due.old.items) (dues due.new.items) result }
{
    let _known = schema.len();
    let node = turn.next.node;
    match look(node) {
        Shape::Object(members) => match wanted_of(schema, turn, members, groups) {
            Ok(Some(wanted)) => {
                let at = node.at();
                meet_members(alloc, wanted, Object { members, at }, due)
            }
            Ok(None) => judge_alone(alloc, schema, turn, out, due),
            Err(fault) => Err(fault),
        },
        _ => judge_alone(alloc, schema, turn, out, due),
    }
}

// The same of a node without members that are wanted by name: it is read as for its bytes, and no one reads these.
fn judge_alone<'v, 'a>(
    alloc: Global,
    schema: &Schema,
    turn: Turn<'v, 'a, '_, '_>,
    out: &mut Vec<u8>,
    due: &mut Vec<Entry<'v, 'a>>,
) -> Result<Option<JsonFault>, JsonFault>
    requires alone { WantsNone schema.now.kinds (kind_at schema.now.kinds turn.next.kind.place)
        (json_in turn.next.node.now) }
    requires names { MayBeTable (names_of schema.now.kinds (kind_at schema.now.kinds turn.next.kind.place))
        turn.names }
    requires empty { json_in turn.empty.now ≡ object no_members }
    ensures { Judged schema.now.kinds (due_of turn.entry.next) (dues due.old.items) (dues due.new.items) result }
{
    let _known = schema.len();
    out.clear();
    match read_node(alloc, schema, turn, out, due) {
        Ok(()) => Ok(None),
        Err(fault) => Err(fault),
    }
}

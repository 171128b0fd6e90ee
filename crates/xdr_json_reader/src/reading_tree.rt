//! A tree of JSON as the bytes of the value that it spells. What is still to be read lies in a list, so that no call
//! recurses.
ghost use Rattle.std.specs.Prelude.{◌≡◌, ◌⊎◌, [], ◌∷◌, ℕ, List, MatchResult};
ghost use Rattle.json.specs.Json.{object, no_members};
ghost use Rattle.xdr_json_reader.specs.Tape.{json_in};
ghost use Rattle.xdr_json_reader.specs.Private.Pending.{BytesRead};

use crate::fault::{JsonFault, JsonReason};
use crate::reading_entry::{Entry, Turn, push_node};
use crate::reading_names::{Tables, names_for, note_names};
use crate::reading_node::read_node;
use crate::tape::Node;
use std::alloc::Global;
use std::collections::BTreeMap;
use xdr_types::{KindId, Schema};

// A growth was refused.
const NO_MEMORY: JsonFault = JsonFault {
    why: JsonReason::NoMemory,
    at: 0,
};

/// The bytes of the value of the kind that the tree spells.
pub fn bytes_in(
    alloc: Global,
    schema: &Schema,
    kind: KindId,
    tree: &Node<'_>,
) -> Result<Vec<u8>, JsonFault>
    ensures { BytesRead schema.now.kinds (kind.place, json_in tree.now) result }
{
    let members = Vec::new(alloc);
    let empty = Node::Object { members, at: 0 };
    bytes_with(alloc, schema, kind, tree, &empty)
}

// The same, with an object without members at hand, which stands for what is void.
fn bytes_with<'v, 'a, 's>(
    alloc: Global,
    schema: &'s Schema,
    kind: KindId,
    tree: &'v Node<'a>,
    empty: &'v Node<'a>,
) -> Result<Vec<u8>, JsonFault>
    requires { json_in empty.now ≡ object no_members }
    ensures { BytesRead schema.now.kinds (kind.place, json_in tree.now) result }
{
    let _known = schema.len();
    let mut out = Vec::new(alloc);
    let mut due: Vec<Entry<'v, 'a>> = Vec::new(alloc);
    let mut tables: Tables<'s> = BTreeMap::new(alloc);
    if push_node(&mut due, kind, tree).is_err() {
        return Err(NO_MEMORY);
    }
    while let Some(next) = due.pop() {
        if note_names(alloc, schema, next.kind, &mut tables).is_err() {
            return Err(NO_MEMORY);
        }
        let names = names_for(schema, next.kind, &tables);
        let turn = Turn { next, names, empty };
        match read_node(alloc, schema, turn, &mut out, &mut due) {
            Ok(()) => {}
            Err(fault) => return Err(fault),
        }
    }
    Ok(out)
}

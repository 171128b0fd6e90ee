//! A node, for a kind.
ghost use Rattle.std.specs.Prelude.{◌≡◌};
ghost use Rattle.json.specs.Json.{object, no_members};
ghost use Rattle.xdr_types.specs.Kinds.{kind_at};
ghost use Rattle.xdr_json_reader.specs.Tape.{json_in};
ghost use Rattle.xdr_json_reader.specs.Private.Entries.{dues};
ghost use Rattle.xdr_json_reader.specs.Private.Groups.{ReadAt, Placed};
ghost use Rattle.xdr_json_reader.specs.Private.Names.{MayBeTable, names_of};

use crate::fault::{JsonFault, JsonReason};
use crate::reading_content::{read_opaque, read_opaque_up_to, read_text};
use crate::reading_entry::{Entry, Turn};
use crate::reading_group::{read_group, read_nothing};
use crate::reading_leaf::{read_bool, read_hyper, read_int, read_unsigned, read_unsigned_hyper};
use crate::reading_list::{read_fixed, read_maybe, read_up_to};
use crate::reading_look::look;
use crate::reading_tag::read_numbered;
use crate::reading_union::{Union, read_choice};
use crate::tape::Node;
use std::alloc::Global;
use xdr_types::{Kind, Schema};

// The refusal of a node, at its place.
fn placed(read: Result<(), JsonReason>, node: &Node<'_>) -> Result<(), JsonFault>
    ensures { Placed read result }
{
    match read {
        Ok(()) => Ok(()),
        Err(why) => Err(JsonFault { why, at: node.at() }),
    }
}

/// Reads a node for a kind: writes its own bytes, and has its parts read next.
pub fn read_node<'v, 'a>(
    alloc: Global,
    schema: &Schema,
    turn: Turn<'v, 'a, '_, '_>,
    out: &mut Vec<u8>,
    due: &mut Vec<Entry<'v, 'a>>,
) -> Result<(), JsonFault>
    requires names { MayBeTable (names_of schema.now.kinds (kind_at schema.now.kinds turn.next.kind.place))
        turn.names }
    requires empty { json_in turn.empty.now ≡ object no_members }
    ensures { ReadAt schema.now.kinds (kind_at schema.now.kinds turn.entry.next.kind.place)
        (json_in turn.entry.next.node.now) out.old.items out.new.items (dues due.old.items) (dues due.new.items)
        result }
{
    let _known = schema.len();
    let next = turn.next;
    let node = next.node;
    if !schema.has(next.kind) {
        return Err(JsonFault {
            why: JsonReason::WrongType,
            at: node.at(),
        });
    }
    match schema.kind(next.kind) {
        Kind::Int => placed(read_int(look(node), out), node),
        Kind::Unsigned => placed(read_unsigned(look(node), out), node),
        Kind::Hyper => placed(read_hyper(look(node), out), node),
        Kind::UnsignedHyper => placed(read_unsigned_hyper(look(node), out), node),
        Kind::Bool => placed(read_bool(look(node), out), node),
        Kind::Numbered { members } => placed(
            read_numbered(turn.names, members, look(node), out),
            node,
        ),
        Kind::Opaque { size } => placed(read_opaque(alloc, *size, look(node), out), node),
        Kind::OpaqueUpTo { max } => placed(read_opaque_up_to(alloc, *max, look(node), out), node),
        Kind::Text { max } => placed(read_text(alloc, *max, look(node), out), node),
        Kind::Fixed { item, size } => placed(read_fixed(*item, *size, look(node), out, due), node),
        Kind::UpTo { item, max } => placed(read_up_to(*item, *max, look(node), out, due), node),
        Kind::Structure { fields } => read_group(alloc, fields, node, due),
        Kind::Choice { tag, arms, other } => {
            let among = Union {
                id: next.kind,
                tag: *tag,
                arms,
                other,
            };
            read_choice(schema, among, turn, out, due)
        }
        Kind::Maybe { item } => placed(read_maybe(schema, *item, node, out, due), node),
        Kind::Nothing => read_nothing(node),
    }
}

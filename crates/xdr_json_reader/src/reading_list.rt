//! Arrays and optional items (RFC 4506 sections 4.12, 4.13, 4.19).
ghost use Rattle.std.specs.Prelude.{◌≡◌, ◌≤◌, length};
ghost use Rattle.xdr_types.specs.Kinds.{kind_at, fixed, up_to, maybe};
ghost use Rattle.xdr_json_reader.specs.Tape.{json_in};
ghost use Rattle.xdr_json_reader.specs.Private.Look.{seen};
ghost use Rattle.xdr_json_reader.specs.Private.Entries.{dues};
ghost use Rattle.xdr_json_reader.specs.Private.Groups.{NodeRead, ReadAmong, PresentPut, is_maybe};

use crate::fault::JsonReason;
use crate::reading_bytes::put_unsigned;
use crate::reading_entry::{Entry, push_items, push_node};
use crate::reading_look::{Shape, look};
use crate::tape::Node;
use xdr_types::{Kind, KindId, Schema};

/// Reads an array of a fixed length.
pub fn read_fixed<'v, 'a>(
    item: KindId,
    size: u32,
    json: Shape<'v, 'a>,
    out: &Vec<u8>,
    due: &mut Vec<Entry<'v, 'a>>,
) -> Result<(), JsonReason>
    ensures { NodeRead (fixed item.place size) (seen json.entry) out.now.items out.now.items (dues due.old.items)
        (dues due.new.items) result }
{
    let _same = out;
    match json {
        Shape::Array(items) => {
            if items.len() != size as usize {
                return Err(JsonReason::WrongLength);
            }
            match push_items(due, item, items) {
                Ok(()) => Ok(()),
                Err(_) => Err(JsonReason::NoMemory),
            }
        }
        _ => Err(JsonReason::WrongType),
    }
}

/// Reads an array of a length that varies.
pub fn read_up_to<'v, 'a>(
    item: KindId,
    max: u32,
    json: Shape<'v, 'a>,
    out: &mut Vec<u8>,
    due: &mut Vec<Entry<'v, 'a>>,
) -> Result<(), JsonReason>
    ensures { NodeRead (up_to item.place max) (seen json.entry) out.old.items out.new.items (dues due.old.items)
        (dues due.new.items) result }
{
    match json {
        Shape::Array(items) => {
            if items.len() > max as usize {
                return Err(JsonReason::WrongLength);
            }
            match put_unsigned(out, items.len() as u32) {
                Ok(()) => match push_items(due, item, items) {
                    Ok(()) => Ok(()),
                    Err(_) => Err(JsonReason::NoMemory),
                },
                Err(_) => Err(JsonReason::NoMemory),
            }
        }
        _ => Err(JsonReason::WrongType),
    }
}

// Whether the kind at a place is optional itself.
fn is_optional(schema: &Schema, id: KindId) -> bool
    ensures { result ≡ is_maybe (kind_at schema.now.kinds id.place) }
{
    if !schema.has(id) {
        return false;
    }
    match schema.kind(id) {
        Kind::Maybe { item: _ } => true,
        _ => false,
    }
}

/// Reads an optional item. Where it is there, it is read next, out of brackets where it is optional itself.
pub fn read_maybe<'v, 'a>(
    schema: &Schema,
    item: KindId,
    node: &'v Node<'a>,
    out: &mut Vec<u8>,
    due: &mut Vec<Entry<'v, 'a>>,
) -> Result<(), JsonReason>
    ensures { ReadAmong schema.now.kinds (maybe item.place) (json_in node.now) out.old.items out.new.items
        (dues due.old.items) (dues due.new.items) result }
{
    match look(node) {
        Shape::Null => match put_unsigned(out, 0) {
            Ok(()) => Ok(()),
            Err(_) => Err(JsonReason::NoMemory),
        },
        Shape::Array(items) => {
            if !is_optional(schema, item) {
                return put_present(item, node, out, due);
            }
            match items.as_slice() {
                [inside] => put_present(item, inside, out, due),
                _ => Err(JsonReason::WrongLength),
            }
        }
        _ => {
            if is_optional(schema, item) {
                return Err(JsonReason::WrongType);
            }
            put_present(item, node, out, due)
        }
    }
}

// An item that is there: what says so, and the item next.
fn put_present<'v, 'a>(
    item: KindId,
    node: &'v Node<'a>,
    out: &mut Vec<u8>,
    due: &mut Vec<Entry<'v, 'a>>,
) -> Result<(), JsonReason>
    ensures { PresentPut item.place (json_in node.now) out.old.items out.new.items (dues due.old.items)
        (dues due.new.items) result }
{
    match put_unsigned(out, 1) {
        Ok(()) => match push_node(due, item, node) {
            Ok(()) => Ok(()),
            Err(_) => Err(JsonReason::NoMemory),
        },
        Err(_) => Err(JsonReason::NoMemory),
    }
}

//! How many bytes a value has, and whether they are within a limit.
ghost use Rattle.std.specs.Prelude.{◌≡◌, ◌+◌, ◌*◌, ◌<◌, ◌≤◌, ◌↔◌, length, map, replicate, IsTrue, true};
ghost use Rattle.xdr_types.specs.Kinds.{kind_at};
ghost use Rattle.xdr_types.specs.KindViews.{kind_view, part_of_member};
ghost use Rattle.xdr_types.specs.Fits.{Fits, fits, fit, item_part, parts};
ghost use Rattle.xdr_units.specs.Numbers.{pad, padded};
ghost use Rattle.xdr_types.specs.Spelling.{spelling, own, bytes_of};
ghost use Rattle.xdr_types.specs.Tree.{bytes};
ghost use Rattle.xdr_types.specs.View.{tree, values};
ghost use Rattle.xdr_types.specs.Within.{IsLeft, FitsWithin};

use crate::kind::{Kind, KindId, Member};
use crate::limits::Limits;
use crate::picked::part_in;
use crate::schema::Schema;
use crate::value::Value;

/// The count of the bytes of a value that fits.
pub fn size(schema: &Schema, kind: KindId, value: &Value, limits: Limits) -> u32
    requires { FitsWithin schema.now.kinds kind.place limits (tree value.now) }
    ensures { result ≡ length (bytes_of schema.now.kinds kind.place (tree value.now)) }
{
    match left_after_node(schema, kind, value, limits.bytes()) {
        Some(left) => limits.bytes() - left,
        None => 0,
    }
}

/// Whether there is space for the bytes of a value of the kind.
pub fn has_space(schema: &Schema, id: KindId, value: &Value, space: u32) -> bool
    requires { fits schema.now.kinds id.place (tree value.now) ≡ true }
    ensures { IsTrue result ↔ length (bytes_of schema.now.kinds id.place (tree value.now)) ≤ space }
{
    match left_after_node(schema, id, value, space) {
        Some(_) => true,
        None => false,
    }
}

// What is left of the space after the bytes of a value. Most values are numbers, whose kind does not matter here, or
// content, and for these no node is gone into.
#[cycle(left)]
#[inline(always)]
#[tactic(auto, using(crate::proofs::Joining::nothing_spelled))]
fn left_after(schema: &Schema, id: KindId, value: &Value, space: u32) -> Option<u32>
    requires { fits schema.now.kinds id.place (tree value.now) ≡ true }
    ensures { IsLeft space (length (bytes_of schema.now.kinds id.place (tree value.now))) result }
{
    match value {
        Value::Int(_) | Value::Unsigned(_) => take(space, 4),
        Value::Hyper(_) | Value::UnsignedHyper(_) => take(space, 8),
        Value::Bool(_) | Value::Numbered(_) => take(space, 4),
        Value::Bytes(bytes) => left_after_content(schema.kind(id), bytes, space),
        _ => left_after_node(schema, id, value, space),
    }
}

// The same, whatever the value is. A structure whose kind has an extent is not looked into. Callers that ask of a whole
// value ask here, so that one call in place of two serves who asks twice of the same value.
#[cycle(left)]
#[inline(never)]
fn left_after_node(schema: &Schema, id: KindId, value: &Value, space: u32) -> Option<u32>
    requires { fits schema.now.kinds id.place (tree value.now) ≡ true }
    ensures { IsLeft space (length (bytes_of schema.now.kinds id.place (tree value.now))) result }
{
    if let Value::Group(_) = value {
        if let Some(extent) = schema.extent(id) {
            return take(space, extent.bytes);
        }
    }
    let kind = schema.kind(id);
    let space = left_after_own(kind, value, space)?;
    left_after_inner(schema, id, kind, value, space)
}

fn left_after_own(kind: &Kind, value: &Value, space: u32) -> Option<u32>
    ensures { IsLeft space (length (own (kind_view kind.now) (tree value.now).0)) result }
{
    match value {
        Value::Int(_) => take(space, 4),
        Value::Unsigned(_) => take(space, 4),
        Value::Hyper(_) => take(space, 8),
        Value::UnsignedHyper(_) => take(space, 8),
        Value::Bool(_) => take(space, 4),
        Value::Numbered(_) => take(space, 4),
        Value::Bytes(bytes) => left_after_content(kind, bytes, space),
        Value::List(_) => match kind {
            Kind::Fixed { item: _, size: _ } => take(space, 0),
            _ => take(space, 4),
        },
        Value::Group(_) => take(space, 0),
        Value::Choice { tag: _, part: _ } => take(space, 4),
        Value::Maybe(None) => take(space, 4),
        Value::Maybe(Some(_)) => take(space, 4),
        Value::Nothing => take(space, 0),
    }
}

// What is left after a string or opaque data, whose length goes before it where it varies.
fn left_after_content(kind: &Kind, content: &Vec<u8>, space: u32) -> Option<u32>
    ensures { IsLeft space (length (own (kind_view kind.now) (bytes content.now.items))) result }
{
    match kind {
        Kind::Opaque { size: _ } => take_padded(space, content),
        _ => take_counted(space, content),
    }
}

#[cycle(left)]
fn left_after_inner(
    schema: &Schema,
    id: KindId,
    kind: &Kind,
    value: &Value,
    space: u32,
) -> Option<u32>
    requires kind { kind_view kind.now ≡ kind_at schema.now.kinds id.place }
    requires fits { fit schema.now.kinds (parts (kind_view kind.now) (tree value.now).0) (tree value.now).1 ≡ true }
    ensures { IsLeft space
        (length (spelling schema.now.kinds (parts (kind_view kind.now) (tree value.now).0) (tree value.now).1)) result }
{
    match (kind, value) {
        (Kind::Fixed { item, size: _ }, Value::List(items)) => left_after_items(
            schema, *item, items, space,
        ),
        (Kind::UpTo { item, max: _ }, Value::List(items)) => left_after_items(
            schema, *item, items, space,
        ),
        (Kind::Structure { fields }, Value::Group(parts)) => left_after_parts(
            schema, fields, parts, space,
        ),
        (Kind::Choice { .. }, Value::Choice { tag, part }) => {
            match part_in(schema, id, *tag) {
                Some(member) => left_after(schema, member.kind, part, space),
                None => take(space, 0),
            }
        }
        (Kind::Maybe { item }, Value::Maybe(Some(part))) => left_after(schema, *item, part, space),
        _ => take(space, 0),
    }
}

// Items of a kind that has an extent are not looked at.
#[cycle(left)]
fn left_after_items(schema: &Schema, id: KindId, items: &Vec<Value>, space: u32) -> Option<u32>
    requires { fit schema.now.kinds (replicate (length items.now.items) (item_part id.place)) (values items.now.items)
        ≡ true }
    ensures { IsLeft space
        (length (spelling schema.now.kinds (replicate (length items.now.items) (item_part id.place))
        (values items.now.items))) result }
{
    if let Some(extent) = schema.extent(id) {
        return take_times(space, extent.bytes, items.len());
    }
    let mut left = space;
    for value in items {
        left = left_after(schema, id, value, left)?;
    }
    Some(left)
}

#[cycle(left)]
fn left_after_parts(
    schema: &Schema,
    fields: &Vec<Member>,
    parts: &Vec<Value>,
    space: u32,
) -> Option<u32>
    requires { fit schema.now.kinds (map part_of_member fields.now.items) (values parts.now.items) ≡ true }
    ensures { IsLeft space
        (length (spelling schema.now.kinds (map part_of_member fields.now.items) (values parts.now.items))) result }
{
    let mut left = space;
    for (i, value) in parts.iter().enumerate() {
        left = left_after(schema, fields[i].kind, value, left)?;
    }
    Some(left)
}

fn take(space: u32, count: u32) -> Option<u32>
    ensures { IsLeft space count result }
{
    if count <= space {
        Some(space - count)
    } else {
        None
    }
}

// What is left of the space after so many times this count.
fn take_times(space: u32, count: u32, times: usize) -> Option<u32>
    ensures { IsLeft space (count * times) result }
{
    let all = u64::from(count).checked_mul(times as u64)?;
    if all > u64::from(space) {
        return None;
    }
    Some(space - all as u32)
}

fn take_padded(space: u32, bytes: &Vec<u8>) -> Option<u32>
    ensures { IsLeft space (length (padded bytes.now.items)) result }
{
    if bytes.len() > space as usize {
        return None;
    }
    take(space - bytes.len() as u32, zeros(bytes.len()))
}

fn take_counted(space: u32, bytes: &Vec<u8>) -> Option<u32>
    ensures { IsLeft space (4 + length (padded bytes.now.items)) result }
{
    if space < 4 {
        return None;
    }
    take_padded(space - 4, bytes)
}

// How many zeros follow so many bytes.
fn zeros(len: usize) -> u32
    ensures { result ≡ length (pad len) }
{
    ((4 - len % 4) % 4) as u32
}

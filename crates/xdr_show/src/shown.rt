//! A value as lines.
ghost use Rattle.std.specs.Prelude.{◌≡◌, ◌≤◌, ◌+◌, ◌++◌, [], length, map, replicate, IfOk, OnOk, true};
ghost use Rattle.xdr_types.specs.Kinds.{kind_at};
ghost use Rattle.xdr_types.specs.KindViews.{kind_view, part_of_member};
ghost use Rattle.xdr_types.specs.Fits.{fits, fit, item_part, parts};
ghost use Rattle.xdr_types.specs.Tree.{depth_of};
ghost use Rattle.xdr_types.specs.View.{tree, values};
ghost use Rattle.xdr_types.specs.Within.{FitsWithin};
ghost use Rattle.xdr_show.specs.Private.Lines.{lines, value_lines};
ghost use Rattle.xdr_show.specs.Shown.{show_text};

use crate::head::head_of_value;
use crate::line::push_line;
use std::alloc::Global;
use xdr_types::{Kind, KindId, Limits, Member, NoMemory, Schema, Value, part_in};

/// The lines of a value (RFC 4506 section 4): one for each part of its layout in order, a node before those inside it,
/// two spaces further in. The value fits the kind within the limits, as `fits` tells.
///
/// A line has the part's name, where it has one, and then one of these:
/// - `struct`, `array of` and `list of` with a count, `void`, `present` or `absent`;
/// - a number in decimal, `TRUE` or `FALSE`, the name of an enumeration's member before its number, a union's
///   discriminant after `case`;
/// - a string in quotation marks, an opaque in hexadecimal after `0x`.
///
/// Each level of the value takes stack: up to 0.5 MiB at depth 4096 on x86-64.
pub fn show(
    alloc: Global,
    schema: &Schema,
    kind: KindId,
    value: &Value,
    limits: Limits,
) -> Result<Vec<u8>, NoMemory>
    requires { FitsWithin schema.now.kinds kind.place limits (tree value.now) }
    ensures { IfOk result (λ v. v.items ≡ show_text schema.now.kinds kind.place (tree value.now)) }
{
    let deepest = limits.depth();
    prove!(deepest <= 4096);
    let mut out = Vec::new(alloc);
    push_value(&mut out, schema, &[], kind, 1, value)?;
    Ok(out)
}

// The lines of a value that stands for a part of this name.
#[cycle(push)]
fn push_value(
    out: &mut Vec<u8>,
    schema: &Schema,
    name: &[u8],
    id: KindId,
    depth: u32,
    value: &Value,
) -> Result<(), NoMemory>
    requires fits { fits schema.now.kinds id.place (tree value.now) ≡ true }
    requires deep { depth + depth_of (tree value.now).1 ≤ 4096 }
    ensures { OnOk result (out.new.items ≡ out.old.items
        ++ value_lines schema.now.kinds depth (record { name = name.now; kind = id.place }) (tree value.now)) }
{
    let kind = schema.kind(id);
    push_line(out, schema, name, id, kind, depth, head_of_value(value))?;
    push_inner(out, schema, id, kind, depth + 1, value)
}

// The lines of the parts of a node.
#[cycle(push)]
fn push_inner(
    out: &mut Vec<u8>,
    schema: &Schema,
    id: KindId,
    kind: &Kind,
    depth: u32,
    value: &Value,
) -> Result<(), NoMemory>
    requires kind { kind_view kind.now ≡ kind_at schema.now.kinds id.place }
    requires fits { fit schema.now.kinds (parts (kind_view kind.now) (tree value.now).0) (tree value.now).1 ≡ true }
    requires deep { depth + depth_of (tree value.now).1 ≤ 4097 }
    ensures { OnOk result (out.new.items ≡ out.old.items
        ++ lines schema.now.kinds depth (parts (kind_view kind.now) (tree value.now).0) (tree value.now).1) }
{
    match (kind, value) {
        (Kind::Fixed { item, .. }, Value::List(items)) => push_items(
            out, schema, *item, depth, items,
        ),
        (Kind::UpTo { item, .. }, Value::List(items)) => push_items(
            out, schema, *item, depth, items,
        ),
        (Kind::Structure { fields }, Value::Group(parts)) => push_fields(
            out, schema, fields, depth, parts,
        ),
        (Kind::Choice { .. }, Value::Choice { tag, part }) => {
            match part_in(schema, id, *tag) {
                Some(member) => push_value(
                    out,
                    schema,
                    member.name.as_bytes(),
                    member.kind,
                    depth,
                    part,
                ),
                None => Ok(()),
            }
        }
        (Kind::Maybe { item }, Value::Maybe(Some(part))) => push_value(
            out,
            schema,
            &[],
            *item,
            depth,
            part,
        ),
        _ => Ok(()),
    }
}

// The lines of the items of an array.
#[cycle(push)]
fn push_items(
    out: &mut Vec<u8>,
    schema: &Schema,
    id: KindId,
    depth: u32,
    items: &Vec<Value>,
) -> Result<(), NoMemory>
    requires fits { fit schema.now.kinds (replicate (length items.now.items) (item_part id.place))
        (values items.now.items) ≡ true }
    requires deep { depth + depth_of (values items.now.items) ≤ 4097 }
    ensures { OnOk result (out.new.items ≡ out.old.items
        ++ lines schema.now.kinds depth (replicate (length items.now.items) (item_part id.place))
        (values items.now.items)) }
{
    for value in items {
        push_value(out, schema, &[], id, depth, value)?;
    }
    Ok(())
}

// The lines of the fields of a structure.
#[cycle(push)]
fn push_fields(
    out: &mut Vec<u8>,
    schema: &Schema,
    fields: &Vec<Member>,
    depth: u32,
    parts: &Vec<Value>,
) -> Result<(), NoMemory>
    requires fits { fit schema.now.kinds (map part_of_member fields.now.items) (values parts.now.items) ≡ true }
    requires deep { depth + depth_of (values parts.now.items) ≤ 4097 }
    ensures { OnOk result (out.new.items ≡ out.old.items
        ++ lines schema.now.kinds depth (map part_of_member fields.now.items) (values parts.now.items)) }
{
    for (i, value) in parts.iter().enumerate() {
        let field = &fields[i];
        push_value(out, schema, field.name.as_bytes(), field.kind, depth, value)?;
    }
    Ok(())
}

//! A value as bytes.
ghost use Rattle.std.specs.Prelude.{◌≡◌, ◌++◌, ◌<◌, ◌^◌, length, map, pos, negsuc, ◌≤ℤ◌, replicate, IsTrue, IfOk, true};
ghost use Rattle.xdr_types.specs.Kinds.{kind_at};
ghost use Rattle.xdr_types.specs.KindViews.{kind_view, part_of_member};
ghost use Rattle.xdr_types.specs.Fits.{Fits, fits, fit, is_legal, item_part, parts};
ghost use Rattle.xdr_units.specs.Numbers.{num4, num8, number_of, pad, padded};
ghost use Rattle.xdr_types.specs.Spelling.{spelling, own, bytes_of};
ghost use Rattle.xdr_types.specs.View.{tree, values};
ghost use Rattle.xdr_codec.specs.Private.PutAll.{PutAll};

use crate::put::{NotPut, Put, put_nothing};
use byteorder::{BigEndian, ByteOrder};
use xdr_types::{Kind, KindId, Member, Schema, Value, part_in};

/// The encoding of a value. Most values are numbers, whose kind does not matter here, or content: these have no parts.
#[cycle(push)]
#[inline(always)]
#[tactic(auto, using(crate::proofs::Putting::own_alone))]
pub fn push_value<P: Put>(
    out: &mut P,
    schema: &Schema,
    id: KindId,
    value: &Value,
) -> Result<(), NotPut>
    requires { fits schema.now.kinds id.place (tree value.now) ≡ true }
    ensures { PutAll P.sends P.cuts out.old out.new (bytes_of schema.now.kinds id.place (tree value.now)) result }
{
    match value {
        Value::Int(number) => push_int(out, *number),
        Value::Unsigned(number) => push_unsigned(out, *number),
        Value::Hyper(number) => push_hyper(out, *number),
        Value::UnsignedHyper(number) => push_unsigned_hyper(out, *number),
        Value::Bool(flag) => push_bool(out, *flag),
        Value::Numbered(number) => push_int(out, *number),
        Value::Bytes(_) => push_own(out, schema, schema.kind(id), value),
        _ => push_node(out, schema, id, value),
    }
}

// The same, whatever the value is.
#[cycle(push)]
#[inline(never)]
fn push_node<P: Put>(out: &mut P, schema: &Schema, id: KindId, value: &Value) -> Result<(), NotPut>
    requires { fits schema.now.kinds id.place (tree value.now) ≡ true }
    ensures { PutAll P.sends P.cuts out.old out.new (bytes_of schema.now.kinds id.place (tree value.now)) result }
{
    let kind = schema.kind(id);
    push_own(out, schema, kind, value)?;
    push_inner(out, schema, id, kind, value)
}

// The bytes before those of the parts.
fn push_own<P: Put>(out: &mut P, _schema: &Schema, kind: &Kind, value: &Value) -> Result<(), NotPut>
    requires { is_legal _schema.now.kinds (kind_view kind.now) (tree value.now).0 ≡ true }
    ensures { PutAll P.sends P.cuts out.old out.new (own (kind_view kind.now) (tree value.now).0) result }
{
    match value {
        Value::Int(n) => push_int(out, *n),
        Value::Unsigned(n) => push_unsigned(out, *n),
        Value::Hyper(n) => push_hyper(out, *n),
        Value::UnsignedHyper(n) => push_unsigned_hyper(out, *n),
        Value::Bool(b) => push_bool(out, *b),
        Value::Numbered(n) => push_int(out, *n),
        Value::Bytes(bytes) => match kind {
            Kind::Opaque { size: _ } => push_padded(out, bytes),
            _ => push_counted(out, bytes),
        },
        Value::List(items) => match kind {
            Kind::Fixed { item: _, size: _ } => put_nothing(out),
            _ => push_length(out, items.len()),
        },
        Value::Group(_) => put_nothing(out),
        Value::Choice { tag, part: _ } => push_tag(out, *tag),
        Value::Maybe(None) => push_bool(out, false),
        Value::Maybe(Some(_)) => push_bool(out, true),
        Value::Nothing => put_nothing(out),
    }
}

// The bytes of the parts.
#[cycle(push)]
fn push_inner<P: Put>(
    out: &mut P,
    schema: &Schema,
    id: KindId,
    kind: &Kind,
    value: &Value,
) -> Result<(), NotPut>
    requires kind { kind_view kind.now ≡ kind_at schema.now.kinds id.place }
    requires fits { fit schema.now.kinds (parts (kind_view kind.now) (tree value.now).0) (tree value.now).1 ≡ true }
    ensures { PutAll P.sends P.cuts out.old out.new
        (spelling schema.now.kinds (parts (kind_view kind.now) (tree value.now).0) (tree value.now).1) result }
{
    match (kind, value) {
        (Kind::Fixed { item, size: _ }, Value::List(items)) => push_items(
            out, schema, *item, items,
        ),
        (Kind::UpTo { item, max: _ }, Value::List(items)) => push_items(out, schema, *item, items),
        (Kind::Structure { fields }, Value::Group(parts)) => push_parts(out, schema, fields, parts),
        (Kind::Choice { .. }, Value::Choice { tag, part }) => {
            match part_in(schema, id, *tag) {
                Some(member) => push_value(out, schema, member.kind, part),
                None => put_nothing(out),
            }
        }
        (Kind::Maybe { item }, Value::Maybe(Some(part))) => push_value(out, schema, *item, part),
        _ => put_nothing(out),
    }
}

#[cycle(push)]
fn push_items<P: Put>(
    out: &mut P,
    schema: &Schema,
    id: KindId,
    items: &Vec<Value>,
) -> Result<(), NotPut>
    requires { fit schema.now.kinds (replicate (length items.now.items) (item_part id.place)) (values items.now.items)
        ≡ true }
    ensures { PutAll P.sends P.cuts out.old out.new
        (spelling schema.now.kinds (replicate (length items.now.items) (item_part id.place)) (values items.now.items))
        result }
{
    for value in items {
        push_value(out, schema, id, value)?;
    }
    Ok(())
}

#[cycle(push)]
fn push_parts<P: Put>(
    out: &mut P,
    schema: &Schema,
    fields: &Vec<Member>,
    parts: &Vec<Value>,
) -> Result<(), NotPut>
    requires { fit schema.now.kinds (map part_of_member fields.now.items) (values parts.now.items) ≡ true }
    ensures { PutAll P.sends P.cuts out.old out.new
        (spelling schema.now.kinds (map part_of_member fields.now.items) (values parts.now.items)) result }
{
    for (i, value) in parts.iter().enumerate() {
        push_value(out, schema, fields[i].kind, value)?;
    }
    Ok(())
}

fn push_int<P: Put>(out: &mut P, n: i32) -> Result<(), NotPut>
    ensures { PutAll P.sends P.cuts out.old out.new (num4 n) result }
{
    let mut unit = [0; 4];
    BigEndian::write_i32(&mut unit, n);
    out.put(&unit)
}

fn push_unsigned<P: Put>(out: &mut P, n: u32) -> Result<(), NotPut>
    ensures { PutAll P.sends P.cuts out.old out.new (num4 (pos n)) result }
{
    let mut unit = [0; 4];
    BigEndian::write_u32(&mut unit, n);
    out.put(&unit)
}

fn push_hyper<P: Put>(out: &mut P, n: i64) -> Result<(), NotPut>
    ensures { PutAll P.sends P.cuts out.old out.new (num8 n) result }
{
    let mut units = [0; 8];
    BigEndian::write_i64(&mut units, n);
    out.put(&units)
}

fn push_unsigned_hyper<P: Put>(out: &mut P, n: u64) -> Result<(), NotPut>
    ensures { PutAll P.sends P.cuts out.old out.new (num8 (pos n)) result }
{
    let mut units = [0; 8];
    BigEndian::write_u64(&mut units, n);
    out.put(&units)
}

fn push_bool<P: Put>(out: &mut P, b: bool) -> Result<(), NotPut>
    ensures { PutAll P.sends P.cuts out.old out.new (num4 (number_of b)) result }
{
    if b {
        push_unsigned(out, 1)
    } else {
        push_unsigned(out, 0)
    }
}

fn push_length<P: Put>(out: &mut P, len: usize) -> Result<(), NotPut>
    requires { len < 2 ^ 32 }
    ensures { PutAll P.sends P.cuts out.old out.new (num4 (pos len)) result }
{
    push_unsigned(out, len as u32)
}

fn push_padded<P: Put>(out: &mut P, bytes: &Vec<u8>) -> Result<(), NotPut>
    ensures { PutAll P.sends P.cuts out.old out.new (padded bytes.now.items) result }
{
    out.put(bytes)?;
    out.put(padding(bytes.len()))
}

// The zero bytes after so many bytes.
fn padding(len: usize) -> &'static [u8]
    ensures { result.now ≡ pad len }
{
    match len % 4 {
        0 => &[],
        1 => &[0, 0, 0],
        2 => &[0, 0],
        _ => &[0],
    }
}

fn push_counted<P: Put>(out: &mut P, bytes: &Vec<u8>) -> Result<(), NotPut>
    requires { length bytes.now.items < 2 ^ 32 }
    ensures { PutAll P.sends P.cuts out.old out.new ((num4 (pos (length bytes.now.items)) ++ padded bytes.now.items))
        result }
{
    push_length(out, bytes.len())?;
    push_padded(out, bytes)
}

fn push_tag<P: Put>(out: &mut P, tag: i64) -> Result<(), NotPut>
    requires low { negsuc 2147483647 ≤ℤ tag }
    requires high { tag ≤ℤ pos 4294967295 }
    ensures { PutAll P.sends P.cuts out.old out.new (num4 tag) result }
{
    if tag < 0 {
        push_int(out, tag as i32)
    } else {
        push_unsigned(out, tag as u32)
    }
}

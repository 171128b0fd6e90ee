//! Whether a value is one of a kind and within limits.
ghost use Rattle.std.specs.Prelude.{◌≡◌, ◌↔◌, IsTrue, ◌<◌, ◌^◌, ℕ, length, map, option_map, nat_lt, replicate};
ghost use Rattle.xdr_types.specs.Kinds.{kind_at, Part};
ghost use Rattle.xdr_types.specs.KindViews.{kind_view, part_of_member, branch_of};
ghost use Rattle.xdr_types.specs.Fits.{item_part, is_length, is_signed, are_bytes};
ghost use Rattle.xdr_types.specs.View.{tree, values};
ghost use Rattle.xdr_types.specs.Within.{FitsWithin};
ghost use Rattle.xdr_types.specs.Private.Judged.{fits_within, fit_within};

use crate::choice::is_legal_tag;
use crate::kind::{Kind, KindId, Member};
use crate::limits::Limits;
use crate::picked::part_in;
use crate::schema::Schema;
use crate::sizes::has_space;
use crate::value::Value;

/// Whether the schema has the kind, the value is one of it, and its depth and its bytes are within the limits (RFC 4506
/// sections 4.1 to 4.19).
pub fn fits(schema: &Schema, kind: KindId, value: &Value, limits: Limits) -> bool
    ensures { IsTrue result ↔ FitsWithin schema.now.kinds kind.place limits (tree value.now) }
{
    is_value(schema, kind, value, limits.depth()) && has_space(schema, kind, value, limits.bytes())
}

// Whether the value is one of the schema's kind, and at most so deep. It goes no deeper itself. For numbers and strings
// no node is gone into.
#[cycle(fits)]
#[inline(always)]
fn is_value(schema: &Schema, id: KindId, value: &Value, most: u32) -> bool
    ensures { result ≡ fits_within schema.now.kinds id.place (tree value.now) most }
{
    if most == 0 || !schema.has(id) {
        return false;
    }
    match (schema.kind(id), value) {
        (Kind::Int, Value::Int(n)) => every_i32_is_int(*n),
        (Kind::Unsigned, Value::Unsigned(n)) => every_u32_is_unsigned(*n),
        (Kind::Hyper, Value::Hyper(n)) => every_i64_is_hyper(*n),
        (Kind::UnsignedHyper, Value::UnsignedHyper(n)) => every_u64_is_unsigned_hyper(*n),
        (Kind::Bool, Value::Bool(_)) => true,
        (Kind::Numbered { .. }, Value::Numbered(n)) => is_legal_tag(schema, id, i64::from(*n)),
        (Kind::Text { max }, Value::Bytes(bytes)) => is_length(bytes.len(), *max)
            && every_u8_is_a_byte(bytes),
        (kind, _) => is_node(schema, id, kind, value, most),
    }
}

// The same for a kind of the schema, but for those numbers, booleans and strings.
#[cycle(fits)]
#[inline(never)]
fn is_node(schema: &Schema, id: KindId, kind: &Kind, value: &Value, most: u32) -> bool
    requires kind { kind_view kind.now ≡ kind_at schema.now.kinds id.place }
    requires most { 0 < most }
    ensures { result ≡ fits_within schema.now.kinds id.place (tree value.now) most }
{
    match (kind, value) {
        (Kind::Int, Value::Int(n)) => every_i32_is_int(*n),
        (Kind::Unsigned, Value::Unsigned(n)) => every_u32_is_unsigned(*n),
        (Kind::Hyper, Value::Hyper(n)) => every_i64_is_hyper(*n),
        (Kind::UnsignedHyper, Value::UnsignedHyper(n)) => every_u64_is_unsigned_hyper(*n),
        (Kind::Bool, Value::Bool(_)) => true,
        (Kind::Numbered { .. }, Value::Numbered(n)) => is_legal_tag(schema, id, i64::from(*n)),
        (Kind::Opaque { size }, Value::Bytes(bytes)) => bytes.len() == *size as usize
            && every_u8_is_a_byte(bytes),
        (Kind::OpaqueUpTo { max }, Value::Bytes(bytes)) => is_length(bytes.len(), *max)
            && every_u8_is_a_byte(bytes),
        (Kind::Text { max }, Value::Bytes(bytes)) => is_length(bytes.len(), *max)
            && every_u8_is_a_byte(bytes),
        (Kind::Fixed { item, size }, Value::List(items)) => {
            items.len() == *size as usize && are_values(schema, *item, items, most - 1)
        }
        (Kind::UpTo { item, max }, Value::List(items)) => {
            is_length(items.len(), *max) && are_values(schema, *item, items, most - 1)
        }
        (Kind::Structure { fields }, Value::Group(parts)) => {
            each_is_value(schema, fields, parts, most - 1)
        }
        (Kind::Choice { tag, .. }, Value::Choice { tag: number, part }) => {
            if !is_legal_tag(schema, *tag, *number) {
                return false;
            }
            match part_in(schema, id, *number) {
                Some(member) => is_value(schema, member.kind, part, most - 1),
                None => false,
            }
        }
        (Kind::Maybe { item: _ }, Value::Maybe(None)) => true,
        (Kind::Maybe { item }, Value::Maybe(Some(part))) => is_value(schema, *item, part, most - 1),
        (Kind::Nothing, Value::Nothing) => true,
        _ => false,
    }
}

// Whether each of the values is one of the kind, and at most so deep.
#[cycle(fits)]
fn are_values(schema: &Schema, id: KindId, items: &Vec<Value>, most: u32) -> bool
    ensures { result ≡ fit_within schema.now.kinds (replicate (length items.now.items) (item_part id.place))
        (values items.now.items) most }
{
    for value in items {
        if !is_value(schema, id, value, most) {
            return false;
        }
    }
    true
}

// Whether there is one value for each field, and each is at most so deep.
#[cycle(fits)]
fn each_is_value(schema: &Schema, fields: &Vec<Member>, parts: &Vec<Value>, most: u32) -> bool
    ensures { result ≡ fit_within schema.now.kinds (map part_of_member fields.now.items) (values parts.now.items) most }
{
    if fields.len() != parts.len() {
        return false;
    }
    for (i, value) in parts.iter().enumerate() {
        if !is_value(schema, fields[i].kind, value, most) {
            return false;
        }
    }
    true
}

/// Whether the number is one of an int.
pub fn every_i32_is_int(n: i32) -> bool
    ensures { result ≡ is_signed (2 ^ 31) n }
{
    true
}

fn every_i64_is_hyper(n: i64) -> bool
    ensures { result ≡ is_signed (2 ^ 63) n }
{
    true
}

fn every_u32_is_unsigned(n: u32) -> bool
    ensures { result ≡ nat_lt n (2 ^ 32) }
{
    true
}

fn every_u64_is_unsigned_hyper(n: u64) -> bool
    ensures { result ≡ nat_lt n (2 ^ 64) }
{
    true
}

// Whether content is bytes, as each `u8` is.
fn every_u8_is_a_byte(bytes: &Vec<u8>) -> bool
    ensures { result ≡ are_bytes bytes.now.items }
{
    true
}

// Whether a length is at most max.
fn is_length(len: usize, max: u32) -> bool
    ensures { result ≡ is_length max len }
{
    len <= max as usize
}

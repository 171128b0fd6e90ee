//! The JSON of the value whose bytes are given. No value is made.
ghost use Rattle.std.specs.Prelude.{◌≡◌, ◌≤◌, ℕ, [], ◌∷◌, List, Option, map, replicate, IfOk};
ghost use Rattle.json.specs.Json.{array, object};
ghost use Rattle.json.specs.Tree.{json_tokens, members_tokens};
ghost use Rattle.json.specs.Value.{items_of};
ghost use Rattle.xdr_types.specs.Fits.{item_part};
ghost use Rattle.xdr_types.specs.Kinds.{Branch, Part, choice, kind_at, maybe};
ghost use Rattle.xdr_types.specs.KindViews.{part_of_member};
ghost use Rattle.xdr_types.specs.Spelling.{bytes_of};
ghost use Rattle.xdr_types.specs.Tree.{Tree, Values, depth, depth_of};
ghost use Rattle.xdr_types.specs.Within.{FitsWithin};
ghost use Rattle.xdr_json.specs.Mapping.{json_of, jsons, present_json, arm_members, field_members};
ghost use Rattle.xdr_json.specs.Private.Standing.{Stands, StandEach, Says};
ghost use Rattle.xdr_json.specs.Written.{text_of};

use crate::front::{number_under, unit_of, units_of};
use crate::leaf::{push_nothing, push_tag};
use crate::output::{Layout, Output};
use crate::single::{push_counted, push_sized, push_unit, push_units};
use json::Token;
use std::alloc::Global;
use xdr_types::{Kind, KindId, Limits, Member, NoMemory, Schema, part_in};

/// The JSON text of the value whose encoding these bytes are, all of them (RFC 4506 section 4): the same that
/// `write_json` writes. No value is made, and the bytes are not judged again: that they are the encoding of a value of
/// the kind within the limits has to be known.
///
/// It takes memory for the text alone, and stack for each level of the value: one has 4096 at most.
pub fn json_of_bytes(
    alloc: Global,
    schema: &Schema,
    kind: KindId,
    limits: Limits,
    bytes: &[u8],
    layout: Layout,
) -> Result<Vec<u8>, NoMemory>
    requires { (v : Tree) × FitsWithin schema.now.kinds kind.place limits v
        × (bytes.now ≡ bytes_of schema.now.kinds kind.place v) }
    ensures { IfOk result (λ b. (v : Tree) → FitsWithin schema.now.kinds kind.place limits v
        → bytes.now ≡ bytes_of schema.now.kinds kind.place v
        → b.items ≡ text_of layout (json_tokens (json_of schema.now.kinds kind.place v))) }
{
    let mut out = Output::new(alloc, layout);
    push_node(&mut out, schema, kind, bytes, limits.depth())?;
    Ok(out.into_text())
}

// The tokens of the value that begins the bytes, of at most so many levels, and what follows it.
#[cycle(push)]
fn push_node<'a>(
    out: &mut Output,
    schema: &Schema,
    id: KindId,
    bytes: &'a [u8],
    most: u32,
) -> Result<&'a [u8], NoMemory>
    ensures layout { out.new.layout ≡ out.old.layout }
    ensures told { IfOk result (λ left. (t : Tree) (rest : List ℕ) → depth t ≤ most
        → Stands schema.now.kinds id.place bytes.now t rest
        → Says left.now rest out.old.tokens out.new.tokens (json_tokens (json_of schema.now.kinds id.place t))) }
{
    if most == 0 {
        return Ok(bytes);
    }
    if !schema.has(id) {
        return Ok(bytes);
    }
    let kind = schema.kind(id);
    match kind {
        Kind::Int | Kind::Unsigned | Kind::Bool | Kind::Numbered { .. } => {
            let (unit, rest) = unit_of(bytes);
            push_unit(out, schema, id, kind, unit)?;
            Ok(rest)
        }
        Kind::Hyper | Kind::UnsignedHyper => {
            let (units, rest) = units_of(bytes);
            push_units(out, kind, units)?;
            Ok(rest)
        }
        Kind::Opaque { size } => push_sized(out, kind, *size, bytes),
        Kind::OpaqueUpTo { .. } => push_counted(out, kind, bytes),
        Kind::Text { .. } => push_counted(out, kind, bytes),
        Kind::Fixed { item, size } => push_array(out, schema, *item, *size, bytes, most - 1),
        Kind::UpTo { item, .. } => {
            let (count, rest) = unit_of(bytes);
            push_array(out, schema, *item, count, rest, most - 1)
        }
        Kind::Structure { fields } => push_fields(out, schema, fields, bytes, most - 1),
        Kind::Choice { tag, .. } => push_union(out, schema, id, *tag, bytes, most - 1),
        Kind::Maybe { item } => push_optional(out, schema, *item, bytes, most - 1),
        Kind::Nothing => {
            push_nothing(out)?;
            Ok(bytes)
        }
    }
}

// The tokens of an array of so many items.
#[cycle(push)]
fn push_array<'a>(
    out: &mut Output,
    schema: &Schema,
    item: KindId,
    count: u32,
    bytes: &'a [u8],
    most: u32,
) -> Result<&'a [u8], NoMemory>
    ensures layout { out.new.layout ≡ out.old.layout }
    ensures told { IfOk result (λ left. (vs : Values) (rest : List ℕ) → depth_of vs ≤ most
        → StandEach schema.now.kinds (replicate count (item_part item.place)) bytes.now vs rest
        → Says left.now rest out.old.tokens out.new.tokens (json_tokens (array (items_of
        (jsons schema.now.kinds (replicate count (item_part item.place)) vs))))) }
{
    out.token(Token::BeginArray)?;
    let mut rest = bytes;
    for _ in 0..count {
        rest = push_node(out, schema, item, rest, most)?;
    }
    out.token(Token::EndArray)?;
    Ok(rest)
}

// The tokens of a structure of these fields.
#[cycle(push)]
fn push_fields<'a>(
    out: &mut Output,
    schema: &Schema,
    fields: &Vec<Member>,
    bytes: &'a [u8],
    most: u32,
) -> Result<&'a [u8], NoMemory>
    ensures layout { out.new.layout ≡ out.old.layout }
    ensures told { IfOk result (λ left. (vs : Values) (rest : List ℕ) → depth_of vs ≤ most
        → StandEach schema.now.kinds (map part_of_member fields.now.items) bytes.now vs rest
        → Says left.now rest out.old.tokens out.new.tokens (json_tokens (object
        (field_members (map part_of_member fields.now.items)
        (jsons schema.now.kinds (map part_of_member fields.now.items) vs))))) }
{
    out.token(Token::BeginObject)?;
    let mut rest = bytes;
    for field in fields {
        out.token(Token::Key(field.name.as_str()))?;
        rest = push_node(out, schema, field.kind, rest, most)?;
    }
    out.token(Token::EndObject)?;
    Ok(rest)
}

// The tokens of the union at a place, whose discriminant is of the kind `tag`.
#[cycle(push)]
fn push_union<'a>(
    out: &mut Output,
    schema: &Schema,
    id: KindId,
    tag: KindId,
    bytes: &'a [u8],
    most: u32,
) -> Result<&'a [u8], NoMemory>
    ensures layout { out.new.layout ≡ out.old.layout }
    ensures told { IfOk result (λ left. (arms : List Branch) (other : Option Part) (t : Tree) (rest : List ℕ)
        → kind_at schema.now.kinds id.place ≡ choice tag.place arms other → depth_of t.1 ≤ most
        → Stands schema.now.kinds id.place bytes.now t rest
        → Says left.now rest out.old.tokens out.new.tokens (json_tokens (json_of schema.now.kinds id.place t))) }
{
    if !schema.has(tag) {
        return Ok(bytes);
    }
    let (unit, rest) = unit_of(bytes);
    let kind = schema.kind(tag);
    let number = number_under(kind, unit);
    out.token(Token::BeginObject)?;
    out.token(Token::Key("case"))?;
    push_tag(out, schema, tag, number)?;
    match part_in(schema, id, number) {
        Some(arm) => push_arm(out, schema, arm, rest, most),
        None => Ok(rest),
    }
}

// The tokens that end a union: an arm's key and its value, none of a void one, and the bracket.
#[cycle(push)]
fn push_arm<'a>(
    out: &mut Output,
    schema: &Schema,
    arm: &Member,
    bytes: &'a [u8],
    most: u32,
) -> Result<&'a [u8], NoMemory>
    ensures layout { out.new.layout ≡ out.old.layout }
    ensures told { IfOk result (λ left. (t : Tree) (rest : List ℕ) → depth t ≤ most
        → Stands schema.now.kinds arm.now.kind.place bytes.now t rest
        → Says left.now rest out.old.tokens out.new.tokens
        (members_tokens (arm_members schema.now.kinds (part_of_member arm.now ∷ [])
        (json_of schema.now.kinds arm.now.kind.place t ∷ [])))) }
{
    if !schema.has(arm.kind) {
        return Ok(bytes);
    }
    if let Kind::Nothing = schema.kind(arm.kind) {
        out.token(Token::EndObject)?;
        return Ok(bytes);
    }
    let name = arm.name.as_str();
    out.token(Token::Key(if name == "case" { "case_" } else { name }))?;
    let rest = push_node(out, schema, arm.kind, bytes, most)?;
    out.token(Token::EndObject)?;
    Ok(rest)
}

// The tokens of optional data with this item.
#[cycle(push)]
fn push_optional<'a>(
    out: &mut Output,
    schema: &Schema,
    item: KindId,
    bytes: &'a [u8],
    most: u32,
) -> Result<&'a [u8], NoMemory>
    ensures layout { out.new.layout ≡ out.old.layout }
    ensures told { IfOk result (λ left. (place : ℕ) (t : Tree) (rest : List ℕ)
        → kind_at schema.now.kinds place ≡ maybe item.place → depth_of t.1 ≤ most
        → Stands schema.now.kinds place bytes.now t rest
        → Says left.now rest out.old.tokens out.new.tokens (json_tokens (json_of schema.now.kinds place t))) }
{
    let (flag, rest) = unit_of(bytes);
    if flag == 0 {
        out.token(Token::Null)?;
        return Ok(rest);
    }
    push_present(out, schema, item, rest, most)
}

// The tokens of an optional item that is there.
#[cycle(push)]
fn push_present<'a>(
    out: &mut Output,
    schema: &Schema,
    item: KindId,
    bytes: &'a [u8],
    most: u32,
) -> Result<&'a [u8], NoMemory>
    ensures layout { out.new.layout ≡ out.old.layout }
    ensures told { IfOk result (λ left. (t : Tree) (rest : List ℕ) → depth t ≤ most
        → Stands schema.now.kinds item.place bytes.now t rest
        → Says left.now rest out.old.tokens out.new.tokens
        (json_tokens (present_json (kind_at schema.now.kinds item.place)
        (json_of schema.now.kinds item.place t ∷ [])))) }
{
    if !schema.has(item) {
        return Ok(bytes);
    }
    match schema.kind(item) {
        Kind::Maybe { .. } => {
            out.token(Token::BeginArray)?;
            let rest = push_node(out, schema, item, bytes, most)?;
            out.token(Token::EndArray)?;
            Ok(rest)
        }
        _ => push_node(out, schema, item, bytes, most),
    }
}

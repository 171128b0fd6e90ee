//! Enumerations and discriminants (RFC 4506 sections 4.3, 4.15).
ghost use Rattle.std.specs.Prelude.{◌≡◌, ℤ, true, false, map, IfOk, IfErr, MatchOption};
ghost use Rattle.xdr_types.specs.Kinds.{numbered, kind_at};
ghost use Rattle.xdr_types.specs.KindViews.{constant_of, kind_view};
ghost use Rattle.xdr_types.specs.Fits.{is_numbered, is_constant, is_tag_of};
ghost use Rattle.xdr_json.specs.Spelled.{is_name, is_numbered_json, is_tag_json};
ghost use Rattle.xdr_json_reader.specs.Reasons.{name_reason, tag_reason};
ghost use Rattle.xdr_json_reader.specs.Private.Look.{seen};
ghost use Rattle.xdr_json_reader.specs.Private.Leaves.{LeafRead};
ghost use Rattle.xdr_json_reader.specs.Private.Names.{NumberFound, MayBeTable, constants_in};

use crate::fault::JsonReason;
use crate::reading_bytes::put_int;
use crate::reading_leaf::flag;
use crate::reading_look::Shape;
use crate::reading_names::Names;
use crate::reading_number::{int_number, number_fault, unsigned_number};
use std::string::String;
use xdr_types::{Kind, KindId, Schema, is_number_of};

// The number of the member with the name, from the table where there is one.
fn number_named(names: Option<&Names<'_>>, members: &Vec<(String, i32)>, name: &str) -> Option<i32>
    requires { MayBeTable (map constant_of members.now.items) names }
    ensures { NumberFound result (map constant_of members.now.items) name.now }
{
    match names {
        Some(names) => names.get(name).copied(),
        None => number_listed(members, name),
    }
}

// The same, looked for one by one.
fn number_listed(members: &Vec<(String, i32)>, name: &str) -> Option<i32>
    ensures { NumberFound result (map constant_of members.now.items) name.now }
{
    for member in members {
        if member.0.as_str() == name {
            return Some(member.1);
        }
    }
    None
}

// The number of an enumeration.
fn member_number(
    names: Option<&Names<'_>>,
    members: &Vec<(String, i32)>,
    json: Shape<'_, '_>,
) -> Result<i32, JsonReason>
    requires { MayBeTable (map constant_of members.now.items) names }
    ensures found { IfOk result (λ z. is_numbered_json (map constant_of members.now.items) z (seen json.entry) ≡ true) }
    ensures legal { IfOk result (λ z. is_numbered (map constant_of members.now.items) z ≡ true) }
    ensures none { IfErr result (λ _. (z : ℤ) → is_numbered (map constant_of members.now.items) z ≡ true
        → is_numbered_json (map constant_of members.now.items) z (seen json.entry) ≡ true → ⊥) }
    ensures why { IfErr result (λ w. w ≡ name_reason (seen json.entry)) }
{
    match json {
        Shape::Text(name) => match number_named(names, members, name) {
            Some(number) => Ok(number),
            None => Err(JsonReason::UnknownName),
        },
        Shape::Number(_) => match int_number(json) {
            Ok(number) => {
                if is_number_of(members, i64::from(number)) {
                    Ok(number)
                } else {
                    Err(number_fault(json))
                }
            }
            Err(why) => Err(why),
        },
        _ => Err(JsonReason::WrongType),
    }
}

/// Reads a number of an enumeration.
pub fn read_numbered(
    names: Option<&Names<'_>>,
    members: &Vec<(String, i32)>,
    json: Shape<'_, '_>,
    out: &mut Vec<u8>,
) -> Result<(), JsonReason>
    requires { MayBeTable (map constant_of members.now.items) names }
    ensures { LeafRead (numbered (map constant_of members.now.items)) (seen json.entry) out.old.items out.new.items
        result }
{
    match member_number(names, members, json) {
        Ok(number) => match put_int(out, number) {
            Ok(()) => Ok(()),
            Err(_) => Err(JsonReason::NoMemory),
        },
        Err(why) => Err(why),
    }
}

// The number of a discriminant of the kind.
fn tag_number(
    names: Option<&Names<'_>>,
    kind: &Kind,
    json: Shape<'_, '_>,
) -> Result<i64, JsonReason>
    requires { MayBeTable (constants_in (kind_view kind.now)) names }
    ensures found { IfOk result (λ z. is_tag_json (kind_view kind.now) z (seen json.entry) ≡ true) }
    ensures legal { IfOk result (λ z. is_tag_of (kind_view kind.now) z ≡ true) }
    ensures none { IfErr result (λ _. (z : ℤ) → is_tag_of (kind_view kind.now) z ≡ true
        → is_tag_json (kind_view kind.now) z (seen json.entry) ≡ true → ⊥) }
    ensures why { IfErr result (λ w. w ≡ tag_reason (kind_view kind.now) (seen json.entry)) }
{
    match kind {
        Kind::Int => match int_number(json) {
            Ok(number) => Ok(i64::from(number)),
            Err(why) => Err(why),
        },
        Kind::Unsigned => match unsigned_number(json) {
            Ok(number) => Ok(i64::from(number)),
            Err(why) => Err(why),
        },
        Kind::Bool => match flag(json) {
            Ok(flag) => Ok(if flag { 1 } else { 0 }),
            Err(why) => Err(why),
        },
        Kind::Numbered { members } => match member_number(names, members, json) {
            Ok(number) => Ok(i64::from(number)),
            Err(why) => Err(why),
        },
        _ => Err(JsonReason::WrongType),
    }
}

/// The same of the kind at a place of a schema.
pub fn tag_at(
    schema: &Schema,
    names: Option<&Names<'_>>,
    id: KindId,
    json: Shape<'_, '_>,
) -> Result<i64, JsonReason>
    requires { MayBeTable (constants_in (kind_at schema.now.kinds id.place)) names }
    ensures found { IfOk result (λ z. is_tag_json (kind_at schema.now.kinds id.place) z (seen json.entry) ≡ true) }
    ensures legal { IfOk result (λ z. is_tag_of (kind_at schema.now.kinds id.place) z ≡ true) }
    ensures none { IfErr result (λ _. (z : ℤ) → is_tag_of (kind_at schema.now.kinds id.place) z ≡ true
        → is_tag_json (kind_at schema.now.kinds id.place) z (seen json.entry) ≡ true → ⊥) }
    ensures why { IfErr result (λ w. w ≡ tag_reason (kind_at schema.now.kinds id.place) (seen json.entry)) }
{
    if !schema.has(id) {
        return Err(JsonReason::WrongType);
    }
    tag_number(names, schema.kind(id), json)
}

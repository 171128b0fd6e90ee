//! Nodes without parts: units and content as tokens of JSON.
ghost use Rattle.std.specs.Prelude.{◌≡◌, ◌<◌, ◌^◌, ◌++◌, ℕ, List, length, IfOk, OnOk};
ghost use Rattle.json.specs.Tree.{json_tokens};
ghost use Rattle.xdr_types.specs.Kinds.{kind_at};
ghost use Rattle.xdr_types.specs.KindViews.{kind_view};
ghost use Rattle.xdr_json.specs.Mapping.{content_json};
ghost use Rattle.xdr_json.specs.Private.Standing.{Says, unit_json, units_json};
ghost use Rattle.xdr_units.specs.Numbers.{padded, word};

use crate::front::{content_of, unit_of};
use crate::leaf::{push_content, push_name};
use crate::output::Output;
use json::Token;
use xdr_types::{Kind, KindId, NoMemory, Schema};

/// A unit of a kind of one unit.
pub fn push_unit(
    out: &mut Output,
    schema: &Schema,
    id: KindId,
    kind: &Kind,
    unit: u32,
) -> Result<(), NoMemory>
    requires { kind_view kind.now ≡ kind_at schema.now.kinds id.place }
    ensures layout { out.new.layout ≡ out.old.layout }
    ensures told { OnOk result (out.new.tokens
        ≡ out.old.tokens ++ json_tokens (unit_json (kind_view kind.now) unit)) }
{
    match kind {
        Kind::Int => out.signed(i64::from(unit.cast_signed())),
        Kind::Unsigned => out.unsigned(u64::from(unit)),
        Kind::Bool => out.token(Token::Bool(unit != 0)),
        Kind::Numbered { .. } => push_name(out, schema, id, kind, i64::from(unit.cast_signed())),
        _ => out.token(Token::Null),
    }
}

/// Two units of a hyper or an unsigned hyper.
pub fn push_units(out: &mut Output, kind: &Kind, units: u64) -> Result<(), NoMemory>
    ensures layout { out.new.layout ≡ out.old.layout }
    ensures told { OnOk result (out.new.tokens
        ≡ out.old.tokens ++ json_tokens (units_json (kind_view kind.now) units)) }
{
    match kind {
        Kind::Hyper => out.quoted_signed(units.cast_signed()),
        _ => out.quoted_unsigned(units),
    }
}

/// Content of so many bytes, with its padding. It returns what follows.
pub fn push_sized<'a>(
    out: &mut Output,
    kind: &Kind,
    size: u32,
    bytes: &'a [u8],
) -> Result<&'a [u8], NoMemory>
    ensures layout { out.new.layout ≡ out.old.layout }
    ensures told { IfOk result (λ left. (content rest : List ℕ) → length content ≡ size
        → bytes.now ≡ padded content ++ rest
        → Says left.now rest out.old.tokens out.new.tokens (json_tokens (content_json (kind_view kind.now) content))) }
{
    let (content, rest) = content_of(bytes, size);
    push_content(out, kind, content)?;
    Ok(rest)
}

/// Content of as many bytes as the unit before it says, with its padding. It returns what follows.
pub fn push_counted<'a>(
    out: &mut Output,
    kind: &Kind,
    bytes: &'a [u8],
) -> Result<&'a [u8], NoMemory>
    ensures layout { out.new.layout ≡ out.old.layout }
    ensures told { IfOk result (λ left. (content rest : List ℕ) → length content < 2 ^ 32
        → bytes.now ≡ word (length content) ++ (padded content ++ rest)
        → Says left.now rest out.old.tokens out.new.tokens (json_tokens (content_json (kind_view kind.now) content))) }
{
    let (size, rest) = unit_of(bytes);
    let (content, behind) = content_of(rest, size);
    push_content(out, kind, content)?;
    Ok(behind)
}

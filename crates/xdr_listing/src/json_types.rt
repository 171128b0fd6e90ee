//! Kinds and how many bytes their values have, as JSON.
ghost use Rattle.std.specs.Prelude.{◌≡◌, ◌++◌, OnOk, option_map};
ghost use Rattle.json.specs.Tree.{json_tokens, members_tokens};
ghost use Rattle.xdr_listing.specs.JsonListing.{kind_members, name_json, range_members, least_json, greatest_json};
ghost use Rattle.xdr_listing.specs.Private.Held.{types_of};
ghost use Rattle.xdr_listing.specs.Private.Tokens.{part_tokens};

use crate::json_text::JsonText;
use crate::types::{Types, name_of, range_of, word_of};
use json::Token;
use xdr_bounds::{Greatest, Range};
use xdr_types::{KindId, NoMemory};

/// An argument or a result.
pub fn push_part(out: &mut JsonText, types: &Types<'_>, kind: KindId) -> Result<(), NoMemory>
    ensures { OnOk result (out.new ≡ out.old ++ part_tokens (types_of types.now) kind.place) }
{
    out.token(Token::BeginObject)?;
    out.token(Token::Key("type"))?;
    push_name(out, name_of(types, kind))?;
    push_kind(out, types, kind)
}

// A name, or null where there is none.
fn push_name(out: &mut JsonText, name: Option<&str>) -> Result<(), NoMemory>
    ensures { OnOk result (out.new ≡ out.old ++ json_tokens (name_json (option_map (λ s. s.now) name.entry))) }
{
    match name {
        Some(name) => out.token(Token::String(name)),
        None => out.token(Token::Null),
    }
}

/// The members of a kind, and the bracket behind them.
pub fn push_kind(out: &mut JsonText, types: &Types<'_>, id: KindId) -> Result<(), NoMemory>
    ensures { OnOk result (out.new
        ≡ out.old ++ members_tokens (kind_members (types_of types.now) id.place)) }
{
    out.token(Token::Key("kind"))?;
    out.token(Token::String(word_of(types, id)))?;
    push_range(out, range_of(types, id))
}

// The members of both counts, and the bracket behind them.
fn push_range(out: &mut JsonText, range: Option<Range>) -> Result<(), NoMemory>
    ensures { OnOk result (out.new ≡ out.old ++ members_tokens (range_members range)) }
{
    match range {
        Some(range) => {
            out.token(Token::Key("least"))?;
            push_least(out, range.least)?;
            out.token(Token::Key("greatest"))?;
            push_greatest(out, range.greatest)?;
            out.token(Token::EndObject)
        }
        None => out.token(Token::EndObject),
    }
}

// The least count, or that it is 2^64 or more.
fn push_least(out: &mut JsonText, least: Option<u64>) -> Result<(), NoMemory>
    ensures { OnOk result (out.new ≡ out.old ++ json_tokens (least_json least)) }
{
    match least {
        Some(count) => out.count(count),
        None => out.token(Token::String("large")),
    }
}

// The greatest count, or that it is 2^64 or more, or that there is none.
fn push_greatest(out: &mut JsonText, greatest: Greatest) -> Result<(), NoMemory>
    ensures { OnOk result (out.new ≡ out.old ++ json_tokens (greatest_json greatest)) }
{
    match greatest {
        Greatest::Bytes(count) => out.count(count),
        Greatest::MoreThanU64 => out.token(Token::String("large")),
        Greatest::Unbounded => out.token(Token::String("unbounded")),
    }
}

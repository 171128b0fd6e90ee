//! What a text declares as one JSON value.
ghost use Rattle.std.specs.Prelude.{◌≡◌, ◌++◌, OnOk, IfOk, codes, map};
ghost use Rattle.json.specs.Print.{print};
ghost use Rattle.xdr_types.specs.KindViews.{name_of};
ghost use Rattle.xdr_lang.specs.Views.{constant_of, program_of};
ghost use Rattle.xdr_listing.specs.Private.Held.{types_of};
ghost use Rattle.xdr_listing.specs.Private.Tokens.{array_tokens, constant_tokens, type_tokens, all_tokens};

use crate::json_programs::push_programs;
use crate::json_text::JsonText;
use crate::json_types::push_kind;
use crate::types::Types;
use json::Token;
use std::alloc::Global;
use xdr_lang::Program;
use xdr_types::{KindId, NoMemory};

/// The text of all that is declared, and a line feed.
pub fn json_text(
    alloc: Global,
    types: &Types<'_>,
    constants: &[(String, i128)],
    names: &[(String, KindId)],
    programs: &[Program],
) -> Result<Vec<u8>, NoMemory>
    ensures { IfOk result (λ v. v.items ≡ print (all_tokens (types_of types.now)
        (map constant_of constants.now) (map name_of names.now) (map program_of programs.now)) ++ codes "\n") }
{
    let mut out = JsonText::new(alloc);
    out.token(Token::BeginObject)?;
    out.token(Token::Key("constants"))?;
    push_constants(&mut out, constants)?;
    out.token(Token::Key("types"))?;
    push_types(&mut out, types, names)?;
    out.token(Token::Key("programs"))?;
    push_programs(&mut out, types, programs)?;
    out.token(Token::EndObject)?;
    let mut text = out.into_text();
    text.push(b'\n')?;
    Ok(text)
}

fn push_constants(out: &mut JsonText, constants: &[(String, i128)]) -> Result<(), NoMemory>
    ensures { OnOk result (out.new
        ≡ out.old ++ array_tokens constant_tokens (map constant_of constants.now)) }
{
    out.token(Token::BeginArray)?;
    for constant in constants {
        push_constant(out, constant)?;
    }
    out.token(Token::EndArray)
}

fn push_constant(out: &mut JsonText, constant: &(String, i128)) -> Result<(), NoMemory>
    ensures { OnOk result (out.new ≡ out.old ++ constant_tokens (constant_of constant.now)) }
{
    out.named(constant.0.as_str())?;
    out.token(Token::Key("value"))?;
    out.integer(constant.1)?;
    out.token(Token::EndObject)
}

fn push_types(
    out: &mut JsonText,
    types: &Types<'_>,
    names: &[(String, KindId)],
) -> Result<(), NoMemory>
    ensures { OnOk result (out.new
        ≡ out.old ++ array_tokens (type_tokens (types_of types.now)) (map name_of names.now)) }
{
    out.token(Token::BeginArray)?;
    for name in names {
        push_type(out, types, name)?;
    }
    out.token(Token::EndArray)
}

fn push_type(out: &mut JsonText, types: &Types<'_>, name: &(String, KindId)) -> Result<(), NoMemory>
    ensures { OnOk result (out.new ≡ out.old ++ type_tokens (types_of types.now) (name_of name.now)) }
{
    out.named(name.0.as_str())?;
    push_kind(out, types, name.1)
}

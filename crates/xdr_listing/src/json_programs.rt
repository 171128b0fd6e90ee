//! Programs as JSON.
ghost use Rattle.std.specs.Prelude.{◌≡◌, ◌++◌, OnOk, map, option_map};
ghost use Rattle.json.specs.Tree.{json_tokens};
ghost use Rattle.xdr_lang.specs.Views.{places, procedure_of, version_of, program_of};
ghost use Rattle.xdr_listing.specs.JsonListing.{result_json};
ghost use Rattle.xdr_listing.specs.Private.Held.{types_of};
ghost use Rattle.xdr_listing.specs.Private.Tokens.{array_tokens, program_tokens, version_tokens, procedure_tokens};
ghost use Rattle.xdr_listing.specs.Private.Tokens.{part_tokens};

use crate::json_text::JsonText;
use crate::json_types::push_part;
use crate::types::Types;
use json::Token;
use xdr_lang::{Procedure, Program, Version};
use xdr_types::{KindId, NoMemory};

/// All programs, in an array.
pub fn push_programs(
    out: &mut JsonText,
    types: &Types<'_>,
    programs: &[Program],
) -> Result<(), NoMemory>
    ensures { OnOk result (out.new ≡ out.old
        ++ array_tokens (program_tokens (types_of types.now)) (map program_of programs.now)) }
{
    out.token(Token::BeginArray)?;
    for program in programs {
        push_program(out, types, program)?;
    }
    out.token(Token::EndArray)
}

fn push_program(out: &mut JsonText, types: &Types<'_>, program: &Program) -> Result<(), NoMemory>
    ensures { OnOk result (out.new
        ≡ out.old ++ program_tokens (types_of types.now) (program_of program.now)) }
{
    out.numbered(program.name.as_str(), program.number)?;
    out.token(Token::Key("versions"))?;
    push_versions(out, types, &program.versions)?;
    out.token(Token::EndObject)?;
    Ok(())
}

fn push_versions(
    out: &mut JsonText,
    types: &Types<'_>,
    versions: &[Version],
) -> Result<(), NoMemory>
    ensures { OnOk result (out.new ≡ out.old
        ++ array_tokens (version_tokens (types_of types.now)) (map version_of versions.now)) }
{
    out.token(Token::BeginArray)?;
    for version in versions {
        push_version(out, types, version)?;
    }
    out.token(Token::EndArray)
}

fn push_version(out: &mut JsonText, types: &Types<'_>, version: &Version) -> Result<(), NoMemory>
    ensures { OnOk result (out.new
        ≡ out.old ++ version_tokens (types_of types.now) (version_of version.now)) }
{
    out.numbered(version.name.as_str(), version.number)?;
    out.token(Token::Key("procedures"))?;
    push_procedures(out, types, &version.procedures)?;
    out.token(Token::EndObject)?;
    Ok(())
}

fn push_procedures(
    out: &mut JsonText,
    types: &Types<'_>,
    procedures: &[Procedure],
) -> Result<(), NoMemory>
    ensures { OnOk result (out.new ≡ out.old
        ++ array_tokens (procedure_tokens (types_of types.now)) (map procedure_of procedures.now)) }
{
    out.token(Token::BeginArray)?;
    for procedure in procedures {
        push_procedure(out, types, procedure)?;
    }
    out.token(Token::EndArray)
}

fn push_procedure(
    out: &mut JsonText,
    types: &Types<'_>,
    procedure: &Procedure,
) -> Result<(), NoMemory>
    ensures { OnOk result (out.new
        ≡ out.old ++ procedure_tokens (types_of types.now) (procedure_of procedure.now)) }
{
    out.numbered(procedure.name.as_str(), procedure.number)?;
    out.token(Token::Key("arguments"))?;
    push_arguments(out, types, &procedure.arguments)?;
    out.token(Token::Key("result"))?;
    push_result(out, types, procedure.result)?;
    out.token(Token::EndObject)?;
    Ok(())
}

fn push_arguments(
    out: &mut JsonText,
    types: &Types<'_>,
    arguments: &[KindId],
) -> Result<(), NoMemory>
    ensures { OnOk result (out.new ≡ out.old
        ++ array_tokens (part_tokens (types_of types.now)) (places arguments.now)) }
{
    out.token(Token::BeginArray)?;
    for argument in arguments {
        push_part(out, types, *argument)?;
    }
    out.token(Token::EndArray)
}

// A result; null where it is void.
fn push_result(out: &mut JsonText, types: &Types<'_>, kind: Option<KindId>) -> Result<(), NoMemory>
    ensures { OnOk result (out.new ≡ out.old
        ++ json_tokens (result_json (types_of types.now) (option_map (λ (k : KindId). k.place) kind))) }
{
    match kind {
        Some(kind) => push_part(out, types, kind),
        None => out.token(Token::Null),
    }
}

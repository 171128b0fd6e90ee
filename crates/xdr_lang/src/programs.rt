//! The programs that an outline declares.
ghost use Rattle.std.specs.Prelude.{◌≡◌, Some, None, IfOk, List, [], map, option_map};
ghost use Rattle.xdr_tokens.specs.Due.{Gives};
ghost use Rattle.xdr_grammar.specs.View as out;
ghost use Rattle.xdr_lang.specs.LookUp.{place_of};
ghost use Rattle.xdr_lang.specs.Views.{types_of, places, procedure_of, version_of, program_of};
ghost use Rattle.xdr_lang.specs.Kinds.{each, each_onto, where_given};
ghost use Rattle.xdr_lang.specs.Programs.{signature, one_procedure, one_version, one_program};

use crate::declarations::{Procedure, Program, Version};
use crate::places::kind_of;
use crate::type_table::TypeTable;
use std::alloc::Global;
use std::string::String;
use xdr_constants::unsigned;
use xdr_grammar::{
    Field, Part, Procedure as Spelled, Program as SpelledProgram, Version as SpelledVersion,
};
use xdr_tokens::Fault;
use xdr_types::KindId;

/// The kinds of arguments.
#[tactic(auto, unfolding(crate::specs::Kinds::each_onto))]
fn all_places(
    alloc: Global,
    types: &TypeTable<'_>,
    items: &[Part<'_>],
) -> Result<Vec<KindId>, Fault>
    ensures { Gives (λ x. places x.items) result
        (each (place_of (types_of types.now.list.items)) (map out.part_of items.now)) }
{
    let mut found = Vec::new(alloc);
    for part in items {
        let one = kind_of(types, *part)?;
        found.push(one)?;
    }
    Ok(found)
}

/// The kind of a result, where there is one.
#[tactic(auto, unfolding(crate::specs::Kinds::where_given))]
fn given_place(types: &TypeTable<'_>, part: &Option<Part<'_>>) -> Result<Option<KindId>, Fault>
    ensures { Gives (λ x. option_map (λ (k : KindId). k.place) x) result
        (where_given (place_of (types_of types.now.list.items)) (option_map out.part_of part.now)) }
{
    let Some(part) = part else {
        return Ok(None);
    };
    let kind = kind_of(types, *part)?;
    Ok(Some(kind))
}

/// The kinds of a procedure's arguments and of its result.
#[tactic(auto, unfolding(crate::specs::Programs::signature))]
fn signature(
    alloc: Global,
    types: &TypeTable<'_>,
    procedure: &Spelled<'_>,
) -> Result<(Vec<KindId>, Option<KindId>), Fault>
    ensures { Gives (λ x. (places x.0.items, option_map (λ (k : KindId). k.place) x.1)) result
        (signature (types_of types.now.list.items) (out.procedure_of procedure.now)) }
{
    let arguments = all_places(alloc, types, &procedure.arguments)?;
    let result = given_place(types, &procedure.result)?;
    Ok((arguments, result))
}

/// A procedure.
#[tactic(auto, unfolding(crate::specs::Programs::one_procedure))]
fn one_procedure(
    alloc: Global,
    types: &TypeTable<'_>,
    procedure: &Spelled<'_>,
) -> Result<Procedure, Fault>
    ensures { Gives procedure_of result
        (one_procedure (types_of types.now.list.items) (out.procedure_of procedure.now)) }
{
    let number = unsigned(procedure.number.value, procedure.number.left)?;
    let (arguments, result) = signature(alloc, types, procedure)?;
    let name = String::from_str(alloc, procedure.name.text)?;
    Ok(Procedure {
        name,
        number,
        arguments,
        result,
    })
}

/// The procedures of a version.
#[tactic(auto, unfolding(crate::specs::Kinds::each_onto))]
fn all_procedures(
    alloc: Global,
    types: &TypeTable<'_>,
    items: &[Spelled<'_>],
) -> Result<Vec<Procedure>, Fault>
    ensures { Gives (λ x. map procedure_of x.items) result
        (each (one_procedure (types_of types.now.list.items)) (map out.procedure_of items.now)) }
{
    let mut found = Vec::new(alloc);
    for procedure in items {
        let one = one_procedure(alloc, types, procedure)?;
        found.push(one)?;
    }
    Ok(found)
}

/// A version.
#[tactic(auto, unfolding(crate::specs::Programs::one_version))]
fn one_version(
    alloc: Global,
    types: &TypeTable<'_>,
    version: &SpelledVersion<'_>,
) -> Result<Version, Fault>
    ensures { Gives version_of result (one_version (types_of types.now.list.items) (out.version_of version.now)) }
{
    let number = unsigned(version.number.value, version.number.left)?;
    let procedures = all_procedures(alloc, types, &version.procedures)?;
    let name = String::from_str(alloc, version.name.text)?;
    Ok(Version {
        name,
        number,
        procedures,
    })
}

/// The versions of a program.
#[tactic(auto, unfolding(crate::specs::Kinds::each_onto))]
fn all_versions(
    alloc: Global,
    types: &TypeTable<'_>,
    items: &[SpelledVersion<'_>],
) -> Result<Vec<Version>, Fault>
    ensures { Gives (λ x. map version_of x.items) result
        (each (one_version (types_of types.now.list.items)) (map out.version_of items.now)) }
{
    let mut found = Vec::new(alloc);
    for version in items {
        let one = one_version(alloc, types, version)?;
        found.push(one)?;
    }
    Ok(found)
}

/// A program.
#[tactic(auto, unfolding(crate::specs::Programs::one_program))]
fn one_program(
    alloc: Global,
    types: &TypeTable<'_>,
    program: &SpelledProgram<'_>,
) -> Result<Program, Fault>
    ensures { Gives program_of result (one_program (types_of types.now.list.items) (out.program_of program.now)) }
{
    let number = unsigned(program.number.value, program.number.left)?;
    let versions = all_versions(alloc, types, &program.versions)?;
    let name = String::from_str(alloc, program.name.text)?;
    Ok(Program {
        name,
        number,
        versions,
    })
}

/// The programs.
#[tactic(auto, unfolding(crate::specs::Kinds::each_onto))]
pub fn all_programs(
    alloc: Global,
    types: &TypeTable<'_>,
    items: &[SpelledProgram<'_>],
) -> Result<Vec<Program>, Fault>
    ensures { Gives (λ x. map program_of x.items) result
        (each (one_program (types_of types.now.list.items)) (map out.program_of items.now)) }
{
    let mut found = Vec::new(alloc);
    for program in items {
        let one = one_program(alloc, types, program)?;
        found.push(one)?;
    }
    Ok(found)
}

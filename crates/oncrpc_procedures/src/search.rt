//! Where there is a procedure that the parts of a name mean. Nothing here takes memory.
ghost use Rattle.std.specs.Prelude.{◌≡◌, map, option_map};
ghost use Rattle.std.specs.List.{list_any};
ghost use Rattle.xdr_lang.specs.Views.{procedure_of, program_of, version_of};
ghost use Rattle.oncrpc_procedures.specs.Meant.{means};
ghost use Rattle.oncrpc_procedures.specs.Private.Search.{first_in_programs, first_in_versions, first_procedure};
ghost use Rattle.oncrpc_procedures.specs.Private.Search.{IsFar, means_program, means_version, parts_of};
ghost use Rattle.oncrpc_procedures.specs.View.{target_of};

use crate::named::Named;
use crate::parts::{Parts, is_meant};
use crate::unnamed::Unnamed;
use xdr_lang::{Procedure, Program, Version};

/// The first procedure of programs that the parts mean.
#[tactic(auto, unfolding(crate::specs::Private::Search::first_in_programs))]
pub fn program_search<'a>(programs: &'a [Program], parts: &Parts<'_>) -> Option<Named<'a>>
    ensures { option_map target_of result ≡ first_in_programs (parts_of parts.now) (map program_of programs.now) }
{
    for program in programs {
        if is_meant(parts.program, program.name.as_str(), program.number) {
            if let Some(named) = version_search(program.number, &program.versions, parts) {
                return Some(named);
            }
        }
    }
    None
}

// The first procedure of the versions of a program with this number.
#[tactic(auto, unfolding(crate::specs::Private::Search::first_in_versions))]
fn version_search<'a>(program: u32, versions: &'a [Version], parts: &Parts<'_>) -> Option<Named<'a>>
    ensures { option_map target_of result ≡ first_in_versions (parts_of parts.now) program
        (map version_of versions.now) }
{
    for version in versions {
        if is_meant(parts.version, version.name.as_str(), version.number) {
            let procedures = version.procedures.as_slice();
            if let Some(named) = procedure_search(program, version.number, procedures, parts) {
                return Some(named);
            }
        }
    }
    None
}

// The first procedure of a version with these numbers.
#[tactic(auto, unfolding(crate::specs::Private::Search::first_procedure))]
fn procedure_search<'a>(
    program: u32,
    version: u32,
    procedures: &'a [Procedure],
    parts: &Parts<'_>,
) -> Option<Named<'a>>
    ensures { option_map target_of result ≡ first_procedure (parts_of parts.now) program version
        (map procedure_of procedures.now) }
{
    for procedure in procedures {
        if is_meant(parts.procedure, procedure.name.as_str(), procedure.number) {
            return Some(Named {
                program,
                version,
                procedure,
            });
        }
    }
    None
}

/// How far the parts mean something, where they mean no procedure.
pub fn unnamed_in(programs: &[Program], parts: &Parts<'_>) -> Unnamed
    ensures { IsFar (parts_of parts.now) (map program_of programs.now) result }
{
    if has_version(programs, parts) {
        return Unnamed::NoProcedure;
    }
    if has_program(programs, parts) {
        return Unnamed::NoVersion;
    }
    Unnamed::NoProgram
}

fn has_program(programs: &[Program], parts: &Parts<'_>) -> bool
    ensures { result ≡ list_any (means_program (parts_of parts.now)) (map program_of programs.now) }
{
    for program in programs {
        if is_meant(parts.program, program.name.as_str(), program.number) {
            return true;
        }
    }
    false
}

fn has_version(programs: &[Program], parts: &Parts<'_>) -> bool
    ensures { result ≡ list_any (means_version (parts_of parts.now)) (map program_of programs.now) }
{
    for program in programs {
        if is_meant(parts.program, program.name.as_str(), program.number)
            && is_version_of(&program.versions, parts.version)
        {
            return true;
        }
    }
    false
}

// Whether the part means one of these versions.
fn is_version_of(versions: &[Version], part: &[u8]) -> bool
    ensures { result ≡ list_any (λ v. means part.now v.name v.number) (map version_of versions.now) }
{
    for version in versions {
        if is_meant(part, version.name.as_str(), version.number) {
            return true;
        }
    }
    false
}

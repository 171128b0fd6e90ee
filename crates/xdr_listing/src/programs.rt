//! A line for each program and version, and the lines of their procedures.
ghost use Rattle.std.specs.Prelude.{◌≡◌, ◌++◌, OnOk, flat_map, map};
ghost use Rattle.xdr_lang.specs.Views.{procedure_of, version_of, program_of};
ghost use Rattle.xdr_listing.specs.Private.Held.{types_of};
ghost use Rattle.xdr_listing.specs.Private.Pieces.{program_piece, version_piece, procedure_piece};

use crate::lines::push_start;
use crate::paths::{ProcedurePath, push_numbers};
use crate::procedures::push_procedure;
use crate::types::Types;
use crate::words::{push_count, push_text};
use xdr_lang::{Procedure, Program, Version};
use xdr_types::NoMemory;

/// The lines of programs.
pub fn push_programs(
    out: &mut Vec<u8>,
    types: &Types<'_>,
    programs: &[Program],
) -> Result<(), NoMemory>
    ensures { OnOk result (out.new.items
        ≡ out.old.items ++ flat_map (program_piece (types_of types.now)) (map program_of programs.now)) }
{
    for program in programs {
        push_program(out, types, program)?;
    }
    Ok(())
}

fn push_program(out: &mut Vec<u8>, types: &Types<'_>, program: &Program) -> Result<(), NoMemory>
    ensures { OnOk result (out.new.items
        ≡ out.old.items ++ program_piece (types_of types.now) (program_of program.now)) }
{
    push_start(out, "program", program.name.as_str())?;
    push_count(out, u64::from(program.number))?;
    push_text(out, "\n")?;
    push_versions(out, types, program.number, &program.versions)
}

// The lines of the versions of a program.
fn push_versions(
    out: &mut Vec<u8>,
    types: &Types<'_>,
    program: u32,
    versions: &[Version],
) -> Result<(), NoMemory>
    ensures { OnOk result (out.new.items
        ≡ out.old.items ++ flat_map (version_piece (types_of types.now) program) (map version_of versions.now)) }
{
    for version in versions {
        push_version(out, types, program, version)?;
    }
    Ok(())
}

fn push_version(
    out: &mut Vec<u8>,
    types: &Types<'_>,
    program: u32,
    version: &Version,
) -> Result<(), NoMemory>
    ensures { OnOk result (out.new.items
        ≡ out.old.items ++ version_piece (types_of types.now) program (version_of version.now)) }
{
    push_start(out, "version", version.name.as_str())?;
    push_numbers(out, program, version.number)?;
    push_text(out, "\n")?;
    push_procedures(out, types, program, version.number, &version.procedures)
}

// The lines of the procedures of a version.
fn push_procedures(
    out: &mut Vec<u8>,
    types: &Types<'_>,
    program: u32,
    version: u32,
    procedures: &[Procedure],
) -> Result<(), NoMemory>
    ensures { OnOk result (out.new.items ≡ out.old.items
        ++ flat_map (procedure_piece (types_of types.now) program version) (map procedure_of procedures.now)) }
{
    for procedure in procedures {
        let path = ProcedurePath {
            program,
            version,
            procedure: procedure.number,
        };
        push_procedure(out, types, path, procedure)?;
    }
    Ok(())
}

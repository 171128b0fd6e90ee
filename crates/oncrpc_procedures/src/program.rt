//! The program that a text names.
ghost use Rattle.std.specs.Prelude.{◌≡◌, IfErr, IfOk};
ghost use Rattle.xdr_lang.specs.Views.{declared_of};
ghost use Rattle.oncrpc_procedures.specs.Programs.{NamesNoProgram, NamesProgram};

use crate::called::{program_meant, version_meant};
use crate::program_parts::read_program_parts;
use crate::unnamed_program::UnnamedProgram;
use xdr_lang::Declared;

/// The number of a program, and that of a version of it where one is named.
#[derive(Clone, Copy, Debug, PartialEq, Eq)]
pub struct NamedProgram {
    pub program: u32,
    pub version: Option<u32>,
}

/// The program that a text names, and a version of it: `PROGRAM` or `PROGRAM.VERSION`. Each part is a number, decimal,
/// below 2^32 and without leading zeros, or a name, which begins with no digit (RFC 4506 section 6.2, RFC 5531 section
/// 12.3). A number need not be declared. A name is that of the first program, or of the first version of the programs
/// with that number, in text order. It takes no memory.
pub fn program_named(declared: &Declared, text: &[u8]) -> Result<NamedProgram, UnnamedProgram>
    // The text names what is answered,
    ensures found { IfOk result (λ n. NamesProgram text.now (declared_of declared.now).programs n) }
    // and a refusal says why it names none.
    ensures refused { IfErr result (λ why. NamesNoProgram text.now (declared_of declared.now).programs why) }
{
    let parts = read_program_parts(text)?;
    let Some(program) = program_meant(&declared.programs, parts.program) else {
        return Err(UnnamedProgram::NoProgram);
    };
    let Some(part) = parts.version else {
        return Ok(NamedProgram {
            program,
            version: None,
        });
    };
    match version_meant(&declared.programs, program, part) {
        Some(version) => Ok(NamedProgram {
            program,
            version: Some(version),
        }),
        None => Err(UnnamedProgram::NoVersion),
    }
}

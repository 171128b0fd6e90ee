//! The parts of a program's name. Nothing here takes memory.
ghost use Rattle.std.specs.Prelude.{◌≡◌, ◌∷◌, ◌++◌, List, ℕ, Some, IfErr, IfOk, MatchOption};
ghost use Rattle.xdr_units.specs.Texts.{HasNoDot};
ghost use Rattle.oncrpc_procedures.specs.Names.{IsNoNumber};
ghost use Rattle.oncrpc_procedures.specs.Private.Cut.{HasNoProgramParts, program_parts_of};
ghost use Rattle.oncrpc_procedures.specs.Programs.{AreRead, IsProgramCut, IsUnreadAt};
ghost use Rattle.oncrpc_procedures.specs.Programs.{ProgramParts as PlainParts};

use crate::parts::is_no_number;
use crate::unnamed_program::UnnamedProgram;
use xdr_units::before_dot;

/// The parts of a program's name: what means the program, and what means a version where there is a dot.
#[derive(Clone, Copy)]
pub struct ProgramParts<'a> {
    pub program: &'a [u8],
    pub version: Option<&'a [u8]>,
}

/// The parts of a text, one or two, each of which is a number or a name.
pub fn read_program_parts(text: &[u8]) -> Result<ProgramParts<'_>, UnnamedProgram>
    ensures found { IfOk result (λ p. let q = program_parts_of p in
        IsProgramCut q.program q.version text.now × AreRead q) }
    ensures refused { IfErr result (λ why. HasNoProgramParts text.now why) }
{
    let Some(parts) = cut(text) else {
        return Err(UnnamedProgram::NotTwoParts);
    };
    match first_unread(&parts) {
        Some(part) => Err(UnnamedProgram::NotANumber { part }),
        None => Ok(parts),
    }
}

// The text at its dot, or all of it where there is none.
fn cut(text: &[u8]) -> Option<ProgramParts<'_>>
    ensures { MatchOption result ((p : PlainParts) → IsProgramCut p.program p.version text.now → ⊥)
        (λ p. let q = program_parts_of p in IsProgramCut q.program q.version text.now) }
{
    match before_dot(text) {
        Some((program, version)) => cut_behind(program, version),
        None => Some(ProgramParts {
            program: text,
            version: None,
        }),
    }
}

// The two parts, where the second has no dot.
fn cut_behind<'a>(program: &'a [u8], version: &'a [u8]) -> Option<ProgramParts<'a>>
    ensures { MatchOption result ((front : List ℕ) × (behind : List ℕ) × (version.now ≡ front ++ 46 ∷ behind))
        (λ p. HasNoDot version.now
        × (program_parts_of p ≡ record { program = program.now; version = Some version.now })) }
{
    match before_dot(version) {
        Some((_front, _behind)) => None,
        None => Some(ProgramParts {
            program,
            version: Some(version),
        }),
    }
}

// The first part, from 1, that is neither a number nor a name.
fn first_unread(parts: &ProgramParts<'_>) -> Option<u8>
    ensures { let p = program_parts_of parts.now in MatchOption result (AreRead p) (λ k. IsUnreadAt k p) }
{
    if is_no_number(parts.program) {
        return Some(1);
    }
    match parts.version {
        Some(version) => unread_version(version),
        None => None,
    }
}

// 2 for a version that is neither a number nor a name.
fn unread_version(version: &[u8]) -> Option<u8>
    ensures { MatchOption result (IsNoNumber version.now → ⊥) (λ k. (k ≡ 2) × IsNoNumber version.now) }
{
    if is_no_number(version) { Some(2) } else { None }
}

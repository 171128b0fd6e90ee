//! A line for each procedure, argument and result.
ghost use Rattle.std.specs.Prelude.{◌≡◌, ◌++◌, OnOk, codes, option_map};
ghost use Rattle.xdr_lang.specs.Views.{places, procedure_of};
ghost use Rattle.xdr_listing.specs.Private.Held.{types_of};
ghost use Rattle.xdr_listing.specs.Private.Pieces.{procedure_piece, argument_pieces, argument_piece, result_piece};
ghost use Rattle.xdr_listing.specs.Words.{named_text};

use crate::lines::push_start;
use crate::paths::{ProcedurePath, push_path};
use crate::types::Types;
use crate::words::{push_count, push_named, push_text};
use xdr_lang::Procedure;
use xdr_types::{KindId, NoMemory};

/// The lines of a procedure: its own, those of its arguments, and that of its result. The path has its numbers.
pub fn push_procedure(
    out: &mut Vec<u8>,
    types: &Types<'_>,
    path: ProcedurePath,
    procedure: &Procedure,
) -> Result<(), NoMemory>
    requires { path.procedure ≡ procedure.now.number }
    ensures { OnOk result (out.new.items ≡ out.old.items
        ++ procedure_piece (types_of types.now) path.program path.version (procedure_of procedure.now)) }
{
    push_start(out, "procedure", procedure.name.as_str())?;
    push_path(out, path)?;
    push_text(out, "\n")?;
    push_arguments(out, types, path, &procedure.arguments)?;
    push_result(out, types, path, procedure.result)
}

// A line for each argument, which are numbered from 1.
fn push_arguments(
    out: &mut Vec<u8>,
    types: &Types<'_>,
    path: ProcedurePath,
    arguments: &[KindId],
) -> Result<(), NoMemory>
    ensures { OnOk result (out.new.items ≡ out.old.items
        ++ argument_pieces (types_of types.now) path.program path.version path.procedure 1 (places arguments.now)) }
{
    for (index, argument) in arguments.iter().enumerate() {
        push_argument(out, types, path, index as u64 + 1, *argument)?;
    }
    Ok(())
}

fn push_argument(
    out: &mut Vec<u8>,
    types: &Types<'_>,
    path: ProcedurePath,
    number: u64,
    kind: KindId,
) -> Result<(), NoMemory>
    ensures { OnOk result (out.new.items ≡ out.old.items
        ++ argument_piece (types_of types.now) path.program path.version path.procedure number kind.place) }
{
    push_text(out, "argument ")?;
    push_path(out, path)?;
    push_text(out, ".")?;
    push_count(out, number)?;
    push_end(out, types, kind)
}

// The line of a result, where it is not void.
fn push_result(
    out: &mut Vec<u8>,
    types: &Types<'_>,
    path: ProcedurePath,
    kind: Option<KindId>,
) -> Result<(), NoMemory>
    ensures { OnOk result (out.new.items ≡ out.old.items
        ++ result_piece (types_of types.now) path.program path.version path.procedure
        (option_map (λ (k : KindId). k.place) kind)) }
{
    let Some(kind) = kind else {
        return Ok(());
    };
    push_text(out, "result ")?;
    push_path(out, path)?;
    push_text(out, ".result")?;
    push_end(out, types, kind)
}

// What ends the line of an argument or a result: its type, its kind and both counts.
fn push_end(out: &mut Vec<u8>, types: &Types<'_>, kind: KindId) -> Result<(), NoMemory>
    ensures { OnOk result (out.new.items
        ≡ out.old.items ++ (codes " " ++ named_text (types_of types.now) kind.place ++ codes "\n")) }
{
    push_text(out, " ")?;
    push_named(out, types, kind)?;
    push_text(out, "\n")
}

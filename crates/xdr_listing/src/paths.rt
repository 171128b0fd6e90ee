//! The numbers of a program, a version and a procedure, with dots between them.
ghost use Rattle.std.specs.Prelude.{◌≡◌, ◌++◌, OnOk};
ghost use Rattle.xdr_listing.specs.Listing.{procedure_path, version_path};

use crate::words::{push_count, push_text};
use xdr_types::NoMemory;

/// The numbers of a procedure (RFC 5531 section 12.3).
#[derive(Clone, Copy)]
pub struct ProcedurePath {
    pub program: u32,
    pub version: u32,
    pub procedure: u32,
}

/// All three.
pub fn push_path(out: &mut Vec<u8>, path: ProcedurePath) -> Result<(), NoMemory>
    ensures { OnOk result (out.new.items
        ≡ out.old.items ++ procedure_path path.program path.version path.procedure) }
{
    push_numbers(out, path.program, path.version)?;
    push_text(out, ".")?;
    push_count(out, u64::from(path.procedure))
}

/// Those of a program and a version.
pub fn push_numbers(out: &mut Vec<u8>, program: u32, version: u32) -> Result<(), NoMemory>
    ensures { OnOk result (out.new.items ≡ out.old.items ++ version_path program version) }
{
    push_count(out, u64::from(program))?;
    push_text(out, ".")?;
    push_count(out, u64::from(version))
}

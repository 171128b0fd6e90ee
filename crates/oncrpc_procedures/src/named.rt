//! The procedure that a text names.
ghost use Rattle.std.specs.Prelude.{IfErr, IfOk};
ghost use Rattle.xdr_lang.specs.Views.{declared_of};
ghost use Rattle.oncrpc_procedures.specs.Names.{Names};
ghost use Rattle.oncrpc_procedures.specs.Unnamed.{NamesNone};
ghost use Rattle.oncrpc_procedures.specs.View.{target_of};

use crate::parts::read_parts;
use crate::search::{program_search, unnamed_in};
use crate::unnamed::Unnamed;
use xdr_lang::{Declared, Procedure};

/// A procedure that is declared, with the numbers of its program and its version.
#[derive(Clone, Copy)]
pub struct Named<'a> {
    pub program: u32,
    pub version: u32,
    pub procedure: &'a Procedure,
}

/// The procedure that a text names in what is declared: `PROGRAM.VERSION.PROCEDURE`. Each part is a number, decimal,
/// below 2^32 and without leading zeros, or a name, which begins with no digit (RFC 4506 section 6.2, RFC 5531 section
/// 12.3). Where the parts mean several, it is the first in text order; a text that `read` takes has one at most. It
/// takes no memory.
pub fn procedure_named<'a>(declared: &'a Declared, text: &[u8]) -> Result<Named<'a>, Unnamed>
    // The text names the procedure that is answered,
    ensures found { IfOk result (λ n. Names text.now (declared_of declared.now).programs (target_of n)) }
    // and a refusal says why it names none.
    ensures refused { IfErr result (λ why. NamesNone text.now (declared_of declared.now).programs why) }
{
    let parts = read_parts(text)?;
    match program_search(&declared.programs, &parts) {
        Some(named) => Ok(named),
        None => Err(unnamed_in(&declared.programs, &parts)),
    }
}

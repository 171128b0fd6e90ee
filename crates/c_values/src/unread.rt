//! Reading a text of declarations.
ghost use Rattle.std.specs.Prelude.{IfOk, IfErr};
ghost use Rattle.xdr_lang.specs.Means.{Means};
ghost use Rattle.xdr_lang.specs.Views.{declared_of};
ghost use Rattle.c_values.specs.Unread.{IsUnread};

use std::alloc::Global;
use xdr_lang::{Declared, LangFault, read};

/// Why a text was not read.
#[derive(Clone, Copy)]
pub enum Unread {
    /// It has an error.
    Undeclared(LangFault),
    /// Memory was refused.
    NoMemory,
}

/// What the text declares.
pub fn read_text(alloc: Global, text: &[u8]) -> Result<Declared, Unread>
    ensures declares { IfOk result (λ d. Means text.now (declared_of d)) }
    ensures unread { IfErr result (λ why. IsUnread text.now why) }
{
    match read(alloc, text) {
        Ok(declared) => Ok(declared),
        Err(fault) if fault.number == 13 => Err(Unread::NoMemory),
        Err(fault) => Err(Unread::Undeclared(fault)),
    }
}

//! Why tokens spell no definitions.
ghost use Rattle.std.specs.Prelude.{◌≡◌};
ghost use Rattle.xdr_grammar.specs.declared.misread.Misread.TheVariants.{NoMemory};
ghost use Rattle.xdr_grammar.specs.Private.Parsing.{reported};

use std::alloc::{AllocError, AllocFailed};
use xdr_tokens::{Fault, Wrong};

/// What is wrong with a token.
#[derive(Clone, Copy)]
pub(crate) enum Misplaced {
    /// It cannot continue the grammar.
    Unexpected,
    /// It is the word of a floating-point type.
    FloatingKind,
    /// It begins a 33rd body inside others.
    NestedTooDeep,
}

/// What is wrong with a token, and how many bytes there are from it to the end; or an allocation failure.
#[derive(Clone, Copy)]
pub(crate) enum Misread {
    Token { why: Misplaced, left: usize },
    NoMemory,
}

impl From<AllocError> for Misread {
    ghost from_gives = { λ _ e. e ≡ NoMemory };

    fn from(_e: AllocError) -> Misread {
        Misread::NoMemory
    }
}

impl<T: Drop> From<AllocFailed<T>> for Misread {
    ghost from_gives = { λ _ e. e ≡ NoMemory };

    fn from(_e: AllocFailed<T>) -> Misread {
        Misread::NoMemory
    }
}

/// The fault of a text whose tokens are refused so.
pub(crate) fn fault_of(misread: Misread) -> Fault
    ensures { result ≡ reported misread }
{
    let (why, left) = match misread {
        Misread::Token { why, left } => (why, left),
        Misread::NoMemory => return Fault::NoMemory,
    };
    let wrong = match why {
        Misplaced::Unexpected => Wrong::Unexpected,
        Misplaced::FloatingKind => Wrong::FloatingKind,
        Misplaced::NestedTooDeep => Wrong::NestedTooDeep,
    };
    Fault::Refused { wrong, left }
}

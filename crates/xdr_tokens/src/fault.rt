//! Why a text has no meaning, and the numbers of the reasons.
ghost use Rattle.std.specs.Prelude.{◌≡◌};
ghost use Rattle.xdr_tokens.specs.declared.fault.Fault.TheVariants.{NoMemory};

use crate::flaw_number::FlawNumber;
use std::alloc::{AllocError, AllocFailed};
use thiserror::Error;

/// What is wrong with a text.
#[derive(Clone, Copy, Debug, PartialEq, Eq, Error)]
pub enum Wrong {
    /// A byte that begins no token, or a comment without an end.
    #[error("a character that begins no token")]
    BadCharacter,
    /// A constant that is none, or outside -2^63 to 2^64 - 1.
    #[error("a constant that is no number, or too large")]
    BadNumber,
    /// A token that cannot continue the grammar.
    #[error("a token that cannot stand here")]
    Unexpected,
    /// One of the floating-point types.
    #[error("a floating-point type")]
    FloatingKind,
    /// A name or a number that is already taken.
    #[error("a name or a number that is there already")]
    NameTwice,
    /// A name that is not declared.
    #[error("a name that is not declared")]
    NameUnknown,
    /// A size that is negative, or not the name of a const.
    #[error("a value that is no size")]
    NotASize,
    /// A number outside the range of its place.
    #[error("a number out of its range")]
    OutOfRange,
    /// A typedef that leads back to itself.
    #[error("a typedef that leads back to itself")]
    TypedefLoop,
    /// Kinds that are no schema, with the number of the schema's fault.
    #[error("kinds that are no schema")]
    BadSchema(FlawNumber),
    /// A text of more than 262144 bytes.
    #[error("a text that is too long")]
    TextTooLong,
    /// More than 32 bodies inside one another.
    #[error("too many bodies inside one another")]
    NestedTooDeep,
}

/// Why a text has no meaning: what is wrong, and how many bytes there are from there to the end.
#[derive(Clone, Copy, Debug, PartialEq, Eq, Error)]
pub enum Fault {
    /// The text has no meaning.
    #[error("{wrong}, {left} bytes before the end")]
    Refused { wrong: Wrong, left: usize },
    /// Memory was refused.
    #[error("out of memory")]
    NoMemory,
}

impl From<AllocError> for Fault {
    ghost from_gives = { λ _ e. e ≡ NoMemory };

    fn from(_e: AllocError) -> Fault {
        Fault::NoMemory
    }
}

impl<T: Drop> From<AllocFailed<T>> for Fault {
    ghost from_gives = { λ _ e. e ≡ NoMemory };

    fn from(_e: AllocFailed<T>) -> Fault {
        Fault::NoMemory
    }
}

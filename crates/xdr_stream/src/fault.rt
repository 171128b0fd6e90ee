//! Why bytes are refused.
ghost use Rattle.std.specs.Prelude.{◌≡◌};
ghost use Rattle.xdr_stream.specs.Reasons.{reason_number};

use std::alloc::AllocError;
use thiserror::Error;

/// Why bytes are not the encoding of a value (RFC 4506 sections 3 and 4).
#[derive(Clone, Copy, Debug, PartialEq, Eq, Error)]
pub enum Reason {
    /// A boolean, the flag of an optional or a boolean discriminant that is neither 0 nor 1.
    #[error("neither 0 nor 1")]
    BadBool,
    /// An enumeration, or a discriminant of one, without a member of that number.
    #[error("no member has this number")]
    BadNumbered,
    /// A legal discriminant without an arm or a default.
    #[error("no arm for this discriminant")]
    BadCase,
    /// A length or a count above its maximum.
    #[error("longer than the maximum")]
    TooLong,
    /// Padding that is not zero.
    #[error("padding that is not zero")]
    BadPadding,
    /// A node lies deeper than the limit on depth.
    #[error("deeper than the limit")]
    TooDeep,
    /// The value is not whole at the limit on bytes.
    #[error("larger than the limit")]
    TooLarge,
    /// The bytes end inside the value.
    #[error("cut short")]
    Truncated,
    /// Memory was refused.
    #[error("out of memory")]
    NoMemory,
}

impl From<AllocError> for Reason {
    ghost use Rattle.std.specs.Prelude.{◌≡◌};
    ghost use Rattle.xdr_stream.specs.declared.fault.Reason.TheVariants.{NoMemory};

    ghost from_gives = { λ _ e. e ≡ NoMemory };

    fn from(_: AllocError) -> Reason {
        Reason::NoMemory
    }
}

impl Reason {
    /// The reason's number, 1 to 9 in the order in which the reasons are listed.
    pub fn number(self) -> u8
        ensures { result ≡ reason_number self }
    {
        match self {
            Reason::BadBool => 1,
            Reason::BadNumbered => 2,
            Reason::BadCase => 3,
            Reason::TooLong => 4,
            Reason::BadPadding => 5,
            Reason::TooDeep => 6,
            Reason::TooLarge => 7,
            Reason::Truncated => 8,
            Reason::NoMemory => 9,
        }
    }
}

/// A reason, and the count of bytes before the unit or the node that it is about. For `TooLarge` that is the limit on
/// bytes, for `Truncated` the count of all bytes given; for `NoMemory` it is at most that count and says no more.
#[derive(Clone, Copy, Debug, PartialEq, Eq, Error)]
#[error("{why} at {at}")]
pub struct DecodeFault {
    pub why: Reason,
    pub at: usize,
}

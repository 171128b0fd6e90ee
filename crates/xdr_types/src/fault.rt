//! Why lists of kinds and names make no schema.
ghost use Rattle.std.specs.Prelude.{◌≡◌};
ghost use Rattle.xdr_types.specs.Faults.{fault_number};

use thiserror::Error;

/// What is wrong with a kind, a name, or the lists as a whole.
#[derive(Clone, Copy, Debug, PartialEq, Eq, Error)]
pub enum Flaw {
    /// A place outside the list.
    #[error("names a kind outside the list")]
    UnknownKind,
    /// A fixed opaque or a fixed array of size 0.
    #[error("has size 0")]
    ZeroSize,
    /// `Nothing` as a field or an item, or named.
    #[error("has a void member")]
    VoidMember,
    /// A discriminant that is no int, unsigned int, bool or enumeration.
    #[error("has a discriminant of a kind that can be none")]
    BadDiscriminant,
    /// One number among the cases of a union twice.
    #[error("lists a case twice")]
    CaseTwice,
    /// A case that is no value of the discriminant's kind.
    #[error("lists a case that is no value of its discriminant")]
    CaseNotLegal,
    /// A kind that has no height, so that each value of it would hold another.
    #[error("has no finite value")]
    NoFiniteValue,
    /// More than 1024 kinds.
    #[error("there are more than 1024 kinds")]
    TooManyKinds,
    /// An enumeration, a structure, a union or an arm without entries.
    #[error("is empty")]
    EmptyList,
    /// A name that stands twice where each may stand once.
    #[error("has a name twice")]
    NameTwice,
    /// A growth was refused.
    #[error("out of memory")]
    NoMemory,
}

impl Flaw {
    /// The fault's number, 1 to 11 in the order in which the faults are listed.
    pub fn number(self) -> u8
        ensures { result ≡ fault_number self }
    {
        match self {
            Flaw::UnknownKind => 1,
            Flaw::ZeroSize => 2,
            Flaw::VoidMember => 3,
            Flaw::BadDiscriminant => 4,
            Flaw::CaseTwice => 5,
            Flaw::CaseNotLegal => 6,
            Flaw::NoFiniteValue => 7,
            Flaw::TooManyKinds => 8,
            Flaw::EmptyList => 9,
            Flaw::NameTwice => 10,
            Flaw::NoMemory => 11,
        }
    }
}

/// A flaw, and the place of the kind or the name that has it: its index in the list of kinds or of names, and 0 for
/// `TooManyKinds` and `NoMemory`.
#[derive(Clone, Copy, Debug, PartialEq, Eq, Error)]
#[error("{why} at {place}")]
pub struct SchemaFault {
    pub why: Flaw,
    pub place: usize,
}

//! Answers about parts, and how C sees them.
ghost use Rattle.std.specs.Prelude.{◌≡◌};
ghost use Rattle.c_values.specs.Parted.{parts_status, parts_outcome, counted, silent};
ghost use Rattle.c_values.specs.Private.Parting.{IsUnlisted};

use xdr_codec::{DecodeFault, PartCounts, Reason};

/// What a call for parts found. Each field that a status does not speak of is 0.
#[repr(C)]
#[derive(Clone, Copy)]
pub struct PartsOutcome {
    /// How many bytes the value has, or the place of a refusal: the count of bytes before it.
    pub at: usize,
    /// How many parts the value has.
    pub parts: usize,
    /// How many bytes their names have.
    pub names: usize,
    /// The number of the reason for a refusal.
    pub why: u32,
}

/// What a call for parts answers.
#[derive(Clone, Copy)]
pub enum Listed {
    /// The parts of a value that is all of the input.
    Whole(PartCounts),
    /// The parts of a value that at least one more byte follows.
    Followed(PartCounts),
    /// Bytes that are refused.
    Refused(DecodeFault),
    /// A name that names no kind.
    NoKind,
    /// Limits out of range.
    BadLimits,
    /// Memory was refused.
    NoMemory,
    /// No declarations were read.
    NoDeclarations,
    /// Buffer for fewer parts or bytes of names than this.
    NoRoom(PartCounts),
}

impl Listed {
    /// The number that C sees.
    pub fn status(&self) -> u32
        ensures { result ≡ parts_status self.now }
    {
        match self {
            Listed::Whole(_) => 0,
            Listed::Followed(_) => 1,
            Listed::Refused(_) => 2,
            Listed::NoKind => 4,
            Listed::BadLimits => 5,
            Listed::NoMemory => 6,
            Listed::NoDeclarations => 7,
            Listed::NoRoom(_) => 8,
        }
    }

    /// What C sees beside it.
    pub fn outcome(&self) -> PartsOutcome
        ensures { result ≡ parts_outcome self.now }
    {
        match self {
            Listed::Whole(counts) | Listed::Followed(counts) | Listed::NoRoom(counts) => {
                counted(*counts)
            }
            Listed::Refused(fault) => PartsOutcome {
                at: fault.at,
                why: fault.why.number() as u32,
                ..silent()
            },
            _ => silent(),
        }
    }
}

/// The answer to an input of which nothing is listed: it is refused, or memory was.
pub fn unlisted(fault: DecodeFault) -> Listed
    ensures { IsUnlisted fault result }
{
    if fault.why == Reason::NoMemory {
        Listed::NoMemory
    } else {
        Listed::Refused(fault)
    }
}

/// The counts, and nothing else.
fn counted(counts: PartCounts) -> PartsOutcome
    ensures { result ≡ counted counts }
{
    PartsOutcome {
        at: counts.used,
        parts: counts.parts,
        names: counts.names,
        why: 0,
    }
}

/// No field is reported.
fn silent() -> PartsOutcome
    ensures { result ≡ silent }
{
    PartsOutcome {
        at: 0,
        parts: 0,
        names: 0,
        why: 0,
    }
}

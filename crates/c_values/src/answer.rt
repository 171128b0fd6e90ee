//! Answers, and how C sees them.
ghost use Rattle.std.specs.Prelude.{◌≡◌};
ghost use Rattle.c_values.specs.Statuses.{status_of, outcome_of, reports_value};

use super::item::ItemFault;
use c_answers::Outcome;
use xdr_codec::DecodeFault;
use xdr_lang::LangFault;

/// What a call answers.
#[derive(Clone, Copy)]
pub enum Answer {
    /// All was done: a value of so many bytes and no more, or so many bytes written.
    Whole { used: usize },
    /// A value of so many bytes, and then at least one more.
    Followed { used: usize },
    /// Bytes that are refused.
    Refused(DecodeFault),
    /// A text that has an error.
    Undeclared(LangFault),
    /// A name that names no kind.
    NoKind,
    /// Limits out of range.
    BadLimits,
    /// Memory was refused.
    NoMemory,
    /// No declarations were read.
    NoDeclarations,
    /// The buffer has fewer bytes than this.
    NoRoom { needed: usize },
    /// Items that are no value's.
    BadItem(ItemFault),
}

impl Answer {
    /// Whether it says that a value begins the bytes.
    pub fn has_value(&self) -> bool
        ensures { result ≡ reports_value self.now }
    {
        match self {
            Answer::Whole { .. } | Answer::Followed { .. } => true,
            _ => false,
        }
    }

    /// The number that C sees.
    pub fn status(&self) -> u32
        ensures { result ≡ status_of self.now }
    {
        match self {
            Answer::Whole { .. } => 0,
            Answer::Followed { .. } => 1,
            Answer::Refused(_) => 2,
            Answer::Undeclared(_) => 3,
            Answer::NoKind => 4,
            Answer::BadLimits => 5,
            Answer::NoMemory => 6,
            Answer::NoDeclarations => 7,
            Answer::NoRoom { .. } => 8,
            Answer::BadItem(_) => 26,
        }
    }

    /// What C sees beside it.
    pub fn outcome(&self) -> Outcome
        ensures { result ≡ outcome_of self.now }
    {
        match self {
            Answer::Whole { used } | Answer::Followed { used } => Outcome::only_at(*used),
            Answer::Refused(fault) => Outcome {
                why: fault.why.number() as u32,
                ..Outcome::only_at(fault.at)
            },
            Answer::Undeclared(fault) => Outcome {
                line: fault.line,
                column: fault.column,
                why: fault.number as u32,
                inner: fault.inner as u32,
                ..Outcome::only_at(0)
            },
            Answer::NoRoom { needed } => Outcome::only_at(*needed),
            Answer::BadItem(fault) => Outcome {
                why: fault.why.number(),
                ..Outcome::only_at(fault.at)
            },
            _ => Outcome::only_at(0),
        }
    }
}

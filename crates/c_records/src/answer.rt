//! Answers, and how C sees them.
ghost use Rattle.std.specs.Prelude.{◌≡◌};
ghost use Rattle.c_records.specs.Statuses.{status_of, outcome_of, why_of, place_of};

use c_answers::Outcome;
use rpc_record::RecordFault;

/// What a call answers.
#[derive(Clone, Copy)]
pub enum Answer {
    /// It is done: a record waits and so many bytes of the piece were taken, or so many bytes of a record were written.
    Whole { count: usize },
    /// All of the piece was taken, and no record waits.
    More,
    /// The stream is refused, or memory for it was.
    Refused(RecordFault),
    /// The limit is out of range.
    BadLimit,
    /// Memory for the reader was refused.
    NoMemory,
    /// The buffer has fewer bytes than this.
    NoRoom { needed: usize },
    /// The handle holds no reader.
    NoReader,
    /// No record waits.
    NoRecord,
}

/// The number of a fault's reason.
fn why(fault: RecordFault) -> u32
    ensures { result ≡ why_of fault }
{
    match fault {
        RecordFault::TooLong { .. } => 4,
        RecordFault::Truncated { .. } => 8,
        _ => 0,
    }
}

/// The place in the stream that a fault names.
fn place(fault: RecordFault) -> usize
    ensures { result ≡ place_of fault }
{
    match fault {
        RecordFault::TooLong { at } | RecordFault::Truncated { at } => at as usize,
        _ => 0,
    }
}

impl Answer {
    /// The number that C sees.
    pub fn status(&self) -> u32
        ensures { result ≡ status_of self.now }
    {
        match self {
            Answer::Whole { .. } => 0,
            Answer::Refused(RecordFault::NoMemory) | Answer::NoMemory => 6,
            Answer::Refused(_) => 2,
            Answer::BadLimit => 5,
            Answer::NoRoom { .. } => 8,
            Answer::NoReader => 22,
            Answer::More => 23,
            Answer::NoRecord => 24,
        }
    }

    /// What C sees beside it.
    pub fn outcome(&self) -> Outcome
        ensures { result ≡ outcome_of self.now }
    {
        match self {
            Answer::Whole { count } => Outcome::only_at(*count),
            Answer::Refused(fault) => Outcome {
                why: why(*fault),
                ..Outcome::only_at(place(*fault))
            },
            Answer::NoRoom { needed } => Outcome::only_at(*needed),
            _ => Outcome::only_at(0),
        }
    }
}

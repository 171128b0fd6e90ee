//! Answers of a session's calls, and how C sees them.
ghost use Rattle.std.specs.Prelude.{◌≡◌};
ghost use Rattle.c_registry.specs.SessionStatuses.{status_of, outcome_of, why_of, place_of};

use c_answers::Outcome;
use registry_sessions::SessionFault;
use rpc_record::RecordFault;

/// What a call of a session answers.
#[derive(Clone, Copy)]
pub enum SessionAnswer {
    /// It is done: so many bytes of the piece were taken, so many of the output were written, or so many wait.
    Whole { count: usize },
    /// So many bytes of the output were written, and more wait.
    Follows { count: usize },
    /// All of the piece was taken, and no record is whole.
    More,
    /// None of the piece was taken: the output is to be written first.
    Full,
    /// The stream is refused, or memory for a record or its reply was.
    Broken(SessionFault),
    /// Memory for the session was refused.
    NoMemory,
    /// Fewer bytes wait than are said to be written.
    TooMany,
    /// The handle holds no session.
    NoSession,
    /// The other handle holds no registry.
    NoRegistry,
    /// The netid is that of no connections.
    NoTransport,
    /// There is no such caller.
    NoCaller,
}

/// The number of a fault's reason.
fn why(fault: SessionFault) -> u32
    ensures { result ≡ why_of fault }
{
    match fault {
        SessionFault::Record(RecordFault::TooLong { .. }) => 4,
        SessionFault::Record(RecordFault::Truncated { .. }) => 8,
        _ => 0,
    }
}

/// The place in the stream that a fault names.
fn place(fault: SessionFault) -> usize
    ensures { result ≡ place_of fault }
{
    match fault {
        SessionFault::Record(RecordFault::TooLong { at })
        | SessionFault::Record(RecordFault::Truncated { at }) => at as usize,
        _ => 0,
    }
}

impl SessionAnswer {
    /// The number that C sees.
    pub fn status(&self) -> u32
        ensures { result ≡ status_of self.now }
    {
        match self {
            SessionAnswer::Whole { .. } => 0,
            SessionAnswer::Follows { .. } => 1,
            SessionAnswer::Broken(SessionFault::NoMemory) | SessionAnswer::NoMemory => 6,
            SessionAnswer::Broken(_) => 2,
            SessionAnswer::TooMany => 5,
            SessionAnswer::NoRegistry => 18,
            SessionAnswer::NoTransport => 20,
            SessionAnswer::More => 23,
            SessionAnswer::NoSession => 31,
            SessionAnswer::Full => 32,
            SessionAnswer::NoCaller => 33,
        }
    }

    /// What C sees beside it.
    pub fn outcome(&self) -> Outcome
        ensures { result ≡ outcome_of self.now }
    {
        match self {
            SessionAnswer::Whole { count } | SessionAnswer::Follows { count } => {
                Outcome::only_at(*count)
            }
            SessionAnswer::Broken(fault) => Outcome {
                why: why(*fault),
                ..Outcome::only_at(place(*fault))
            },
            _ => Outcome::only_at(0),
        }
    }
}

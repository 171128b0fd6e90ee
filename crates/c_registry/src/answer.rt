//! Answers, and how C sees them.
ghost use Rattle.std.specs.Prelude.{◌≡◌};
ghost use Rattle.c_registry.specs.Statuses.{status_of, outcome_of, count_of};

use c_answers::Outcome;

/// What a call answers.
#[derive(Clone, Copy)]
pub enum Answer {
    /// It is done, and so many bytes of a reply were written.
    Whole { count: usize },
    /// Memory was refused.
    NoMemory,
    /// The buffer has fewer bytes than this.
    NoRoom { needed: usize },
    /// The handle holds no registry.
    NoRegistry,
    /// There is no reply.
    Silence,
    /// The netid is that of no transport.
    NoTransport,
    /// No row was added or removed.
    Unchanged,
    /// There is no such caller.
    NoCaller,
}

impl Answer {
    /// The number that C sees.
    pub fn status(&self) -> u32
        ensures { result ≡ status_of self.now }
    {
        match self {
            Answer::Whole { .. } => 0,
            Answer::NoMemory => 6,
            Answer::NoRoom { .. } => 8,
            Answer::NoRegistry => 18,
            Answer::Silence => 19,
            Answer::NoTransport => 20,
            Answer::Unchanged => 21,
            Answer::NoCaller => 33,
        }
    }

    /// The count that C sees beside it.
    pub fn count(&self) -> usize
        ensures { result ≡ count_of self.now }
    {
        match self {
            Answer::Whole { count } => *count,
            Answer::NoRoom { needed } => *needed,
            _ => 0,
        }
    }

    /// The same as an outcome.
    pub fn outcome(&self) -> Outcome
        ensures { result ≡ outcome_of self.now }
    {
        Outcome::only_at(self.count())
    }
}

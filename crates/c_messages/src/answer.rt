//! Answers to a request to write, and how C sees them.
ghost use Rattle.std.specs.Prelude.{◌≡◌};
ghost use Rattle.c_messages.specs.Statuses.{status_of};

/// What writing a message came to.
#[derive(Clone, Copy)]
pub enum Answer {
    /// It is written.
    Whole,
    /// Memory was refused.
    NoMemory,
    /// The buffer is too small.
    NoRoom,
    /// The credential is too long.
    BadCredential,
    /// The verifier is too long.
    BadVerifier,
    /// There is no reply of this state.
    BadStatus,
    /// The numbers or the machine name are not those of AUTH_SYS.
    NoAuthSys,
}

impl Answer {
    /// The number that C sees.
    pub fn status(self) -> u32
        ensures { result ≡ status_of self }
    {
        match self {
            Answer::Whole => 0,
            Answer::NoMemory => 6,
            Answer::NoRoom => 8,
            Answer::BadCredential => 11,
            Answer::BadVerifier => 12,
            Answer::BadStatus => 15,
            Answer::NoAuthSys => 17,
        }
    }
}

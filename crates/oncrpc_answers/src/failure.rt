//! What ends a task before its answer is there.
ghost use Rattle.std.specs.Prelude.{◌≡◌};
ghost use Rattle.oncrpc_answers.specs.Lines.{failure_line};
ghost use Rattle.oncrpc_answers.specs.Status.{failure_status, failure_of_input};
ghost use Rattle.oncrpc_answers.specs.declared.failure.Failure.TheVariants.{Write, NoMemory};

use std::alloc::{AllocError, AllocFailed};
use thiserror::Error;
use xdr_io::{Cut, InputFault, ReadFault, Sink, write_whole};

/// A device failed, or memory was refused.
#[derive(Clone, Copy, Debug, PartialEq, Eq, Error)]
pub enum Failure {
    /// A read failed.
    #[error("read fault")]
    Read,
    /// A write failed, or took nothing.
    #[error("write fault")]
    Write,
    /// More than 1048576 reads would be needed.
    #[error("too many reads")]
    TooManyReads,
    /// Memory was refused.
    #[error("out of memory")]
    NoMemory,
}

impl From<InputFault> for Failure {
    ghost from_gives = { λ e f. f ≡ failure_of_input e };

    fn from(fault: InputFault) -> Failure {
        match fault {
            InputFault::Read => Failure::Read,
            InputFault::TooManyReads => Failure::TooManyReads,
            InputFault::NoMemory => Failure::NoMemory,
        }
    }
}

impl From<Cut> for Failure {
    ghost from_gives = { λ _ f. f ≡ Write };

    fn from(_: Cut) -> Failure {
        Failure::Write
    }
}

impl From<xdr_types::NoMemory> for Failure {
    ghost from_gives = { λ _ f. f ≡ NoMemory };

    fn from(_: xdr_types::NoMemory) -> Failure {
        Failure::NoMemory
    }
}

impl From<AllocError> for Failure {
    ghost from_gives = { λ _ f. f ≡ NoMemory };

    fn from(_: AllocError) -> Failure {
        Failure::NoMemory
    }
}

impl Failure {
    /// Its line, with its line feed.
    pub fn line(self) -> &'static str
        ensures { result.now ≡ failure_line self }
    {
        match self {
            Failure::Read => "read fault\n",
            Failure::Write => "write fault\n",
            Failure::TooManyReads => "too many reads\n",
            Failure::NoMemory => "out of memory\n",
        }
    }

    /// Its exit status: 3 for a device and too many reads, 4 for an allocation failure.
    pub fn status(self) -> u8
        ensures { result ≡ failure_status self }
    {
        match self {
            Failure::Read | Failure::Write | Failure::TooManyReads => 3,
            Failure::NoMemory => 4,
        }
    }
}

/// Writes the failure's line to `faults`, where that can be done, and gives the exit status: 3 for a device, 4 for
/// an allocation failure.
pub fn report<F: Sink>(failure: Failure, faults: &mut F) -> u8
    ensures { result ≡ failure_status failure }
{
    let _ = write_whole(faults, failure.line().as_bytes());
    failure.status()
}

//! Why there is no way to a program, or no answer from it in time.
ghost use Rattle.std.specs.Prelude.{◌≤◌};

use crate::timed::Until;
use oncrpc_answers::{Failure, report};
use oncrpc_service::report_socket;
use oncrpc_tasks::say_line;
use oncrpc_words::Peer;
use std::alloc::{AllocError, Global};
use std::io;
use xdr_io::Sink;
use xdr_units::NoMemory;

/// Why there is no way to a program, or no answer from it in time.
#[derive(Drop)]
pub enum Unreached {
    /// The registry of its host has no row for it.
    Unregistered,
    /// Nothing came in time.
    Late,
    /// A socket failed.
    Socket,
    /// Memory was refused.
    NoMemory,
}

impl Unreached {
    /// Why a socket that was waited for until then has failed.
    pub fn by(error: &io::Error, until: Until<'_>) -> Unreached {
        match error.kind() {
            io::ErrorKind::OutOfMemory => Unreached::NoMemory,
            _ if until.is_why(error) => Unreached::Late,
            _ => Unreached::Socket,
        }
    }
}

impl From<io::Error> for Unreached {
    fn from(error: io::Error) -> Unreached {
        match error.kind() {
            io::ErrorKind::OutOfMemory => Unreached::NoMemory,
            _ => Unreached::Socket,
        }
    }
}

impl From<AllocError> for Unreached {
    fn from(_: AllocError) -> Unreached {
        Unreached::NoMemory
    }
}

impl From<NoMemory> for Unreached {
    fn from(_: NoMemory) -> Unreached {
        Unreached::NoMemory
    }
}

/// Says why there is no answer, and gives the exit status.
pub fn say_unreached<F: Sink>(alloc: Global, why: Unreached, peer: &Peer, faults: &mut F) -> u8
    ensures { result ≤ 4 }
{
    match why {
        Unreached::Unregistered => {
            say_line("refused: the registry has no such program\n", faults);
            1
        }
        Unreached::Late => say_late(alloc, peer.timeout, faults),
        Unreached::Socket => report_socket(faults),
        Unreached::NoMemory => report(Failure::NoMemory, faults),
    }
}

/// Says that nothing came in time, and gives the exit status.
pub fn say_late<F: Sink>(alloc: Global, seconds: u32, faults: &mut F) -> u8
    ensures { result ≤ 4 }
{
    match format!(in alloc; "no answer within {seconds} seconds\n") {
        Ok(line) => {
            say_line(&line, faults);
            3
        }
        Err(_) => report(Failure::NoMemory, faults),
    }
}

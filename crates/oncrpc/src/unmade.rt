//! Why nothing is asked.
ghost use Rattle.std.specs.Prelude.{◌≤◌};

use oncrpc_answers::{Failure, Texts, report};
use oncrpc_call::Unasked;
use oncrpc_procedures::UnnamedProgram;
use oncrpc_tasks::{Unusable, refuse_texts, say_line};
use std::alloc::{AllocError, Global};
use xdr_io::{InputFault, Sink};
use xdr_types::NoMemory;

/// Why nothing is asked.
#[derive(Drop)]
pub enum Unmade {
    /// The declarations are refused or could not be read.
    Texts(Unusable),
    /// This line says it.
    Line(String),
    /// A device failed, or memory was refused.
    Failed(Failure),
}

impl From<AllocError> for Unmade {
    fn from(_: AllocError) -> Unmade {
        Unmade::Failed(Failure::NoMemory)
    }
}

impl From<NoMemory> for Unmade {
    fn from(_: NoMemory) -> Unmade {
        Unmade::Failed(Failure::NoMemory)
    }
}

impl From<InputFault> for Unmade {
    fn from(fault: InputFault) -> Unmade {
        Unmade::Failed(Failure::from(fault))
    }
}

impl From<Failure> for Unmade {
    fn from(failure: Failure) -> Unmade {
        Unmade::Failed(failure)
    }
}

/// A line as why nothing is asked, or that there is no memory for it.
pub fn line(alloc: Global, text: &str) -> Unmade {
    match String::from_str(alloc, text) {
        Ok(line) => Unmade::Line(line),
        Err(_) => Unmade::Failed(Failure::NoMemory),
    }
}

/// The line of why a name and arguments ask for no call.
pub fn unasked_line(alloc: Global, why: Unasked) -> Unmade {
    if why == Unasked::NoMemory {
        return Unmade::Failed(Failure::NoMemory);
    }
    match format!(in alloc; "{why}\n") {
        Ok(line) => Unmade::Line(line),
        Err(_) => Unmade::Failed(Failure::NoMemory),
    }
}

/// The line of why a name names no program.
pub fn unnamed_line(alloc: Global, why: UnnamedProgram) -> Unmade {
    match format!(in alloc; "{why}\n") {
        Ok(line) => Unmade::Line(line),
        Err(_) => Unmade::Failed(Failure::NoMemory),
    }
}

/// Says why nothing is asked, and gives the exit status.
pub fn say_unmade<F: Sink>(alloc: Global, why: Unmade, types: &Texts, faults: &mut F) -> u8
    ensures { result ≤ 4 }
{
    match why {
        Unmade::Texts(why) => refuse_texts(alloc, why, &types.files, faults),
        Unmade::Line(line) => {
            say_line(&line, faults);
            2
        }
        Unmade::Failed(failure) => report(failure, faults),
    }
}

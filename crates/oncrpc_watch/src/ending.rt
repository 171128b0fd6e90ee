//! The line of a stream that ends inside a record.
ghost use Rattle.std.specs.Prelude.{◌≡◌, IfErr, IfOk, string_bytes};
ghost use Rattle.oncrpc_watch.specs.Events.{ending_line, stream_line};
ghost use Rattle.oncrpc_watch.specs.Private.Steps.{FailsFrom};
ghost use Rattle.oncrpc_watch.specs.Streams.{fault_of};

use oncrpc_answers::Failure;
use oncrpc_messages::Form;
use rpc_record::RecordFault;
use std::alloc::{AllocError, Global};

/// Why a stream is refused, and the count of its bytes before that.
#[derive(Clone, Copy, Debug, PartialEq, Eq)]
pub enum Ending {
    /// A header brings its record above the limit.
    TooLong { at: u64 },
    /// The stream ends inside a record.
    Truncated { at: u64 },
}

/// What is refused of a stream, or what failed.
pub fn ending_of(fault: RecordFault) -> Result<Ending, Failure>
    ensures refused { IfOk result (λ e. fault ≡ fault_of e) }
    ensures failed { IfErr result (λ f. FailsFrom fault f) }
{
    match fault {
        RecordFault::TooLong { at } => Ok(Ending::TooLong { at }),
        RecordFault::Truncated { at } => Ok(Ending::Truncated { at }),
        RecordFault::Read => Err(Failure::Read),
        RecordFault::Write { .. } => Err(Failure::Write),
        RecordFault::TooManyReads => Err(Failure::TooManyReads),
        RecordFault::NoMemory => Err(Failure::NoMemory),
    }
}

/// The line of a stream with this name that is refused. The error is an allocation failure.
pub fn ending_line(
    alloc: Global,
    form: Form,
    name: &str,
    ending: Ending,
) -> Result<String, AllocError>
    ensures { IfOk result (λ text. string_bytes text ≡ ending_line form name.now ending) }
{
    match ending {
        Ending::TooLong { at } => stream_line(alloc, form, name, "TooLong", at),
        Ending::Truncated { at } => stream_line(alloc, form, name, "Truncated", at),
    }
}

fn stream_line(
    alloc: Global,
    form: Form,
    name: &str,
    why: &str,
    at: u64,
) -> Result<String, AllocError>
    ensures { IfOk result (λ text. string_bytes text ≡ stream_line form name.now why.now at) }
{
    match form {
        Form::Lines => format!(in alloc; "{name} refused {why} at {at}\n"),
        Form::Json => format!(in alloc;
            "{{\"type\":\"{name}\",\"refused\":\"{why}\",\"at\":{at}}}\n"
        ),
    }
}

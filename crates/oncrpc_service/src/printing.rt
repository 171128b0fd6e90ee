//! Prints a line.
ghost use Rattle.std.specs.Prelude.{◌≡◌, ◌<◌, ℕ, List, IfOk, length, string_bytes};
ghost use Rattle.oncrpc_service.specs.Written.{IsPrinted};

use oncrpc_answers::Failure;
use std::alloc::AllocError;
use xdr_io::{Sink, write_whole};

/// Prints a line, where there was memory for it. The error is `Write` where the output failed, and `NoMemory` where
/// there was no line.
pub fn print_line<O: Sink>(output: &mut O, line: Result<String, AllocError>) -> Result<(), Failure>
    ensures { (text : List ℕ) → IfOk line (λ made. string_bytes made ≡ text) → 0 < length text
        → IsPrinted text (O.taken output.old) (O.taken output.new) (O.failures output.old) (O.failures output.new)
        result }
{
    match line {
        Ok(line) => match write_whole(output, line.as_bytes()) {
            Ok(()) => Ok(()),
            Err(_) => Err(Failure::Write),
        },
        Err(_) => Err(Failure::NoMemory),
    }
}

//! The bytes that a task is given as hexadecimal.
ghost use Rattle.std.specs.Prelude.{◌≡◌, ◌+◌, IfOk, OnOk, IsErrOf};
ghost use Rattle.xdr_io.specs.Reported.{Counts, CountsAtMost, MovesAtMost};
ghost use Rattle.xdr_io.specs.declared.input.TheConstants.{MOST_READS};
ghost use Rattle.oncrpc_tasks.specs.Input.{InputGives};
ghost use Rattle.oncrpc_tasks.specs.declared.hexadecimal.TheConstants.{MOST_TEXT};

use super::hexadecimal::{MOST_TEXT, bytes_of_text};
use oncrpc_answers::Failure;
use std::alloc::Global;
use xdr_io::{Source, read_past};

/// What the input holds.
#[derive(Drop)]
pub enum Given {
    /// These bytes.
    Bytes(Vec<u8>),
    /// A text that is no hexadecimal.
    BadHex,
    /// A text of hexadecimal that is too long.
    HexTooLong,
}

/// Reads the input, a text of hexadecimal, until it ends or more than 1048576 bytes are there.
pub fn given_over<I: Source>(alloc: Global, input: &mut I) -> Result<Given, Failure>
    // Where it answers, what the input holds is told right,
    ensures gives { IfOk result (λ given. InputGives (I.left input.old) given) }
    // and no read failed.
    ensures none_failed { OnOk result (Counts 0 (I.failures input.old) (I.failures input.new)) }
    // The fault Read comes after a read that failed,
    ensures failed { IsErrOf result Failure.Read → Counts 1 (I.failures input.old) (I.failures input.new) }
    // TooManyReads after as many reads as there may be,
    ensures many { IsErrOf result Failure.TooManyReads → Counts MOST_READS (I.reads input.old) (I.reads input.new) }
    // and Write never.
    ensures no_write { IsErrOf result Failure.Write → ⊥ }
    // No more than the most reads are made,
    ensures reads { CountsAtMost MOST_READS (I.reads input.old) (I.reads input.new) }
    // and at most a page more than the limit on a text is read.
    ensures moved { MovesAtMost (MOST_TEXT + 4096) (I.left input.old) (I.left input.new) }
{
    let text = read_past(alloc, input, MOST_TEXT)?;
    if text.len() > MOST_TEXT {
        return Ok(Given::HexTooLong);
    }
    match bytes_of_text(alloc, &text)? {
        Some(bytes) => Ok(Given::Bytes(bytes)),
        None => Ok(Given::BadHex),
    }
}

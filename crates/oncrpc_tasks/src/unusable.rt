//! Why a task asks nothing of its input.
ghost use Rattle.std.specs.Prelude.{◌≡◌, [], string_bytes};
ghost use Rattle.oncrpc_answers.specs.Status.{failure_of_input};
ghost use Rattle.oncrpc_tasks.specs.Checked.{IsSaid};
ghost use Rattle.oncrpc_tasks.specs.Private.Meant.{RefusedFor};
ghost use Rattle.oncrpc_tasks.specs.Refusals.{refusal_line};
ghost use Rattle.oncrpc_tasks.specs.Status.{Ends};
ghost use Rattle.oncrpc_answers.specs.declared.failure.Failure.TheVariants.{Read, NoMemory};
ghost use Rattle.oncrpc_tasks.specs.declared.unusable.Unusable.TheVariants.{Failed};

use super::refusal_line::refusal_line;
use super::said::say_line;
use oncrpc_answers::{Failure, ValueTask, report};
use std::alloc::{AllocError, Global};
use xdr_io::{InputFault, ReadFault, Sink};
use xdr_lang::LangFault;

/// Why there is no question.
#[derive(Clone, Copy, PartialEq, Eq)]
pub enum Unusable {
    /// The texts of declarations are refused, at a place in the file of this number, from 0.
    Declaration { file: usize, fault: LangFault },
    /// The name names no kind.
    Name,
    /// A limit is out of its range.
    Limits,
    /// The text could not be read, or memory was refused.
    Failed(Failure),
}

impl From<ReadFault> for Unusable {
    ghost from_gives = { λ _ u. u ≡ Failed Read };

    fn from(_: ReadFault) -> Unusable {
        Unusable::Failed(Failure::Read)
    }
}

impl From<InputFault> for Unusable {
    ghost from_gives = { λ e u. u ≡ Failed (failure_of_input e) };

    fn from(fault: InputFault) -> Unusable {
        Unusable::Failed(Failure::from(fault))
    }
}

impl From<LangFault> for Unusable {
    ghost from_gives = { λ e u. RefusedFor e u };

    // Number 13 is an allocation failure. Another fault stands in the first file, as far as is known.
    fn from(fault: LangFault) -> Unusable {
        if fault.number == 13 {
            Unusable::Failed(Failure::NoMemory)
        } else {
            Unusable::Declaration { file: 0, fault }
        }
    }
}

impl From<xdr_types::NoMemory> for Unusable {
    ghost from_gives = { λ _ u. u ≡ Failed NoMemory };

    fn from(_: xdr_types::NoMemory) -> Unusable {
        Unusable::Failed(Failure::NoMemory)
    }
}

impl From<AllocError> for Unusable {
    ghost from_gives = { λ _ u. u ≡ Failed NoMemory };

    fn from(_: AllocError) -> Unusable {
        Unusable::Failed(Failure::NoMemory)
    }
}

/// Writes the line to `faults`, where that can be done, and gives the exit status: 2, or that of the failure. An
/// allocation failure for the line is status 4.
pub fn refuse<F: Sink>(alloc: Global, why: Unusable, what: &ValueTask, faults: &mut F) -> u8
    ensures status { Ends why result }
    // With status 2 it was the line of the refusal.
    ensures said { result ≡ 2 → IsSaid (record { taken = F.taken; lost = F.failures }) faults.old faults.new
        (refusal_line (string_bytes what.now.name) what.now.types.files.items why) }
{
    refuse_named(alloc, why, &what.name, &what.types.files, faults)
}

/// The same where texts of these files are asked for, and no name.
pub fn refuse_texts<F: Sink>(alloc: Global, why: Unusable, files: &[String], faults: &mut F) -> u8
    ensures status { Ends why result }
    ensures said { result ≡ 2 → IsSaid (record { taken = F.taken; lost = F.failures }) faults.old faults.new
        (refusal_line [] files.now why) }
{
    refuse_named(alloc, why, "", files, faults)
}

fn refuse_named<F: Sink>(
    alloc: Global,
    why: Unusable,
    name: &str,
    files: &[String],
    faults: &mut F,
) -> u8
    ensures status { Ends why result }
    ensures said { result ≡ 2 → IsSaid (record { taken = F.taken; lost = F.failures }) faults.old faults.new
        (refusal_line name.now files.now why) }
{
    if let Unusable::Failed(failure) = why {
        return report(failure, faults);
    }
    match refusal_line(alloc, why, name, files) {
        Ok(line) => {
            say_line(&line, faults);
            2
        }
        Err(_) => report(Failure::NoMemory, faults),
    }
}

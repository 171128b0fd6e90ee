//! What the words ask for: a value that is read as JSON, and its bytes.
ghost use Rattle.std.specs.Prelude.{◌≡◌, ◌⊎◌, ◌<◌, ◌≤◌, true, length, string_bytes, IfOk};
ghost use Rattle.oncrpc_answers.specs.Lines.{failure_line};
ghost use Rattle.oncrpc_answers.specs.Status.{failure_status};
ghost use Rattle.oncrpc_answers.specs.declared.failure.Failure.TheVariants.{NoMemory};
ghost use Rattle.oncrpc_tasks.specs.Checked.{IsSaid};
ghost use Rattle.oncrpc_tasks.specs.Private.Printed.{Prints};
ghost use Rattle.oncrpc_tasks.specs.Sources.{FileFails};
ghost use Rattle.oncrpc_encode.specs.EncodeEnds.{EncodeEnds, ValueEncodes, SaysReason};
ghost use Rattle.oncrpc_encode.specs.Encoding.{sought_of};
ghost use Rattle.oncrpc_encode.specs.Lines.{refusal_line, written_in};

use super::encoded::{Encoded, encoded_over};
use super::refusal::{Refusal, line_of};
use oncrpc_answers::{Failure, ValueTask};
use oncrpc_tasks::{Opener, Target, refuse, say_line, target_of};
use std::alloc::{AllocError, Global};
use xdr_io::{Sink, Source, write_whole};

/// Reads a value as JSON (RFC 8259) and writes its bytes (RFC 4506), or with the task's `hex` one line of lower-case
/// hexadecimal, and gives the exit status.
///
/// The input is read to its end, at most 16 bytes for each byte that the value may have and 1048576 more, before
/// anything is written. 1 is a text that spells no value or is too long, and then the line of its refusal goes to
/// `faults`, where that can be done. 2 is texts of declarations, a name or limits that are refused, in this order,
/// before any input is read. A device that fails or too many reads are 3, an allocation failure is 4, and then its line
/// goes to `faults`. The output gets the bytes of the value alone: nothing where the status is not 0, but what came
/// before a write that failed.
///
/// Memory is of the size of the text and of the declarations. Each level of the value takes stack
/// (`xdr_codec::encode`).
#[tactic(auto, using(crate::proofs::Telling::told_of))]
pub fn encode_over<P: Opener, I: Source, O: Sink, F: Sink>(
    alloc: Global,
    what: &ValueTask,
    opener: &mut P,
    input: &mut I,
    output: &mut O,
    faults: &mut F,
) -> u8
    // The status is 0 to 4,
    ensures known { result ≤ 4 }
    // and says what was read and written.
    ensures ends { EncodeEnds (P.reported opener.old) what.now
        (FileFails P.Text.left P.Text.failures (P.reported opener.old) what.now.types.files.items
        (P.failures opener.old) (P.failures opener.new))
        (record { left = I.left; reads = I.reads; failures = I.failures; taken = O.taken; lost = O.failures })
        (record { taken = F.taken; lost = F.failures })
        input.old input.new output.old output.new faults.old faults.new result }
    // With status 2 the line says why nothing was looked for.
    ensures told { result ≡ 2 → SaysReason (P.reported opener.old) what.now
        (record { taken = F.taken; lost = F.failures }) faults.old faults.new }
{
    let target = match target_of(alloc, what, opener) {
        Ok(target) => target,
        Err(why) => return refuse(alloc, why, what, faults),
    };
    encode_value_over(alloc, &target, what.hex, input, output, faults)
}

/// The same for a kind in its schema and limits: 0, 1, 3 and 4 as above, and never 2. The schema must have the kind.
#[tactic(auto, using(crate::proofs::Ending::endings))]
pub fn encode_value_over<I: Source, O: Sink, F: Sink>(
    alloc: Global,
    target: &Target,
    hex: bool,
    input: &mut I,
    output: &mut O,
    faults: &mut F,
) -> u8
    requires { target.now.kind.place < length target.now.schema.kinds }
    ensures { ValueEncodes (sought_of target.now) hex
        (record { left = I.left; reads = I.reads; failures = I.failures; taken = O.taken; lost = O.failures })
        (record { taken = F.taken; lost = F.failures })
        input.old input.new output.old output.new faults.old faults.new result }
{
    let encoded = match encoded_over(alloc, target, input) {
        Ok(encoded) => encoded,
        Err(failure) => return say_failure(failure, faults),
    };
    match encoded {
        Encoded::Bytes(bytes) => match print_bytes(alloc, bytes, hex, output) {
            Ok(()) => 0,
            Err(failure) => say_failure(failure, faults),
        },
        Encoded::Refused(refusal) => say_refusal(alloc, refusal, faults),
    }
}

// The bytes go out as one piece, or their hexadecimal does.
fn print_bytes<O: Sink>(
    alloc: Global,
    bytes: Vec<u8>,
    hex: bool,
    output: &mut O,
) -> Result<(), Failure>
    ensures { Prints O.taken O.failures output.old output.new (written_in hex bytes.items) result }
{
    let text = written_of(alloc, bytes, hex)?;
    write_whole(output, &text)?;
    Ok(())
}

// What is written of the bytes.
fn written_of(alloc: Global, bytes: Vec<u8>, hex: bool) -> Result<Vec<u8>, AllocError>
    ensures { IfOk result (λ text. text.items ≡ written_in hex bytes.items) }
{
    if !hex {
        return Ok(bytes);
    }
    let line = hexadecimal_line(alloc, &bytes)?;
    Ok(line.into_bytes())
}

fn hexadecimal_line(alloc: Global, bytes: &[u8]) -> Result<String, AllocError>
    ensures { IfOk result (λ line. string_bytes line ≡ written_in true bytes.now) }
{
    let mut line = hex::encode(alloc, bytes)?;
    line.push_str("\n")?;
    Ok(line)
}

// Says why there are no bytes, where that can be done, and gives the exit status.
fn say_refusal<F: Sink>(alloc: Global, refusal: Refusal, faults: &mut F) -> u8
    ensures status { (result ≡ 1) ⊎ (result ≡ 4) }
    ensures said { result ≡ 1
        → IsSaid (record { taken = F.taken; lost = F.failures }) faults.old faults.new (refusal_line refusal) }
    ensures wanting { result ≡ 4
        → IsSaid (record { taken = F.taken; lost = F.failures }) faults.old faults.new (failure_line NoMemory) }
{
    match line_of(alloc, refusal) {
        Ok(line) => {
            say_line(&line, faults);
            1
        }
        Err(_) => say_failure(Failure::NoMemory, faults),
    }
}

// Writes the line of a failure, where that can be done, and gives the exit status.
fn say_failure<F: Sink>(failure: Failure, faults: &mut F) -> u8
    ensures status { result ≡ failure_status failure }
    ensures said { IsSaid (record { taken = F.taken; lost = F.failures }) faults.old faults.new
        (failure_line failure) }
{
    say_line(failure.line(), faults);
    failure.status()
}

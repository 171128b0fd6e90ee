//! What an input of JSON stands for.
ghost use Rattle.std.specs.Prelude.{◌≡◌, ◌≢◌, ◌+◌, ◌<◌, ◌≤◌, length, IfOk, IfErr, OnOk, IsErrOf};
ghost use Rattle.xdr_io.specs.Reported.{Counts, CountsAtMost, MovesAtMost};
ghost use Rattle.xdr_io.specs.declared.input.TheConstants.{MOST_READS};
ghost use Rattle.oncrpc_encode.specs.Encoding.{IsRight, IsRightFor, most_bytes, most_text, sought_of};
ghost use Rattle.oncrpc_encode.specs.Private.Refused.{IsRefusedFor};

use super::refusal::Refusal;
use oncrpc_answers::Failure;
use oncrpc_tasks::Target;
use std::alloc::Global;
use xdr_codec::encode;
use xdr_io::{Source, read_past};
use xdr_json_reader::{JsonFault, JsonReason, line_and_column, read_json};
use xdr_types::Limits;

/// What a text of JSON stands for.
#[derive(Drop)]
pub enum Encoded {
    /// These bytes, of the value that it spells.
    Bytes(Vec<u8>),
    /// None, for this reason.
    Refused(Refusal),
}

/// Reads the input until it ends or more bytes are there than a text may have, and tells what it stands for.
#[tactic(auto, using(crate::proofs::Reading::moved_by))]
pub fn encoded_over<I: Source>(
    alloc: Global,
    target: &Target,
    input: &mut I,
) -> Result<Encoded, Failure>
    requires { target.now.kind.place < length target.now.schema.kinds }
    // Where it answers, what the input stands for is told right,
    ensures right { IfOk result (λ e. IsRightFor (sought_of target.now) (I.left input.old) e) }
    // and no read failed.
    ensures none_failed { OnOk result (Counts 0 (I.failures input.old) (I.failures input.new)) }
    // The fault Read comes after a read that failed,
    ensures failed { IsErrOf result Failure.Read → Counts 1 (I.failures input.old) (I.failures input.new) }
    // and after every other fault none did;
    ensures unfailed { IfErr result (λ f. f ≢ Failure.Read → Counts 0 (I.failures input.old) (I.failures input.new)) }
    // TooManyReads after as many reads as there may be,
    ensures many { IsErrOf result Failure.TooManyReads → Counts MOST_READS (I.reads input.old) (I.reads input.new) }
    // and Write never.
    ensures no_write { IsErrOf result Failure.Write → ⊥ }
    // No more than the most reads are made,
    ensures reads { CountsAtMost MOST_READS (I.reads input.old) (I.reads input.new) }
    // and at most a page more than the limit on a text is read.
    ensures moved { MovesAtMost (most_text (sought_of target.now) + 4096) (I.left input.old) (I.left input.new) }
{
    let most = most_text(target.limits);
    let text = read_past(alloc, input, most)?;
    if text.len() > most {
        return Ok(Encoded::Refused(Refusal::TooLong));
    }
    encoded_text(alloc, target, &text)
}

/// How many bytes a text has at most.
pub fn most_text(limits: Limits) -> usize
    ensures { result ≡ most_bytes limits }
{
    16 * limits.bytes() as usize + 1048576
}

// What a text stands for that is not too long.
fn encoded_text(alloc: Global, target: &Target, text: &[u8]) -> Result<Encoded, Failure>
    requires known { target.now.kind.place < length target.now.schema.kinds }
    requires short { length text.now ≤ most_text (sought_of target.now) }
    ensures right { IfOk result (λ e. IsRight (sought_of target.now) text.now e) }
    ensures memory { IfErr result (λ f. f ≡ Failure.NoMemory) }
{
    match read_json(alloc, &target.schema, target.kind, target.limits, text) {
        Ok(value) => {
            let bytes = encode(alloc, &target.schema, target.kind, &value, target.limits)?;
            Ok(Encoded::Bytes(bytes))
        }
        Err(fault) => {
            let refusal = refusal_of(text, fault)?;
            Ok(Encoded::Refused(refusal))
        }
    }
}

/// A fault of a text by its line and column.
pub fn refusal_of(text: &[u8], fault: JsonFault) -> Result<Refusal, Failure>
    requires { fault.at ≤ length text.now }
    ensures refused { IfOk result (λ r. IsRefusedFor text.now fault.why fault.at r) }
    ensures memory { IfErr result (λ f. f ≡ Failure.NoMemory) }
{
    match fault.why {
        JsonReason::NoMemory => Err(Failure::NoMemory),
        why => {
            let (line, column) = line_and_column(text, fault.at);
            Ok(Refusal::At { why, line, column })
        }
    }
}

//! Records of one buffer, marked anew into another.
ghost use Rattle.std.specs.Prelude.{◌≡◌, ◌<◌, ◌^◌, IfOk};
ghost use Rattle.c_values.specs.Normal.{IsForm, IsMarked};
ghost use Rattle.c_values.specs.Statuses.{Reports};

use super::answer::Answer;
use super::buffer::put;
use c_answers::Outcome;
use rpc_record::{NoMemory, RecordFault, normalise};
use std::alloc::Global;
use xdr_codec::{DecodeFault, Reason};
use xdr_io::{Gathered, MemorySource};

/// The greatest limit on the bytes of a record.
const MOST_LIMIT: u32 = 2147483647;

/// The records of the input as one fragment each, and why the input is refused after them, if it is.
fn normal_form(
    alloc: Global,
    input: &[u8],
    limit: u32,
) -> Result<(Option<DecodeFault>, Vec<u8>), NoMemory>
    requires { limit < 2 ^ 31 }
    ensures { IfOk result (λ r. IsForm limit input.now r.1.items r.0) }
{
    let mut source = MemorySource::new(input, 4096, None);
    let mut sink = Gathered::new(alloc);
    match normalise(alloc, &mut source, &mut sink, limit) {
        Ok(_) => Ok((None, sink.into_bytes())),
        Err(RecordFault::TooLong { at }) => {
            let fault = DecodeFault {
                why: Reason::TooLong,
                at: at as usize,
            };
            Ok((Some(fault), sink.into_bytes()))
        }
        Err(RecordFault::Truncated { .. }) => {
            let fault = DecodeFault {
                why: Reason::Truncated,
                at: input.len(),
            };
            Ok((Some(fault), sink.into_bytes()))
        }
        Err(_) => Err(NoMemory),
    }
}

/// Puts the normal form of the input's records into the buffer.
fn mark_into(
    alloc: Global,
    input: &[u8],
    limit: u32,
    buffer: &mut [u8],
    written: &mut usize,
) -> Answer
    ensures { IsMarked limit input.now buffer.old buffer.new written.new result }
{
    *written = 0;
    if limit > MOST_LIMIT {
        return Answer::BadLimits;
    }
    let Ok((end, form)) = normal_form(alloc, input, limit) else {
        return Answer::NoMemory;
    };
    if !put(buffer, &form, written) {
        return Answer::NoRoom { needed: form.len() };
    }
    match end {
        None => Answer::Whole { used: form.len() },
        Some(fault) => Answer::Refused(fault),
    }
}

/// Writes each record of the input into the buffer as one final fragment, as `oncrpc_normalise` says.
pub fn normalise_records(
    alloc: Global,
    input: &[u8],
    limit: u32,
    buffer: &mut [u8],
    written: &mut usize,
    outcome: &mut Outcome,
) -> u32
    ensures { Reports (IsMarked limit input.now buffer.old buffer.new written.new) result outcome.new }
{
    let answer = mark_into(alloc, input, limit, buffer, written);
    *outcome = answer.outcome();
    answer.status()
}

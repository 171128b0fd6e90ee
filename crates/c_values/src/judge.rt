//! Bytes judged without a value.
ghost use Rattle.std.specs.Prelude.{◌<◌, length};
ghost use Rattle.c_values.specs.Answers.{IsJudged};

use super::answer::Answer;
use std::alloc::Global;
use xdr_codec::{Checker, DecodeFault, Progress, Reason};
use xdr_types::{KindId, Limits, Schema};

/// What the bytes are as a value of the kind within the limits (RFC 4506). It takes memory for open nodes alone.
pub fn judge(alloc: Global, schema: &Schema, kind: KindId, limits: Limits, input: &[u8]) -> Answer
    requires { kind.place < length schema.now.kinds }
    ensures { IsJudged (record { kinds = schema.now.kinds; place = kind.place; limits = limits }) input.now result }
{
    let _in_range = limits.depth();
    let mut checker = Checker::start(alloc, schema, kind, limits);
    match checker.feed(input) {
        Ok(Progress::Done { used }) if used < input.len() => Answer::Followed { used },
        Ok(Progress::Done { used }) => Answer::Whole { used },
        Ok(Progress::More) => Answer::Refused(DecodeFault {
            why: Reason::Truncated,
            at: input.len(),
        }),
        Err(fault) if fault.why == Reason::NoMemory => Answer::NoMemory,
        Err(fault) => Answer::Refused(fault),
    }
}

//! What decoding says of an item's bytes, before any of them is written.
ghost use Rattle.std.specs.Prelude.{List, ℕ, ◌++◌, Ok};
ghost use Rattle.xdr_writer.specs.Private.Bytes.{pieces_bytes};
ghost use Rattle.xdr_writer.specs.Private.Judged.{IsStep, Judges, Grants};

use crate::item::Step;
use crate::refusal::{Why, why_of};
use crate::units::{Pieces, zeros_behind};
use xdr_codec::{Checker, DecodeFault, Progress};

// What an answer of the checker to so many bytes brings.
fn step_of(fed: Result<Progress, DecodeFault>, size: usize) -> Result<Step, Why>
    ensures { IsStep fed size result }
{
    match fed {
        Ok(Progress::More) => Ok(Step::More),
        Ok(Progress::Done { used }) => {
            if used == size {
                Ok(Step::Done)
            } else {
                Err(Why::PastEnd)
            }
        }
        Err(fault) => Err(why_of(fault)),
    }
}

/// Judges the next bytes.
pub(crate) fn judge(checker: &mut Checker<'_>, bytes: &[u8]) -> Result<Step, Why>
    ensures judges { Judges checker.old checker.new bytes.now result }
    ensures granted { Grants checker.old result }
{
    let fed = checker.feed(bytes);
    step_of(fed, bytes.len())
}

// Judges the bytes behind others of the same item, which brought this step.
fn judge_behind(checker: &mut Checker<'_>, step: Step, bytes: &[u8]) -> Result<Step, Why>
    ensures judges { (c : Checker) (u : List ℕ) → Judges c checker.old u (Ok step)
        → Judges c checker.new (u ++ bytes.now) result }
    ensures granted { Grants checker.old result }
{
    if bytes.is_empty() {
        return Ok(step);
    }
    match step {
        Step::More => judge(checker, bytes),
        Step::Done => Err(Why::PastEnd),
    }
}

/// Judges an item's bytes: its head first, so that no content is looked at that is longer than its kind allows.
pub(crate) fn judge_pieces(checker: &mut Checker<'_>, pieces: &Pieces<'_>) -> Result<Step, Why>
    ensures judges { Judges checker.old checker.new (pieces_bytes pieces.now) result }
    ensures granted { Grants checker.old result }
{
    let before = match judge(checker, pieces.head.bytes()) {
        Ok(step) => step,
        Err(why) => return Err(why),
    };
    let step = match judge_behind(checker, before, pieces.content) {
        Ok(step) => step,
        Err(why) => return Err(why),
    };
    judge_behind(checker, step, zeros_behind(pieces.content.len()))
}

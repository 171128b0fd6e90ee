//! A stream's end.
ghost use Rattle.std.specs.Prelude.{◌≡◌, option_map};
ghost use Rattle.c_records.specs.Ended.{IsEnded, IsEndedBy};
ghost use Rattle.c_records.specs.Held.{held_of};
ghost use Rattle.c_records.specs.Statuses.{Reports};

use super::answer::Answer;
use super::handle::Records;
use super::state::State;
use c_answers::Outcome;
use c_handles::{keep, taken};
use std::alloc::Global;

/// Ends the stream behind the bytes that were taken.
fn end_of(state: &mut State) -> Answer
    ensures { IsEnded (held_of state.old) (held_of state.new) result }
{
    if state.waits {
        return Answer::Whole { count: 0 };
    }
    match state.reader.end() {
        Ok(()) => Answer::Whole { count: 0 },
        Err(fault) => Answer::Refused(fault),
    }
}

/// Reports whether the stream may end behind the bytes that were taken, as `oncrpc_records_end` says.
pub fn end_records(alloc: Global, handle: &mut Records, outcome: &mut Outcome) -> u32
    ensures { Reports (IsEndedBy (option_map held_of handle.old.held) (option_map held_of handle.new.held))
        result outcome.new }
{
    let answer = match taken(alloc, handle) {
        Some(mut state) => {
            let answer = end_of(&mut state);
            keep(alloc, handle, state);
            answer
        }
        None => Answer::NoReader,
    };
    *outcome = answer.outcome();
    answer.status()
}

//! Records that are handed out.
ghost use Rattle.std.specs.Prelude.{◌≡◌, option_map};
ghost use Rattle.c_records.specs.Held.{held_of};
ghost use Rattle.c_records.specs.Statuses.{Reports};
ghost use Rattle.c_records.specs.Taken.{IsTaken, IsTakenBy};

use super::answer::Answer;
use super::buffer::place;
use super::handle::Records;
use super::state::State;
use c_answers::Outcome;
use c_handles::{keep, taken};
use std::alloc::Global;

/// Puts the record that waits into the buffer. It waits on where it does not go into it.
fn take_into(state: &mut State, buffer: &mut [u8]) -> Answer
    ensures { IsTaken (held_of state.old) (held_of state.new) buffer.old buffer.new result }
{
    if !state.waits {
        return Answer::NoRecord;
    }
    let answer = place(&state.last, buffer);
    if let Answer::Whole { .. } = answer {
        state.waits = false;
    }
    answer
}

/// Puts the record that waits into the buffer, as `oncrpc_records_take` says.
pub fn take_record(
    alloc: Global,
    handle: &mut Records,
    buffer: &mut [u8],
    outcome: &mut Outcome,
) -> u32
    ensures { Reports (IsTakenBy (option_map held_of handle.old.held) (option_map held_of handle.new.held)
        buffer.old buffer.new) result outcome.new }
{
    let answer = match taken(alloc, handle) {
        Some(mut state) => {
            let answer = take_into(&mut state, buffer);
            keep(alloc, handle, state);
            answer
        }
        None => Answer::NoReader,
    };
    *outcome = answer.outcome();
    answer.status()
}

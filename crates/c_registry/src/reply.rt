//! Replies that wait for buffer.
ghost use Rattle.std.specs.Prelude.{◌≡◌, option_map};
ghost use Rattle.c_registry.specs.Answered.{IsTaken, IsTakenBy};
ghost use Rattle.c_registry.specs.Held.{held_of};
ghost use Rattle.c_registry.specs.Statuses.{Reports};

use super::answer::Answer;
use super::buffer::place;
use super::handle::Registry;
use super::state::State;
use c_answers::Outcome;
use c_handles::{keep, taken};
use registry_answer::Answered;
use rpc_message::system_error;
use std::alloc::Global;

/// Puts the reply that waits into the buffer. It waits on where it does not go into it.
pub fn reply_into(state: &mut State, buffer: &mut [u8]) -> Answer
    ensures { IsTaken (held_of state.old) (held_of state.new) buffer.old buffer.new result }
{
    let answer = match &state.waiting {
        Answered::Silent => Answer::Silence,
        Answered::Reply(bytes) => place(bytes, buffer),
        Answered::OutOfMemory { xid } => place(&system_error(*xid), buffer),
    };
    if let Answer::Whole { .. } = answer {
        state.waiting = Answered::Silent;
    }
    answer
}

/// Puts the reply that waits into the buffer, as `oncrpc_registry_reply` says.
pub fn take_reply(
    alloc: Global,
    handle: &mut Registry,
    buffer: &mut [u8],
    outcome: &mut Outcome,
) -> u32
    ensures { Reports (IsTakenBy (option_map held_of handle.old.held) (option_map held_of handle.new.held)
        buffer.old buffer.new) result outcome.new }
{
    let answer = match taken(alloc, handle) {
        Some(mut state) => {
            let answer = reply_into(&mut state, buffer);
            keep(alloc, handle, state);
            answer
        }
        None => Answer::NoRegistry,
    };
    *outcome = answer.outcome();
    answer.status()
}

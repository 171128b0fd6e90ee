//! The registry's answer to a record.
ghost use Rattle.std.specs.Prelude.{◌≡◌, option_map};
ghost use Rattle.registry_answer.specs.Views.{netid_of};
ghost use Rattle.c_registry.specs.Answered.{IsAnswered, IsAnsweredBy};
ghost use Rattle.c_registry.specs.Held.{held_of};
ghost use Rattle.c_registry.specs.Statuses.{Reports};

use super::answer::Answer;
use super::handle::Registry;
use super::reply::reply_into;
use super::state::State;
use super::transport::transport_of;
use c_answers::Outcome;
use c_handles::{keep, taken};
use registry_answer::{Transport, answer};
use std::alloc::Global;

/// Answers the record, and puts the reply into the buffer.
fn answer_into(
    alloc: Global,
    state: &mut State,
    transport: Transport,
    message: &[u8],
    buffer: &mut [u8],
) -> Answer
    ensures { IsAnswered (held_of state.old) (netid_of transport) message.now (held_of state.new) buffer.old buffer.new
        result }
{
    state.waiting = answer(alloc, &mut state.directory, transport, message);
    reply_into(state, buffer)
}

/// Answers the record by the registry that the handle holds.
fn answer_by(
    alloc: Global,
    handle: &mut Registry,
    netid: &[u8],
    message: &[u8],
    buffer: &mut [u8],
) -> Answer
    ensures { IsAnsweredBy (option_map held_of handle.old.held) netid.now message.now
        (option_map held_of handle.new.held) buffer.old buffer.new result }
{
    let Some(mut state) = taken(alloc, handle) else {
        return Answer::NoRegistry;
    };
    let answer = match transport_of(netid) {
        Some(transport) => answer_into(alloc, &mut state, transport, message, buffer),
        None => Answer::NoTransport,
    };
    keep(alloc, handle, state);
    answer
}

/// Answers a record, and puts the reply into the buffer, as `oncrpc_registry_answer` says.
pub fn answer_record(
    alloc: Global,
    handle: &mut Registry,
    netid: &[u8],
    message: &[u8],
    buffer: &mut [u8],
    outcome: &mut Outcome,
) -> u32
    ensures { Reports (IsAnsweredBy (option_map held_of handle.old.held) netid.now message.now
        (option_map held_of handle.new.held) buffer.old buffer.new) result outcome.new }
{
    let answer = answer_by(alloc, handle, netid, message, buffer);
    *outcome = answer.outcome();
    answer.status()
}

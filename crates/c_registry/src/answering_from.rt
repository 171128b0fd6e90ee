//! The registry's answer to a record, by who sent it.
ghost use Rattle.std.specs.Prelude.{◌≡◌, option_map};
ghost use Rattle.registry_answer.specs.Views.{netid_of, is_refused, sent_of};
ghost use Rattle.registry_callers.specs.From.{AnswerFrom};
ghost use Rattle.c_registry.specs.Callers.{caller_of, IsAnsweredFrom, IsAnsweredFromBy};
ghost use Rattle.c_registry.specs.Held.{held_of};
ghost use Rattle.c_registry.specs.Statuses.{Reports};

use super::answer::Answer;
use super::caller::{CallerParts, caller_of};
use super::handle::Registry;
use super::hasher::Seeded;
use super::reply::reply_into;
use super::state::State;
use super::transport::origin_of;
use c_answers::Outcome;
use c_handles::{keep, taken};
use registry_answer::{Answered, Appended, Transport};
use registry_callers::{Caller, append_answer_from};
use rpc_directory::Directory;
use std::alloc::Global;

/// What the registry answers to a record of a caller.
fn answered_from(
    alloc: Global,
    caller: Caller,
    directory: &mut Directory<Seeded>,
    transport: Transport,
    message: &[u8],
) -> Answered
    ensures { AnswerFrom caller directory.old (netid_of transport) message.now (is_refused result) directory.new
        (sent_of result) }
{
    let mut out = Vec::new(alloc);
    match append_answer_from(alloc, caller, directory, transport, message, &mut out) {
        Appended::Nothing => Answered::Silent,
        Appended::Reply => Answered::Reply(out),
        Appended::OutOfMemory { xid } => Answered::OutOfMemory { xid },
    }
}

/// Answers the record of a caller, and puts the reply into the buffer.
fn answer_into(
    alloc: Global,
    state: &mut State,
    caller: Caller,
    transport: Transport,
    message: &[u8],
    buffer: &mut [u8],
) -> Answer
    ensures { IsAnsweredFrom caller (held_of state.old) (netid_of transport) message.now (held_of state.new) buffer.old
        buffer.new result }
{
    state.waiting = answered_from(alloc, caller, &mut state.directory, transport, message);
    reply_into(state, buffer)
}

/// Answers the record by the registry that the handle holds.
fn answer_by(
    alloc: Global,
    handle: &mut Registry,
    parts: &CallerParts,
    netid: &[u8],
    message: &[u8],
    buffer: &mut [u8],
) -> Answer
    ensures { IsAnsweredFromBy (option_map held_of handle.old.held) (caller_of parts.now) netid.now message.now
        (option_map held_of handle.new.held) buffer.old buffer.new result }
{
    let Some(mut state) = taken(alloc, handle) else {
        return Answer::NoRegistry;
    };
    let answer = match (origin_of(netid), caller_of(parts)) {
        (None, _) => Answer::NoTransport,
        (Some(_), None) => Answer::NoCaller,
        (Some(transport), Some(caller)) => {
            answer_into(alloc, &mut state, caller, transport, message, buffer)
        }
    };
    keep(alloc, handle, state);
    answer
}

/// Answers a record of a caller, and puts the reply into the buffer, as `oncrpc_registry_answer_from` says.
pub fn answer_record_from(
    alloc: Global,
    handle: &mut Registry,
    parts: &CallerParts,
    netid: &[u8],
    message: &[u8],
    buffer: &mut [u8],
    outcome: &mut Outcome,
) -> u32
    ensures { Reports (IsAnsweredFromBy (option_map held_of handle.old.held) (caller_of parts.now) netid.now message.now
        (option_map held_of handle.new.held) buffer.old buffer.new) result outcome.new }
{
    let answer = answer_by(alloc, handle, parts, netid, message, buffer);
    *outcome = answer.outcome();
    answer.status()
}

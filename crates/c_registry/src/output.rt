//! The output of a connection: replies that wait to be written.
ghost use Rattle.std.specs.Prelude.{◌≡◌, option_map};
ghost use Rattle.c_registry.specs.SessionStatuses.{Reports};
ghost use Rattle.c_registry.specs.Sessions.{session_of, IsShown, IsShownBy, IsTook, IsTookBy};

use super::connected::Connected;
use super::connection::Connection;
use super::session_answer::SessionAnswer;
use c_answers::Outcome;
use c_handles::{keep, taken};
use std::alloc::Global;

/// Puts the first bytes of the output into the buffer, as many as go into it.
fn show(connected: &Connected, buffer: &mut [u8]) -> SessionAnswer
    ensures { IsShown (session_of connected.now) buffer.old buffer.new result }
{
    let waiting = connected.session.output();
    let room = buffer.len();
    if room < waiting.len() {
        buffer.copy_from_slice(&waiting[..room]);
        return SessionAnswer::Follows { count: room };
    }
    buffer[..waiting.len()].copy_from_slice(waiting);
    SessionAnswer::Whole {
        count: waiting.len(),
    }
}

/// Puts the first bytes of the output into the buffer, as `oncrpc_session_output` says.
pub fn show_output(
    alloc: Global,
    handle: &mut Connection,
    buffer: &mut [u8],
    outcome: &mut Outcome,
) -> u32
    // What the handle holds stays.
    ensures stay { handle.new.held ≡ handle.old.held }
    // The status and the outcome are those of an answer that is right by it.
    ensures answer { Reports (IsShownBy (option_map session_of handle.old.held) buffer.old buffer.new)
        result outcome.new }
{
    let answer = match taken(alloc, handle) {
        Some(connected) => {
            let answer = show(&connected, buffer);
            keep(alloc, handle, connected);
            answer
        }
        None => SessionAnswer::NoSession,
    };
    *outcome = answer.outcome();
    answer.status()
}

/// Drops so many bytes of the output, which were written.
fn drop_written(connected: &mut Connected, count: usize) -> SessionAnswer
    ensures { IsTook (session_of connected.old) count (session_of connected.new) result }
{
    if connected.session.output().len() < count {
        return SessionAnswer::TooMany;
    }
    connected.session.took(count);
    SessionAnswer::Whole {
        count: connected.session.output().len(),
    }
}

/// Tells that a write took so many bytes of the output, as `oncrpc_session_took` says.
pub fn take_written(
    alloc: Global,
    handle: &mut Connection,
    count: usize,
    outcome: &mut Outcome,
) -> u32
    ensures { Reports (IsTookBy (option_map session_of handle.old.held) count
        (option_map session_of handle.new.held)) result outcome.new }
{
    let answer = match taken(alloc, handle) {
        Some(mut connected) => {
            let answer = drop_written(&mut connected, count);
            keep(alloc, handle, connected);
            answer
        }
        None => SessionAnswer::NoSession,
    };
    *outcome = answer.outcome();
    answer.status()
}

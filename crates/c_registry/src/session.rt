//! A session's beginning and end.
ghost use Rattle.std.specs.Prelude.{◌≡◌, None, option_map};
ghost use Rattle.c_registry.specs.Callers.{caller_of};
ghost use Rattle.c_registry.specs.SessionStatuses.{Reports};
ghost use Rattle.c_registry.specs.Sessions.{session_of, IsStarted};

use super::caller::{CallerParts, caller_of};
use super::connected::Connected;
use super::connection::Connection;
use super::session_answer::SessionAnswer;
use super::transport::stream_of;
use c_answers::Outcome;
use c_handles::{keep, taken};
use registry_sessions::{Origin, Session};
use std::alloc::Global;

/// Starts a session in the handle, which holds none where there is none to start.
fn start_in(
    alloc: Global,
    handle: &mut Connection,
    netid: &[u8],
    parts: &CallerParts,
    bound: u32,
) -> SessionAnswer
    ensures { IsStarted netid.now (caller_of parts.now) bound (option_map session_of handle.new.held) result }
{
    let _before = taken(alloc, handle);
    let Some(transport) = stream_of(netid) else {
        return SessionAnswer::NoTransport;
    };
    let Some(caller) = caller_of(parts) else {
        return SessionAnswer::NoCaller;
    };
    let origin = Origin { caller, transport };
    let connected = Connected {
        session: Session::start(alloc, bound, origin),
    };
    match Box::new(alloc, connected) {
        Ok(connected) => {
            keep(alloc, handle, connected);
            SessionAnswer::Whole { count: 0 }
        }
        Err(_) => SessionAnswer::NoMemory,
    }
}

/// Starts a session of a caller in the handle, as `oncrpc_session_start` says.
pub fn start_session(
    alloc: Global,
    handle: &mut Connection,
    netid: &[u8],
    parts: &CallerParts,
    bound: u32,
    outcome: &mut Outcome,
) -> u32
    ensures { Reports (IsStarted netid.now (caller_of parts.now) bound (option_map session_of handle.new.held))
        result outcome.new }
{
    let answer = start_in(alloc, handle, netid, parts, bound);
    *outcome = answer.outcome();
    answer.status()
}

/// Frees the session that the handle holds, if any, with the output that waits.
pub fn free_session(alloc: Global, handle: &mut Connection)
    ensures { handle.new.held ≡ None }
{
    let _gone = taken(alloc, handle);
}

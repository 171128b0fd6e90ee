//! Bytes that come over a connection.
ghost use Rattle.std.specs.Prelude.{◌≡◌, option_map};
ghost use Rattle.c_registry.specs.Held.{held_of};
ghost use Rattle.c_registry.specs.SessionStatuses.{Reports};
ghost use Rattle.c_registry.specs.Sessions.{session_of, IsFed, IsFedOver, IsFedBy};

use super::connected::Connected;
use super::connection::Connection;
use super::handle::Registry;
use super::session_answer::SessionAnswer;
use super::state::State;
use c_answers::Outcome;
use c_handles::{keep, taken};
use registry_sessions::Taken;
use std::alloc::Global;

/// Feeds a piece to the session, and answers the record that is whole then.
fn feed_to(connected: &mut Connected, state: &mut State, piece: &[u8]) -> SessionAnswer
    ensures { IsFed (session_of connected.old) (held_of state.old) piece.now (session_of connected.new)
        (held_of state.new) result }
{
    let session = &mut connected.session;
    match session.take_in(piece, &mut state.directory) {
        Ok(Taken::Answered { used }) => SessionAnswer::Whole { count: used },
        Ok(Taken::More) => SessionAnswer::More,
        Ok(Taken::Full) => SessionAnswer::Full,
        Err(fault) => SessionAnswer::Broken(fault),
    }
}

/// Feeds a piece to the session, over the registry that a handle holds.
fn feed_over(
    alloc: Global,
    connected: &mut Connected,
    registry: &mut Registry,
    piece: &[u8],
) -> SessionAnswer
    ensures { IsFedOver (session_of connected.old) (option_map held_of registry.old.held) piece.now
        (session_of connected.new) (option_map held_of registry.new.held) result }
{
    match taken(alloc, registry) {
        Some(mut state) => {
            let answer = feed_to(connected, &mut state, piece);
            keep(alloc, registry, state);
            answer
        }
        None => SessionAnswer::NoRegistry,
    }
}

/// Takes the bytes of a piece of the connection up to the end of a record, and answers that, as `oncrpc_session_feed`
/// says.
pub fn feed_session(
    alloc: Global,
    handle: &mut Connection,
    registry: &mut Registry,
    piece: &[u8],
    outcome: &mut Outcome,
) -> u32
    ensures { Reports (IsFedBy (option_map session_of handle.old.held) (option_map held_of registry.old.held) piece.now
        (option_map session_of handle.new.held) (option_map held_of registry.new.held)) result outcome.new }
{
    let answer = match taken(alloc, handle) {
        Some(mut connected) => {
            let answer = feed_over(alloc, &mut connected, registry, piece);
            keep(alloc, handle, connected);
            answer
        }
        None => SessionAnswer::NoSession,
    };
    *outcome = answer.outcome();
    answer.status()
}

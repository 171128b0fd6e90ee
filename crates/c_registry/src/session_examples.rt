//! What the contracts of sessions and of answers by who calls make certain for chosen inputs, each proved from the
//! contracts alone.
ghost use Rattle.std.specs.Prelude.{◌≡◌, true, None, Some, option_map};
ghost use Rattle.rpc_message.specs.Message.{CallView};
ghost use Rattle.rpc_message.specs.Spelling.{CallBytes};
ghost use Rattle.registry_callers.specs.Asking.{is_change};
ghost use Rattle.registry_sessions.specs.declared.session.Session.{Session};
ghost use Rattle.registry_sessions.specs.Represents.{IsFull, fault_in};
ghost use Rattle.c_answers.specs.Outcomes.{only_at};
ghost use Rattle.c_registry.specs.Held.{Held, held_of};
ghost use Rattle.c_registry.specs.Sessions.{session_of};

use super::answering_from::answer_record_from;
use super::caller::CallerParts;
use super::connection::Connection;
use super::feeding::feed_session;
use super::handle::Registry;
use super::output::{show_output, take_written};
use super::session::{free_session, start_session};
use c_answers::Outcome;
use registry_callers::remote_is_denied;
use std::alloc::Global;

/// Someone at another host, who is not trusted.
const AFAR: CallerParts = CallerParts {
    peer: 0,
    uid: 0,
    host: [0; 4],
    has_host: false,
    trusts_remote: false,
};

/// A change by a caller of another host who is not trusted changes no row.
pub fn takes_no_remote_change(
    alloc: Global,
    handle: &mut Registry,
    message: &[u8],
    buffer: &mut [u8],
    outcome: &mut Outcome,
) -> u32
    ensures { (c : CallView) → CallBytes c message.now → is_change c ≡ true → (h l : Held)
        → option_map held_of handle.old.held ≡ Some h → option_map held_of handle.new.held ≡ Some l
        → l.rows ≡ h.rows }
{
    remote_is_denied();
    answer_record_from(alloc, handle, &AFAR, b"tcp", message, buffer, outcome)
}

/// There is no caller of number 3, and datagrams have no connections: then no session is held.
pub fn starts_no_session(
    alloc: Global,
    handle: &mut Connection,
    other: &mut Connection,
    outcome: &mut Outcome,
) -> (u32, u32)
    ensures status { (result.0 ≡ 33) × (result.1 ≡ 20) }
    ensures held { (option_map session_of handle.new.held ≡ None) × (option_map session_of other.new.held ≡ None) }
    ensures outcome { outcome.new ≡ only_at 0 }
{
    let none = CallerParts { peer: 3, ..AFAR };
    let without_caller = start_session(alloc, handle, b"tcp", &none, 65536, outcome);
    let over_datagrams = start_session(alloc, other, b"udp", &none, 65536, outcome);
    (without_caller, over_datagrams)
}

/// After `free` there is no session, and the registry stays.
pub fn answers_nothing_after_free(
    alloc: Global,
    handle: &mut Connection,
    registry: &mut Registry,
    piece: &[u8],
    outcome: &mut Outcome,
) -> u32
    ensures status { result ≡ 31 }
    ensures outcome { outcome.new ≡ only_at 0 }
    ensures registry { option_map held_of registry.new.held ≡ option_map held_of registry.old.held }
{
    free_session(alloc, handle);
    feed_session(alloc, handle, registry, piece, outcome)
}

/// With more bytes waiting than its bound a session takes nothing, and says so.
pub fn takes_nothing_above_the_bound(
    alloc: Global,
    handle: &mut Connection,
    registry: &mut Registry,
    piece: &[u8],
    outcome: &mut Outcome,
) -> u32
    ensures { (s : Session) (h : Held) → option_map session_of handle.old.held ≡ Some s
        → option_map held_of registry.old.held ≡ Some h → fault_in s ≡ None → IsFull s
        → (result ≡ 32) × (outcome.new ≡ only_at 0) × (option_map session_of handle.new.held ≡ Some s) }
{
    feed_session(alloc, handle, registry, piece, outcome)
}

/// Output that was put whole, and told to be written, waits no longer: nothing of it is put again.
pub fn puts_output_once(
    alloc: Global,
    handle: &mut Connection,
    buffer: &mut [u8],
    more: &mut [u8],
    outcome: &mut Outcome,
) -> (u32, u32, u32)
    ensures { result.0 ≡ 0
        → (result.1 ≡ 0) × (result.2 ≡ 0) × (outcome.new ≡ only_at 0) × (more.new ≡ more.old) }
{
    let shown = show_output(alloc, handle, buffer, outcome);
    let count = outcome.at;
    let took = take_written(alloc, handle, count, outcome);
    let again = show_output(alloc, handle, more, outcome);
    (shown, took, again)
}

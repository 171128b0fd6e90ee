//! Sessions of connections that a program of C serves, over one registry (RFC 5531 sections 9 and 11).
ghost use Rattle.std.specs.Prelude.{◌≡◌, None, option_map};
ghost use Rattle.c_registry.specs.Callers.{caller_of};
ghost use Rattle.c_registry.specs.Held.{held_of};
ghost use Rattle.c_registry.specs.SessionStatuses.{Reports};
ghost use Rattle.c_registry.specs.Sessions.{session_of, IsStarted, IsFedBy, IsShownBy, IsTookBy};

use c_answers::Outcome;
use c_registry::{CallerParts, Connection, Registry};
use std::alloc::Global;

/// Starts the session of a connection of a caller in the handle, before its first byte. It comes over the transport
/// with this netid, `tcp` or, for a Unix socket, `local`. While more than `bound` bytes of its output wait, it takes
/// nothing. What the handle held before is freed.
///
/// Status 0: the handle holds the session. 20: no such transport has connections. 33: `peer` is above 2. 6: memory was
/// refused. At 6, 20 and 33 the handle holds none; of 20 and 33 the first is answered.
#[unsafe(no_mangle)]
pub extern "C" fn oncrpc_session_start(
    alloc: Global,
    handle: &mut Connection,
    netid: &[u8],
    caller: &CallerParts,
    bound: u32,
    outcome: &mut Outcome,
) -> u32
    ensures { Reports (IsStarted netid.now (caller_of caller.now) bound (option_map session_of handle.new.held))
        result outcome.new }
{
    c_registry::start_session(alloc, handle, netid, caller, bound, outcome)
}

/// Takes the bytes of a piece that came over the connection, which may be empty, up to the end of a record. The
/// registry answers that record as `oncrpc_registry_answer_from` does, and the reply stands behind the output, as one
/// last fragment (RFC 5531 sections 9 and 11). A reply that waits for `oncrpc_registry_reply` stays.
///
/// Status 0: a record was whole with the first `at` bytes of the piece, which were taken, and no other, and was
/// answered. 23: all were taken, and more are wanted. 32: none was taken, since more than the bound wait to be written.
/// 2: the header at the place `at` of the stream would bring its record above 65536 bytes, `why` 4. 6: memory was
/// refused for a record or its reply. 2 and 6 are answered from then on. 31: the handle holds no session. 18: the other
/// holds no registry. At all but 0 the rows stay, and so does the output; at 18, 31 and 32 the session does too.
#[unsafe(no_mangle)]
pub extern "C" fn oncrpc_session_feed(
    alloc: Global,
    handle: &mut Connection,
    registry: &mut Registry,
    piece: &[u8],
    outcome: &mut Outcome,
) -> u32
    ensures { Reports (IsFedBy (option_map session_of handle.old.held) (option_map held_of registry.old.held) piece.now
        (option_map session_of handle.new.held) (option_map held_of registry.new.held)) result outcome.new }
{
    c_registry::feed_session(alloc, handle, registry, piece, outcome)
}

/// Puts the first bytes of the output into the buffer, as many as go into it. They wait on, until `oncrpc_session_took`
/// tells that they were written. It takes no memory.
///
/// Status 0: the `at` bytes are all that wait, perhaps none, and the rest of the buffer is untouched. 1: the buffer is
/// full, `at` is the count of its bytes, and more wait. 31: the handle holds no session, and the buffer is untouched.
#[unsafe(no_mangle)]
pub extern "C" fn oncrpc_session_output(
    alloc: Global,
    handle: &mut Connection,
    buffer: &mut [u8],
    outcome: &mut Outcome,
) -> u32
    // What the handle holds stays.
    ensures stay { handle.new.held ≡ handle.old.held }
    // The status and the outcome are those of an answer that is right by it.
    ensures answer { Reports (IsShownBy (option_map session_of handle.old.held) buffer.old buffer.new)
        result outcome.new }
{
    c_registry::show_output(alloc, handle, buffer, outcome)
}

/// Tells that the first `count` bytes of the output were written: they wait no longer. It takes no memory.
///
/// Status 0: `at` bytes wait. 5: fewer than `count` wait. 31: the handle holds no session. At 5 and 31 all stays.
#[unsafe(no_mangle)]
pub extern "C" fn oncrpc_session_took(
    alloc: Global,
    handle: &mut Connection,
    count: usize,
    outcome: &mut Outcome,
) -> u32
    ensures { Reports (IsTookBy (option_map session_of handle.old.held) count
        (option_map session_of handle.new.held)) result outcome.new }
{
    c_registry::take_written(alloc, handle, count, outcome)
}

/// Frees the session that the handle holds, if any, with the output that waits. The handle then holds none, so that a
/// second call does nothing.
#[unsafe(no_mangle)]
pub extern "C" fn oncrpc_session_free(alloc: Global, handle: &mut Connection)
    ensures { handle.new.held ≡ None }
{
    c_registry::free_session(alloc, handle);
}

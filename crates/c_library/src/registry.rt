//! A registry that a program of C keeps (RFC 1833).
ghost use Rattle.std.specs.Prelude.{◌≡◌, None, option_map};
ghost use Rattle.c_registry.specs.Callers.{caller_of, IsAnsweredFromBy};
ghost use Rattle.c_registry.specs.Held.{held_of};
ghost use Rattle.c_registry.specs.Listed.{buffers, IsListedBy, ReportsRows};
ghost use Rattle.c_registry.specs.Rows.{IsStarted, IsSetBy, IsUnsetBy};
ghost use Rattle.c_registry.specs.Statuses.{Reports};
ghost use Rattle.c_registry.specs.Answered.{IsAnsweredBy, IsTakenBy};
ghost use Rattle.registry_rows.specs.Rows.{row_of};

use c_answers::Outcome;
use c_registry::{CallerParts, Registry, RowCounts, RowParts};
use std::alloc::Global;

/// Starts a registry in the handle, whose rows are its own (RFC 1833 sections 2 and 3): program 100000 in versions 2, 3
/// and 4, each over `tcp` and then over `udp`. They are at every host and this port, and owned by `superuser`. What the
/// handle held before is freed. Rows are hashed behind the seed, which the peers should not know.
///
/// Status 0: the handle holds the registry. 6: memory was refused, and the handle holds none.
#[unsafe(no_mangle)]
pub extern "C" fn oncrpc_registry_start(
    alloc: Global,
    handle: &mut Registry,
    port: u16,
    seed: &[u8],
    outcome: &mut Outcome,
) -> u32
    ensures { Reports (IsStarted port (option_map held_of handle.new.held)) result outcome.new }
{
    c_registry::start_registry(alloc, handle, port, seed, outcome)
}

/// Answers a record that came over the transport with this netid, `tcp` or `udp`, and puts the reply into the buffer
/// (RFC 5531 section 9, RFC 1833 sections 2 and 3). The record stands without the headers of its fragments. A reply
/// that still waited for a buffer is given up. Where memory is refused the reply is SYSTEM_ERR, and the rows stay.
///
/// Status 0: the `at` bytes of the reply are written, and the rest of the buffer is untouched. 8: the buffer is too
/// small, `at` bytes are needed, and the reply waits for `oncrpc_registry_reply`: the rows are changed already. 19:
/// the record is no call, and there is no reply. 20: no transport has this netid. 18: the handle holds no registry. At
/// 8 and above the buffer is untouched; at 18 and 20 the registry is too.
#[unsafe(no_mangle)]
pub extern "C" fn oncrpc_registry_answer(
    alloc: Global,
    handle: &mut Registry,
    netid: &[u8],
    message: &[u8],
    buffer: &mut [u8],
    outcome: &mut Outcome,
) -> u32
    ensures { Reports (IsAnsweredBy (option_map held_of handle.old.held) netid.now message.now
        (option_map held_of handle.new.held) buffer.old buffer.new) result outcome.new }
{
    c_registry::answer_record(alloc, handle, netid, message, buffer, outcome)
}

/// Answers a record as `oncrpc_registry_answer` does, but for these, by who sent it (this project's own, after
/// rpcbind). SET and UNSET of a caller of another host are AUTH_TOOWEAK, but where the caller is said to be trusted.
/// The owner of a row is the user whom the kernel names, and nobody of another host is `superuser`. SET of a row that
/// is there with the same address and owner is TRUE. GETADDR and GETVERSADDR tell an address at host 0.0.0.0 as the
/// same port at the host that was called, where that is known. The transport may be a Unix socket of the host too,
/// `local`.
///
/// The statuses are those of `oncrpc_registry_answer`, and 33: `peer` is above 2. Then the buffer and the registry are
/// untouched. Of 18, 20 and 33 the first is answered.
#[unsafe(no_mangle)]
pub extern "C" fn oncrpc_registry_answer_from(
    alloc: Global,
    handle: &mut Registry,
    caller: &CallerParts,
    netid: &[u8],
    message: &[u8],
    buffer: &mut [u8],
    outcome: &mut Outcome,
) -> u32
    ensures { Reports (IsAnsweredFromBy (option_map held_of handle.old.held) (caller_of caller.now) netid.now
        message.now (option_map held_of handle.new.held) buffer.old buffer.new) result outcome.new }
{
    c_registry::answer_record_from(alloc, handle, caller, netid, message, buffer, outcome)
}

/// Puts the reply that waits for a buffer into the buffer, and then it waits no longer.
///
/// Status 0: the `at` bytes of the reply are written, and the rest of the buffer is untouched. 8: the buffer is too
/// small, `at` bytes are needed, and the reply waits on. 19: no reply waits. 18: the handle holds no registry. At 8,
/// 18 and 19 the buffer is untouched. The rows stay.
#[unsafe(no_mangle)]
pub extern "C" fn oncrpc_registry_reply(
    alloc: Global,
    handle: &mut Registry,
    buffer: &mut [u8],
    outcome: &mut Outcome,
) -> u32
    ensures { Reports (IsTakenBy (option_map held_of handle.old.held) (option_map held_of handle.new.held)
        buffer.old buffer.new) result outcome.new }
{
    c_registry::take_reply(alloc, handle, buffer, outcome)
}

/// Adds a row at the end, as RPCBPROC_SET does (RFC 1833 section 2.2.1).
///
/// Status 0: it is added. 21: it is not, for one of these reasons. The netid or the address is empty, the netid has
/// more than 64 bytes, the address more than 256, or the owner more than 10. There is a row of this program, version
/// and netid, or there are 1024 rows. 6: memory was refused. 18: the handle holds no registry. At all but 0 the rows
/// stay, and at each a reply that waits stays.
#[unsafe(no_mangle)]
pub extern "C" fn oncrpc_registry_set(
    alloc: Global,
    handle: &mut Registry,
    program: u32,
    version: u32,
    netid: &[u8],
    address: &[u8],
    owner: &[u8],
    outcome: &mut Outcome,
) -> u32
    ensures { Reports (IsSetBy (option_map held_of handle.old.held)
        (row_of program version netid.now address.now owner.now) (option_map held_of handle.new.held))
        result outcome.new }
{
    c_registry::set_row(
        alloc, handle, program, version, netid, address, owner, outcome,
    )
}

/// Removes the row of a program, a version and a netid, or with an empty netid every row of the program and version, as
/// RPCBPROC_UNSET does (RFC 1833 section 2.2.1). A row goes only where its owner is `owner`, or `owner` is `superuser`.
///
/// Status 0: at least one was removed; the rest keep their order. 21: there is none to remove, and the rows stay. 18:
/// the handle holds no registry. A reply that waits stays. It takes no memory.
#[unsafe(no_mangle)]
pub extern "C" fn oncrpc_registry_unset(
    alloc: Global,
    handle: &mut Registry,
    program: u32,
    version: u32,
    netid: &[u8],
    owner: &[u8],
    outcome: &mut Outcome,
) -> u32
    ensures { Reports (IsUnsetBy (option_map held_of handle.old.held) program version netid.now owner.now
        (option_map held_of handle.new.held)) result outcome.new }
{
    c_registry::unset_rows(alloc, handle, program, version, netid, owner, outcome)
}

/// Puts the rows of the registry, in their order, into the buffers (RFC 1833 section 2.1): each with the places of its
/// texts, which stand in `bytes`, one directly behind the other.
///
/// Status 0: `rows` rows and `bytes` bytes are written, and the rest of the buffers is untouched. 8: a buffer is too
/// small; buffer for `rows` rows and `bytes` bytes is needed. 6: memory was refused. 18: the handle holds no registry.
/// At 6 and 18 both counts are 0, and at all but 0 both buffers are untouched.
#[unsafe(no_mangle)]
pub extern "C" fn oncrpc_registry_rows(
    alloc: Global,
    handle: &mut Registry,
    rows: &mut [RowParts],
    bytes: &mut [u8],
    outcome: &mut RowCounts,
) -> u32
    // What the handle holds stays.
    ensures stay { handle.new.held ≡ handle.old.held }
    // The status and the counts are those of an answer that is right by it.
    ensures answer { ReportsRows (IsListedBy (option_map held_of handle.old.held) (buffers rows.old bytes.old)
        (buffers rows.new bytes.new)) result outcome.new }
{
    c_registry::list_rows(alloc, handle, rows, bytes, outcome)
}

/// Frees the registry that the handle holds, if any. It then holds none, so that a second call does nothing.
#[unsafe(no_mangle)]
pub extern "C" fn oncrpc_registry_free(alloc: Global, handle: &mut Registry)
    ensures { handle.new.held ≡ None }
{
    c_registry::free_registry(alloc, handle);
}

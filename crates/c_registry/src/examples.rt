//! What the exports' contracts make certain for chosen inputs, each proved from the contracts alone.
ghost use Rattle.std.specs.Prelude.{◌≡◌, ◌<◌, ◌≤◌, ◌⊎◌, [], ◌∷◌, length, take, codes, Some, None, option_map};
ghost use Rattle.rpc_message.specs.Heads.{accepted};
ghost use Rattle.rpc_message.specs.Message.{Denied, RpcMismatch, SystemErr};
ghost use Rattle.rpc_message.specs.Spelling.{reply};
ghost use Rattle.registry_rows.specs.Ports.{own_rows};
ghost use Rattle.c_registry.specs.Held.{held_of};
ghost use Rattle.c_registry.specs.Own.{first_own_row};
ghost use Rattle.c_answers.specs.Outcomes.{only_at};

use super::address::{read_address, write_address};
use super::answering::answer_record;
use super::handle::Registry;
use super::listed::RowCounts;
use super::listing::list_rows;
use super::reply::take_reply;
use super::row::RowParts;
use super::rows::{set_row, unset_rows};
use super::start::{free_registry, start_registry};
use c_answers::Outcome;
use rpc_message::five_cases;
use std::alloc::Global;

/// A registry that was started holds its own rows, whatever the seed is and whatever the handle held.
pub fn holds_its_own_rows(
    alloc: Global,
    handle: &mut Registry,
    seed: &[u8],
    outcome: &mut Outcome,
) -> u32
    ensures held { result ≡ 0
        → option_map held_of handle.new.held ≡ Some (record { rows = own_rows 111; waits = None }) }
    ensures outcome { outcome.new ≡ only_at 0 }
{
    start_registry(alloc, handle, 111, seed, outcome)
}

/// Where memory was refused nothing is held.
pub fn holds_nothing_without_memory(
    alloc: Global,
    handle: &mut Registry,
    seed: &[u8],
    outcome: &mut Outcome,
) -> u32
    ensures { result ≡ 6 → option_map held_of handle.new.held ≡ None }
{
    start_registry(alloc, handle, 111, seed, outcome)
}

/// After `free` nothing is answered.
pub fn answers_nothing_after_free(
    alloc: Global,
    handle: &mut Registry,
    message: &[u8],
    buffer: &mut [u8],
    outcome: &mut Outcome,
) -> u32
    ensures status { result ≡ 18 }
    ensures outcome { outcome.new ≡ only_at 0 }
    ensures buffer { buffer.new ≡ buffer.old }
{
    free_registry(alloc, handle);
    answer_record(alloc, handle, b"tcp", message, buffer, outcome)
}

/// To free twice is well.
pub fn is_freed_twice(alloc: Global, handle: &mut Registry)
    ensures { handle.new.held ≡ None }
{
    free_registry(alloc, handle);
    free_registry(alloc, handle);
}

/// Over another transport nothing is answered, and the rows stay.
pub fn knows_no_third_transport(
    alloc: Global,
    handle: &mut Registry,
    message: &[u8],
    buffer: &mut [u8],
    outcome: &mut Outcome,
) -> (u32, u32)
    ensures { result.0 ≡ 0 → (result.1 ≡ 20) × (buffer.new ≡ buffer.old)
        × (option_map held_of handle.new.held ≡ Some (record { rows = own_rows 111; waits = None })) }
{
    let started = start_registry(alloc, handle, 111, b"", outcome);
    let answered = answer_record(alloc, handle, b"tcp6", message, buffer, outcome);
    (started, answered)
}

/// No bytes are no call: the answer is silence, and the rows stay.
pub fn is_silent_to_no_call(
    alloc: Global,
    handle: &mut Registry,
    buffer: &mut [u8],
    outcome: &mut Outcome,
) -> (u32, u32)
    ensures { result.0 ≡ 0 → (result.1 ≡ 19) × (buffer.new ≡ buffer.old)
        × (option_map held_of handle.new.held ≡ Some (record { rows = own_rows 111; waits = None })) }
{
    five_cases();
    let started = start_registry(alloc, handle, 111, b"", outcome);
    let answered = answer_record(alloc, handle, b"udp", b"", buffer, outcome);
    (started, answered)
}

/// A call of version 3 of RPC, with xid 2, is reported that version 2 alone is spoken, or that memory was refused.
pub fn speaks_version_two_alone(
    alloc: Global,
    handle: &mut Registry,
    message: &[u8],
    buffer: &mut [u8],
    outcome: &mut Outcome,
) -> (u32, u32)
    requires call { message.now ≡ 0 ∷ 0 ∷ 0 ∷ 2 ∷ 0 ∷ 0 ∷ 0 ∷ 0 ∷ 0 ∷ 0 ∷ 0 ∷ 3 ∷ [] }
    requires buffer { 24 ≤ length buffer.old }
    ensures { let front = take 24 buffer.new in
        result.0 ≡ 0 → (result.1 ≡ 0) × (outcome.new ≡ only_at 24)
        × ((front ≡ reply (Denied 2 (RpcMismatch 2 2))) ⊎ (front ≡ reply (accepted 2 SystemErr))) }
{
    five_cases();
    let started = start_registry(alloc, handle, 111, b"", outcome);
    let answered = answer_record(alloc, handle, b"tcp", message, buffer, outcome);
    (started, answered)
}

/// A buffer that is too small stays as it was, and what is reported is how much is needed.
pub fn reports_the_buffer_that_is_needed(
    alloc: Global,
    handle: &mut Registry,
    message: &[u8],
    buffer: &mut [u8],
    outcome: &mut Outcome,
) -> u32
    ensures { result ≡ 8 → (buffer.new ≡ buffer.old) × (length buffer.old < outcome.new.at) }
{
    answer_record(alloc, handle, b"tcp", message, buffer, outcome)
}

/// A reply that did not go into the buffer is not lost: it goes into one that is large enough.
pub fn keeps_the_reply(
    alloc: Global,
    handle: &mut Registry,
    message: &[u8],
    buffer: &mut [u8],
    more: &mut [u8],
    outcome: &mut Outcome,
) -> (u32, usize, u32)
    ensures { result.0 ≡ 8 → result.1 ≤ length more.old → (result.2 ≡ 0) × (outcome.new ≡ only_at result.1) }
{
    let answered = answer_record(alloc, handle, b"tcp", message, buffer, outcome);
    let needed = outcome.at;
    let taken = take_reply(alloc, handle, more, outcome);
    (answered, needed, taken)
}

/// A reply is given once.
pub fn gives_a_reply_once(
    alloc: Global,
    handle: &mut Registry,
    buffer: &mut [u8],
    outcome: &mut Outcome,
) -> (u32, u32)
    ensures { result.0 ≡ 0 → result.1 ≡ 19 }
{
    let first = take_reply(alloc, handle, buffer, outcome);
    let second = take_reply(alloc, handle, buffer, outcome);
    (first, second)
}

/// What was set is removed by its owner.
pub fn removes_what_it_set(
    alloc: Global,
    handle: &mut Registry,
    netid: &[u8],
    address: &[u8],
    owner: &[u8],
    outcome: &mut Outcome,
) -> (u32, u32)
    ensures { result.0 ≡ 0 → result.1 ≡ 0 }
{
    let set = set_row(alloc, handle, 300, 7, netid, address, owner, outcome);
    let unset = unset_rows(alloc, handle, 300, 7, netid, owner, outcome);
    (set, unset)
}

/// The registry's own rows are not removed by another owner, and stay.
pub fn keeps_its_own_rows(alloc: Global, handle: &mut Registry, outcome: &mut Outcome) -> (u32, u32)
    ensures { result.0 ≡ 0 → (result.1 ≡ 21)
        × (option_map held_of handle.new.held ≡ Some (record { rows = own_rows 111; waits = None })) }
{
    let started = start_registry(alloc, handle, 111, b"", outcome);
    let unset = unset_rows(alloc, handle, 100000, 2, b"tcp", b"1000", outcome);
    (started, unset)
}

/// An owner of 11 bytes sets no row.
pub fn sets_no_long_owner(
    alloc: Global,
    handle: &mut Registry,
    address: &[u8],
    owner: &[u8],
    outcome: &mut Outcome,
) -> u32
    requires { 10 < length owner.now }
    ensures status { result ≡ 0 → ⊥ }
    ensures stays { option_map held_of handle.new.held ≡ option_map held_of handle.old.held }
{
    set_row(alloc, handle, 300, 7, b"tcp", address, owner, outcome)
}

/// The rows of a registry that was started are listed: six, whose texts have 150 bytes. Those of the first, `tcp`,
/// `0.0.0.0.0.111` and `superuser`, stand in front.
pub fn lists_its_own_rows(
    alloc: Global,
    handle: &mut Registry,
    rows: &mut [RowParts],
    bytes: &mut [u8],
    outcome: &mut Outcome,
    counts: &mut RowCounts,
) -> (u32, u32)
    ensures counts { result.0 ≡ 0 → result.1 ≡ 0 → counts.new ≡ record { rows = 6; bytes = 150 } }
    ensures first { result.0 ≡ 0 → result.1 ≡ 0 → take 1 rows.new ≡ first_own_row ∷ [] }
{
    let started = start_registry(alloc, handle, 111, b"", outcome);
    let listed = list_rows(alloc, handle, rows, bytes, counts);
    (started, listed)
}

/// After `free` there are no rows to list, and nothing is written.
pub fn lists_nothing_after_free(
    alloc: Global,
    handle: &mut Registry,
    rows: &mut [RowParts],
    bytes: &mut [u8],
    counts: &mut RowCounts,
) -> u32
    ensures status { result ≡ 18 }
    ensures counts { counts.new ≡ record { rows = 0; bytes = 0 } }
    ensures buffers { (rows.new ≡ rows.old) × (bytes.new ≡ bytes.old) }
{
    free_registry(alloc, handle);
    list_rows(alloc, handle, rows, bytes, counts)
}

/// Buffers that are too small stay as they were, and what is reported is how much is needed.
pub fn reports_the_buffers_that_are_needed(
    alloc: Global,
    handle: &mut Registry,
    rows: &mut [RowParts],
    bytes: &mut [u8],
    counts: &mut RowCounts,
) -> u32
    ensures { result ≡ 8 → (rows.new ≡ rows.old) × (bytes.new ≡ bytes.old)
        × ((length rows.old < counts.new.rows) ⊎ (length bytes.old < counts.new.bytes)) }
{
    list_rows(alloc, handle, rows, bytes, counts)
}

/// `192.0.2.17.8.1` is port 2049 of 192.0.2.17 (RFC 5665 section 5.2.3.3).
pub fn reads_an_address(text: &[u8], host: &mut [u8; 4], port: &mut u16) -> u32
    requires { text.now ≡ codes "192.0.2.17.8.1" }
    ensures { (result ≡ 0) × (host.new ≡ 192 ∷ 0 ∷ 2 ∷ 17 ∷ []) × (port.new ≡ 2049) }
{
    read_address(text, host, port)
}

/// A number with a leading zero is none, and what is reported is 0.
pub fn reads_no_leading_zero(text: &[u8], host: &mut [u8; 4], port: &mut u16) -> u32
    requires { text.now ≡ codes "192.0.2.17.08.1" }
    ensures { (result ≡ 25) × (host.new ≡ 0 ∷ 0 ∷ 0 ∷ 0 ∷ []) × (port.new ≡ 0) }
{
    read_address(text, host, port)
}

/// Port 2049 of 192.0.2.17 is written as that text.
pub fn writes_an_address(alloc: Global, host: &[u8; 4], buffer: &mut [u8], count: &mut usize) -> u32
    requires { host.now ≡ 192 ∷ 0 ∷ 2 ∷ 17 ∷ [] }
    ensures { result ≡ 0 → (count.new ≡ 14) × (take 14 buffer.new ≡ codes "192.0.2.17.8.1") }
{
    write_address(alloc, host, 2049, buffer, count)
}

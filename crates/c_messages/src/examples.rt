//! What the exports' contracts make certain for chosen inputs, each proved from the contracts alone.
ghost use Rattle.std.specs.Prelude.{◌≡◌, ◌<◌, ◌≤◌, ◌⊎◌, [], ◌∷◌, length};
ghost use Rattle.c_messages.specs.Parts.{part, none};
ghost use Rattle.c_messages.specs.Calls.{front, whole, call_of};
ghost use Rattle.c_messages.specs.Credentials.{auth_sys_of, reported_of};

use super::calls::{CallParts, read_call_parts, write_call_parts};
use super::credentials::{AuthSysParts, read_auth_sys_parts, write_auth_sys_parts};
use super::replies::{ReplyParts, read_reply_parts, write_reply_parts};
use std::alloc::Global;

/// A call of version 3 of RPC is reported with its xid and its version.
pub fn reports_version_three(input: &[u8], call: &mut CallParts) -> u32
    requires { input.now ≡ 0 ∷ 0 ∷ 0 ∷ 2 ∷ 0 ∷ 0 ∷ 0 ∷ 0 ∷ 0 ∷ 0 ∷ 0 ∷ 3 ∷ [] }
    ensures status { result ≡ 10 }
    ensures reported { call.new ≡ front 2 3 }
{
    read_call_parts(input, call)
}

/// A call that was written is read as what was asked for, with the same numbers and with parts of the same lengths.
pub fn reads_the_call_that_was_written(
    alloc: Global,
    call: &mut CallParts,
    credential: &[u8],
    verifier: &[u8],
    arguments: &[u8],
    buffer: &mut [u8],
) -> (u32, u32)
    ensures { result.0 ≡ 0
        → (result.1 ≡ 0) × (call.new ≡ whole (call_of call.old credential.now verifier.now arguments.now)) }
{
    let mut count = 0;
    let written = write_call_parts(
        alloc, call, credential, verifier, arguments, buffer, &mut count,
    );
    if written != 0 {
        return (written, 0);
    }
    (written, read_call_parts(&buffer[..count], call))
}

/// A buffer that is too small stays as it was, and what is reported is how much is needed.
pub fn reports_the_buffer_that_is_needed(
    alloc: Global,
    call: &CallParts,
    buffer: &mut [u8],
    count: &mut usize,
) -> u32
    ensures { result ≡ 8 → (buffer.new ≡ buffer.old) × (length buffer.old < count.new) }
{
    write_call_parts(alloc, call, b"", b"", b"", buffer, count)
}

/// A credential of 401 bytes is not written.
pub fn writes_no_long_credential(
    alloc: Global,
    call: &CallParts,
    credential: &[u8],
    buffer: &mut [u8],
    count: &mut usize,
) -> u32
    requires { 400 < length credential.now }
    ensures status { (result ≡ 11) ⊎ (result ≡ 6) }
    ensures retained { buffer.new ≡ buffer.old }
{
    write_call_parts(alloc, call, credential, b"", b"", buffer, count)
}

/// The reply of a port mapper to GETPORT, port 2049, has four bytes of results behind the first 24.
pub fn reports_where_the_port_lies(alloc: Global, input: &[u8], reply: &mut ReplyParts) -> u32
    requires { input.now ≡ 0 ∷ 0 ∷ 0 ∷ 7 ∷ 0 ∷ 0 ∷ 0 ∷ 1 ∷ 0 ∷ 0 ∷ 0 ∷ 0 ∷ 0 ∷ 0 ∷ 0 ∷ 0 ∷ 0 ∷ 0 ∷ 0 ∷ 0 ∷
        0 ∷ 0 ∷ 0 ∷ 0 ∷ 0 ∷ 0 ∷ 8 ∷ 1 ∷ [] }
    ensures status { (result ≡ 0) ⊎ (result ≡ 6) }
    ensures reported { result ≡ 0 → (reply.new.xid ≡ 7) × (reply.new.state ≡ 0)
        × (reply.new.results ≡ record { at = 24; count = 4 }) }
{
    read_reply_parts(alloc, input, reply)
}

/// There is no reply of state 8.
pub fn writes_no_state_eight(
    alloc: Global,
    reply: &ReplyParts,
    buffer: &mut [u8],
    count: &mut usize,
) -> u32
    requires { reply.now.state ≡ 8 }
    ensures { result ≡ 0 → ⊥ }
{
    write_reply_parts(alloc, reply, b"", b"", buffer, count)
}

/// Of more than 16 gids none is written.
pub fn writes_no_long_list_of_gids(
    alloc: Global,
    auth: &AuthSysParts,
    machine: &[u8],
    buffer: &mut [u8],
    count: &mut usize,
) -> u32
    requires { 16 < auth.now.gid_count }
    ensures status { (result ≡ 17) ⊎ (result ≡ 6) }
    ensures retained { (buffer.new ≡ buffer.old) × (count.new ≡ 0) }
{
    write_auth_sys_parts(alloc, auth, machine, buffer, count)
}

/// A body of AUTH_SYS that was written is read as what was asked for, unless memory was refused.
pub fn reads_the_body_that_was_written(
    alloc: Global,
    auth: &mut AuthSysParts,
    machine: &[u8],
    buffer: &mut [u8],
) -> (u32, u32)
    ensures { result.0 ≡ 0
        → (result.1 ≡ 6) ⊎ ((result.1 ≡ 0) × (auth.new ≡ reported_of (auth_sys_of auth.old machine.now))) }
{
    let mut count = 0;
    let written = write_auth_sys_parts(alloc, auth, machine, buffer, &mut count);
    if written != 0 {
        return (written, 0);
    }
    (written, read_auth_sys_parts(alloc, &buffer[..count], auth))
}

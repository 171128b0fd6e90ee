//! AUTH_SYS bodies: what bytes are read as which body, and what is written (RFC 5531 appendix A).
ghost use Rattle.std.specs.Prelude.{◌≡◌, ◌≢◌, ◌≤◌, [], ◌∷◌, Some, length, option_map};
ghost use Rattle.std.specs.Prelude.{IfOk, IfSome};
ghost use Rattle.rpc_message.specs.View.{auth_sys_view};

use rpc_message::{AuthSys, NoMemory, auth_sys_bytes_are_exact, read_auth_sys, write_auth_sys};
use std::alloc::Global;

/// The body of user 1000 in group 100 on the machine `box` has these 28 bytes (RFC 5531 appendix A).
pub fn writes_the_user(alloc: Global) -> Result<Vec<u8>, NoMemory>
    ensures { IfOk result (λ v. v.items ≡
        0 ∷ 0 ∷ 0 ∷ 0 ∷ 0 ∷ 0 ∷ 0 ∷ 3 ∷ 98 ∷ 111 ∷ 120 ∷ 0 ∷ 0 ∷ 0 ∷ 3 ∷ 232 ∷
        0 ∷ 0 ∷ 0 ∷ 100 ∷ 0 ∷ 0 ∷ 0 ∷ 1 ∷ 0 ∷ 0 ∷ 0 ∷ 100 ∷ []) }
{
    let body = AuthSys {
        stamp: 0,
        machine: Vec::from_slice(alloc, b"box")?,
        uid: 1000,
        gid: 100,
        gids: Vec::from_slice(alloc, &[100])?,
    };
    write_auth_sys(alloc, &body)
}

/// A body that was written is read as it.
pub fn reads_the_body_again(alloc: Global, body: &AuthSys) -> Result<Option<AuthSys>, NoMemory>
    requires machine { length body.now.machine.items ≤ 255 }
    requires gids { length body.now.gids.items ≤ 16 }
    ensures { IfOk result (λ read. option_map auth_sys_view read ≡ Some (auth_sys_view body.now)) }
{
    let bytes = write_auth_sys(alloc, body)?;
    read_auth_sys(alloc, &bytes)
}

/// A body that was read is written to the bytes that it was read from.
pub fn writes_the_body_again(alloc: Global, bytes: &[u8]) -> Result<Option<Vec<u8>>, NoMemory>
    ensures { IfOk result (λ o. IfSome o (λ v. v.items ≡ bytes.now)) }
{
    match read_auth_sys(alloc, bytes)? {
        Some(body) => Ok(Some(write_auth_sys(alloc, &body)?)),
        None => Ok(None),
    }
}

/// A body has at most 16 gids; bytes with 17 are none (RFC 5531 appendix A).
pub fn count_of_gids(alloc: Global, bytes: &[u8]) -> Result<usize, NoMemory>
    ensures { IfOk result (λ n. n ≤ 16) }
{
    match read_auth_sys(alloc, bytes)? {
        Some(body) => Ok(body.gids.len()),
        None => Ok(0),
    }
}

/// Two bodies that differ are written to bytes that differ.
pub fn tells_two_bodies_apart(
    alloc: Global,
    first: &AuthSys,
    second: &AuthSys,
) -> Result<(Vec<u8>, Vec<u8>), NoMemory>
    requires first_machine { length first.now.machine.items ≤ 255 }
    requires first_gids { length first.now.gids.items ≤ 16 }
    requires second_machine { length second.now.machine.items ≤ 255 }
    requires second_gids { length second.now.gids.items ≤ 16 }
    requires differ { auth_sys_view first.now ≢ auth_sys_view second.now }
    ensures { IfOk result (λ both. both.0.items ≢ both.1.items) }
{
    auth_sys_bytes_are_exact();
    let one = write_auth_sys(alloc, first)?;
    let other = write_auth_sys(alloc, second)?;
    Ok((one, other))
}

//! Bodies of AUTH_SYS read and written (RFC 5531 appendix A).
ghost use Rattle.std.specs.Prelude.{◌≡◌, ◌≤◌, ◌⊎◌, length, IfOk};
ghost use Rattle.rpc_message.specs.Message.{AuthSysView};
ghost use Rattle.rpc_message.specs.Spelling.{AuthSysBytes};
ghost use Rattle.rpc_message.specs.View.{auth_sys_view};
ghost use Rattle.c_messages.specs.Credentials.{Body, IsBody, body_status, body_reported, silent, reported_of};
ghost use Rattle.c_messages.specs.Credentials.{auth_sys_of, IsAuthSysWritten};
ghost use Rattle.c_messages.specs.Parts.{LiesAt};
ghost use Rattle.c_messages.specs.Statuses.{Reports};

use super::answer::Answer;
use super::buffer::place;
use super::part::Part;
use rpc_message::{AuthSys, NoMemory, read_auth_sys, write_auth_sys};
use std::alloc::Global;

/// The greatest count of gids.
const MOST_GIDS: usize = 16;

/// The greatest count of bytes of a machine name.
const MOST_MACHINE: usize = 255;

/// What C sees of a body of AUTH_SYS.
#[repr(C)]
#[derive(Clone, Copy)]
pub struct AuthSysParts {
    pub stamp: u32,
    pub uid: u32,
    pub gid: u32,
    pub gid_count: u32,
    /// The gids, of which there are `gid_count`, and zeros.
    pub gids: [u32; 16],
    pub machine: Part,
}

/// No body.
fn silent() -> AuthSysParts
    ensures { result ≡ silent }
{
    AuthSysParts {
        stamp: 0,
        uid: 0,
        gid: 0,
        gid_count: 0,
        gids: [0; 16],
        machine: Part::none(),
    }
}

/// All parts of a body.
fn reported(auth: &AuthSys) -> AuthSysParts
    requires { length auth.now.gids.items ≤ 16 }
    ensures { result ≡ reported_of (auth_sys_view auth.now) }
{
    let mut gids = [0; 16];
    gids[..auth.gids.len()].copy_from_slice(&auth.gids);
    AuthSysParts {
        stamp: auth.stamp,
        uid: auth.uid,
        gid: auth.gid,
        gid_count: auth.gids.len() as u32,
        gids,
        machine: Part {
            at: 8,
            count: auth.machine.len(),
        },
    }
}

/// Reads the body of a credential of the flavor AUTH_SYS, as `oncrpc_auth_sys_read` says.
pub fn read_auth_sys_parts(alloc: Global, input: &[u8], auth: &mut AuthSysParts) -> u32
    // What is reported is what the bytes are,
    ensures found { (b : Body) × IsBody input.now b × (result ≡ body_status b) × (auth.new ≡ body_reported b) }
    // and a body that they are is reported, unless memory was refused.
    ensures only { (a : AuthSysView) → AuthSysBytes a input.now
        → (result ≡ 6) ⊎ ((result ≡ 0) × (auth.new ≡ reported_of a)) }
    // Its machine name lies where it is told to be.
    ensures machine { (a : AuthSysView) → AuthSysBytes a input.now → result ≡ 0
        → LiesAt input.now auth.new.machine a.machine }
{
    match read_auth_sys(alloc, input) {
        Ok(Some(body)) => {
            *auth = reported(&body);
            0
        }
        Ok(None) => {
            *auth = silent();
            17
        }
        Err(_) => {
            *auth = silent();
            6
        }
    }
}

/// The body that C asks for.
fn auth_sys_asked(alloc: Global, auth: &AuthSysParts, machine: &[u8]) -> Result<AuthSys, NoMemory>
    requires { auth.now.gid_count ≤ 16 }
    ensures { IfOk result (λ a. auth_sys_view a ≡ auth_sys_of auth.now machine.now) }
{
    let gids = &auth.gids[..auth.gid_count as usize];
    Ok(AuthSys {
        stamp: auth.stamp,
        machine: Vec::from_slice(alloc, machine)?,
        uid: auth.uid,
        gid: auth.gid,
        gids: Vec::from_slice(alloc, gids)?,
    })
}

/// The bytes of the body that C asks for.
fn auth_sys_bytes(alloc: Global, auth: &AuthSysParts, machine: &[u8]) -> Result<Vec<u8>, NoMemory>
    requires gids { auth.now.gid_count ≤ 16 }
    requires machine { length machine.now ≤ 255 }
    ensures { IfOk result (λ v. AuthSysBytes (auth_sys_of auth.now machine.now) v.items) }
{
    let asked = auth_sys_asked(alloc, auth, machine)?;
    write_auth_sys(alloc, &asked)
}

fn auth_sys_into(
    alloc: Global,
    auth: &AuthSysParts,
    machine: &[u8],
    buffer: &mut [u8],
    count: &mut usize,
) -> Answer
    ensures { IsAuthSysWritten auth.now machine.now buffer.old buffer.new count.new result }
{
    *count = 0;
    if MOST_GIDS < auth.gid_count as usize || MOST_MACHINE < machine.len() {
        return Answer::NoAuthSys;
    }
    match auth_sys_bytes(alloc, auth, machine) {
        Ok(bytes) => place(&bytes, buffer, count),
        Err(_) => Answer::NoMemory,
    }
}

/// Writes the body of a credential of the flavor AUTH_SYS into the buffer, as `oncrpc_auth_sys_write` says.
pub fn write_auth_sys_parts(
    alloc: Global,
    auth: &AuthSysParts,
    machine: &[u8],
    buffer: &mut [u8],
    count: &mut usize,
) -> u32
    ensures { Reports (IsAuthSysWritten auth.now machine.now buffer.old buffer.new count.new) result }
{
    auth_sys_into(alloc, auth, machine, buffer, count).status()
}

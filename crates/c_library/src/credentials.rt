//! Bodies of the credential AUTH_SYS (RFC 5531 appendix A).
ghost use Rattle.std.specs.Prelude.{◌≡◌, ◌⊎◌};
ghost use Rattle.rpc_message.specs.Message.{AuthSysView};
ghost use Rattle.rpc_message.specs.Spelling.{AuthSysBytes};
ghost use Rattle.c_messages.specs.Credentials.{Body, IsBody, body_status, body_reported, reported_of, IsAuthSysWritten};
ghost use Rattle.c_messages.specs.Parts.{LiesAt};
ghost use Rattle.c_messages.specs.Statuses.{Reports};

use c_messages::AuthSysParts;
use std::alloc::Global;

/// Reads the body of a credential of the flavor AUTH_SYS, and tells its numbers and where its machine name lies
/// (RFC 5531 appendix A).
///
/// Status 0: the bytes are such a body, all of them; all fields are filled. 17: they are none. 6: memory was refused.
/// At 6 and 17 each field is 0.
#[unsafe(no_mangle)]
pub extern "C" fn oncrpc_auth_sys_read(alloc: Global, input: &[u8], auth: &mut AuthSysParts) -> u32
    // What is reported is what the bytes are,
    ensures found { (b : Body) × IsBody input.now b × (result ≡ body_status b) × (auth.new ≡ body_reported b) }
    // and a body that they are is reported, unless memory was refused.
    ensures only { (a : AuthSysView) → AuthSysBytes a input.now
        → (result ≡ 6) ⊎ ((result ≡ 0) × (auth.new ≡ reported_of a)) }
    // Its machine name lies where it is told to be.
    ensures machine { (a : AuthSysView) → AuthSysBytes a input.now → result ≡ 0
        → LiesAt input.now auth.new.machine a.machine }
{
    c_messages::read_auth_sys_parts(alloc, input, auth)
}

/// Writes the body of a credential of the flavor AUTH_SYS into the buffer: the numbers of `auth` and its first
/// `gid_count` gids, with these bytes as its machine name (RFC 5531 appendix A).
///
/// Status 0: `count` bytes are written, and the rest of the buffer is untouched. 8: the buffer is too small, `count`
/// bytes are needed. 17: there are more than 16 gids or 255 bytes of machine name. 6: memory was refused. At 6, 8 and
/// 17 the buffer is untouched, and at 6 and 17 `count` is 0.
#[unsafe(no_mangle)]
pub extern "C" fn oncrpc_auth_sys_write(
    alloc: Global,
    auth: &AuthSysParts,
    machine: &[u8],
    buffer: &mut [u8],
    count: &mut usize,
) -> u32
    ensures { Reports (IsAuthSysWritten auth.now machine.now buffer.old buffer.new count.new) result }
{
    c_messages::write_auth_sys_parts(alloc, auth, machine, buffer, count)
}

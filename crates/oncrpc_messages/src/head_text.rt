//! The types by which messages are judged, read out of RFC 5531's text.
ghost use Rattle.std.specs.Prelude.{◌≡◌, ◌++◌, IfOk, OnOk};
ghost use Rattle.oncrpc_messages.specs.Heads.{AreHeads, auth_line, calls_text, enums_text, groups_line, head_text};
ghost use Rattle.oncrpc_messages.specs.Heads.{accepted_line, body_line, call_line, message_line};
ghost use Rattle.oncrpc_messages.specs.Heads.{bodies_text, ends_text, firsts_text, names_line, procedure_line};
ghost use Rattle.oncrpc_messages.specs.Heads.{replies_text, reply_line};

use crate::heads::Heads;
use std::alloc::{AllocError, Global};
use xdr_lang::read;
use xdr_types::NoMemory;

/// Reads the types of messages (RFC 5531 sections 8.2 and 9, appendix A). The error is an allocation failure: the text
/// is read, which no clause says.
pub fn read_heads(alloc: Global) -> Result<Heads, NoMemory>
    ensures { IfOk result (λ h. AreHeads h) }
{
    let text = head_text(alloc)?;
    let Ok(declared) = read(alloc, &text) else {
        return Err(NoMemory);
    };
    match (declared.kind("rpc_msg"), declared.kind("authsys_parms")) {
        (Some(message), Some(auth_sys))
            if declared.schema.has(message) && declared.schema.has(auth_sys) => {
            Ok(Heads {
                declared,
                message,
                auth_sys,
            })
        }
        _ => Err(NoMemory),
    }
}

fn head_text(alloc: Global) -> Result<Vec<u8>, AllocError>
    ensures { IfOk result (λ text. text.items ≡ head_text) }
{
    let mut text = Vec::new(alloc);
    push_firsts(&mut text)?;
    push_bodies(&mut text)?;
    push_ends(&mut text)?;
    Ok(text)
}

fn push_firsts(text: &mut Vec<u8>) -> Result<(), AllocError>
    ensures { OnOk result (text.new.items ≡ text.old.items ++ firsts_text) }
{
    push_enums(text)?;
    push_calls(text)?;
    push_replies(text)?;
    Ok(())
}

fn push_enums(text: &mut Vec<u8>) -> Result<(), AllocError>
    ensures { OnOk result (text.new.items ≡ text.old.items ++ enums_text) }
{
    text.extend_from_slice(b"enum rpc_version { RPC_VERSION = 2 };\n")?;
    text.extend_from_slice(b"enum msg_type { CALL = 0, REPLY = 1 };\n")?;
    text.extend_from_slice(b"enum reply_stat { MSG_ACCEPTED = 0, MSG_DENIED = 1 };\n")?;
    text.extend_from_slice(
        b"enum accept_stat { SUCCESS = 0, PROG_UNAVAIL = 1, PROG_MISMATCH = 2, PROC_UNAVAIL = 3,\n",
    )?;
    text.extend_from_slice(b"    GARBAGE_ARGS = 4, SYSTEM_ERR = 5 };\n")?;
    text.extend_from_slice(b"enum reject_stat { RPC_MISMATCH = 0, AUTH_ERROR = 1 };\n")?;
    Ok(())
}

fn push_calls(text: &mut Vec<u8>) -> Result<(), AllocError>
    ensures { OnOk result (text.new.items ≡ text.old.items ++ calls_text) }
{
    text.extend_from_slice(auth_line())?;
    text.extend_from_slice(call_line())?;
    text.extend_from_slice(procedure_line())?;
    Ok(())
}

fn push_replies(text: &mut Vec<u8>) -> Result<(), AllocError>
    ensures { OnOk result (text.new.items ≡ text.old.items ++ replies_text) }
{
    text.extend_from_slice(b"struct mismatch { unsigned int low; unsigned int high; };\n")?;
    text.extend_from_slice(b"union reply_data switch (accept_stat stat) {\n")?;
    text.extend_from_slice(b"    case PROG_MISMATCH: mismatch mismatch_info; default: void; };\n")?;
    text.extend_from_slice(b"struct accepted_reply { opaque_auth verf; reply_data data; };\n")?;
    text.extend_from_slice(b"union rejected_reply switch (reject_stat stat) {\n")?;
    text.extend_from_slice(
        b"    case RPC_MISMATCH: mismatch mismatch_info; case AUTH_ERROR: unsigned int auth_error; };\n",
    )?;
    Ok(())
}

fn push_bodies(text: &mut Vec<u8>) -> Result<(), AllocError>
    ensures { OnOk result (text.new.items ≡ text.old.items ++ bodies_text) }
{
    text.extend_from_slice(reply_line())?;
    text.extend_from_slice(accepted_line())?;
    text.extend_from_slice(body_line())?;
    Ok(())
}

fn push_ends(text: &mut Vec<u8>) -> Result<(), AllocError>
    ensures { OnOk result (text.new.items ≡ text.old.items ++ ends_text) }
{
    text.extend_from_slice(message_line())?;
    text.extend_from_slice(names_line())?;
    text.extend_from_slice(groups_line())?;
    Ok(())
}

fn auth_line() -> &'static [u8]
    ensures { result.now ≡ auth_line }
{
    b"struct opaque_auth { unsigned int flavor; opaque body<400>; };\n"
}

fn names_line() -> &'static [u8]
    ensures { result.now ≡ names_line }
{
    b"struct authsys_parms { unsigned int stamp; string machinename<255>; unsigned int uid;\n"
}

fn groups_line() -> &'static [u8]
    ensures { result.now ≡ groups_line }
{
    b"    unsigned int gid; unsigned int gids<16>; };\n"
}

fn call_line() -> &'static [u8]
    ensures { result.now ≡ call_line }
{
    b"struct call_body { rpc_version rpcvers; unsigned int prog; unsigned int vers;\n"
}

fn procedure_line() -> &'static [u8]
    ensures { result.now ≡ procedure_line }
{
    b"    unsigned int proc; opaque_auth cred; opaque_auth verf; };\n"
}

fn reply_line() -> &'static [u8]
    ensures { result.now ≡ reply_line }
{
    b"union reply_body switch (reply_stat stat) {\n"
}

fn accepted_line() -> &'static [u8]
    ensures { result.now ≡ accepted_line }
{
    b"    case MSG_ACCEPTED: accepted_reply areply; case MSG_DENIED: rejected_reply rreply; };\n"
}

fn body_line() -> &'static [u8]
    ensures { result.now ≡ body_line }
{
    b"union rpc_body switch (msg_type mtype) { case CALL: call_body cbody; case REPLY: reply_body rbody; };\n"
}

fn message_line() -> &'static [u8]
    ensures { result.now ≡ message_line }
{
    b"struct rpc_msg { unsigned int xid; rpc_body body; };\n"
}

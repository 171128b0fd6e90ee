//! The answer to a record.
ghost use Rattle.std.specs.Prelude.{◌≡◌, OnOk, OnErr};
ghost use Rattle.std.specs.Io.{StartsWith};
ghost use Rattle.xdr_units.specs.Numbers.{IsWord};
ghost use Rattle.rpc_message.specs.View.{lent_call_view};
ghost use Rattle.registry_answer.specs.Answer.{Answer};
ghost use Rattle.registry_answer.specs.Answering.{AppendsAnswer, PushesAnswer, appended_of};
ghost use Rattle.registry_answer.specs.Callers.{IsCaller};
ghost use Rattle.registry_answer.specs.Callers.{Owner as Believed};
ghost use Rattle.registry_answer.specs.Owners.{owner_text};
ghost use Rattle.registry_answer.specs.Private.Pushes.{PushesCall};
ghost use Rattle.registry_answer.specs.Views.{netid_of, is_refused, sent_of};

use crate::accepted::{Asked, push_accepted};
use crate::callers::{Caller, caller_of};
use crate::transport::Transport;
use rpc_directory::Directory;
use rpc_message::{
    AUTH_BADCRED, AUTH_BADVERF, LentCall, LentRead, RPC_VERSION, Why, append_denial,
    cut_to_system_error, read_lent_call,
};
use std::alloc::Global;
use std::hash::BuildHasher;
use xdr_units::NoMemory;

/// What a record is answered with.
#[derive(Debug, Drop)]
pub enum Answered {
    /// Nothing: the record is no call.
    Silent,
    /// The bytes of a reply.
    Reply(Vec<u8>),
    /// Memory was refused, and the rows are as they were. It stands for the reply SYSTEM_ERR to this xid.
    OutOfMemory { xid: u32 },
}

/// What was written for a record.
#[derive(Clone, Copy, Debug, PartialEq, Eq)]
pub enum Appended {
    /// Nothing: the record is no call.
    Nothing,
    /// The bytes of a reply.
    Reply,
    /// Memory was refused; the rows and the bytes are as they were. It stands for the reply SYSTEM_ERR to this xid.
    OutOfMemory { xid: u32 },
}

/// What the registry answers to a record that came over a transport (RFC 5531 section 9, RFC 1833 sections 2.2.1 and
/// 3.2). The first of these checks that fails decides: the record is a call, of version 2 of RPC, with a credential and
/// a verifier; the credential is AUTH_NONE, or AUTH_SYS that reads. Then the program is 100000, in version 2, 3 or 4,
/// with this procedure, and the arguments begin with a value of its kind within depth 4096 and 65536 bytes. Over UDP a
/// reply of more than 65507 bytes is SYSTEM_ERR, with the rows as they were. No memory is asked for once rows have
/// changed. A record that is no call takes none.
pub fn answer<S: BuildHasher>(
    alloc: Global,
    directory: &mut Directory<S>,
    transport: Transport,
    message: &[u8],
) -> Answered
    ensures { Answer directory.old (netid_of transport) message.now (is_refused result) directory.new (sent_of result) }
{
    let mut out = Vec::new(alloc);
    match append_answer(alloc, directory, transport, message, &mut out) {
        Appended::Nothing => Answered::Silent,
        Appended::Reply => Answered::Reply(out),
        Appended::OutOfMemory { xid } => Answered::OutOfMemory { xid },
    }
}

/// Writes the reply of `answer` behind what stands in `out`. It has at most 16777240 bytes. Where nothing is sent, and
/// where memory is refused, `out` holds what it held.
pub fn append_answer<S: BuildHasher>(
    alloc: Global,
    directory: &mut Directory<S>,
    transport: Transport,
    message: &[u8],
    out: &mut Vec<u8>,
) -> Appended
    ensures { let netid = netid_of transport in
        AppendsAnswer directory.old netid message.now out.old.items directory.new out.new.items result }
{
    let before = out.len();
    match push_answer(alloc, directory, transport, message, out) {
        Appended::Nothing => Appended::Nothing,
        Appended::Reply => Appended::Reply,
        Appended::OutOfMemory { xid } => {
            out.truncate(before);
            Appended::OutOfMemory { xid }
        }
    }
}

/// The same, but where memory is refused some of a reply may stand behind what stood in `out`.
#[tactic(auto, using(crate::proofs::Chains::begins_then, crate::proofs::Chains::begins_added))]
fn push_answer<S: BuildHasher>(
    alloc: Global,
    directory: &mut Directory<S>,
    transport: Transport,
    message: &[u8],
    out: &mut Vec<u8>,
) -> Appended
    ensures answer { let netid = netid_of transport in
        PushesAnswer directory.old netid message.now out.old.items directory.new out.new.items result }
    ensures begins { StartsWith out.new.items out.old.items }
{
    match read_lent_call(message) {
        LentRead::NotACall => Appended::Nothing,
        LentRead::OtherVersion {
            xid,
            version: _version,
        } => {
            let why = Why::RpcMismatch {
                low: RPC_VERSION,
                high: RPC_VERSION,
            };
            written(xid, append_denial(out, xid, why))
        }
        LentRead::BadCred { xid } => {
            written(xid, append_denial(out, xid, Why::AuthError(AUTH_BADCRED)))
        }
        LentRead::BadVerf { xid } => {
            written(xid, append_denial(out, xid, Why::AuthError(AUTH_BADVERF)))
        }
        LentRead::Whole(call) => {
            let added = push_call(alloc, directory, transport, &call, out);
            written(call.xid, added)
        }
    }
}

/// What was written, where memory may have been refused.
fn written(xid: u32, added: Result<(), NoMemory>) -> Appended
    ensures { result ≡ appended_of xid added }
{
    match added {
        Ok(()) => Appended::Reply,
        Err(_) => Appended::OutOfMemory { xid },
    }
}

/// Writes the reply to a whole call.
#[tactic(auto, using(crate::proofs::Chains::begins_then, crate::proofs::Chains::begins_added))]
fn push_call<S: BuildHasher>(
    alloc: Global,
    directory: &mut Directory<S>,
    transport: Transport,
    call: &LentCall<'_>,
    out: &mut Vec<u8>,
) -> Result<(), NoMemory>
    requires { IsWord call.now.xid }
    ensures ok { let c = lent_call_view call.now in
        OnOk result (PushesCall directory.old (netid_of transport) c out.old.items directory.new out.new.items) }
    ensures err { OnErr result (directory.new ≡ directory.old) }
    ensures begins { StartsWith out.new.items out.old.items }
{
    match caller_of(&call.cred) {
        Caller::Owner(owner) => {
            let asked = Asked {
                transport,
                owner,
                call: *call,
            };
            push_sendable(alloc, directory, &asked, out)
        }
        Caller::Refused(stat) => append_denial(out, call.xid, Why::AuthError(stat)),
    }
}

/// Writes the reply to a call of a caller who is believed: SYSTEM_ERR, with the rows as they were, where the transport
/// has no space for it.
#[tactic(auto, using(crate::proofs::Chains::begins_then))]
fn push_sendable<S: BuildHasher>(
    alloc: Global,
    directory: &mut Directory<S>,
    asked: &Asked<'_>,
    out: &mut Vec<u8>,
) -> Result<(), NoMemory>
    requires word { IsWord asked.now.call.xid }
    requires caller { IsCaller (lent_call_view asked.now.call).cred (Believed (owner_text asked.now.owner)) }
    ensures ok { let c = lent_call_view asked.now.call in OnOk result
        (PushesCall directory.old (netid_of asked.now.transport) c out.old.items directory.new out.new.items) }
    ensures err { OnErr result (directory.new ≡ directory.old) }
    ensures begins { StartsWith out.new.items out.old.items }
{
    let before = out.len();
    push_accepted(alloc, directory, asked, out)?;
    if !asked.transport.carries(out.len() - before) {
        cut_to_system_error(out, before);
    }
    Ok(())
}

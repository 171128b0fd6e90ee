//! The answer to a record, by who sent it.
ghost use Rattle.std.specs.Prelude.{◌≡◌, true, false};
ghost use Rattle.xdr_units.specs.Numbers.{AreBytes};
ghost use Rattle.rpc_message.specs.Spelling.{CallBytes};
ghost use Rattle.rpc_message.specs.View.{lent_call_view};
ghost use Rattle.registry_answer.specs.Views.{netid_of};
ghost use Rattle.registry_callers.specs.Appending.{AppendsFrom};
ghost use Rattle.registry_callers.specs.Asking as plain;
ghost use Rattle.registry_callers.specs.From.{IsTaken};
ghost use Rattle.registry_callers.specs.Private.Pushes.{PushesDenial, PushesTold};

use crate::addresses::told;
use crate::asking::{is_change, is_look_up, is_set};
use crate::callers::{AUTH_TOOWEAK, Caller};
use crate::registering::{Again, append_again};
use crate::vouching::vouched;
use registry_answer::{Appended, Transport, append_answer};
use rpc_directory::Directory;
use rpc_message::{
    LentCall, LentRead, Why, append_denial, call_bytes_are_exact, five_cases, read_lent_call,
};
use std::alloc::Global;
use std::hash::BuildHasher;
use xdr_units::NoMemory;

/// A call, and who makes it.
#[derive(Clone, Copy)]
struct Asked<'a> {
    caller: Caller,
    transport: Transport,
    message: &'a [u8],
    call: LentCall<'a>,
}

/// Writes the registry's answer to a record behind what stands in `out`, as `registry_answer::append_answer`, but for
/// these, by who calls (this project's own, after rpcbind). SET and UNSET of a caller from whom no change is taken are
/// AUTH_TOOWEAK. The owner of a row is the user whom the kernel names; nobody of another host is `superuser`. SET of a
/// row that is there with the same address and owner is TRUE. GETADDR and GETVERSADDR tell an address at host 0.0.0.0
/// as the same port at the host to which the call came, where that is known. Where nothing is sent, and where memory is
/// refused, `out` holds what it held; where memory is refused the rows are as they were.
pub fn append_answer_from<S: BuildHasher>(
    alloc: Global,
    caller: Caller,
    directory: &mut Directory<S>,
    transport: Transport,
    message: &[u8],
    out: &mut Vec<u8>,
) -> Appended
    ensures { let netid = netid_of transport in AppendsFrom caller directory.old netid message.now out.old.items
        directory.new out.new.items result }
{
    // The law, for the proof: a record that is one call is no other.
    call_bytes_are_exact();
    let LentRead::Whole(call) = read_lent_call(message) else {
        return append_answer(alloc, directory, transport, message, out);
    };
    let asked = Asked {
        caller,
        transport,
        message,
        call,
    };
    if is_change(&call) {
        append_change(alloc, directory, &asked, out)
    } else if is_look_up(&call) {
        append_look_up(alloc, directory, &asked, out)
    } else {
        append_answer(alloc, directory, transport, message, out)
    }
}

/// Writes the answer to a SET or an UNSET.
fn append_change<S: BuildHasher>(
    alloc: Global,
    directory: &mut Directory<S>,
    asked: &Asked<'_>,
    out: &mut Vec<u8>,
) -> Appended
    requires call { CallBytes (lent_call_view asked.now.call) asked.now.message.now }
    requires change { plain.is_change (lent_call_view asked.now.call) ≡ true }
    ensures { AppendsFrom asked.now.caller directory.old (netid_of asked.now.transport) asked.now.message.now
        out.old.items directory.new out.new.items result }
{
    if !asked.caller.is_trusted() {
        return append_too_weak(asked.call.xid, out);
    }
    match vouched(alloc, asked.caller.peer, &asked.call) {
        Ok(None) => append_taken(alloc, directory, asked, asked.message, out),
        Ok(Some(message)) => append_taken(alloc, directory, asked, &message, out),
        Err(NoMemory) => Appended::OutOfMemory {
            xid: asked.call.xid,
        },
    }
}

/// Writes the reply AUTH_TOOWEAK.
fn append_too_weak(xid: u32, out: &mut Vec<u8>) -> Appended
    ensures { PushesDenial xid out.old.items out.new.items result }
{
    match append_denial(out, xid, Why::AuthError(AUTH_TOOWEAK)) {
        Ok(()) => Appended::Reply,
        Err(_) => Appended::OutOfMemory { xid },
    }
}

/// Writes the answer to a SET or an UNSET that is taken, whose bytes with the credential that is vouched for are these.
fn append_taken<S: BuildHasher>(
    alloc: Global,
    directory: &mut Directory<S>,
    asked: &Asked<'_>,
    message: &[u8],
    out: &mut Vec<u8>,
) -> Appended
    requires change { plain.is_change (lent_call_view asked.now.call) ≡ true }
    requires taken { IsTaken asked.now.caller asked.now.message.now (lent_call_view asked.now.call) message.now }
    ensures { AppendsFrom asked.now.caller directory.old (netid_of asked.now.transport) asked.now.message.now
        out.old.items directory.new out.new.items result }
{
    if is_set(&asked.call) {
        append_set(alloc, directory, asked, message, out)
    } else {
        append_answer(alloc, directory, asked.transport, message, out)
    }
}

/// Writes the answer to a SET that is taken.
fn append_set<S: BuildHasher>(
    alloc: Global,
    directory: &mut Directory<S>,
    asked: &Asked<'_>,
    message: &[u8],
    out: &mut Vec<u8>,
) -> Appended
    requires set { plain.is_set (lent_call_view asked.now.call) ≡ true }
    requires taken { IsTaken asked.now.caller asked.now.message.now (lent_call_view asked.now.call) message.now }
    ensures { AppendsFrom asked.now.caller directory.old (netid_of asked.now.transport) asked.now.message.now
        out.old.items directory.new out.new.items result }
{
    match append_again(alloc, directory, asked.transport, message, out) {
        Again::Reply => Appended::Reply,
        Again::Other => append_answer(alloc, directory, asked.transport, message, out),
        Again::OutOfMemory => Appended::OutOfMemory {
            xid: asked.call.xid,
        },
    }
}

/// Writes the answer to a GETADDR or a GETVERSADDR.
fn append_look_up<S: BuildHasher>(
    alloc: Global,
    directory: &mut Directory<S>,
    asked: &Asked<'_>,
    out: &mut Vec<u8>,
) -> Appended
    requires call { CallBytes (lent_call_view asked.now.call) asked.now.message.now }
    requires look_up { plain.is_look_up (lent_call_view asked.now.call) ≡ true }
    requires bytes { AreBytes asked.now.message.now }
    ensures { AppendsFrom asked.now.caller directory.old (netid_of asked.now.transport) asked.now.message.now
        out.old.items directory.new out.new.items result }
{
    // The law, for the proof: a look-up changes no row.
    five_cases();
    let mut reply = Vec::new(alloc);
    match append_answer(alloc, directory, asked.transport, asked.message, &mut reply) {
        Appended::Nothing => Appended::Nothing,
        Appended::Reply => append_told(alloc, asked, reply, out),
        Appended::OutOfMemory { xid: _xid } => Appended::OutOfMemory {
            xid: asked.call.xid,
        },
    }
}

/// Writes what is sent for a look-up, where the plain registry sends this reply.
fn append_told(alloc: Global, asked: &Asked<'_>, reply: Vec<u8>, out: &mut Vec<u8>) -> Appended
    ensures { PushesTold asked.now.caller.host asked.now.call.xid reply.items out.old.items out.new.items result }
{
    let xid = asked.call.xid;
    let Ok(bytes) = told(alloc, asked.caller.host, xid, reply) else {
        return Appended::OutOfMemory { xid };
    };
    match out.extend_from_slice(&bytes) {
        Ok(()) => Appended::Reply,
        Err(_) => Appended::OutOfMemory { xid },
    }
}

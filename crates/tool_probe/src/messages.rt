//! Messages of RPC: the input as `read_call`, `read_reply` or `read_auth_sys` reads it, and what was read written
//! again, a reply behind `front`.
use crate::printed::{auth, reply as reply_words, reply_fault};
use rpc_message::{
    AuthSys, Call, CallRead, NoMemory, Reply, append_reply, read_auth_sys, read_call, read_reply,
    write_auth_sys, write_call, write_reply,
};
use std::alloc::Global;
use std::env::Env;
use test_lines::case::{Case, allow};
use test_lines::reported::Report;

/// Reports the case.
pub fn call(out: &mut Report, rt: &impl Env, case: &Case<'_>) {
    let input = case.input();
    match case.call() {
        "read_call" => read_as_call(out, rt, case, &input),
        "read_reply" => read_as_reply(out, rt, case, &input),
        _ => read_as_credential(out, rt, case, &input),
    }
}

// What was written again, and the end of the answer.
fn written(out: &mut Report, again: &Option<Result<Vec<u8>, NoMemory>>) {
    match again {
        Some(Ok(bytes)) => out.digits("; written ", bytes),
        Some(Err(_)) => out.text("; out of memory"),
        None => {}
    }
    out.end();
}

// The fields of a call.
fn whole(out: &mut Report, call: &Call) {
    out.number("call ", u64::from(call.xid));
    out.number(", program ", u64::from(call.prog));
    out.number(", version ", u64::from(call.vers));
    out.number(", procedure ", u64::from(call.proc));
    auth(out, ", credential ", &call.cred);
    auth(out, ", verifier ", &call.verf);
    out.digits(", arguments ", &call.args);
}

// A number of a call, and what stands behind it.
fn numbered(out: &mut Report, before: &str, number: u32, behind: &str) {
    out.number(before, u64::from(number));
    out.text(behind);
}

// What bytes are as a call.
fn call_words(out: &mut Report, read: &Result<CallRead, NoMemory>) {
    match read {
        Ok(CallRead::Whole(call)) => whole(out, call),
        Ok(CallRead::OtherVersion { xid, version }) => {
            out.number("call ", u64::from(*xid));
            numbered(out, " of version ", *version, " of RPC");
        }
        Ok(CallRead::BadCred { xid }) => numbered(out, "call ", *xid, " with a bad credential"),
        Ok(CallRead::BadVerf { xid }) => numbered(out, "call ", *xid, " with a bad verifier"),
        Ok(CallRead::NotACall) => out.text("not a call"),
        Err(_) => out.text("out of memory"),
    }
}

// The bytes of a call, where its credentials are short.
fn bytes_of_call(alloc: Global, call: &Call) -> Option<Result<Vec<u8>, NoMemory>> {
    if call.cred.body.len() > 400 || call.verf.body.len() > 400 {
        return None;
    }
    Some(write_call(alloc, call))
}

fn read_as_call(out: &mut Report, rt: &impl Env, case: &Case<'_>, input: &[u8]) {
    let before = case.refuse(rt);
    let read = read_call(case.alloc, input);
    let again = match &read {
        Ok(CallRead::Whole(call)) => bytes_of_call(case.alloc, call),
        _ => None,
    };
    out.answer(allow(rt, before));
    call_words(out, &read);
    written(out, &again);
}

// The bytes of a reply, where its verifier is short, behind those that stand there, if any do.
fn bytes_of_reply(
    alloc: Global,
    front: Vec<u8>,
    reply: &Reply,
) -> Option<Result<Vec<u8>, NoMemory>> {
    match reply {
        Reply::Accepted { verf, .. } if verf.body.len() > 400 => return None,
        _ => {}
    }
    if front.is_empty() {
        return Some(write_reply(alloc, reply));
    }
    let mut out = front;
    match append_reply(&mut out, reply) {
        Ok(()) => Some(Ok(out)),
        Err(fault) => Some(Err(fault)),
    }
}

fn read_as_reply(out: &mut Report, rt: &impl Env, case: &Case<'_>, input: &[u8]) {
    let front = case.bytes("front");
    let before = case.refuse(rt);
    let read = read_reply(case.alloc, input);
    let again = match &read {
        Ok(reply) => bytes_of_reply(case.alloc, front, reply),
        Err(_) => None,
    };
    out.answer(allow(rt, before));
    match &read {
        Ok(reply) => reply_words(out, reply),
        Err(fault) => reply_fault(out, *fault),
    }
    written(out, &again);
}

// The fields of a body of AUTH_SYS.
fn fields(out: &mut Report, credential: &AuthSys) {
    out.number("stamp ", u64::from(credential.stamp));
    out.digits(", machine ", &credential.machine);
    out.number(", uid ", u64::from(credential.uid));
    out.number(", gid ", u64::from(credential.gid));
    out.text(", gids");
    for gid in &credential.gids {
        out.number(" ", u64::from(*gid));
    }
}

// What bytes are as a body of AUTH_SYS.
fn body(out: &mut Report, read: &Result<Option<AuthSys>, NoMemory>) {
    match read {
        Ok(Some(credential)) => fields(out, credential),
        Ok(None) => out.text("no credential"),
        Err(_) => out.text("out of memory"),
    }
}

// The bytes of a credential, where it is short.
fn bytes_of_credential(alloc: Global, credential: &AuthSys) -> Option<Result<Vec<u8>, NoMemory>> {
    if credential.machine.len() > 255 || credential.gids.len() > 16 {
        return None;
    }
    Some(write_auth_sys(alloc, credential))
}

fn read_as_credential(out: &mut Report, rt: &impl Env, case: &Case<'_>, input: &[u8]) {
    let before = case.refuse(rt);
    let read = read_auth_sys(case.alloc, input);
    let again = match &read {
        Ok(Some(credential)) => bytes_of_credential(case.alloc, credential),
        _ => None,
    };
    out.answer(allow(rt, before));
    body(out, &read);
    written(out, &again);
}

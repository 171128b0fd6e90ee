//! The registry at port 111: it is served `before`, then the call is made, and then it is served `after` with all its
//! memory. `serve` serves the input, `answer` answers it as one record, `append_answer` does so behind `front`,
//! `exchange` reads it where the null call of version 2 with xid 1 is exchanged for a reply, and `dump` makes a
//! registry and dumps it.
ghost use Rattle.std.specs.Prelude.{◌≡◌, []};
ghost use Rattle.rpc_message.specs.View.{auth_view, call_view};

use crate::printed::{exchanged as exchanged_words, served as served_words};
use registry_answer::{Answered, Appended, Transport, answer, append_answer};
use rpc_directory::{Directory, NoMemory, directory_schema};
use rpc_engine::{exchange, serve};
use rpc_message::{Call, OpaqueAuth};
use std::alloc::Global;
use std::env::Env;
use std::hash::BuildHasherDefault;
use test_lines::case::{Case, allow};
use test_lines::reported::Report;
use test_lines::served::{Registry, after_word, prepared};
use xdr_codec::encode;
use xdr_io::{MemorySink, MemorySource};
use xdr_types::{Limits, Schema, Value, fits};

/// Reports the case.
pub fn call(out: &mut Report, rt: &impl Env, case: &Case<'_>) {
    let input = case.input();
    match case.call() {
        "serve" => served(out, rt, case, &input),
        "answer" => answered(out, rt, case, &input),
        "append_answer" => appended(out, rt, case, &input),
        "exchange" => exchanged(out, rt, case, &input),
        _ => dumped(out, rt, case),
    }
}

fn served(out: &mut Report, rt: &impl Env, case: &Case<'_>, input: &[u8]) {
    let mut directory = prepared(case);
    let before = case.refuse(rt);
    let mut buffer = [0u8; 4096];
    let mut source = MemorySource::new(input, case.piece("read"), case.failing("read-fails"));
    let mut sink = MemorySink::new(
        &mut buffer,
        case.piece("write"),
        case.failing("write-fails"),
    );
    let answer = serve(
        case.alloc,
        &mut source,
        &mut sink,
        &mut directory,
        Transport::Tcp,
    );
    out.answer(allow(rt, before));
    served_words(out, answer);
    out.end();
    out.digits(" output=", sink.written());
    after_word(out, &mut directory, case);
}

// The transport of a case.
fn transport_of(case: &Case<'_>) -> Transport {
    match case.word("transport") {
        "udp" => Transport::Udp,
        _ => Transport::Tcp,
    }
}

fn answered(out: &mut Report, rt: &impl Env, case: &Case<'_>, input: &[u8]) {
    let mut directory = prepared(case);
    let transport = transport_of(case);
    let before = case.refuse(rt);
    let answer = answer(case.alloc, &mut directory, transport, input);
    out.answer(allow(rt, before));
    match &answer {
        Answered::Silent => out.text("no reply"),
        Answered::Reply(reply) => out.digits("reply ", reply),
        Answered::OutOfMemory { xid } => out.number("out of memory, xid ", u64::from(*xid)),
    }
    out.end();
    after_word(out, &mut directory, case);
}

// The same behind what stands there, with the bytes that stand there then.
fn appended(out: &mut Report, rt: &impl Env, case: &Case<'_>, input: &[u8]) {
    let mut bytes = case.bytes("front");
    let mut directory = prepared(case);
    let before = case.refuse(rt);
    let answer = append_answer(
        case.alloc,
        &mut directory,
        Transport::Tcp,
        input,
        &mut bytes,
    );
    out.answer(allow(rt, before));
    match answer {
        Appended::Nothing => out.text("no reply"),
        Appended::Reply => out.text("reply"),
        Appended::OutOfMemory { xid } => out.number("out of memory, xid ", u64::from(xid)),
    }
    out.end();
    out.digits(" output=", &bytes);
    after_word(out, &mut directory, case);
}

// An opaque_auth of flavor 0 and no bytes.
fn no_auth(alloc: Global) -> OpaqueAuth
    ensures { auth_view result ≡ record { flavor = 0; body = [] } }
{
    OpaqueAuth {
        flavor: 0,
        body: Vec::new(alloc),
    }
}

/// The null call of version 2 with xid 1.
pub fn null_call(alloc: Global) -> Call
    ensures { call_view result ≡ record {
      xid = 1;
      prog = 100000;
      vers = 2;
      proc = 0;
      args = [];
      cred = record { flavor = 0; body = [] };
      verf = record { flavor = 0; body = [] };
    } }
{
    Call {
        xid: 1,
        prog: 100000,
        vers: 2,
        proc: 0,
        cred: no_auth(alloc),
        verf: no_auth(alloc),
        args: Vec::new(alloc),
    }
}

fn exchanged(out: &mut Report, rt: &impl Env, case: &Case<'_>, input: &[u8]) {
    let before = case.refuse(rt);
    let call = null_call(case.alloc);
    let mut buffer = [0u8; 128];
    let mut source = MemorySource::new(input, case.piece("read"), case.failing("read-fails"));
    let mut sink = MemorySink::new(
        &mut buffer,
        case.piece("write"),
        case.failing("write-fails"),
    );
    let answer = exchange(case.alloc, &mut source, &mut sink, &call);
    out.answer(allow(rt, before));
    exchanged_words(out, &answer);
    out.end();
    out.digits(" output=", sink.written());
}

// The bytes of a value, if it is one of the type of this name.
fn spelled(out: &mut Report, schema: &Schema, name: &str, value: &Value) {
    let (Some(kind), Some(limits)) = (schema.named(name), Limits::new(4096, 16777216)) else {
        return out.text("no kind");
    };
    if !fits(schema, kind, value, limits) {
        return out.text("another type");
    }
    match encode(out.alloc, schema, kind, value, limits) {
        Ok(bytes) => out.digits("rows ", &bytes),
        Err(_) => out.text("not encoded"),
    }
}

/// A dump as the bytes of its type in the registry's own declarations.
pub fn rows(out: &mut Report, name: &str, dump: &Result<Value, NoMemory>) {
    let Ok(value) = dump else {
        return out.text("out of memory");
    };
    match directory_schema(out.alloc) {
        Ok(schema) => spelled(out, &schema, name, value),
        Err(_) => out.text("no types"),
    }
}

// The rows of a registry that was made.
fn made_rows(out: &mut Report, made: &Result<Registry, NoMemory>) {
    match made {
        Ok(made) => rows(out, "rpcblist", &made.dump(out.alloc)),
        Err(_) => out.text("out of memory"),
    }
}

// The rows of a registry that is made, and those that were served before as values of both types, as bytes of them.
fn dumped(out: &mut Report, rt: &impl Env, case: &Case<'_>) {
    let directory = prepared(case);
    let before = case.refuse(rt);
    let made = Directory::start(case.alloc, BuildHasherDefault::new(), 111);
    let all = directory.dump(case.alloc);
    let ports = directory.dump_ports(case.alloc);
    out.answer(allow(rt, before));
    made_rows(out, &made);
    out.text("; ");
    rows(out, "rpcblist", &all);
    out.text("; ");
    rows(out, "pmaplist", &ports);
    out.end();
}

//! Datagrams over a port in memory, of which the receive or send of number `port-fails` fails. `serve_datagrams` serves
//! `count` of them and then `count-again`, `datagrams_on` serves `count`, `exchange_datagram` exchanges the null call
//! of version 2 with xid 1, and `info_datagram` asks a registry in a version.
use crate::printed::{datagrams as datagrams_words, exchanged as exchanged_words};
use crate::registry::null_call;
use crate::task::streams;
use oncrpc_service::{datagrams_on, info_datagram};
use rpc_engine::{MemoryPort, exchange_datagram, serve_datagrams};
use std::alloc::Global;
use std::env::Env;
use test_lines::case::{Case, allow};
use test_lines::growths::bytes;
use test_lines::reported::Report;
use test_lines::served::{after_word, prepared, started};
use xdr_io::MemorySink;

/// Reports the case.
pub fn call(out: &mut Report, rt: &impl Env, case: &Case<'_>) {
    let all = case.list("datagrams");
    let waiting = lent(case.alloc, &all);
    match case.call() {
        "serve_datagrams" => served(out, rt, case, &waiting),
        "exchange_datagram" => exchanged(out, rt, case, &waiting),
        "datagrams_on" => answered(out, rt, case, &waiting),
        _ => asked(out, rt, case, &waiting),
    }
}

// The bytes of each.
fn lent<'a>(alloc: Global, all: &'a [Vec<u8>]) -> Vec<&'a [u8]> {
    let mut parts = Vec::new(alloc);
    for each in all {
        let _pushed = parts.push(each.as_slice());
    }
    parts
}

// What was sent through a port.
fn sent(out: &mut Report, port: &MemoryPort<'_>) {
    out.parts(port.sent_sizes(), port.sent_bytes());
}

// What both runs answer, how many bytes the first asked for, and what was sent.
fn served(out: &mut Report, rt: &impl Env, case: &Case<'_>, waiting: &[&[u8]]) {
    let (one, two) = (
        u64::from(case.whole("count")),
        u64::from(case.whole("count-again")),
    );
    let mut directory = prepared(case);
    let (mut buffer, mut sizes) = ([0u8; 8192], [0usize; 16]);
    let mut port = MemoryPort::new(waiting, &mut buffer, &mut sizes, case.failing("port-fails"));
    let before = case.refuse(rt);
    let asked = bytes(rt).unwrap_or(0);
    let first = serve_datagrams(case.alloc, &mut port, one, &mut directory);
    let asked = bytes(rt).unwrap_or(0).saturating_sub(asked);
    let second = serve_datagrams(case.alloc, &mut port, two, &mut directory);
    out.answer(allow(rt, before));
    datagrams_words(out, first);
    out.text("; ");
    datagrams_words(out, second);
    out.end();
    out.number(" asked=", asked);
    sent(out, &port);
    after_word(out, &mut directory, case);
}

fn exchanged(out: &mut Report, rt: &impl Env, case: &Case<'_>, waiting: &[&[u8]]) {
    let before = case.refuse(rt);
    let call = null_call(case.alloc);
    let (mut buffer, mut sizes) = ([0u8; 128], [0usize; 2]);
    let mut port = MemoryPort::new(waiting, &mut buffer, &mut sizes, case.failing("port-fails"));
    let answer = exchange_datagram(case.alloc, &mut port, &call);
    out.answer(allow(rt, before));
    exchanged_words(out, &answer);
    out.end();
    sent(out, &port);
}

fn answered(out: &mut Report, rt: &impl Env, case: &Case<'_>, waiting: &[&[u8]]) {
    let mut directory = started(case.alloc);
    let before = case.refuse(rt);
    let (mut buffer, mut sizes) = ([0u8; 4096], [0usize; 64]);
    let (mut lines, mut said) = ([0u8; 4096], [0u8; 128]);
    let mut port = MemoryPort::new(waiting, &mut buffer, &mut sizes, case.failing("port-fails"));
    let mut output = MemorySink::new(&mut lines, case.piece("write"), case.failing("write-fails"));
    let mut faults = MemorySink::new(&mut said, 128, None);
    let status = datagrams_on(
        case.alloc,
        &mut port,
        case.whole("count"),
        &mut directory,
        &mut output,
        &mut faults,
    );
    out.ended(allow(rt, before), status);
    sent(out, &port);
    streams(out, &output, &faults);
}

fn asked(out: &mut Report, rt: &impl Env, case: &Case<'_>, waiting: &[&[u8]]) {
    let version = case.whole("version");
    let before = case.refuse(rt);
    let (mut buffer, mut sizes) = ([0u8; 4096], [0usize; 64]);
    let (mut lines, mut said) = ([0u8; 4096], [0u8; 128]);
    let mut port = MemoryPort::new(waiting, &mut buffer, &mut sizes, case.failing("port-fails"));
    let mut output = MemorySink::new(&mut lines, case.piece("write"), case.failing("write-fails"));
    let mut faults = MemorySink::new(&mut said, 128, None);
    let status = info_datagram(case.alloc, &mut port, &mut output, &mut faults, version);
    out.ended(allow(rt, before), status);
    sent(out, &port);
    streams(out, &output, &faults);
}

//! The program's network engines over memory: `info_over` in a version, and `serve_on` of `count` connections. Each of
//! the `clients` sends bytes, takes the reply of `replies` alone, and its read of number `clients-read-fails` fails; 0
//! stands for none.
ghost use Rattle.std.specs.Prelude.{◌<◌};

use crate::task::{buffer_for, streams};
use oncrpc_service::{AcceptFault, Listener, info_over, serve_on};
use std::env::Env;
use test_lines::case::{Case, allow};
use test_lines::reported::Report;
use test_lines::served::started;
use xdr_io::{MemorySink, MemorySource, Sink, SinkFault};

/// Reports the case.
pub fn call(out: &mut Report, rt: &impl Env, case: &Case<'_>) {
    match case.call() {
        "info_over" => info(out, rt, case),
        _ => connections(out, rt, case),
    }
}

fn info(out: &mut Report, rt: &impl Env, case: &Case<'_>) {
    let input = case.input();
    let mut buffer = buffer_for(case.alloc, input.len());
    let before = case.refuse(rt);
    let (mut said, mut sent) = ([0u8; 128], [0u8; 128]);
    let write = case.piece("write");
    let mut source = MemorySource::new(&input, case.piece("read"), case.failing("read-fails"));
    let mut call = MemorySink::new(&mut sent, write, case.failing("call-write-fails"));
    let mut output = MemorySink::new(&mut buffer, write, case.failing("write-fails"));
    let mut faults = MemorySink::new(&mut said, 128, None);
    let status = info_over(
        case.alloc,
        &mut source,
        &mut call,
        &mut output,
        &mut faults,
        case.whole("version"),
    );
    out.ended(allow(rt, before), status);
    out.digits(" call=", call.written());
    streams(out, &output, &faults);
}

// What a client gets: these bytes in its first write and none after it, where they are wanted, and else anything.
#[derive(Drop)]
struct Taken<'a> {
    wanted: Option<&'a [u8]>,
}

impl<'a> Sink for Taken<'a> {
    fn write(&mut self, piece: &[u8]) -> Result<usize, SinkFault> {
        let Some(wanted) = self.wanted else {
            return Ok(piece.len());
        };
        self.wanted = Some(&[]);
        if wanted == piece {
            Ok(piece.len())
        } else {
            Err(SinkFault)
        }
    }
}

// Clients one after another: what each sends, the read of it that fails, and what it takes. After the last none comes.
#[derive(Drop)]
struct Clients<'a> {
    all: &'a [Vec<u8>],
    failing: &'a str,
    wanted: &'a [Vec<u8>],
    piece: usize,
}

impl<'a> Listener for Clients<'a> {
    type Reader = MemorySource<'a>;

    type Writer = Taken<'a>;

    ghost port_of = { λ _. 111 };

    fn port(&self) -> u16 {
        111
    }

    fn accept(&mut self) -> Result<(MemorySource<'a>, Taken<'a>), AcceptFault> {
        let Some((sent, rest)) = self.all.split_first() else {
            return Err(AcceptFault);
        };
        self.all = rest;
        let (number, rest) = self.failing.split_once(',').unwrap_or((self.failing, ""));
        self.failing = rest;
        let failing = Some(number.parse::<u64>().unwrap_or(0));
        let mut wanted = None;
        if let Some((first, rest)) = self.wanted.split_first() {
            self.wanted = rest;
            wanted = Some(first.as_slice());
        }
        Ok((
            MemorySource::new(sent, self.piece.max(1), failing),
            Taken { wanted },
        ))
    }

    fn close(&mut self, _reader: MemorySource<'a>, _writer: Taken<'a>) {}
}

// The exit status, how many clients were not waited for, and what was printed.
fn connections(out: &mut Report, rt: &impl Env, case: &Case<'_>) {
    let (all, wanted) = (case.list("clients"), case.list("replies"));
    let mut directory = started(case.alloc);
    let before = case.refuse(rt);
    let (mut buffer, mut said) = ([0u8; 4096], [0u8; 128]);
    let mut clients = Clients {
        all: &all,
        failing: case.word("clients-read-fails"),
        wanted: &wanted,
        piece: case.piece("read"),
    };
    let mut output = MemorySink::new(
        &mut buffer,
        case.piece("write"),
        case.failing("write-fails"),
    );
    let mut faults = MemorySink::new(&mut said, 128, None);
    let status = serve_on(
        case.alloc,
        &mut clients,
        case.whole("count"),
        &mut directory,
        &mut output,
        &mut faults,
    );
    out.ended(allow(rt, before), status);
    out.number(" left=", clients.all.len() as u64);
    streams(out, &output, &faults);
}

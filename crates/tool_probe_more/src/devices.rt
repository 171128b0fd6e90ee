//! Readers and writers of std as a source and a sink, `FromRead` and `IntoWrite`: at their end, full, and with errors.
//! A case names what they are `over`: `empty`, a `cursor`, a `sink` or a `slice` of 5 bytes of std, or the `memory` of
//! `xdr_io`. Else it is a device that gives or takes a piece a call, of which one fails by the `error` that is named,
//! or, without one, takes nothing.
//!
//! Of a source is told what `read_past` answers twice, with the `limit` for enough: the bytes, and the rest. Of a sink
//! is told what it answers to the whole input, and then what `write_whole` answers to it.
use std::io::{self, Cursor, Error, ErrorKind, Read, Write};
use test_lines::case::Case;
use test_lines::reported::Report;
use xdr_io::{
    FromRead, InputFault, IntoWrite, MemorySink, MemorySource, Sink, Source, read_past, write_whole,
};

// A reader and a writer. It gives what is left of its bytes, and takes all in pieces, but for the call that fails.
#[derive(Drop)]
struct Failing<'a> {
    rest: &'a [u8],
    piece: usize,
    calls: u64,
    failing: Option<u64>,
    error: Option<ErrorKind>,
}

// The error that a case names. Of these std's own loops try one again.
fn error_of(case: &Case<'_>) -> Option<ErrorKind> {
    match case.word("error") {
        "Interrupted" => Some(ErrorKind::Interrupted),
        "UnexpectedEof" => Some(ErrorKind::UnexpectedEof),
        "Other" => Some(ErrorKind::Other),
        _ => None,
    }
}

impl<'a> Failing<'a> {
    fn new(case: &Case<'_>, rest: &'a [u8], device: &str, fails: &str) -> Failing<'a> {
        Failing {
            rest,
            piece: case.piece(device),
            calls: 0,
            failing: case.failing(fails),
            error: error_of(case),
        }
    }

    // Counts a call, and says how many bytes it moves of so many.
    fn moved(&mut self, count: usize) -> io::Result<usize> {
        self.calls = self.calls.saturating_add(1);
        if self.failing != Some(self.calls) {
            return Ok(count.min(self.piece));
        }
        match self.error {
            Some(kind) => Err(Error::from(kind)),
            None => Ok(0),
        }
    }
}

impl<'a> Read for Failing<'a> {
    fn read(&mut self, buf: &mut [u8]) -> io::Result<usize> {
        let moved = self.moved(buf.len())?;
        let count = moved.min(self.rest.len()).min(buf.len());
        let (front, rest) = self.rest.split_at(count);
        buf[..count].copy_from_slice(front);
        self.rest = rest;
        Ok(count)
    }
}

impl<'a> Write for Failing<'a> {
    fn write(&mut self, buf: &[u8]) -> io::Result<usize> {
        let moved = self.moved(buf.len())?;
        Ok(moved.min(buf.len()))
    }

    fn flush(&mut self) -> io::Result<()> {
        Ok(())
    }
}

/// Reports the case.
pub fn call(out: &mut Report, case: &Case<'_>) {
    match case.call() {
        "FromRead" => from_reader(out, case, &case.input()),
        _ => into_writer(out, case, &case.input()),
    }
}

fn input_words(out: &mut Report, answer: &Result<Vec<u8>, InputFault>) {
    match answer {
        Ok(_) => out.text("ok"),
        Err(InputFault::Read) => out.text("read fault"),
        Err(InputFault::TooManyReads) => out.text("too many reads"),
        Err(InputFault::NoMemory) => out.text("out of memory"),
    }
}

fn bytes_word(out: &mut Report, key: &str, answer: &Result<Vec<u8>, InputFault>) {
    match answer {
        Ok(bytes) => out.digits(key, bytes),
        Err(_) => out.text(key),
    }
}

fn read_twice(out: &mut Report, case: &Case<'_>, source: &mut impl Source) {
    let enough = case.whole("limit") as usize;
    let mut lent = source;
    let first = read_past(case.alloc, &mut lent, enough);
    let second = read_past(case.alloc, &mut lent, enough);
    out.answer(0);
    input_words(out, &first);
    out.text("; ");
    input_words(out, &second);
    out.end();
    bytes_word(out, " output=", &first);
    bytes_word(out, " rest=", &second);
}

fn from_reader(out: &mut Report, case: &Case<'_>, input: &[u8]) {
    match case.word("over") {
        "empty" => read_twice(out, case, &mut FromRead::new(io::empty())),
        "cursor" => read_twice(out, case, &mut FromRead::new(Cursor::new(input))),
        "memory" => {
            let (piece, failing) = (case.piece("read"), case.failing("read-fails"));
            read_twice(out, case, &mut MemorySource::new(input, piece, failing));
        }
        _ => {
            let reader = Failing::new(case, input, "read", "read-fails");
            read_twice(out, case, &mut FromRead::new(reader));
        }
    }
}

fn write_all(out: &mut Report, sink: &mut impl Sink, input: &[u8]) {
    out.answer(0);
    match sink.write(input) {
        Ok(count) => out.number("", count as u64),
        Err(_) => out.text("write fault"),
    }
    match write_whole(sink, input) {
        Ok(()) => out.text("; ok"),
        Err(cut) => out.number("; write fault after ", cut.written as u64),
    }
    out.end();
}

fn into_writer(out: &mut Report, case: &Case<'_>, input: &[u8]) {
    let mut buffer = [0u8; 5];
    match case.word("over") {
        "sink" => write_all(out, &mut IntoWrite::new(io::sink()), input),
        "slice" => write_all(out, &mut IntoWrite::new(buffer.as_mut_slice()), input),
        "memory" => {
            let (piece, failing) = (case.piece("write"), case.failing("write-fails"));
            write_all(
                out,
                &mut MemorySink::new(&mut buffer, piece, failing),
                input,
            );
        }
        _ => {
            let writer = Failing::new(case, &[], "write", "write-fails");
            write_all(out, &mut IntoWrite::new(writer), input);
        }
    }
}

//! Streams of records: `normalise`, `RecordReader` fed the input in pieces, `RecordReader::calls`, which are the steps
//! of a case on one reader, `mark` and `write_marked`.
ghost use Rattle.std.specs.Prelude.{◌≤◌};

use crate::printed::{ended, record_fault, step};
use crate::values::bytes_words;
use rpc_record::{RecordFault, RecordReader, RecordStep, mark, normalise, write_marked};
use std::alloc::Global;
use std::env::Env;
use test_lines::case::{Case, allow};
use test_lines::reported::Report;
use xdr_io::{MemorySink, MemorySource};

/// Reports the case.
pub fn call(out: &mut Report, rt: &impl Env, case: &Case<'_>) {
    let input = case.input();
    match case.call() {
        "normalise" => normalised(out, rt, case, &input),
        "RecordReader" => handed_out(out, rt, case, &input),
        "RecordReader::calls" => steps(out, case),
        "write_marked" => written(out, rt, case, input),
        _ => marked(out, rt, case, input),
    }
}

// The greatest record of a case.
fn limit_of(case: &Case<'_>) -> u32
    ensures { result ≤ 2147483647 }
{
    case.whole("limit").min(2147483647)
}

fn normalised(out: &mut Report, rt: &impl Env, case: &Case<'_>, input: &[u8]) {
    let before = case.refuse(rt);
    let mut buffer = [0u8; 32768];
    let mut source = MemorySource::new(input, case.piece("read"), case.failing("read-fails"));
    let mut sink = MemorySink::new(
        &mut buffer,
        case.piece("write"),
        case.failing("write-fails"),
    );
    let answer = normalise(case.alloc, &mut source, &mut sink, limit_of(case));
    out.answer(allow(rt, before));
    match answer {
        Ok(count) => {
            out.number("", count.records);
            out.number(" records, ", count.bytes);
            out.text(" bytes");
        }
        Err(fault) => record_fault(out, fault),
    }
    out.end();
    out.digits(" output=", sink.written());
}

// Feeds a piece until it is taken whole, and keeps the records that come whole in it.
fn feed_whole(
    reader: &mut RecordReader,
    piece: &[u8],
    records: &mut Vec<u8>,
) -> Result<(), RecordFault> {
    let mut rest = piece;
    for _ in 0..=piece.len() {
        match reader.feed(rest)? {
            RecordStep::More => return Ok(()),
            RecordStep::Whole { used } => {
                rest = rest.get(used..).unwrap_or(&[]);
                keep(reader.take(), records);
            }
        }
    }
    Ok(())
}

// Keeps a record behind its length, in a buffer that is there.
fn keep(record: Option<Vec<u8>>, records: &mut Vec<u8>) {
    if let Some(record) = record {
        let length = u32::try_from(record.len()).unwrap_or(0);
        let _length = records.extend_from_slice(&length.to_be_bytes());
        let _content = records.extend_from_slice(&record);
    }
}

// Feeds the input in pieces, up to a fault.
fn feed_all(
    reader: &mut RecordReader,
    input: &[u8],
    piece: usize,
    records: &mut Vec<u8>,
) -> Result<(), RecordFault> {
    for part in input.chunks(piece.max(1)) {
        feed_whole(reader, part, records)?;
    }
    Ok(())
}

// A buffer for the records of an input behind their lengths; none where memory is refused.
fn buffer_for(alloc: Global, input: &[u8]) -> Vec<u8> {
    match Vec::with_capacity(alloc, input.len().saturating_mul(2).saturating_add(64)) {
        Ok(buffer) => buffer,
        Err(_) => Vec::new(alloc),
    }
}

// What a reader answers to the input in pieces and to its end, and then, with memory again, to a byte and to the end.
fn handed_out(out: &mut Report, rt: &impl Env, case: &Case<'_>, input: &[u8]) {
    let mut records = buffer_for(case.alloc, input);
    let before = case.refuse(rt);
    let mut reader = RecordReader::start(case.alloc, limit_of(case));
    let fed = feed_all(&mut reader, input, case.piece("read"), &mut records);
    let end = reader.end();
    out.answer(allow(rt, before));
    ended(out, fed);
    out.text("; ");
    ended(out, end);
    out.text("; ");
    step(out, reader.feed(&[0]));
    out.text("; ");
    ended(out, reader.end());
    out.end();
    out.digits(" records=", &records);
}

// What a reader answers to a part, and the record that is whole then, in a buffer that had other bytes.
fn feed_into(out: &mut Report, reader: &mut RecordReader, part: &[u8]) {
    if let Ok(mut buffer) = vec![in out.alloc; 0x7au8; 3] {
        let answer = reader.feed_into(part, &mut buffer);
        step(out, answer);
        if let Ok(RecordStep::Whole { .. }) = answer {
            out.digits(" ", &buffer);
        }
    }
}

// Takes a record.
fn take(out: &mut Report, reader: &mut RecordReader) {
    match reader.take() {
        Some(record) => out.digits("", &record),
        None => out.text("none"),
    }
}

// Makes one call of a reader: `feed` and `feed_into` with a part behind a colon, `take` or `end`.
fn make_step(out: &mut Report, reader: &mut RecordReader, call: &str) {
    let (name, digits) = call.split_once(':').unwrap_or((call, ""));
    let part = match hex::decode(out.alloc, digits) {
        Ok(part) => part,
        Err(_) => Vec::new(out.alloc),
    };
    match name {
        "feed" => step(out, reader.feed(&part)),
        "feed_into" => feed_into(out, reader, &part),
        "take" => take(out, reader),
        _ => ended(out, reader.end()),
    }
}

// The calls that the case lists, with a comma between two, and their answers.
fn steps(out: &mut Report, case: &Case<'_>) {
    let mut reader = RecordReader::start(case.alloc, limit_of(case));
    out.answer(0);
    for (number, call) in case.word("steps").split(',').enumerate() {
        out.between(number, "; ");
        make_step(out, &mut reader, call);
    }
    out.end();
}

fn marked(out: &mut Report, rt: &impl Env, case: &Case<'_>, input: Vec<u8>) {
    let mut record = input;
    record.truncate(16777216);
    let before = case.refuse(rt);
    let answer = mark(case.alloc, &record);
    bytes_words(out, allow(rt, before), &answer);
}

fn written(out: &mut Report, rt: &impl Env, case: &Case<'_>, input: Vec<u8>) {
    let mut record = input;
    record.truncate(16777216);
    let before = case.refuse(rt);
    let mut buffer = [0u8; 128];
    let mut sink = MemorySink::new(
        &mut buffer,
        case.piece("write"),
        case.failing("write-fails"),
    );
    let answer = write_marked(&mut sink, &record);
    out.answer(allow(rt, before));
    match answer {
        Ok(()) => out.text("ok"),
        Err(cut) => out.number("write fault after ", cut.written as u64),
    }
    out.end();
    out.digits(" output=", sink.written());
}

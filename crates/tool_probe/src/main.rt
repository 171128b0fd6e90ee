//! One call a line: the call that each line of the input asks for is made while reads, writes or growths of memory
//! fail, and a line tells what it answered. `tests/run` and `bench/fuzz` write such lines and judge what is reported,
//! and `tests/README.md` says how they are written. Without a line nothing is called.
//!
//! `test_lines` reads what is asked for and writes the line of what is answered, and `printed` has the words of
//! answers. Each other module makes the calls of one subject:
//! - `values`: values of a kind. `writer`: values written item by item; `sinking`: into a sink. `items`: the items of a
//!   value. `changed`: one that was changed. `random`: random values of random schemas.
//! - `language`: texts of declarations. `task`: tasks of the program. `program`: its network engines.
//! - `records`: streams of records. `messages`: messages. `registry`: the registry served. `directory`: its calls, one
//!   after another. `datagrams`: datagrams over a port in memory.
#![tactic(auto)]

mod changed;
mod datagrams;
mod directory;
mod items;
mod language;
mod messages;
mod printed;
mod program;
mod random;
mod records;
mod registry;
mod sinking;
mod task;
mod values;
mod writer;

use std::io::{self, BufRead, BufReader, BufWriter, Write};
use std::process::ExitCode;
use test_lines::case::Case;
use test_lines::reported::Report;

// Makes the call of a case, and reports how many growths of memory it met and what it answered.
fn call(out: &mut Report, rt: &HostRuntime, case: &Case<'_>) {
    match case.call() {
        "normalise" | "RecordReader" | "RecordReader::calls" | "mark" | "write_marked" => {
            records::call(out, rt, case)
        }
        "Task::Check" | "Task::Show" | "Task::Records" | "encode_over" => {
            task::call(out, rt, case)
        }
        "info_over" | "serve_on" => program::call(out, rt, case),
        "serve_datagrams" | "exchange_datagram" | "datagrams_on" | "info_datagram" => {
            datagrams::call(out, rt, case)
        }
        "serve" | "answer" | "append_answer" | "exchange" | "dump" => registry::call(out, rt, case),
        "read_call" | "read_reply" | "read_auth_sys" => messages::call(out, rt, case),
        "tokens" | "read_outline" | "read" | "read_tokens" | "directory_schema" => language::call(
            out, rt, case,
        ),
        "random_values" => random::call(out, case),
        _ => values::call(out, rt, case),
    }
}

// Reports a line: of calls of one registry, or of a case.
fn report(out: &mut Report, rt: &HostRuntime, line: &str) {
    match line.strip_prefix("call=Directory ; ") {
        Some(calls) => directory::calls(out, rt, calls),
        None => call(out, rt, &Case::read(rt.alloc(), line)),
    }
}

// A line for the case of each line.
fn cases(rt: &HostRuntime) -> io::Result<()> {
    let alloc = rt.alloc();
    let mut out = BufWriter::new(alloc, io::writer(rt))?;
    for line in BufReader::new(alloc, rt.reader())?.lines(alloc) {
        let line = line?;
        let mut told = Report::new(alloc);
        report(&mut told, rt, line.as_str());
        told.push(b"\n");
        out.write_all(told.bytes())?;
    }
    out.flush()
}

fn main(rt: HostRuntime) -> ExitCode {
    match cases(&rt) {
        Ok(()) => ExitCode::from(0),
        Err(_) => ExitCode::from(1),
    }
}

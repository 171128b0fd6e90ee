//! One call a line, as `tool_probe` has them: a program of its own, so that its calls are proved apart. `test_lines`
//! reads what is asked for and writes the line of what is answered, and `tests/README.md` says how both are written.
//! Without a line nothing is called. Each module makes the calls of one subject:
//! - `json`: values as JSON. `reading`: JSON as values. `paths`: the part that a path names.
//! - `dialect`: texts in rpcgen's dialect. `bounds`: how many bytes values have.
//! - `schemas`: which lists of kinds make a schema, and what it notes of each. `kinds`: how such lists are written.
//! - `devices`: readers and writers of std. `segments`: the bytes of a direction of a connection.
//! - `sessions`: connections of a registry, served at once.
#![tactic(auto)]

mod bounds;
mod devices;
mod dialect;
mod json;
mod kinds;
mod paths;
mod reading;
mod schemas;
mod segments;
mod sessions;

use std::io::{self, BufRead, BufReader, BufWriter, Write};
use std::process::ExitCode;
use test_lines::case::Case;
use test_lines::reported::Report;

// Makes the call of a case, and reports how many growths of memory it met and what it answered.
fn call(out: &mut Report, rt: &HostRuntime, case: &Case<'_>) {
    match case.call() {
        "write_json" | "json_of_bytes" | "read_json" => json::call(out, rt, case),
        "read_dialect" | "join_texts" | "place_in" => dialect::call(out, rt, case),
        "Bounds::of" => bounds::call(out, rt, case),
        "find" => paths::call(out, rt, case),
        "Schema::build" => schemas::call(out, rt, case),
        "FromRead" | "IntoWrite" => devices::call(out, case),
        "Direction" => segments::call(out, case),
        _ => sessions::call(out, rt, case),
    }
}

// A line for the case of each line.
fn cases(rt: &HostRuntime) -> io::Result<()> {
    let alloc = rt.alloc();
    let mut out = BufWriter::new(alloc, io::writer(rt))?;
    for line in BufReader::new(alloc, rt.reader())?.lines(alloc) {
        let line = line?;
        let mut told = Report::new(alloc);
        call(&mut told, rt, &Case::read(alloc, line.as_str()));
        told.push(b"\n");
        out.write_all(told.bytes())?;
    }
    out.flush()
}

fn main(rt: HostRuntime) -> ExitCode {
    match cases(&rt) {
        Ok(()) => ExitCode::from(0),
        Err(_) => ExitCode::from(1),
    }
}

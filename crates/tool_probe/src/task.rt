//! Tasks of the program over memory: `Task::Check`, `Task::Show` and `Task::Records`, and `encode_over`. Where `types`
//! names a file, that of the name `a.x` has the text of the case.
use oncrpc_answers::{Dialect, RecordsTask, Task, Texts, ValueTask};
use oncrpc_encode::encode_over;
use oncrpc_tasks::{MemoryOpener, task_over};
use std::alloc::Global;
use std::env::Env;
use test_lines::case::{Case, allow};
use test_lines::reported::Report;
use xdr_io::{MemorySink, MemorySource};

// The file of declarations that is named, if one is.
fn types(case: &Case<'_>) -> Texts {
    let mut files = Vec::new(case.alloc);
    if case.has("types") {
        let _ = files.push(case.text("types"));
    }
    Texts {
        files,
        dialect: Dialect::Rfc,
    }
}

fn value_task(case: &Case<'_>) -> ValueTask {
    ValueTask {
        name: case.text("kind"),
        types: types(case),
        hex: case.has("hex"),
        depth: case.depth(),
        bytes: case.most(),
    }
}

// What the case asks for.
#[derive(Drop)]
enum Asked {
    Task(Task),
    Encode(ValueTask),
}

fn asked_for(case: &Case<'_>) -> Asked {
    match case.call() {
        "Task::Check" => Asked::Task(Task::Check(value_task(case))),
        "Task::Show" => Asked::Task(Task::Show(value_task(case))),
        "encode_over" => Asked::Encode(value_task(case)),
        _ => Asked::Task(Task::Records(RecordsTask {
            limit: case.whole("limit"),
            hex: case.has("hex"),
        })),
    }
}

/// A buffer of so many bytes, and some more.
pub fn buffer_for(alloc: Global, count: usize) -> Vec<u8> {
    match vec![in alloc; 0u8; count.saturating_add(4096)] {
        Ok(buffer) => buffer,
        Err(_) => Vec::new(alloc),
    }
}

/// What was written to both streams.
pub fn streams(out: &mut Report, output: &MemorySink<'_>, faults: &MemorySink<'_>) {
    out.word(" output=", output.written());
    out.word(" faults=", faults.written());
}

/// Reports the case: the exit status, and what was written to each stream.
pub fn call(out: &mut Report, rt: &impl Env, case: &Case<'_>) {
    let (text, input) = (case.bytes("text"), case.input());
    let asked = asked_for(case);
    let mut buffer = buffer_for(case.alloc, input.len());
    over(out, rt, case, &asked, &text, &input, &mut buffer);
}

fn over(
    out: &mut Report,
    rt: &impl Env,
    case: &Case<'_>,
    asked: &Asked,
    text: &[u8],
    input: &[u8],
    buffer: &mut [u8],
) {
    let mut said = [0u8; 128];
    let (read, write) = (case.piece("read"), case.piece("write"));
    let before = case.refuse(rt);
    let mut opener = MemoryOpener::new("a.x", text, read, case.failing("types-read-fails"));
    let mut source = MemorySource::new(input, read, case.failing("read-fails"));
    let mut output = MemorySink::new(buffer, write, case.failing("write-fails"));
    let mut faults = MemorySink::new(&mut said, write, case.failing("faults-write-fails"));
    let status = match asked {
        Asked::Task(task) => task_over(
            case.alloc,
            task,
            &mut opener,
            &mut source,
            &mut output,
            &mut faults,
        ),
        Asked::Encode(what) => encode_over(
            case.alloc,
            what,
            &mut opener,
            &mut source,
            &mut output,
            &mut faults,
        ),
    };
    out.ended(allow(rt, before), status);
    streams(out, &output, &faults);
}

//! The program over the system: words, files and standard streams.
ghost use Rattle.std.specs.Prelude.{◌≤◌};

use crate::calling::call;
use crate::files::FileOpener;
use crate::keeping::keep;
use crate::network::{info, serve};
use crate::pinging::ping;
use crate::watching::{capture, messages};
use oncrpc_answers::{Failure, Task, TypesTask, ValueTask, report};
use oncrpc_encode::encode_over;
use oncrpc_tasks::task_over;
use oncrpc_types::types_over;
use oncrpc_words::{Request, WordsFault, no_memory, print_words_fault, read_words};
use std::alloc::Global;
use std::{env, io};
use xdr_io::{FromRead, IntoWrite, Sink};

/// Does what the words ask, and gives the exit status.
pub fn run(rt: &HostRuntime) -> u8
    ensures { result ≤ 4 }
{
    let mut output = IntoWrite::new(rt.stdout());
    let mut faults = IntoWrite::new(rt.stderr());
    match read_request(rt) {
        Ok(Request::Offline(task)) => offline(rt, &task, &mut output, &mut faults),
        Ok(Request::Encode(what)) => encode(rt, &what, &mut output, &mut faults),
        Ok(Request::Types(what)) => types(rt, &what, &mut output, &mut faults),
        Ok(Request::Messages(what)) => messages(rt, what, &mut output, &mut faults),
        Ok(Request::Capture(what)) => capture(rt, what, &mut output, &mut faults),
        Ok(Request::Info(what)) => info(rt, &what, &mut output, &mut faults),
        Ok(Request::Call(what)) => call(rt, &what, &mut output, &mut faults),
        Ok(Request::Ping(what)) => ping(rt, &what, &mut output, &mut faults),
        Ok(Request::Serve(what)) => serve(rt, &what, &mut output, &mut faults),
        Ok(Request::Keep(what)) => keep(rt, &what, &mut output, &mut faults),
        Err(fault) => print_words_fault(&fault, &mut output, &mut faults),
    }
}

// A task over standard input, standard output and the system's files.
fn offline<O: Sink, F: Sink>(rt: &HostRuntime, task: &Task, output: &mut O, faults: &mut F) -> u8
    ensures { result ≤ 4 }
{
    let Ok(mut opener) = FileOpener::new(rt) else {
        return report(Failure::NoMemory, faults);
    };
    let mut input = FromRead::new(rt.stdin());
    task_over(rt.alloc(), task, &mut opener, &mut input, output, faults)
}

// A value of standard input as JSON, to its bytes on standard output.
fn encode<O: Sink, F: Sink>(
    rt: &HostRuntime,
    what: &ValueTask,
    output: &mut O,
    faults: &mut F,
) -> u8
    ensures { result ≤ 4 }
{
    let Ok(mut opener) = FileOpener::new(rt) else {
        return report(Failure::NoMemory, faults);
    };
    let mut input = FromRead::new(rt.stdin());
    encode_over(rt.alloc(), what, &mut opener, &mut input, output, faults)
}

// What texts of the system's files declare, to standard output.
fn types<O: Sink, F: Sink>(rt: &HostRuntime, what: &TypesTask, output: &mut O, faults: &mut F) -> u8
    ensures { result ≤ 4 }
{
    let Ok(mut opener) = FileOpener::new(rt) else {
        return report(Failure::NoMemory, faults);
    };
    types_over(rt.alloc(), what, &mut opener, output, faults)
}

fn read_request(rt: &HostRuntime) -> Result<Request, WordsFault> {
    let alloc = rt.alloc();
    let args = match env::args(rt) {
        Ok(args) => args,
        Err(error) => return Err(unread_words(alloc, &error)),
    };
    match args.skip(1).collect::<Vec<String>>(alloc) {
        Ok(words) => read_words(alloc, words),
        Err(_) => Err(no_memory(alloc)),
    }
}

// A word that is no text is a refused word.
fn unread_words(alloc: Global, error: &io::Error) -> WordsFault {
    let refused = error.kind() != io::ErrorKind::OutOfMemory;
    match String::from_str(alloc, "error: a word is not text\n") {
        Ok(text) if refused => WordsFault { text, status: 2 },
        _ => no_memory(alloc),
    }
}

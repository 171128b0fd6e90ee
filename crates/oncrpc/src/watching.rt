//! What peers said, read and judged.
ghost use Rattle.std.specs.Prelude.{◌≤◌};

use crate::files::FileOpener;
use crate::installed::installed_texts;
use oncrpc_answers::{Failure, report};
use oncrpc_capture::capture_over;
use oncrpc_watch::{Known, Style, messages_over};
use oncrpc_words::{CaptureTask, MessagesTask};
use xdr_io::{FromRead, Sink};

/// The messages of standard input, to standard output.
pub fn messages<O: Sink, F: Sink>(
    rt: &HostRuntime,
    what: MessagesTask,
    output: &mut O,
    faults: &mut F,
) -> u8
    ensures { result ≤ 4 }
{
    let Ok(mut opener) = FileOpener::new(rt) else {
        return report(Failure::NoMemory, faults);
    };
    let texts = match installed_texts(rt) {
        Ok(texts) => texts,
        Err(failure) => return report(failure, faults),
    };
    let known = Known {
        alloc: rt.alloc(),
        texts: &texts,
    };
    let task = oncrpc_watch::MessagesTask {
        types: what.types,
        replies: what.replies,
        style: Style {
            json: what.json,
            brief: what.brief,
        },
    };
    let input = FromRead::new(rt.stdin());
    messages_over(known, &task, &mut opener, input, output, faults)
}

/// The messages of a capture, to standard output.
pub fn capture<O: Sink, F: Sink>(
    rt: &HostRuntime,
    what: CaptureTask,
    output: &mut O,
    faults: &mut F,
) -> u8
    ensures { result ≤ 4 }
{
    let Ok(mut opener) = FileOpener::new(rt) else {
        return report(Failure::NoMemory, faults);
    };
    let texts = match installed_texts(rt) {
        Ok(texts) => texts,
        Err(failure) => return report(failure, faults),
    };
    let known = Known {
        alloc: rt.alloc(),
        texts: &texts,
    };
    let task = oncrpc_capture::CaptureTask {
        file: what.file,
        types: what.types,
        ports: what.ports,
        style: Style {
            json: what.json,
            brief: what.brief,
        },
        stats: what.stats,
    };
    let input = FromRead::new(rt.stdin());
    capture_over(known, &task, &mut opener, input, output, faults)
}

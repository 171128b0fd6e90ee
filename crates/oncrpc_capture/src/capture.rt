//! The messages of a capture, printed and judged.
ghost use Rattle.std.specs.Prelude.{◌≡◌, ◌≤◌, IfOk, string_bytes};
ghost use Rattle.xdr_lang.specs.Views.{declared_of};
ghost use Rattle.oncrpc_messages.specs.Heads.{heads_of};
ghost use Rattle.oncrpc_watch.specs.MessagesEnd.{form_of, terms_in};
ghost use Rattle.oncrpc_watch.specs.Terms.{each_declared, terms_of};
ghost use Rattle.oncrpc_capture.specs.CaptureEnd.{CaptureEnd, PrintsPackets};
ghost use Rattle.oncrpc_capture.specs.Private.Steps.{IsOpened, PrintsBy};

use crate::desk::Desk;
use crate::task::CaptureTask;
use oncrpc_answers::{Failure, report};
use oncrpc_messages::{Form, Heads, read_heads};
use oncrpc_tasks::{Opener, declared, refuse_texts};
use oncrpc_watch::{Known, Style, Terms, Watch};
use xdr_io::{Sink, Source};
use xdr_lang::Declared;
use xdr_types::Limits;

/// Prints each message of a capture, and a closing line of counts; or counts by procedure, by reason and of the slowest
/// replies. The status is 0, or 1 where anything was refused. It is 2 for texts that are refused, 3 where a device
/// failed, and 4 for an allocation failure.
pub fn capture_over<P: Opener, I: Source + Drop, O: Sink, F: Sink>(
    known: Known<'_>,
    what: &CaptureTask,
    opener: &mut P,
    input: I,
    output: &mut O,
    faults: &mut F,
) -> u8
    ensures { CaptureEnd (each_declared known.entry.texts.now) (P.reported opener.old) what.now (I.left input)
        O.taken output.old output.new result }
{
    let file = match file_of(what, opener) {
        Ok(file) => file,
        Err(failure) => return report(failure, faults),
    };
    let declared = match declared(known.alloc, &what.types, opener) {
        Ok(declared) => declared,
        Err(why) => return refuse_texts(known.alloc, why, &what.types.files, faults),
    };
    match print_by(known, what, &declared, file, input, output) {
        Ok(status) => status,
        Err(failure) => report(failure, faults),
    }
}

// The file that is named; none where that is the input.
fn file_of<P: Opener>(what: &CaptureTask, opener: &mut P) -> Result<Option<P::Text>, Failure>
    ensures opened { IfOk result (λ file. IsOpened P.Text.left (P.reported opener.old) (string_bytes what.now.file)
        file) }
    ensures same { P.reported opener.new ≡ P.reported opener.old }
{
    if what.file.as_str() == "-" {
        return Ok(None);
    }
    match opener.open(what.file.as_str()) {
        Ok(file) => Ok(Some(file)),
        Err(_) => Err(Failure::Read),
    }
}

// The messages, by what is declared: of the file, or of the input.
fn print_by<R: Source + Drop, I: Source + Drop, O: Sink>(
    known: Known<'_>,
    what: &CaptureTask,
    declared: &Declared,
    file: Option<R>,
    input: I,
    output: &mut O,
) -> Result<u8, Failure>
    ensures few { IfOk result (λ status. status ≤ 1) }
    ensures prints { IfOk result (λ status. PrintsBy R.left (each_declared known.entry.texts.now)
        (declared_of declared.now) what.now file (I.left input) (O.taken output.old) (O.taken output.new) status) }
{
    let heads = read_heads(known.alloc)?;
    let terms = terms_by(known, declared, &heads, what.style);
    match file {
        None => {
            let status = print_of(&terms, known, what, input, output)?;
            Ok(status)
        }
        Some(file) => {
            let printed = print_of(&terms, known, what, file, output)?;
            Ok(printed)
        }
    }
}

// By what messages are judged and printed.
fn terms_by<'a>(
    known: Known<'a>,
    declared: &'a Declared,
    heads: &'a Heads,
    style: Style,
) -> Terms<'a>
    ensures { terms_of result ≡ terms_in (each_declared known.entry.texts.now) (declared_of declared.now)
        (heads_of heads.now) style }
{
    Terms {
        declared,
        known: known.texts,
        heads,
        limits: Limits::new(4096, 16777216).unwrap(),
        form: form_of(style.json),
        brief: style.brief,
    }
}

fn form_of(json: bool) -> Form
    ensures { result ≡ form_of json }
{
    if json { Form::Json } else { Form::Lines }
}

// The messages of a file, and the closing lines.
fn print_of<I: Source + Drop, O: Sink>(
    terms: &Terms<'_>,
    known: Known<'_>,
    what: &CaptureTask,
    file: I,
    output: &mut O,
) -> Result<u8, Failure>
    ensures few { IfOk result (λ status. status ≤ 1) }
    ensures prints { IfOk result (λ status. PrintsPackets (terms_of terms.now) what.now.ports.items what.now.stats
        (I.left file) (O.taken output.old) (O.taken output.new) status) }
{
    let watch = Watch::new(known.alloc, terms);
    let mut desk = Desk::new(known.alloc, watch, &what.ports, what.stats);
    desk.finish(file, output)
}

//! The messages of a stream of records, printed and judged.
ghost use Rattle.std.specs.Prelude.{◌≡◌, ◌≤◌, ◌⊎◌, ℕ, List, Option, IfErr, IfOk, OnErr, OnOk};
ghost use Rattle.xdr_io.specs.Reported.{Counts};
ghost use Rattle.xdr_lang.specs.Views.{declared_of};
ghost use Rattle.oncrpc_messages.specs.Heads.{heads_of};
ghost use Rattle.oncrpc_watch.specs.Ends.{MessagesEnd};
ghost use Rattle.oncrpc_watch.specs.MessagesEnd.{PrintsBoth, PrintsInput, form_of, terms_in};
ghost use Rattle.oncrpc_watch.specs.Private.Steps.{CloseFails, Closes, IsOpened, IsUnopened, PrintsBy, PrintsIn};
ghost use Rattle.oncrpc_watch.specs.Private.Steps.{PrintsPartBy, PrintsPartIn, Reports, ReportsOther, sunk};
ghost use Rattle.oncrpc_watch.specs.Stopped.{PrintsBothPart, PrintsInputPart};
ghost use Rattle.oncrpc_watch.specs.Represents.{IsAt};
ghost use Rattle.oncrpc_watch.specs.Run.{nothing};
ghost use Rattle.oncrpc_watch.specs.Terms.{each_declared, terms_of};

use crate::both::tell_both;
use crate::counts::counts_line;
use crate::stream::Stream;
use crate::style::Style;
use crate::task::{Known, MessagesTask};
use crate::terms::Terms;
use crate::watch::Watch;
use oncrpc_answers::{Failure, report};
use oncrpc_messages::{Form, Heads, read_heads};
use oncrpc_tasks::{Opener, declared, refuse_texts};
use std::alloc::Global;
use xdr_io::{Sink, Source, write_whole};
use xdr_lang::Declared;
use xdr_types::Limits;

/// Prints each message of the input, and of the file with the other direction, and a closing line of counts. A reply is
/// read by the kinds of the call of its xid. With a second file its messages are printed as soon as their calls are
/// known: the input is read on for that while at most 65536 calls wait. The status is 0, or 1 where anything was
/// refused. It is 2 for texts that are refused, 3 where a device failed or more than 1048576 reads would be needed, and
/// 4 for an allocation failure. At 3 and 4 what was printed is a beginning of what would be.
pub fn messages_over<P: Opener, I: Source + Drop, O: Sink, F: Sink>(
    known: Known<'_>,
    what: &MessagesTask,
    opener: &mut P,
    input: I,
    output: &mut O,
    faults: &mut F,
) -> u8
    ensures { MessagesEnd (each_declared known.entry.texts.now) (P.reported opener.old) what.now
        (record { left = I.left; reads = I.reads; failures = I.failures; taken = O.taken; lost = O.failures })
        (record {
          left = P.Text.left;
          reads = P.Text.reads;
          failures = P.Text.failures;
          taken = O.taken;
          lost = O.failures;
        })
        (P.failures opener.old) (P.failures opener.new) input output.old output.new result }
{
    let other = match replies_of(what, opener) {
        Ok(other) => other,
        Err(failure) => return report(failure, faults),
    };
    let declared = match declared(known.alloc, &what.types, opener) {
        Ok(declared) => declared,
        Err(why) => return refuse_texts(known.alloc, why, &what.types.files, faults),
    };
    match print_by(known, &declared, what.style, input, other, output) {
        Ok(status) => status,
        Err(failure) => report(failure, faults),
    }
}

// The file with the other direction, where one is named.
fn replies_of<P: Opener>(what: &MessagesTask, opener: &mut P) -> Result<Option<P::Text>, Failure>
    ensures opened { IfOk result (λ text. IsOpened P.Text.left (P.reported opener.old) what.now.replies text) }
    ensures unopened { IfErr result (λ f.
        IsUnopened what.now.replies (P.failures opener.old) (P.failures opener.new) f) }
    ensures none_failed { OnOk result (Counts 0 (P.failures opener.old) (P.failures opener.new)) }
    ensures same { P.reported opener.new ≡ P.reported opener.old }
{
    match &what.replies {
        None => Ok(None),
        Some(name) => match opener.open(name.as_str()) {
            Ok(text) => Ok(Some(text)),
            Err(_) => Err(Failure::Read),
        },
    }
}

// The messages, by what is declared.
fn print_by<I: Source + Drop, R: Source + Drop, O: Sink>(
    known: Known<'_>,
    declared: &Declared,
    style: Style,
    input: I,
    other: Option<R>,
    output: &mut O,
) -> Result<u8, Failure>
    ensures few { IfOk result (λ status. status ≤ 1) }
    ensures prints { IfOk result (λ status. PrintsBy R.left (each_declared known.entry.texts.now)
        (declared_of declared.now) style other (I.left input) (O.taken output.old)
        (O.taken output.new) status) }
    ensures part { OnErr result ((output.new ≡ output.old) ⊎ PrintsPartBy R.left (each_declared known.entry.texts.now)
        (declared_of declared.now) style other (I.left input) (O.taken output.old) (O.taken output.new)) }
    ensures fails { IfErr result (λ f.
        Reports I.failures I.reads input (sunk O.taken O.failures output.old) (sunk O.taken O.failures output.new) f
        ⊎ ReportsOther R.failures R.reads other (sunk O.taken O.failures output.old)
        (sunk O.taken O.failures output.new) f) }
{
    let heads = read_heads(known.alloc)?;
    let terms = terms_by(known, declared, &heads, style);
    let mut watch = Watch::new(known.alloc, &terms);
    let status = print_in(known.alloc, &mut watch, input, other, output)?;
    Ok(status)
}

// By what messages are judged and printed.
fn terms_by<'a>(
    known: Known<'a>,
    declared: &'a Declared,
    heads: &'a Heads,
    style: Style,
) -> Terms<'a>
    ensures { terms_of result ≡ terms_in (each_declared known.entry.texts.now) (declared_of declared.now)
        (heads_of heads.now) style }
{
    Terms {
        declared,
        known: known.texts,
        heads,
        limits: Limits::new(4096, 16777216).unwrap(),
        form: form_of(style.json),
        brief: style.brief,
    }
}

fn form_of(json: bool) -> Form
    ensures { result ≡ form_of json }
{
    if json { Form::Json } else { Form::Lines }
}

// The messages of the input, and of the other direction where there is one.
fn print_in<I: Source + Drop, R: Source + Drop, O: Sink>(
    alloc: Global,
    watch: &mut Watch<'_>,
    input: I,
    other: Option<R>,
    output: &mut O,
) -> Result<u8, Failure>
    requires { IsAt watch.old nothing }
    ensures few { IfOk result (λ status. status ≤ 1) }
    ensures prints { IfOk result (λ status. PrintsIn R.left (terms_of watch.old.terms) other
        (I.left input) (O.taken output.old) (O.taken output.new) status) }
    ensures part { OnErr result (PrintsPartIn R.left (terms_of watch.old.terms) other
        (I.left input) (O.taken output.old) (O.taken output.new)) }
    ensures fails { IfErr result (λ f.
        Reports I.failures I.reads input (sunk O.taken O.failures output.old) (sunk O.taken O.failures output.new) f
        ⊎ ReportsOther R.failures R.reads other (sunk O.taken O.failures output.old)
        (sunk O.taken O.failures output.new) f) }
{
    match other {
        None => print_one(alloc, watch, input, output),
        Some(replies) => print_both(alloc, watch, input, replies, output),
    }
}

// The messages of the input.
fn print_one<I: Source + Drop, O: Sink>(
    alloc: Global,
    watch: &mut Watch<'_>,
    input: I,
    output: &mut O,
) -> Result<u8, Failure>
    requires { IsAt watch.old nothing }
    ensures few { IfOk result (λ status. status ≤ 1) }
    ensures prints { IfOk result (λ status. PrintsInput (terms_of watch.old.terms)
        (I.left input) (O.taken output.old) (O.taken output.new) status) }
    ensures part { OnErr result (PrintsInputPart (terms_of watch.old.terms)
        (I.left input) (O.taken output.old) (O.taken output.new)) }
    ensures fails { IfErr result (λ f.
        Reports I.failures I.reads input (sunk O.taken O.failures output.old) (sunk O.taken O.failures output.new) f) }
{
    let mut calls = Stream::new(alloc, "input", input);
    calls.tell_all(watch, output)?;
    let status = close(alloc, watch, output)?;
    Ok(status)
}

// Those of the input and of the other direction.
fn print_both<I: Source + Drop, R: Source + Drop, O: Sink>(
    alloc: Global,
    watch: &mut Watch<'_>,
    input: I,
    other: R,
    output: &mut O,
) -> Result<u8, Failure>
    requires { IsAt watch.old nothing }
    ensures few { IfOk result (λ status. status ≤ 1) }
    ensures prints { IfOk result (λ status. PrintsBoth (terms_of watch.old.terms)
        (I.left input) (R.left other) (O.taken output.old) (O.taken output.new) status) }
    ensures part { OnErr result (PrintsBothPart (terms_of watch.old.terms)
        (I.left input) (R.left other) (O.taken output.old) (O.taken output.new)) }
    ensures fails { IfErr result (λ f.
        Reports I.failures I.reads input (sunk O.taken O.failures output.old) (sunk O.taken O.failures output.new) f
        ⊎ Reports R.failures R.reads other (sunk O.taken O.failures output.old)
        (sunk O.taken O.failures output.new) f) }
{
    let mut calls = Stream::new(alloc, "input", input);
    let mut replies = Stream::new(alloc, "replies", other);
    tell_both(watch, &mut calls, &mut replies, output)?;
    let status = close(alloc, watch, output)?;
    Ok(status)
}

// The closing line, and the status.
fn close<O: Sink>(alloc: Global, watch: &Watch<'_>, output: &mut O) -> Result<u8, Failure>
    ensures few { IfOk result (λ status. status ≤ 1) }
    ensures closes { IfOk result (λ status. Closes watch.now (O.taken output.old) (O.taken output.new) status) }
    ensures fails { IfErr result (λ f.
        CloseFails watch.now (sunk O.taken O.failures output.old) (sunk O.taken O.failures output.new) f) }
{
    let counts = watch.counts();
    let line = counts_line(alloc, watch.form(), counts)?;
    write_whole(output, line.as_bytes())?;
    Ok(if counts.refused == 0 { 0 } else { 1 })
}

//! Values of a kind of the text, within the limits: `decode`, `parts`, and `Decoder` and `Checker`, in pieces as read,
//! over the input; `Decoder::feed`, both of them fed three pieces, cut at `first` and `second`, and `Decoder::held`,
//! what they hold between these; `Decoder::finish`, both of them ended before they are fed anything; `encode`,
//! `encode_to`, `show` and `Value::copy` of the value that begins the input. `writer` has the calls of values that
//! are written, and what comes next.
use crate::printed::{counted, progress};
use crate::sinking;
use crate::writer::{awaited, put_named, put_value};
use std::env::Env;
use test_lines::asked::{Asked, asked_of};
use test_lines::case::{Case, allow, since};
use test_lines::growths::{bytes, held};
use test_lines::lent::{part_words, refusal};
use test_lines::reported::Report;
use xdr_codec::{
    Checker, DecodeFault, Decoder, Held, Lent, Progress, WriteFault, decode, encode, encode_to,
    parts,
};
use xdr_io::MemorySink;
use xdr_lang::{Declared, read};
use xdr_show::show;
use xdr_types::{NoMemory, Value, fits};

/// Reports the case.
pub fn call(out: &mut Report, rt: &impl Env, case: &Case<'_>) {
    match read(case.alloc, &case.bytes("text")) {
        Ok(declared) => of_text(out, rt, case, &declared),
        Err(_) => out.text("the text is refused"),
    }
}

// Reports the case with its declarations.
fn of_text(out: &mut Report, rt: &impl Env, case: &Case<'_>, declared: &Declared) {
    match asked_of(case, declared) {
        Some(asked) => over(out, rt, case, &asked, &case.input()),
        None => out.text("no kind or no limits"),
    }
}

fn over(out: &mut Report, rt: &impl Env, case: &Case<'_>, asked: &Asked<'_>, input: &[u8]) {
    match case.call() {
        "decode" => decoded(out, rt, case, asked, input),
        "parts" => lent(out, rt, case, asked, input),
        "Decoder" => fed(out, rt, case, asked, input),
        "Checker" => checked(out, rt, case, asked, input),
        "Decoder::finish" => unfed(out, rt, case, asked),
        "Decoder::feed" => cut(out, case, asked, input),
        "Decoder::held" => retained(out, case, asked, input),
        "Checker::due" => awaited(out, case, asked, input),
        "Writer" => put_named(out, rt, case, asked),
        "Writer::put_to" => sinking::put_named(out, rt, case, asked),
        _ => of_bytes(out, rt, case, asked, input),
    }
}

// The word of a value's lines.
fn value_word(out: &mut Report, asked: &Asked<'_>, value: &Value) {
    let Asked {
        schema,
        kind,
        limits,
    } = *asked;
    out.begin(" value=");
    if fits(schema, kind, value, limits) {
        if let Ok(lines) = show(out.alloc, schema, kind, value, limits) {
            out.push(&lines);
        }
    }
    out.end();
}

// The end of an answer, and the lines of the value that it came to, if it came to one.
fn ended(out: &mut Report, asked: &Asked<'_>, value: &Result<Value, DecodeFault>) {
    out.end();
    match value {
        Ok(value) => value_word(out, asked, value),
        Err(_) => out.word(" value=", &[]),
    }
}

// Whether there is a value, or why its bytes are refused.
fn finished(out: &mut Report, value: &Result<Value, DecodeFault>) {
    match value {
        Ok(_) => out.text("ok"),
        Err(fault) => refusal(out, *fault),
    }
}

fn decoded(out: &mut Report, rt: &impl Env, case: &Case<'_>, asked: &Asked<'_>, input: &[u8]) {
    if !asked.schema.has(asked.kind) {
        return out.text("no kind");
    }
    let before = case.refuse(rt);
    let answer = decode(case.alloc, asked.schema, asked.kind, asked.limits, input);
    out.answer(allow(rt, before));
    match answer {
        Ok((value, used)) => {
            out.number("ok ", used as u64);
            out.end();
            value_word(out, asked, &value);
        }
        Err(fault) => {
            refusal(out, fault);
            out.end();
            out.word(" value=", &[]);
        }
    }
}

fn parts_words(out: &mut Report, parts: &[Lent<'_>]) {
    for (number, part) in parts.iter().enumerate() {
        out.between(number, "; ");
        part_words(out, part);
    }
}

fn lent(out: &mut Report, rt: &impl Env, case: &Case<'_>, asked: &Asked<'_>, input: &[u8]) {
    if !asked.schema.has(asked.kind) {
        return out.text("no kind");
    }
    let before = case.refuse(rt);
    let first = bytes(rt).unwrap_or(0);
    let answer = parts(case.alloc, asked.schema, asked.kind, asked.limits, input);
    let asked_for = bytes(rt).unwrap_or(0).saturating_sub(first);
    out.answer(allow(rt, before));
    match &answer {
        Ok(parts) => parts_words(out, parts),
        Err(fault) => refusal(out, *fault),
    }
    out.end();
    out.number(" asked=", asked_for);
}

// Feeds a decoder pieces of this size up to an answer that is not `More`, and gives how many it was fed and that
// answer.
fn feed_decoder(
    decoder: &mut Decoder<'_>,
    input: &[u8],
    piece: usize,
) -> (u64, Result<Progress, DecodeFault>) {
    let mut pieces = 0u64;
    let mut answer = decoder.feed(&[]);
    for part in input.chunks(piece.max(1)) {
        if answer == Ok(Progress::More) {
            pieces = pieces.saturating_add(1);
            answer = decoder.feed(part);
        }
    }
    (pieces, answer)
}

// The same of a checker.
fn feed_checker(
    checker: &mut Checker<'_>,
    input: &[u8],
    piece: usize,
) -> (u64, Result<Progress, DecodeFault>) {
    let mut pieces = 0u64;
    let mut answer = checker.feed(&[]);
    for part in input.chunks(piece.max(1)) {
        if answer == Ok(Progress::More) {
            pieces = pieces.saturating_add(1);
            answer = checker.feed(part);
        }
    }
    (pieces, answer)
}

// How many growths were met, how many pieces were fed, the last answer, and with memory again what nothing more is
// answered.
fn fed_words(
    out: &mut Report,
    met: u64,
    fed: (u64, Result<Progress, DecodeFault>),
    again: Result<Progress, DecodeFault>,
) {
    out.answer(met);
    out.number("", fed.0);
    out.text(" pieces; ");
    progress(out, fed.1);
    out.text("; ");
    progress(out, again);
    out.text("; ");
}

// How many growths nothing more and the end met.
fn late_words(out: &mut Report, late: u64) {
    out.number("; ", late);
    out.text(" growths");
}

fn fed(out: &mut Report, rt: &impl Env, case: &Case<'_>, asked: &Asked<'_>, input: &[u8]) {
    if !asked.schema.has(asked.kind) {
        return out.text("no kind");
    }
    let before = case.refuse(rt);
    let mut decoder = Decoder::start(case.alloc, asked.schema, asked.kind, asked.limits);
    let fed = feed_decoder(&mut decoder, input, case.piece("read"));
    let met = allow(rt, before);
    let again = decoder.feed(&[]);
    let retained = held(rt).unwrap_or(0);
    let value = decoder.finish();
    let freed = retained.saturating_sub(held(rt).unwrap_or(0));
    let late = since(rt, before).saturating_sub(met);
    fed_words(out, met, fed, again);
    finished(out, &value);
    late_words(out, late);
    ended(out, asked, &value);
    out.number(" freed=", freed);
}

fn checked(out: &mut Report, rt: &impl Env, case: &Case<'_>, asked: &Asked<'_>, input: &[u8]) {
    if !asked.schema.has(asked.kind) {
        return out.text("no kind");
    }
    let before = case.refuse(rt);
    let mut checker = Checker::start(case.alloc, asked.schema, asked.kind, asked.limits);
    let fed = feed_checker(&mut checker, input, case.piece("read"));
    let met = allow(rt, before);
    let again = checker.feed(&[]);
    let count = checker.finish();
    let late = since(rt, before).saturating_sub(met);
    fed_words(out, met, fed, again);
    counted(out, count);
    late_words(out, late);
    out.end();
}

// What a decoder and a checker answer to the end before they are fed anything.
fn unfed(out: &mut Report, rt: &impl Env, case: &Case<'_>, asked: &Asked<'_>) {
    if !asked.schema.has(asked.kind) {
        return out.text("no kind");
    }
    let before = case.refuse(rt);
    let value = Decoder::start(case.alloc, asked.schema, asked.kind, asked.limits).finish();
    let count = Checker::start(case.alloc, asked.schema, asked.kind, asked.limits).finish();
    out.answer(allow(rt, before));
    finished(out, &value);
    out.text("; ");
    counted(out, count);
    ended(out, asked, &value);
}

// The part of the input between two places.
fn between(input: &[u8], from: usize, to: usize) -> &[u8] {
    input.get(from..to).unwrap_or(&[])
}

// Feeds a piece to a decoder and to a checker.
fn feed_both(out: &mut Report, decoder: &mut Decoder<'_>, checker: &mut Checker<'_>, piece: &[u8]) {
    progress(out, decoder.feed(piece));
    out.text("; ");
    progress(out, checker.feed(piece));
    out.text("; ");
}

// What a decoder and a checker answer to each of three pieces, and to the end.
fn cut(out: &mut Report, case: &Case<'_>, asked: &Asked<'_>, input: &[u8]) {
    if !asked.schema.has(asked.kind) {
        return out.text("no kind");
    }
    let (one, two) = (case.whole("first") as usize, case.whole("second") as usize);
    let mut decoder = Decoder::start(case.alloc, asked.schema, asked.kind, asked.limits);
    let mut checker = Checker::start(case.alloc, asked.schema, asked.kind, asked.limits);
    out.answer(0);
    feed_both(out, &mut decoder, &mut checker, between(input, 0, one));
    feed_both(out, &mut decoder, &mut checker, between(input, one, two));
    feed_both(
        out,
        &mut decoder,
        &mut checker,
        between(input, two, input.len()),
    );
    let value = decoder.finish();
    finished(out, &value);
    out.text("; ");
    counted(out, checker.finish());
    ended(out, asked, &value);
}

// What is held: frames, nodes of values, bytes of content, and bytes of a unit that is not whole.
fn held_words(out: &mut Report, held: Held) {
    out.number("", held.frames as u64);
    out.number(" ", held.nodes as u64);
    out.number(" ", held.bytes as u64);
    out.number(" ", held.pending as u64);
}

// What a decoder and a checker hold before and behind each of three pieces.
fn retained(out: &mut Report, case: &Case<'_>, asked: &Asked<'_>, input: &[u8]) {
    if !asked.schema.has(asked.kind) {
        return out.text("no kind");
    }
    let (one, two) = (case.whole("first") as usize, case.whole("second") as usize);
    let mut decoder = Decoder::start(case.alloc, asked.schema, asked.kind, asked.limits);
    let mut checker = Checker::start(case.alloc, asked.schema, asked.kind, asked.limits);
    out.answer(0);
    held_words(out, decoder.held());
    out.text("; ");
    held_words(out, checker.held());
    for (from, to) in [(0, one), (one, two), (two, input.len())] {
        out.text("; ");
        feed_both(out, &mut decoder, &mut checker, between(input, from, to));
        held_words(out, decoder.held());
        out.text("; ");
        held_words(out, checker.held());
    }
    out.end();
}

// Reports the value that begins the input.
fn of_bytes(out: &mut Report, rt: &impl Env, case: &Case<'_>, asked: &Asked<'_>, input: &[u8]) {
    if !asked.schema.has(asked.kind) {
        return out.text("no kind");
    }
    match decode(case.alloc, asked.schema, asked.kind, asked.limits, input) {
        Ok((value, _used)) => of_value(out, rt, case, asked, &value),
        Err(_) => out.text("no value"),
    }
}

fn of_value(out: &mut Report, rt: &impl Env, case: &Case<'_>, asked: &Asked<'_>, value: &Value) {
    match case.call() {
        "encode" => encoded(out, rt, case, asked, value),
        "show" => shown(out, rt, case, asked, value),
        "encode_to" => sent(out, rt, case, asked, value),
        "Writer::put" => put_value(out, rt, case, asked, value),
        _ => copied(out, rt, case, value),
    }
}

fn encoded(out: &mut Report, rt: &impl Env, case: &Case<'_>, asked: &Asked<'_>, value: &Value) {
    let Asked {
        schema,
        kind,
        limits,
    } = *asked;
    if !fits(schema, kind, value, limits) {
        return out.text("the value does not fit");
    }
    let before = case.refuse(rt);
    let answer = encode(case.alloc, schema, kind, value, limits);
    bytes_words(out, allow(rt, before), &answer);
}

/// The words of bytes, or of an allocation failure.
pub fn bytes_words(out: &mut Report, met: u64, answer: &Result<Vec<u8>, NoMemory>) {
    match answer {
        Ok(bytes) => {
            out.answered(met, "ok");
            out.digits(" output=", bytes);
        }
        Err(_) => out.answered(met, "out of memory"),
    }
}

fn shown(out: &mut Report, rt: &impl Env, case: &Case<'_>, asked: &Asked<'_>, value: &Value) {
    let Asked {
        schema,
        kind,
        limits,
    } = *asked;
    if !fits(schema, kind, value, limits) {
        return out.text("the value does not fit");
    }
    let before = case.refuse(rt);
    let answer = show(case.alloc, schema, kind, value, limits);
    let met = allow(rt, before);
    match &answer {
        Ok(lines) => {
            out.answered(met, "ok");
            out.word(" output=", lines);
        }
        Err(_) => out.answered(met, "out of memory"),
    }
}

// How many bytes went out, or after how many a write failed.
fn sent_words(out: &mut Report, answer: Result<u32, WriteFault>) {
    match answer {
        Ok(used) => out.number("ok ", u64::from(used)),
        Err(fault) => out.number("write fault after ", u64::from(fault.written)),
    }
    out.end();
}

fn sent(out: &mut Report, rt: &impl Env, case: &Case<'_>, asked: &Asked<'_>, value: &Value) {
    let Asked {
        schema,
        kind,
        limits,
    } = *asked;
    if !fits(schema, kind, value, limits) {
        return out.text("the value does not fit");
    }
    let before = case.refuse(rt);
    let mut buffer = [0u8; 16384];
    let mut sink = MemorySink::new(
        &mut buffer,
        case.piece("write"),
        case.failing("write-fails"),
    );
    let answer = encode_to(&mut sink, schema, kind, value, limits);
    out.answer(allow(rt, before));
    sent_words(out, answer);
    out.digits(" output=", sink.written());
}

// Whether the copy of a value is equal to it.
fn copied(out: &mut Report, rt: &impl Env, case: &Case<'_>, value: &Value) {
    let before = case.refuse(rt);
    let answer = value.copy(case.alloc);
    let met = allow(rt, before);
    match &answer {
        Ok(copy) if *copy == *value => out.answered(met, "equal"),
        Ok(_) => out.answered(met, "not equal"),
        Err(_) => out.answered(met, "out of memory"),
    }
}

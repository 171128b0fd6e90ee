//! A value's encoding, written item by item: of the items that a case has (`Writer`), or of those of the value that
//! begins the input (`Writer::put`), behind `front`. And what comes next (`Checker::due`), before the input and behind
//! each piece of it.
use crate::items::{case_items, items_of, push_items};
use crate::printed::progress;
use std::env::Env;
use test_lines::asked::Asked;
use test_lines::case::{Case, allow, joined, since};
use test_lines::growths::held;
use test_lines::lent::refusal;
use test_lines::reported::Report;
use xdr_codec::{Checker, DecodeFault, Due, Reason};
use xdr_types::Value;
use xdr_writer::{Item, Step, Why, WriteRefusal, Writer};

// Why decoding refuses the bytes of an item, or memory was refused.
fn fault_words(out: &mut Report, fault: DecodeFault) {
    match fault.why {
        Reason::NoMemory => out.text("out of memory"),
        _ => refusal(out, fault),
    }
}

/// Why an item is refused, and how many were taken before it.
pub fn refusal_words(out: &mut Report, refused: WriteRefusal) {
    match refused.why {
        Why::Refused(fault) => fault_words(out, fault),
        Why::NoMemory => out.text("out of memory"),
        why => out.name("refused ", &why),
    }
    out.number(", item ", refused.item as u64);
}

fn step_words(out: &mut Report, answer: Result<Step, WriteRefusal>) {
    match answer {
        Ok(Step::More) => out.text("more"),
        Ok(Step::Done) => out.text("done"),
        Err(refused) => refusal_words(out, refused),
    }
    out.text("; ");
}

/// What is answered to the end.
pub fn end_words(out: &mut Report, answer: Result<u32, WriteRefusal>) {
    match answer {
        Ok(count) => out.number("ok ", u64::from(count)),
        Err(refused) => refusal_words(out, refused),
    }
}

// What is answered to items, and the bytes that were written.
#[derive(Drop)]
struct Answered {
    steps: Vec<Result<Step, WriteRefusal>>,
    bytes: Vec<u8>,
}

// Puts items up to the first that is refused, and gives how many were taken.
fn put_taken(writer: &mut Writer<'_>, items: &[Item<'_>], answered: &mut Answered) -> usize {
    for (number, item) in items.iter().enumerate() {
        let step = writer.put(*item, &mut answered.bytes);
        let _pushed = answered.steps.push(step);
        if step.is_err() {
            return number;
        }
    }
    items.len()
}

// Puts items, whatever is answered.
fn put_all(writer: &mut Writer<'_>, items: &[Item<'_>], answered: &mut Answered) {
    for item in items {
        let step = writer.put(*item, &mut answered.bytes);
        let _pushed = answered.steps.push(step);
    }
}

// What was answered up to the end, which met so many growths, and what was written.
fn answer_words(
    out: &mut Report,
    answered: &Answered,
    end: Result<u32, WriteRefusal>,
    late: u64,
    kept: u64,
) {
    for step in &answered.steps {
        step_words(out, *step);
    }
    end_words(out, end);
    out.number("; ", late);
    out.text(" growths");
    out.end();
    out.digits(" output=", &answered.bytes);
    out.number(" held=", kept);
}

// What is answered to each item; with memory again to the first that is refused and those behind it; and to the end.
fn put_words(
    out: &mut Report,
    rt: &impl Env,
    case: &Case<'_>,
    asked: &Asked<'_>,
    items: &[Item<'_>],
) {
    // The room for the answers is there before any growth is refused.
    let room = Vec::with_capacity(case.alloc, items.len().saturating_add(1));
    let Ok(steps) = room else {
        return out.text("no room for answers");
    };
    if !asked.schema.has(asked.kind) {
        return out.text("no kind");
    }
    let bytes = joined(Vec::new(case.alloc), &case.bytes("front"));
    let mut answered = Answered { steps, bytes };
    let before = case.refuse(rt);
    let first = held(rt).unwrap_or(0);
    let mut writer = Writer::start(case.alloc, asked.schema, asked.kind, asked.limits);
    let taken = put_taken(&mut writer, items, &mut answered);
    let met = allow(rt, before);
    let kept = held(rt).unwrap_or(0).saturating_sub(first);
    put_all(
        &mut writer,
        items.get(taken..).unwrap_or(&[]),
        &mut answered,
    );
    let end = writer.finish();
    let late = since(rt, before).saturating_sub(met);
    out.answer(met);
    answer_words(out, &answered, end, late, kept);
}

/// Reports what is answered to the items of the case.
pub fn put_named(out: &mut Report, rt: &impl Env, case: &Case<'_>, asked: &Asked<'_>) {
    match case_items(case) {
        Some(named) => match items_of(case.alloc, &named) {
            Ok(items) => put_words(out, rt, case, asked, &items),
            Err(_) => out.text("no room for items"),
        },
        None => out.text("no items"),
    }
}

/// Reports what is answered to the items of a value.
pub fn put_value(
    out: &mut Report,
    rt: &impl Env,
    case: &Case<'_>,
    asked: &Asked<'_>,
    value: &Value,
) {
    let mut items = Vec::new(case.alloc);
    match push_items(&mut items, asked.schema, asked.kind, value) {
        Ok(()) => put_words(out, rt, case, asked, &items),
        Err(_) => out.text("no room for items"),
    }
}

// What comes next.
fn due_words(out: &mut Report, due: Due) {
    match due {
        Due::Unit(kind) => out.number("unit ", u64::from(kind.place)),
        Due::Content(count) => out.number("content ", u64::from(count)),
        Due::Hyper(true) => out.text("hyper"),
        Due::Hyper(false) => out.text("unsigned hyper"),
        Due::Low(true) => out.text("low of hyper"),
        Due::Low(false) => out.text("low of unsigned hyper"),
        Due::Nothing => out.text("nothing"),
    }
}

// What a checker answers to a piece, and what comes next behind it.
fn due_behind(out: &mut Report, checker: &mut Checker<'_>, piece: &[u8]) {
    out.text("; ");
    progress(out, checker.feed(piece));
    out.text("; ");
    due_words(out, checker.due());
}

/// Reports what comes next: before anything is given, behind no byte, and behind each piece of the input.
pub fn awaited(out: &mut Report, case: &Case<'_>, asked: &Asked<'_>, input: &[u8]) {
    if !asked.schema.has(asked.kind) {
        return out.text("no kind");
    }
    let mut checker = Checker::start(case.alloc, asked.schema, asked.kind, asked.limits);
    out.answer(0);
    due_words(out, checker.due());
    due_behind(out, &mut checker, &[]);
    for piece in input.chunks(case.piece("read").max(1)) {
        due_behind(out, &mut checker, piece);
    }
    out.end();
}

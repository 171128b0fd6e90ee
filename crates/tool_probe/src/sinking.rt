//! A value's encoding, written item by item into a sink (`Writer::put_to`): of the items that a case has. A write of
//! the sink takes as many bytes as the case says, and one may fail.
use crate::items::{case_items, items_of};
use crate::task::buffer_for;
use crate::writer::{end_words, refusal_words};
use std::env::Env;
use test_lines::asked::Asked;
use test_lines::case::{Case, allow, since};
use test_lines::reported::Report;
use xdr_io::MemorySink;
use xdr_writer::{Item, PutFault, Step, Writer};

type Answer = Result<Step, PutFault>;

// What is answered to an item.
fn answer_words(out: &mut Report, answer: Answer) {
    match answer {
        Ok(Step::More) => out.text("more"),
        Ok(Step::Done) => out.text("done"),
        Err(PutFault::Refused(refused)) => refusal_words(out, refused),
        Err(PutFault::Cut(cut)) => out.number("write fault after ", cut.written as u64),
    }
    out.text("; ");
}

// Whether an answer refuses the item.
fn is_refused(answer: Answer) -> bool {
    matches!(answer, Err(PutFault::Refused(_)))
}

// Puts items up to the first that is refused, and gives how many were taken.
fn put_taken(
    writer: &mut Writer<'_>,
    items: &[Item<'_>],
    buffer: &mut Vec<u8>,
    sink: &mut MemorySink<'_>,
    answers: &mut Vec<Answer>,
) -> usize {
    for (number, item) in items.iter().enumerate() {
        let answer = writer.put_to(*item, buffer, sink);
        let _pushed = answers.push(answer);
        if is_refused(answer) {
            return number;
        }
    }
    items.len()
}

// Puts items, whatever is answered.
fn put_all(
    writer: &mut Writer<'_>,
    items: &[Item<'_>],
    buffer: &mut Vec<u8>,
    sink: &mut MemorySink<'_>,
    answers: &mut Vec<Answer>,
) {
    for item in items {
        let _pushed = answers.push(writer.put_to(*item, buffer, sink));
    }
}

// What is answered to each item; with memory again to the first that is refused and those behind it; and to the end.
fn put_words(
    out: &mut Report,
    rt: &impl Env,
    case: &Case<'_>,
    asked: &Asked<'_>,
    items: &[Item<'_>],
) {
    // The room for the answers is there before any growth is refused.
    let room = Vec::with_capacity(case.alloc, items.len().saturating_add(1));
    let Ok(mut answers) = room else {
        return out.text("no room for answers");
    };
    if !asked.schema.has(asked.kind) {
        return out.text("no kind");
    }
    let mut room = buffer_for(case.alloc, case.word("items").len());
    let mut sink = MemorySink::new(&mut room, case.piece("write"), case.failing("write-fails"));
    let mut buffer = Vec::new(case.alloc);
    let before = case.refuse(rt);
    let mut writer = Writer::start(case.alloc, asked.schema, asked.kind, asked.limits);
    let taken = put_taken(&mut writer, items, &mut buffer, &mut sink, &mut answers);
    let met = allow(rt, before);
    let rest = items.get(taken..).unwrap_or(&[]);
    put_all(&mut writer, rest, &mut buffer, &mut sink, &mut answers);
    let end = writer.finish();
    let late = since(rt, before).saturating_sub(met);
    out.answer(met);
    for answer in &answers {
        answer_words(out, *answer);
    }
    end_words(out, end);
    out.number("; ", late);
    out.text(" growths");
    out.end();
    out.digits(" output=", sink.written());
}

/// Reports what is answered to the items of the case.
pub fn put_named(out: &mut Report, rt: &impl Env, case: &Case<'_>, asked: &Asked<'_>) {
    match case_items(case) {
        Some(named) => match items_of(case.alloc, &named) {
            Ok(items) => put_words(out, rt, case, asked, &items),
            Err(_) => out.text("no room for items"),
        },
        None => out.text("no items"),
    }
}

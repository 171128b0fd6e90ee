//! One direction of a connection, put together from its segments: `Direction`. The `events` of the case are calls of
//! it, one after another: `SEQUENCE:BYTES`, a segment, or `skip`, which skips a hole and hands on what stands behind
//! it. Of each is told what was answered, the place that is due then, how much is held, and what was handed on.
use capture_streams::{Direction, Refusal};
use test_lines::case::{Case, digits};
use test_lines::reported::Report;

fn answer_words(out: &mut Report, answer: Result<(), Refusal>) {
    match answer {
        Ok(()) => out.text("ok"),
        Err(Refusal::Full { taken }) => out.number("Full ", taken as u64),
        Err(Refusal::NoMemory { taken }) => out.number("NoMemory ", taken as u64),
        Err(Refusal::PlacesEnd) => out.text("PlacesEnd"),
    }
}

fn state_words(out: &mut Report, direction: &Direction, handed: &[u8]) {
    out.number(", ", direction.due());
    out.number(", ", direction.held() as u64);
    out.digits(", ", handed);
}

fn came(out: &mut Report, direction: &mut Direction, sequence: &str, content: &str) {
    let sequence = sequence.parse::<u32>().unwrap_or(0);
    let content = digits(out.alloc, content);
    let mut handed = Vec::new(out.alloc);
    answer_words(out, direction.take(sequence, &content, &mut handed));
    state_words(out, direction, &handed);
}

fn skipped(out: &mut Report, direction: &mut Direction) {
    let mut handed = Vec::new(out.alloc);
    match direction.skip_hole() {
        Some(missing) => out.number("skipped ", missing),
        None => out.text("none"),
    }
    if direction.hand_on(&mut handed).is_err() {
        out.text(" NoMemory");
    }
    state_words(out, direction, &handed);
}

/// Reports the case.
pub fn call(out: &mut Report, case: &Case<'_>) {
    let limit = case.whole("limit") as usize;
    let mut direction = Direction::start(case.alloc, case.whole("first"), limit);
    out.answer(0);
    for (number, event) in case.word("events").split(',').enumerate() {
        out.between(number, "; ");
        match event.split_once(':') {
            Some((sequence, content)) => came(out, &mut direction, sequence, content),
            None => skipped(out, &mut direction),
        }
    }
    out.end();
}

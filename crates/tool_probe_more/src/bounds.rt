//! How many bytes the values of a kind of a text have at least and at most: `Bounds::of`.
use std::env::Env;
use test_lines::case::{Case, allow};
use test_lines::reported::Report;
use xdr_bounds::{Bounds, Greatest, Range};
use xdr_lang::read;
use xdr_types::{KindId, NoMemory, Schema};

/// Reports the case.
pub fn call(out: &mut Report, rt: &impl Env, case: &Case<'_>) {
    match read(case.alloc, &case.bytes("text")) {
        Ok(declared) => match declared.schema.named(case.word("kind")) {
            Some(kind) => bounded(out, rt, case, &declared.schema, kind),
            None => out.text("no kind"),
        },
        Err(_) => out.text("the text is refused"),
    }
}

// Both counts.
fn range_words(out: &mut Report, range: &Range) {
    match range.least {
        Some(least) => out.number("", least),
        None => out.text("large"),
    }
    match range.greatest {
        Greatest::Bytes(count) => out.number(" ", count),
        Greatest::MoreThanU64 => out.text(" large"),
        Greatest::Unbounded => out.text(" unbounded"),
    }
}

fn bounds_words(out: &mut Report, kind: KindId, answer: &Result<Bounds, NoMemory>) {
    match answer {
        Ok(bounds) => match bounds.range(kind) {
            Some(range) => range_words(out, &range),
            None => out.text("no kind"),
        },
        Err(_) => out.text("out of memory"),
    }
    out.end();
}

fn bounded(out: &mut Report, rt: &impl Env, case: &Case<'_>, schema: &Schema, kind: KindId) {
    let before = case.refuse(rt);
    let answer = Bounds::of(case.alloc, schema);
    out.answer(allow(rt, before));
    bounds_words(out, kind, &answer);
}

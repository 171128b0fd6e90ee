//! The part of the value that begins the input which a path names (`find`), and the number that it has (`part_number`).
use std::env::Env;
use test_lines::asked::{Asked, asked_of};
use test_lines::case::{Case, allow};
use test_lines::lent::{part_words, refusal};
use test_lines::reported::Report;
use xdr_lang::read;
use xdr_parts::Lent;
use xdr_paths::{FindFault, find, part_number};
use xdr_types::Schema;

/// Reports the case.
pub fn call(out: &mut Report, rt: &impl Env, case: &Case<'_>) {
    match read(case.alloc, &case.bytes("text")) {
        Ok(declared) => match asked_of(case, &declared) {
            Some(asked) => found(out, rt, case, &asked),
            None => out.text("no kind or no limits"),
        },
        Err(_) => out.text("the text is refused"),
    }
}

// The part, and its number.
fn found_words(out: &mut Report, schema: &Schema, answer: &Result<Lent<'_>, FindFault>) {
    match answer {
        Ok(part) => {
            part_words(out, part);
            match part_number(schema, part) {
                Some(number) => out.signed("; ", number),
                None => out.text("; none"),
            }
        }
        Err(FindFault::Refused(fault)) => refusal(out, *fault),
        Err(FindFault::NoSuchPart) => out.text("no such part"),
    }
    out.end();
}

fn found(out: &mut Report, rt: &impl Env, case: &Case<'_>, asked: &Asked<'_>) {
    let Asked {
        schema,
        kind,
        limits,
    } = *asked;
    if !schema.has(kind) {
        return out.text("no kind");
    }
    let (input, path) = (case.input(), case.bytes("path"));
    let before = case.refuse(rt);
    let answer = find(case.alloc, schema, kind, limits, &input, &path);
    out.answer(allow(rt, before));
    found_words(out, schema, &answer);
}

//! Texts in rpcgen's dialect: `read_dialect`, what the text means where the names of the case are defined;
//! `join_texts`, the texts of the case as one, and `place_in`, the text of a line of all, and the line there.
use std::alloc::{AllocError, Global};
use std::env::Env;
use test_lines::case::{Case, allow};
use test_lines::declared::meaning_words;
use test_lines::reported::Report;
use xdr_rpcgen::{join_texts, place_in, read_dialect};

/// Reports the case.
pub fn call(out: &mut Report, rt: &impl Env, case: &Case<'_>) {
    match case.call() {
        "read_dialect" => meaning(out, rt, case, &case.bytes("text")),
        "join_texts" => joined(out, rt, case, &case.list("texts")),
        _ => placed(out, rt, case, &case.list("texts")),
    }
}

// The names that a case defines.
fn names_of<'a>(case: &Case<'a>) -> Vec<&'a str> {
    let mut names = Vec::new(case.alloc);
    if case.has("names") {
        for name in case.word("names").split(',') {
            let _pushed = names.push(name);
        }
    }
    names
}

fn meaning(out: &mut Report, rt: &impl Env, case: &Case<'_>, text: &[u8]) {
    let names = names_of(case);
    let before = case.refuse(rt);
    let answer = read_dialect(case.alloc, text, &names);
    meaning_words(out, allow(rt, before), &answer);
}

// The texts, each as its bytes.
fn texts_of(alloc: Global, texts: &[Vec<u8>]) -> Vec<&[u8]> {
    let mut all = Vec::new(alloc);
    for text in texts {
        let _pushed = all.push(text.as_slice());
    }
    all
}

fn joined_words(out: &mut Report, met: u64, answer: &Result<Vec<u8>, AllocError>) {
    match answer {
        Ok(text) => {
            out.answered(met, "ok");
            out.digits(" output=", text);
        }
        Err(_) => out.answered(met, "out of memory"),
    }
}

fn joined(out: &mut Report, rt: &impl Env, case: &Case<'_>, texts: &[Vec<u8>]) {
    let texts = texts_of(case.alloc, texts);
    let before = case.refuse(rt);
    let answer = join_texts(case.alloc, &texts);
    joined_words(out, allow(rt, before), &answer);
}

fn placed(out: &mut Report, rt: &impl Env, case: &Case<'_>, texts: &[Vec<u8>]) {
    let texts = texts_of(case.alloc, texts);
    let before = case.refuse(rt);
    let (number, line) = place_in(&texts, case.whole("line") as usize);
    out.answer(allow(rt, before));
    out.number("", number as u64);
    out.number(" ", line as u64);
    out.end();
}

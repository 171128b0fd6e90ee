//! The language of declarations, over the text alone: `tokens`; `read_outline`, how many constants, kinds, types and
//! programs its definitions declare; `read`, what it means, and `read_tokens`, what its tokens mean; and
//! `directory_schema`, the schema of the registry, of no text.
use rpc_directory::directory_schema;
use std::alloc::Global;
use std::env::Env;
use test_lines::case::{Case, allow};
use test_lines::declared::{meaning_words, schema_words};
use test_lines::reported::Report;
use xdr_grammar::read_outline;
use xdr_lang::{Declared, LangFault, located, read, read_tokens};
use xdr_tokens::{Fault, Token, tokens};

/// Reports the case.
pub fn call(out: &mut Report, rt: &impl Env, case: &Case<'_>) {
    let text = case.bytes("text");
    match case.call() {
        "tokens" => all_tokens(out, rt, case, &text),
        "read_outline" => outline(out, rt, case, &text),
        "directory_schema" => own_schema(out, rt, case),
        _ => meaning(out, rt, case, &text),
    }
}

// Why a text has no meaning, and how many bytes there are from there to its end.
fn fault(out: &mut Report, fault: Fault) {
    match fault {
        Fault::Refused { wrong, left } => {
            out.name("refused ", &wrong);
            out.number(", ", left as u64);
            out.text(" left");
        }
        Fault::NoMemory => out.text("out of memory"),
    }
}

// A token, and how many bytes there are from it to the end.
fn token(out: &mut Report, token: &Token<'_>) {
    let left = match token {
        Token::Word(word, left) => {
            out.name("word ", word);
            *left
        }
        Token::Name(name, left) => {
            out.text("name ");
            out.text(name);
            *left
        }
        Token::Number(number, left) => {
            out.signed("number ", *number);
            *left
        }
        Token::Sign(mark, left) => {
            out.name("mark ", mark);
            *left
        }
    };
    out.number(" ", left as u64);
}

fn all_tokens(out: &mut Report, rt: &impl Env, case: &Case<'_>, text: &[u8]) {
    let before = case.refuse(rt);
    let answer = tokens(case.alloc, text);
    out.answer(allow(rt, before));
    match &answer {
        Ok(found) => {
            for (number, each) in found.iter().enumerate() {
                out.between(number, "; ");
                token(out, each);
            }
        }
        Err(why) => fault(out, *why),
    }
    out.end();
}

// What the tokens of a text mean.
fn by_tokens(alloc: Global, text: &[u8]) -> Result<Declared, LangFault> {
    match tokens(alloc, text) {
        Ok(found) => read_tokens(alloc, text, &found),
        Err(fault) => Err(located(text, fault)),
    }
}

// How many constants, kinds, types and programs the text declares.
fn counted(alloc: Global, text: &[u8]) -> Result<[usize; 4], Fault> {
    let found = tokens(alloc, text)?;
    let outline = read_outline(alloc, &found)?;
    Ok([
        outline.constants.len(),
        outline.drafts.len(),
        outline.types.len(),
        outline.programs.len(),
    ])
}

fn counts_words(out: &mut Report, counts: [usize; 4]) {
    let [constants, kinds, types, programs] = counts;
    out.number("", constants as u64);
    out.number(" constants, ", kinds as u64);
    out.number(" kinds, ", types as u64);
    out.number(" types, ", programs as u64);
    out.text(" programs");
}

fn outline(out: &mut Report, rt: &impl Env, case: &Case<'_>, text: &[u8]) {
    let before = case.refuse(rt);
    let answer = counted(case.alloc, text);
    out.answer(allow(rt, before));
    match answer {
        Ok(counts) => counts_words(out, counts),
        Err(why) => fault(out, why),
    }
    out.end();
}

fn own_schema(out: &mut Report, rt: &impl Env, case: &Case<'_>) {
    let before = case.refuse(rt);
    let answer = directory_schema(case.alloc);
    let met = allow(rt, before);
    match &answer {
        Ok(schema) => {
            out.answered(met, "ok");
            schema_words(out, schema);
        }
        Err(_) => out.answered(met, "out of memory"),
    }
}

fn meaning(out: &mut Report, rt: &impl Env, case: &Case<'_>, text: &[u8]) {
    let before = case.refuse(rt);
    let answer = match case.call() {
        "read_tokens" => by_tokens(case.alloc, text),
        _ => read(case.alloc, text),
    };
    meaning_words(out, allow(rt, before), &answer);
}

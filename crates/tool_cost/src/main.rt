//! One call of the libraries on one value, again and again, for measurements: `tool_cost WORK NAME PIECE TIMES DEPTH
//! BYTES`. WORK is `decode` or `check`, which are fed by pieces of PIECE bytes, or `parts`, `counts`, `fits`, `size`
//! or `encode`, of which the last two ask first whether the value fits. NAME is the name of a type, DEPTH and BYTES
//! are the limits. Standard input is four bytes with the length of a text of declarations, the text, and the bytes of
//! the value. Without words it does nothing.
//!
//! A line is printed, which stands for the outcomes of all TIMES calls: each is added to three times the sum before
//! it. The outcome of `decode` is 0, of `check`, `size` and `encode` how many bytes the value has, of `parts` and
//! `counts` how many parts, of `fits` 1 or 0. That of refused bytes is 1,000,000,000,000, a thousand times the place,
//! and the number of the reason. `bench/shapes` counts the instructions of one call less those of none.
//!
//! - `pieces`: bytes that are fed to a decoder or a checker. `calls`: the works, and the outcomes of many calls.
#![tactic(auto)]

mod calls;
mod pieces;

use calls::outcomes;
use pieces::Given;
use std::alloc::Global;
use std::env;
use std::io::{self, Read, Write};
use std::process::ExitCode;
use xdr_lang::read;
use xdr_types::Limits;

/// What the words ask for.
#[derive(Drop)]
struct Question<'a> {
    work: &'a str,
    name: &'a str,
    piece: u32,
    times: u32,
    limits: Limits,
}

// The number that a word is.
fn number_of(word: &String) -> Option<u32> {
    word.as_str().parse::<u32>().ok()
}

// What the words ask for; none, where they are not as many, or no numbers.
fn asked(words: &[String]) -> Option<Question<'_>> {
    let [work, name, piece, times, depth, bytes] = words else {
        return None;
    };
    let limits = Limits::new(number_of(depth)?, number_of(bytes)?)?;
    Some(Question {
        work: work.as_str(),
        name: name.as_str(),
        piece: number_of(piece)?,
        times: number_of(times)?,
        limits,
    })
}

// All of standard input; nothing, where it cannot be read.
fn input(rt: &HostRuntime) -> Vec<u8> {
    let mut bytes = Vec::new(rt.alloc());
    match rt.reader().read_to_end(&mut bytes) {
        Ok(_) => bytes,
        Err(_) => Vec::new(rt.alloc()),
    }
}

// The outcomes of what is asked for; none, where the input has no such text or type, or there is no such work.
fn answer(alloc: Global, asked: &Question<'_>, input: &[u8]) -> Option<u64> {
    let [a, b, c, d, behind @ ..] = input else {
        return None;
    };
    let length = u32::from_be_bytes([*a, *b, *c, *d]) as usize;
    let (text, bytes) = behind.split_at(behind.len().min(length));
    let declared = read(alloc, text).ok()?;
    let given = Given {
        schema: &declared.schema,
        kind: declared.kind(asked.name)?,
        limits: asked.limits,
        bytes,
        piece: asked.piece as usize,
    };
    outcomes(alloc, asked.work, &given, asked.times)
}

// Does what the words ask for, and tells whether it was done.
fn does(rt: &HostRuntime, words: &[String]) -> bool {
    if words.is_empty() {
        return true;
    }
    let alloc = rt.alloc();
    let Some(asked) = asked(words) else {
        return false;
    };
    match answer(alloc, &asked, &input(rt)) {
        Some(sum) => match format!(in alloc; "{sum}\n") {
            Ok(line) => io::writer(rt).write_all(line.as_bytes()).is_ok(),
            Err(_) => false,
        },
        None => false,
    }
}

fn main(rt: HostRuntime) -> ExitCode {
    let words = match env::args(&rt) {
        Ok(args) => args.skip(1).collect::<Vec<String>>(rt.alloc()),
        Err(_) => return ExitCode::from(2),
    };
    match words {
        Ok(words) if does(&rt, words.as_slice()) => ExitCode::from(0),
        _ => ExitCode::from(1),
    }
}

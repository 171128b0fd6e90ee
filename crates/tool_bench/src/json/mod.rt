//! The calls of JSON on one value, again and again: `json WORK NAME TIMES`. WORK is `bytes` or `value`, the JSON of a
//! value by its bytes or by its tree; or `read`, the value that a JSON text spells, or `back`, its bytes. NAME is the
//! name of a type. Standard input is four bytes with the length of a text of declarations, the text, and the bytes of
//! the value, or the JSON.
//!
//! A line is printed: how many bytes all TIMES texts or encodings have together, of `read` how many values were read.
//! A JSON text that is refused counts 1,000,000,000,000 and its place. `bench/run json` times it.
mod calls;

use calls::{Given, outcomes};
use std::alloc::Global;
use std::io::{self, Read, Write};
use xdr_lang::read;
use xdr_types::Limits;

// All of standard input; nothing, where it cannot be read.
fn input(rt: &HostRuntime) -> Vec<u8> {
    let mut bytes = Vec::new(rt.alloc());
    match rt.reader().read_to_end(&mut bytes) {
        Ok(_) => bytes,
        Err(_) => Vec::new(rt.alloc()),
    }
}

// What the words ask for; none, where they are no such words, or the input has no such text or type.
fn answer(alloc: Global, words: &[String], input: &[u8]) -> Option<u64> {
    let ([work, name, times], [a, b, c, d, behind @ ..]) = (words, input) else {
        return None;
    };
    let length = u32::from_be_bytes([*a, *b, *c, *d]) as usize;
    let (text, rest) = behind.split_at(behind.len().min(length));
    let declared = read(alloc, text).ok()?;
    let given = Given {
        schema: &declared.schema,
        kind: declared.kind(name.as_str())?,
        limits: Limits::new(4096, 16777216)?,
        input: rest,
    };
    let times = times.as_str().parse::<u32>().ok()?;
    outcomes(alloc, work.as_str(), &given, times)
}

/// Does the work by the words WORK, NAME and TIMES, prints its line, and says whether that was done.
pub fn work(rt: &HostRuntime, words: &[String]) -> bool {
    let alloc = rt.alloc();
    match answer(alloc, words, &input(rt)) {
        Some(sum) => match format!(in alloc; "{sum}\n") {
            Ok(line) => io::writer(rt).write_all(line.as_bytes()).is_ok(),
            Err(_) => false,
        },
        None => false,
    }
}

//! Values judged as they come, as `oncrpc check` judges them: in pages, in segments, in pieces of a few bytes, and
//! written as hexadecimal; some of long enumerations and long unions.

use crate::digest::Digest;
use crate::random::Random;
use crate::results::{Sort, pool, push_value, spoil, type_of};
use crate::streams::{Digesting, Pieced, Pieces};
use crate::texts::push_long_kinds;
use oncrpc_tasks::check_over;
use std::alloc::Global;
use xdr_lang::{Declared, read};
use xdr_types::Limits;
use xdr_units::{NoMemory, push_word};

const DIGITS: &[u8; 16] = b"0123456789abcdef";

/// How a value is judged.
#[derive(Clone, Copy)]
pub struct Question {
    pub name: &'static str,
    pub pieces: Pieces,
    pub hex: bool,
}

/// Judges bytes, and adds the status and what was printed.
pub fn add_checked(
    alloc: Global,
    declared: &Declared,
    asked: Question,
    bytes: &[u8],
    random: &mut Random,
    digest: &mut Digest,
) {
    let (Some(kind), Some(limits)) = (declared.kind(asked.name), Limits::new(4096, 16777216)) else {
        return;
    };
    if !declared.schema.has(kind) {
        return;
    }
    let mut input = Pieced::new(bytes, asked.pieces, random);
    let mut output = Digesting::new();
    let mut faults = Digesting::new();
    let status = check_over(
        alloc,
        &mut input,
        &mut output,
        &mut faults,
        &declared.schema,
        kind,
        limits,
        asked.hex,
    );
    digest.number(u64::from(status));
    digest.number(output.value());
    digest.number(faults.value());
}

/// A digit of hexadecimal.
pub fn digit(value: u8) -> u8 {
    match DIGITS.get(value as usize) {
        Some(digit) => *digit,
        None => b'0',
    }
}

// The bytes as a text of hexadecimal, a line of 32 bytes each.
fn as_text(alloc: Global, bytes: &[u8]) -> Result<Vec<u8>, NoMemory> {
    let mut text = Vec::new(alloc);
    for (i, byte) in bytes.iter().enumerate() {
        text.push(digit(*byte / 16))?;
        text.push(digit(*byte % 16))?;
        if i % 32 == 31 {
            text.push(b'\n')?;
        }
    }
    Ok(text)
}

// The sort of value that comes next, of the types that are given.
fn next_sort(random: &mut Random) -> Sort {
    match random.below(8) {
        0..=3 => Sort::Directory(2000),
        4 => Sort::Files(2000),
        5 => Sort::Rows(1000),
        6 => Sort::Statuses(20000),
        _ => Sort::Content(262144),
    }
}

// How the bytes of the next value come.
fn next_pieces(random: &mut Random) -> Pieces {
    match random.below(4) {
        0 => Pieces::Pages,
        1 => Pieces::UpTo(40),
        _ => Pieces::Segments,
    }
}

// A list of numbers of a long enumeration, or of a long union.
fn push_long_list(out: &mut Vec<u8>, random: &mut Random, of_union: bool) -> Result<(), NoMemory> {
    let count = random.within(2000, 8000);
    push_word(out, count)?;
    for _ in 0..count {
        push_word(out, random.below(3000).saturating_mul(7))?;
        if of_union {
            push_word(out, random.word())?;
        }
    }
    Ok(())
}

// The bytes of a value of the types that are given, and their type.
fn push_given(
    out: &mut Vec<u8>,
    random: &mut Random,
    pool: &[u8],
) -> Result<&'static str, NoMemory> {
    let sort = next_sort(random);
    push_value(out, random, sort, pool)?;
    if random.one_in(16) {
        spoil(out, random);
    }
    Ok(type_of(sort))
}

// Judges a value of a long enumeration or a long union.
fn add_long(
    alloc: Global,
    long: &Declared,
    random: &mut Random,
    digest: &mut Digest,
) -> Result<(), NoMemory> {
    let of_union = random.one_in(2);
    let mut bytes = Vec::new(alloc);
    push_long_list(&mut bytes, random, of_union)?;
    let asked = Question {
        name: if of_union { "choices" } else { "codes" },
        pieces: Pieces::Segments,
        hex: false,
    };
    add_checked(alloc, long, asked, &bytes, random, digest);
    Ok(())
}

// Judges a value of the types that are given; one of eight as a text.
fn add_given(
    alloc: Global,
    declared: &Declared,
    random: &mut Random,
    pool: &[u8],
    digest: &mut Digest,
) -> Result<(), NoMemory> {
    let mut bytes = Vec::new(alloc);
    let name = push_given(&mut bytes, random, pool)?;
    let asked = Question {
        name,
        pieces: next_pieces(random),
        hex: random.one_in(8),
    };
    if asked.hex {
        let text = as_text(alloc, &bytes)?;
        add_checked(alloc, declared, asked, &text, random, digest);
        return Ok(());
    }
    add_checked(alloc, declared, asked, &bytes, random, digest);
    Ok(())
}

/// Judges so many values. One of eight is of a long enumeration or a long union.
pub fn work(
    alloc: Global,
    types: &[u8],
    random: &mut Random,
    rounds: u32,
    digest: &mut Digest,
) -> Result<bool, NoMemory> {
    let mut text = Vec::new(alloc);
    push_long_kinds(&mut text, 3000)?;
    let (Ok(declared), Ok(long)) = (read(alloc, types), read(alloc, &text)) else {
        return Ok(false);
    };
    let pool = pool(alloc, random, 70000)?;
    for _ in 0..rounds {
        if random.one_in(8) {
            add_long(alloc, &long, random, digest)?;
        } else {
            add_given(alloc, &declared, random, &pool, digest)?;
        }
    }
    Ok(true)
}

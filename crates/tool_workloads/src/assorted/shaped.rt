//! Lists of small structures of enumerations and booleans, and of fixed arrays of 60 and of 200 numbers, alone and in
//! unions: decoded and judged, whole and in segments.

use crate::digest::Digest;
use crate::random::Random;
use crate::results::spoil;
use crate::streams::SEGMENT;
use crate::values::{add_fault, add_outcome, decode_segments, decode_whole};
use std::alloc::Global;
use xdr_codec::{Checker, DecodeFault, Progress};
use xdr_lang::{Declared, read};
use xdr_types::{KindId, Limits, Schema};
use xdr_units::{NoMemory, push_word};

const TYPES: &[u8] = b"
    enum color { RED = 0, GREEN = 1, BLUE = 2 };
    struct pair { color first; color second; };
    struct mark { bool seen; color shade; int weight; bool kept; };
    typedef int sixty[60];
    typedef unsigned int many[200];
    union block switch (color which) { case RED: sixty few; case GREEN: many all; case BLUE: void; };
    typedef pair pairs<>;
    typedef mark marks<>;
    typedef sixty sixties<>;
    typedef many manies<>;
    typedef block blocks<>;
";

/// What a list has.
#[derive(Clone, Copy)]
enum Item {
    Pair,
    Mark,
    Sixty,
    Many,
    Block,
}

// Each item, the name of its lists, and how many it has in one at most.
const LISTS: [(Item, &str, u32); 5] = [
    (Item::Pair, "pairs", 800),
    (Item::Mark, "marks", 400),
    (Item::Sixty, "sixties", 32),
    (Item::Many, "manies", 10),
    (Item::Block, "blocks", 20),
];

fn push_numbers(out: &mut Vec<u8>, random: &mut Random, count: u32) -> Result<(), NoMemory> {
    for _ in 0..count {
        push_word(out, random.word())?;
    }
    Ok(())
}

// An item (RFC 4506 sections 4.3, 4.4, 4.12, 4.14 and 4.15).
fn push_item(out: &mut Vec<u8>, random: &mut Random, item: Item) -> Result<(), NoMemory> {
    match item {
        Item::Pair => {
            push_word(out, random.below(3))?;
            push_word(out, random.below(3))
        }
        Item::Mark => {
            push_word(out, random.below(2))?;
            push_word(out, random.below(3))?;
            push_word(out, random.word())?;
            push_word(out, random.below(2))
        }
        Item::Sixty => push_numbers(out, random, 60),
        Item::Many => push_numbers(out, random, 200),
        Item::Block => {
            let which = random.below(3);
            push_word(out, which)?;
            match which {
                0 => push_numbers(out, random, 60),
                1 => push_numbers(out, random, 200),
                _ => Ok(()),
            }
        }
    }
}

// A list of half to all so many items; one of sixteen has a byte that was changed.
fn push_list(
    out: &mut Vec<u8>,
    random: &mut Random,
    item: Item,
    most: u32,
) -> Result<(), NoMemory> {
    let count = random.within(most / 2, most);
    push_word(out, count)?;
    for _ in 0..count {
        push_item(out, random, item)?;
    }
    if random.one_in(16) {
        spoil(out, random);
    }
    Ok(())
}

// How many bytes the value has that comes by pieces of so many.
fn check_pieces(
    alloc: Global,
    schema: &Schema,
    kind: KindId,
    limits: Limits,
    bytes: &[u8],
    size: usize,
) -> Option<Result<u32, DecodeFault>> {
    if !schema.has(kind) || size == 0 {
        return None;
    }
    let mut checker = Checker::start(alloc, schema, kind, limits);
    let mut rest = bytes;
    for _ in 0..bytes.len() / size + 1 {
        let (piece, behind) = rest.split_at(rest.len().min(size));
        rest = behind;
        match checker.feed(piece) {
            Ok(Progress::More) => {}
            _ => break,
        }
    }
    Some(checker.finish())
}

// Judges bytes, whole and in segments, and adds what comes of it.
fn add_judged(
    alloc: Global,
    schema: &Schema,
    kind: KindId,
    limits: Limits,
    bytes: &[u8],
    digest: &mut Digest,
) {
    for size in [bytes.len().max(1), SEGMENT] {
        match check_pieces(alloc, schema, kind, limits, bytes, size) {
            Some(Ok(count)) => digest.number(u64::from(count)),
            Some(Err(fault)) => add_fault(digest, fault),
            None => digest.number(0),
        }
    }
}

// Decodes bytes, whole and in segments, and adds what comes of it.
fn add_made(
    alloc: Global,
    schema: &Schema,
    kind: KindId,
    limits: Limits,
    bytes: &[u8],
    digest: &mut Digest,
) -> Result<(), NoMemory> {
    let whole = decode_whole(alloc, schema, kind, limits, bytes, digest);
    add_outcome(alloc, schema, kind, limits, whole, digest)?;
    let cut = decode_segments(alloc, schema, kind, limits, bytes, digest);
    add_outcome(alloc, schema, kind, limits, cut, digest)
}

fn add_list(
    alloc: Global,
    declared: &Declared,
    name: &str,
    bytes: &[u8],
    digest: &mut Digest,
) -> Result<(), NoMemory> {
    let (Some(kind), Some(limits)) = (declared.kind(name), Limits::new(4096, 16777216)) else {
        return Ok(());
    };
    let schema = &declared.schema;
    add_made(alloc, schema, kind, limits, bytes, digest)?;
    add_judged(alloc, schema, kind, limits, bytes, digest);
    Ok(())
}

/// Decodes and judges so many lists of each item.
pub fn work(
    alloc: Global,
    random: &mut Random,
    rounds: u32,
    digest: &mut Digest,
) -> Result<bool, NoMemory> {
    let Ok(declared) = read(alloc, TYPES) else {
        return Ok(false);
    };
    let mut bytes = Vec::new(alloc);
    for _ in 0..rounds {
        for (item, name, most) in &LISTS {
            bytes.clear();
            push_list(&mut bytes, random, *item, *most)?;
            add_list(alloc, &declared, name, &bytes, digest)?;
        }
    }
    Ok(true)
}

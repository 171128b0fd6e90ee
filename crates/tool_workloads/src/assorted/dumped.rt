//! Values judged that come as `od -An -v -tx1` prints bytes: sixteen in a line, a blank before each.

use crate::check::{Question, add_checked, digit};
use crate::digest::Digest;
use crate::random::Random;
use crate::results::{Sort, pool, push_value, spoil, type_of};
use crate::streams::Pieces;
use std::alloc::Global;
use xdr_lang::read;
use xdr_units::NoMemory;

// The bytes as `od` prints them.
fn as_dump(alloc: Global, bytes: &[u8]) -> Result<Vec<u8>, NoMemory> {
    let mut text = Vec::new(alloc);
    for (i, byte) in bytes.iter().enumerate() {
        text.push(b' ')?;
        text.push(digit(*byte / 16))?;
        text.push(digit(*byte % 16))?;
        if i % 16 == 15 {
            text.push(b'\n')?;
        }
    }
    if bytes.len() % 16 > 0 {
        text.push(b'\n')?;
    }
    Ok(text)
}

// The sort of value that comes next.
fn next_sort(random: &mut Random) -> Sort {
    match random.below(4) {
        0 => Sort::Directory(80),
        1 => Sort::Files(80),
        2 => Sort::Statuses(2000),
        _ => Sort::Content(16384),
    }
}

/// Judges so many values. One of sixteen has a byte that was changed.
pub fn work(
    alloc: Global,
    types: &[u8],
    random: &mut Random,
    rounds: u32,
    digest: &mut Digest,
) -> Result<bool, NoMemory> {
    let Ok(declared) = read(alloc, types) else {
        return Ok(false);
    };
    let pool = pool(alloc, random, 8000)?;
    let mut bytes = Vec::new(alloc);
    for _ in 0..rounds {
        let sort = next_sort(random);
        bytes.clear();
        push_value(&mut bytes, random, sort, &pool)?;
        if random.one_in(16) {
            spoil(&mut bytes, random);
        }
        let asked = Question {
            name: type_of(sort),
            pieces: Pieces::Pages,
            hex: true,
        };
        let text = as_dump(alloc, &bytes)?;
        add_checked(alloc, &declared, asked, &text, random, digest);
    }
    Ok(true)
}

//! The bytes of values, of the types that `bench/x/workloads.x` declares (RFC 4506, RFC 1813, RFC 1833).

use crate::random::{Random, count_of};
use std::alloc::Global;
use xdr_units::{NoMemory, push_padded, push_word};

/// What a value is.
#[derive(Clone, Copy)]
pub enum Sort {
    /// What a directory has, with the attributes of each file: up to so many entries.
    Directory(u32),
    /// What a read of a file brings: up to so many bytes.
    Content(u32),
    /// Rows of a registry, up to so many.
    Rows(u32),
    /// Numbers of one unit, up to so many.
    Numbers(u32),
    /// Numbers of two units, up to so many.
    Longs(u32),
    /// Numbers of an enumeration, up to so many.
    Statuses(u32),
    /// Files of RFC 4506 section 7, up to so many.
    Files(u32),
}

const ALPHABET: &[u8] =
    b"etaoin-shrdlu_report2026.txt.README.Makefile_backup.old.jpg_IMG-4711.tar.gz.kernel_image.conf.d.local.cache.tmp.";

// Numbers of NFS3_OK and of errors (RFC 1813 section 2.6).
const STATUSES: [u32; 8] = [0, 1, 2, 5, 13, 70, 10001, 10008];

/// The name of its type.
pub fn type_of(sort: Sort) -> &'static str {
    match sort {
        Sort::Directory(_) => "READDIRPLUS3res",
        Sort::Content(_) => "READ3res",
        Sort::Rows(_) => "rows",
        Sort::Numbers(_) => "numbers",
        Sort::Longs(_) => "longs",
        Sort::Statuses(_) => "statuses",
        Sort::Files(_) => "files",
    }
}

/// Some bytes of a slice, at most so many, from a place that varies.
pub fn some_of<'a>(random: &mut Random, from: &'a [u8], size: usize) -> &'a [u8] {
    let size = size.min(from.len());
    let at = random.below(count_of(from.len() - size)) as usize;
    let rest = &from[at.min(from.len())..];
    &rest[..size.min(rest.len())]
}

/// Writes a length, content and its padding.
pub fn push_content(out: &mut Vec<u8>, content: &[u8]) -> Result<(), NoMemory> {
    push_word(out, count_of(content.len()))?;
    push_padded(out, content)
}

fn push_long(out: &mut Vec<u8>, random: &mut Random, most: u32) -> Result<(), NoMemory> {
    push_word(out, random.below(most))?;
    push_word(out, random.word())
}

// A text of so many bytes of the alphabet.
fn push_text(
    out: &mut Vec<u8>,
    random: &mut Random,
    least: u32,
    most: u32,
) -> Result<(), NoMemory> {
    let size = random.within(least, most) as usize;
    push_content(out, some_of(random, ALPHABET, size))
}

fn push_words(out: &mut Vec<u8>, words: &[u32]) -> Result<(), NoMemory> {
    for word in words {
        push_word(out, *word)?;
    }
    Ok(())
}

// fattr3 (RFC 1813 section 2.6) of a file whose words that vary are zero.
const ATTRIBUTES: [u8; 84] = [
    0, 0, 0, 0, 0, 0, 1, 164, 0, 0, 0, 1, 0, 0, 3, 232, 0, 0, 3, 232, 0, 0, 0, 0, 0, 0, 0, 0, 0, 0,
    0, 0, 0, 0, 0, 0, 0, 0, 0, 0, 0, 0, 0, 0, 0, 0, 0, 0, 0, 0, 252, 0, 0, 0, 0, 1, 0, 0, 0, 0, 0,
    0, 0, 0, 0, 0, 0, 0, 0, 0, 0, 0, 0, 0, 0, 0, 0, 0, 0, 0, 0, 0, 0, 0,
];

// Makes four bytes at a place a word.
fn set_word(bytes: &mut [u8], at: usize, word: u32) {
    let at = at.min(bytes.len());
    let front = &mut bytes[at..];
    if let [a, b, c, d, ..] = front {
        [*a, *b, *c, *d] = word.to_be_bytes();
    }
}

// fattr3 (RFC 1813 section 2.6).
fn push_attributes(out: &mut Vec<u8>, random: &mut Random) -> Result<(), NoMemory> {
    let mut bytes = ATTRIBUTES;
    set_word(&mut bytes, 0, random.within(1, 7));
    set_word(&mut bytes, 24, random.word());
    set_word(&mut bytes, 32, random.word());
    set_word(&mut bytes, 56, random.word());
    set_word(&mut bytes, 60, random.word());
    set_word(&mut bytes, 68, random.word());
    out.extend_from_slice(&bytes)?;
    Ok(())
}

// entryplus3 (RFC 1813 section 3.3.17), behind the flag that says that there is one.
fn push_entry(out: &mut Vec<u8>, random: &mut Random, handles: &[u8]) -> Result<(), NoMemory> {
    push_word(out, 1)?;
    push_long(out, random, 16)?;
    push_text(out, random, 3, 40)?;
    push_long(out, random, 2)?;
    if random.one_in(16) {
        return push_words(out, &[0, 0]);
    }
    push_word(out, 1)?;
    push_attributes(out, random)?;
    push_word(out, 1)?;
    push_content(out, some_of(random, handles, 32))
}

// READDIRPLUS3res (RFC 1813 section 3.3.17).
fn push_directory(
    out: &mut Vec<u8>,
    random: &mut Random,
    most: u32,
    pool: &[u8],
) -> Result<(), NoMemory> {
    push_words(out, &[0, 1])?;
    push_attributes(out, random)?;
    push_long(out, random, 4096)?;
    for _ in 0..random.within(most / 4, most) {
        push_entry(out, random, pool)?;
    }
    push_words(out, &[0, 1])
}

// READ3res (RFC 1813 section 3.3.6).
fn push_read(
    out: &mut Vec<u8>,
    random: &mut Random,
    most: u32,
    pool: &[u8],
) -> Result<(), NoMemory> {
    push_words(out, &[0, 1])?;
    push_attributes(out, random)?;
    let size = random.within(most / 4, most);
    let content = some_of(random, pool, size as usize);
    push_words(out, &[count_of(content.len()), 0])?;
    push_content(out, content)
}

// A row of a registry (RFC 1833 section 2.1).
fn push_row(out: &mut Vec<u8>, random: &mut Random) -> Result<(), NoMemory> {
    push_words(out, &[random.within(100000, 100999), random.within(1, 4)])?;
    push_content(out, if random.one_in(2) { b"tcp" } else { b"udp6" })?;
    push_content(out, b"127.0.0.1.8.1")?;
    push_content(out, b"superuser")
}

// A file of RFC 4506 section 7.
fn push_file(out: &mut Vec<u8>, random: &mut Random, pool: &[u8]) -> Result<(), NoMemory> {
    push_text(out, random, 1, 60)?;
    let sort = random.below(3);
    push_word(out, sort)?;
    if sort > 0 {
        push_text(out, random, 1, 20)?;
    }
    push_text(out, random, 4, 16)?;
    let size = random.below(200) as usize;
    push_content(out, some_of(random, pool, size))
}

// The status at a place, the first again and again.
fn status_at(place: u32) -> u32 {
    match STATUSES.get(place as usize) {
        Some(status) => *status,
        None => 0,
    }
}

// An item of an array.
fn push_item(
    out: &mut Vec<u8>,
    random: &mut Random,
    sort: Sort,
    pool: &[u8],
) -> Result<(), NoMemory> {
    match sort {
        Sort::Rows(_) => push_row(out, random),
        Sort::Statuses(_) => push_word(out, status_at(random.below(16))),
        Sort::Files(_) => push_file(out, random, pool),
        _ => push_word(out, random.word()),
    }
}

fn push_array(
    out: &mut Vec<u8>,
    random: &mut Random,
    sort: Sort,
    most: u32,
    pool: &[u8],
) -> Result<(), NoMemory> {
    let count = random.within(most / 4, most);
    push_word(out, count)?;
    for _ in 0..count {
        push_item(out, random, sort, pool)?;
    }
    Ok(())
}

// Numbers of so many words, from the pool again and again, with their count.
fn push_numbers(
    out: &mut Vec<u8>,
    random: &mut Random,
    most: u32,
    words: u32,
    pool: &[u8],
) -> Result<(), NoMemory> {
    let count = random.within(most / 4, most);
    push_word(out, count)?;
    let mut left = (count as usize)
        .saturating_mul(words as usize)
        .saturating_mul(4);
    for _ in 0..count {
        if left == 0 {
            break;
        }
        let piece = some_of(random, pool, left.min(8192));
        out.extend_from_slice(piece)?;
        left -= piece.len().min(left);
    }
    Ok(())
}

/// Writes the bytes of a value. Content comes from the pool.
pub fn push_value(
    out: &mut Vec<u8>,
    random: &mut Random,
    sort: Sort,
    pool: &[u8],
) -> Result<(), NoMemory> {
    match sort {
        Sort::Directory(most) => push_directory(out, random, most, pool),
        Sort::Content(most) => push_read(out, random, most, pool),
        Sort::Rows(most) => push_array(out, random, sort, most, pool),
        Sort::Numbers(most) => push_numbers(out, random, most, 1, pool),
        Sort::Longs(most) => push_numbers(out, random, most, 2, pool),
        Sort::Statuses(most) => push_array(out, random, sort, most, pool),
        Sort::Files(most) => push_array(out, random, sort, most, pool),
    }
}

/// Bytes of any content, from which values take theirs.
pub fn pool(alloc: Global, random: &mut Random, words: u32) -> Result<Vec<u8>, NoMemory> {
    let mut bytes = Vec::new(alloc);
    for _ in 0..words {
        push_word(&mut bytes, random.word())?;
    }
    Ok(bytes)
}

/// Changes one byte.
pub fn spoil(bytes: &mut [u8], random: &mut Random) {
    let at = random.below(count_of(bytes.len())) as usize;
    if let Some(byte) = bytes.get_mut(at) {
        *byte = *byte ^ 129;
    }
}

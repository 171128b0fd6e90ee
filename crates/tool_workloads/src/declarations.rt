//! Texts of declarations that are read.

use crate::declared::{add_declared, add_types};
use crate::digest::Digest;
use crate::random::Random;
use crate::texts::push_text;
use std::alloc::Global;
use xdr_lang::{LangFault, read};
use xdr_units::NoMemory;

fn add_fault(digest: &mut Digest, fault: LangFault) {
    digest.number(u64::from(fault.number));
    digest.number(u64::from(fault.inner));
    digest.number(fault.line as u64);
    digest.number(fault.column as u64);
}

/// Reads a text, and adds what it declares, with so many types that have numbers, or the fault.
pub fn add_read(
    alloc: Global,
    text: &[u8],
    types: u32,
    digest: &mut Digest,
) -> Result<(), NoMemory> {
    match read(alloc, text) {
        Ok(declared) => {
            add_declared(digest, &declared);
            add_types(alloc, digest, &declared, types)
        }
        Err(fault) => Ok(add_fault(digest, fault)),
    }
}

// How many types the next text has: that of a small protocol, of one like NFS, or of all that may be read.
fn next_size(random: &mut Random) -> u32 {
    match random.below(4) {
        0 => random.within(8, 40),
        1 => random.within(40, 100),
        2 => random.within(100, 200),
        _ => random.within(200, 300),
    }
}

/// Reads so many texts. One of eight is refused for a name at its end.
pub fn work(
    alloc: Global,
    random: &mut Random,
    rounds: u32,
    digest: &mut Digest,
) -> Result<bool, NoMemory> {
    let mut text = Vec::new(alloc);
    for _ in 0..rounds {
        text.clear();
        let types = next_size(random);
        let is_wrong = random.one_in(8);
        push_text(&mut text, random, types, is_wrong)?;
        add_read(alloc, &text, types, digest)?;
    }
    Ok(true)
}

//! A registry in which one program has most rows: addresses of versions that it does not have are asked for, and a
//! version's rows are taken away by an UNSET without a netid, and set again (RFC 1833 section 2.2.1).

use crate::calls::{ADDRESS, Asked, mark, push_call};
use crate::digest::Digest;
use crate::random::Random;
use crate::registry::{add_served, new_registry};
use crate::results::push_content;
use std::alloc::Global;
use xdr_units::{NoMemory, push_word};

const PROGRAM: u32 = 400000;

/// The program has versions from 1 to so many, each with two netids.
const VERSIONS: u32 = 440;

const NETIDS: [&[u8]; 2] = [b"tcp", b"udp"];

// Procedures of version 4 (RFC 1833 section 2.2.1).
const SET: u32 = 1;

const UNSET: u32 = 2;

const GETADDR: u32 = 3;

// A call about a version as a record.
fn push_record(
    out: &mut Vec<u8>,
    random: &mut Random,
    procedure: u32,
    version: u32,
    netid: &[u8],
) -> Result<(), NoMemory> {
    let at = out.len();
    push_word(out, 0)?;
    let asked = Asked {
        xid: random.word(),
        version: 4,
        procedure,
        uid: Some(0),
    };
    push_call(out, random, asked)?;
    push_word(out, PROGRAM)?;
    push_word(out, version)?;
    push_content(out, netid)?;
    push_content(out, ADDRESS)?;
    push_content(out, b"")?;
    mark(out.as_mut_slice(), at);
    Ok(())
}

// Sets both rows of a version.
fn push_rows(out: &mut Vec<u8>, random: &mut Random, version: u32) -> Result<(), NoMemory> {
    for netid in &NETIDS {
        push_record(out, random, SET, version, netid)?;
    }
    Ok(())
}

// The first client sets all rows.
fn push_first(out: &mut Vec<u8>, random: &mut Random) -> Result<(), NoMemory> {
    for version in 1..=VERSIONS {
        push_rows(out, random, version)?;
    }
    Ok(())
}

// One call of eight takes a version away, which is set again; the others ask for one that is not there.
fn push_client(out: &mut Vec<u8>, random: &mut Random) -> Result<(), NoMemory> {
    for _ in 0..random.within(60, 180) {
        if random.one_in(8) {
            let version = random.within(1, VERSIONS);
            push_record(out, random, UNSET, version, b"")?;
            push_rows(out, random, version)?;
        } else {
            let version = random.within(VERSIONS + 1, VERSIONS * 2);
            push_record(out, random, GETADDR, version, b"tcp")?;
        }
    }
    Ok(())
}

/// Serves so many clients, after one that fills the registry.
pub fn work(
    alloc: Global,
    random: &mut Random,
    rounds: u32,
    digest: &mut Digest,
) -> Result<(), NoMemory> {
    let mut directory = new_registry(alloc);
    let mut bytes = Vec::new(alloc);
    push_first(&mut bytes, random)?;
    add_served(alloc, &mut directory, &bytes, random, digest)?;
    for _ in 0..rounds {
        bytes.clear();
        push_client(&mut bytes, random)?;
        add_served(alloc, &mut directory, &bytes, random, digest)?;
        digest.number(u64::from(directory.rows()));
    }
    Ok(())
}

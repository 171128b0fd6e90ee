//! Calls of a registry that are served: clients one after another, each of whom asks for many things.

use crate::calls::{ADDRESS, Asked, mark, push_call};
use crate::digest::Digest;
use crate::random::Random;
use crate::results::push_content;
use crate::streams::{Digesting, Pieced, Pieces};
use rpc_directory::Directory;
use rpc_engine::{ServeFault, Transport, serve};
use std::alloc::Global;
use std::hash::{BuildHasherDefault, DefaultHasher};
use xdr_units::{NoMemory, push_word};

/// A registry whose order is the same in each run.
pub type Registry = Directory<BuildHasherDefault<DefaultHasher>>;

/// A registry without rows but its own.
pub fn new_registry(alloc: Global) -> Registry {
    Directory::new(alloc, BuildHasherDefault::new())
}

/// Programs have numbers from the first on, and so many of them are asked for.
const FIRST: u32 = 200000;

const PROGRAMS: u32 = 150;

/// A call of the registry.
#[derive(Clone, Copy)]
enum Ask {
    Null,
    Set,
    Unset,
    Address,
    VersionAddress,
    Port,
    Rows,
    Mappings,
    NoSuchProcedure,
    CutArguments,
}

// What a client asks for next: mostly an address or a port.
fn next_ask(random: &mut Random) -> Ask {
    match random.below(64) {
        0..=5 => Ask::Null,
        6..=11 => Ask::Set,
        12..=16 => Ask::Unset,
        17..=38 => Ask::Address,
        39..=43 => Ask::VersionAddress,
        44..=59 => Ask::Port,
        60 => Ask::NoSuchProcedure,
        61..=62 => Ask::CutArguments,
        _ => {
            if random.one_in(16) {
                Ask::Rows
            } else if random.one_in(15) {
                Ask::Mappings
            } else {
                Ask::Address
            }
        }
    }
}

// The version and the number of the procedure (RFC 1833 sections 2.2.1 and 3.2).
fn procedure_of(ask: Ask) -> (u32, u32) {
    match ask {
        Ask::Null => (2, 0),
        Ask::Set => (4, 1),
        Ask::Unset => (4, 2),
        Ask::Address => (4, 3),
        Ask::VersionAddress => (4, 9),
        Ask::Port => (2, 3),
        Ask::Rows => (4, 4),
        Ask::Mappings => (2, 4),
        Ask::NoSuchProcedure => (4, 99),
        Ask::CutArguments => (3, 3),
    }
}

// A row as arguments (RFC 1833 section 2.1).
fn push_row(out: &mut Vec<u8>, random: &mut Random) -> Result<(), NoMemory> {
    push_word(out, FIRST.saturating_add(random.below(PROGRAMS)))?;
    push_word(out, random.within(1, 3))?;
    push_content(out, if random.one_in(3) { b"udp" } else { b"tcp" })?;
    push_content(out, ADDRESS)?;
    push_content(out, b"")
}

// A mapping as arguments (RFC 1833 section 3.1).
fn push_mapping(out: &mut Vec<u8>, random: &mut Random) -> Result<(), NoMemory> {
    push_word(out, FIRST.saturating_add(random.below(PROGRAMS)))?;
    push_word(out, random.within(1, 3))?;
    push_word(out, if random.one_in(3) { 17 } else { 6 })?;
    push_word(out, 0)
}

fn push_arguments(out: &mut Vec<u8>, random: &mut Random, ask: Ask) -> Result<(), NoMemory> {
    match ask {
        Ask::Set | Ask::Unset | Ask::Address | Ask::VersionAddress => push_row(out, random),
        Ask::Port => push_mapping(out, random),
        Ask::CutArguments => push_word(out, 7),
        _ => Ok(()),
    }
}

// A call as a record.
fn push_record(out: &mut Vec<u8>, random: &mut Random, ask: Ask) -> Result<(), NoMemory> {
    let at = out.len();
    push_word(out, 0)?;
    let (version, procedure) = procedure_of(ask);
    let uid = match random.below(4) {
        0 => None,
        1 => Some(random.below(3)),
        _ => Some(0),
    };
    let asked = Asked {
        xid: random.word(),
        version,
        procedure,
        uid,
    };
    push_call(out, random, asked)?;
    push_arguments(out, random, ask)?;
    mark(out.as_mut_slice(), at);
    Ok(())
}

// The calls of a client.
fn push_client(out: &mut Vec<u8>, random: &mut Random, is_first: bool) -> Result<(), NoMemory> {
    for _ in 0..if is_first {
        3000
    } else {
        random.within(200, 1800)
    } {
        let ask = if is_first { Ask::Set } else { next_ask(random) };
        push_record(out, random, ask)?;
    }
    Ok(())
}

// Adds which fault it is, with its place or count.
fn add_fault(alloc: Global, digest: &mut Digest, fault: ServeFault) -> Result<(), NoMemory> {
    let Ok(text) = format!(in alloc; "{fault:?}") else {
        return Err(NoMemory);
    };
    digest.bytes(text.as_bytes());
    Ok(())
}

/// Serves a client, and adds what was counted and written.
pub fn add_served(
    alloc: Global,
    directory: &mut Registry,
    bytes: &[u8],
    random: &mut Random,
    digest: &mut Digest,
) -> Result<(), NoMemory> {
    let pieces = if random.one_in(4) {
        Pieces::Segments
    } else {
        Pieces::Pages
    };
    let mut reader = Pieced::new(bytes, pieces, random);
    let mut writer = Digesting::new();
    match serve(alloc, &mut reader, &mut writer, directory, Transport::Tcp) {
        Ok(served) => {
            digest.number(served.records);
            digest.number(served.replies);
        }
        Err(fault) => add_fault(alloc, digest, fault)?,
    }
    digest.number(writer.value());
    Ok(())
}

/// Serves so many clients. The first fills the registry.
pub fn work(
    alloc: Global,
    random: &mut Random,
    rounds: u32,
    digest: &mut Digest,
) -> Result<bool, NoMemory> {
    let mut directory = new_registry(alloc);
    let mut bytes = Vec::new(alloc);
    for round in 0..rounds {
        bytes.clear();
        push_client(&mut bytes, random, round == 0)?;
        add_served(alloc, &mut directory, &bytes, random, digest)?;
        digest.number(u64::from(directory.rows()));
    }
    Ok(true)
}

//! Values decoded, whole and in pieces, and encoded again.

use crate::digest::Digest;
use crate::random::Random;
use crate::results::{Sort, pool, push_value, spoil, type_of};
use crate::streams::SEGMENT;
use std::alloc::Global;
use xdr_codec::{DecodeFault, Decoder, Progress, decode, encode};
use xdr_lang::{Declared, read};
use xdr_types::{KindId, Limits, Schema, Value, fits, size};
use xdr_units::NoMemory;

/// The sort of value that comes next: mostly what a directory has or a read brings, as a client of NFS asks for them.
fn next_sort(random: &mut Random) -> Sort {
    match random.below(16) {
        0..=6 => Sort::Directory(160),
        7..=9 => Sort::Content(65536),
        10 => Sort::Rows(400),
        11 => Sort::Numbers(16384),
        12 => Sort::Longs(8192),
        13 => Sort::Statuses(8192),
        14 => Sort::Directory(2000),
        _ => Sort::Files(200),
    }
}

/// Adds a fault.
pub fn add_fault(digest: &mut Digest, fault: DecodeFault) {
    digest.number(u64::from(fault.why.number()));
    digest.number(fault.at as u64);
}

// Adds the bytes of a value, and the count of them.
fn add_value(
    alloc: Global,
    schema: &Schema,
    kind: KindId,
    limits: Limits,
    value: &Value,
    digest: &mut Digest,
) -> Result<(), NoMemory> {
    if !fits(schema, kind, value, limits) {
        digest.number(0);
        return Ok(());
    }
    digest.number(u64::from(size(schema, kind, value, limits)));
    let bytes = encode(alloc, schema, kind, value, limits)?;
    digest.bytes(bytes.as_slice());
    Ok(())
}

/// The value of bytes that come by segments. Adds how many bytes of the last segment it has.
pub fn decode_segments(
    alloc: Global,
    schema: &Schema,
    kind: KindId,
    limits: Limits,
    bytes: &[u8],
    digest: &mut Digest,
) -> Option<Result<Value, DecodeFault>> {
    if !schema.has(kind) {
        return None;
    }
    let mut decoder = Decoder::start(alloc, schema, kind, limits);
    let mut rest = bytes;
    for _ in 0..bytes.len() / SEGMENT + 1 {
        let (piece, behind) = rest.split_at(rest.len().min(SEGMENT));
        rest = behind;
        match decoder.feed(piece) {
            Ok(Progress::More) => {}
            Ok(Progress::Done { used }) => {
                digest.number(used as u64);
                break;
            }
            Err(_) => break,
        }
    }
    Some(decoder.finish())
}

/// The value of bytes that are all there. Adds how many of them it has.
pub fn decode_whole(
    alloc: Global,
    schema: &Schema,
    kind: KindId,
    limits: Limits,
    bytes: &[u8],
    digest: &mut Digest,
) -> Option<Result<Value, DecodeFault>> {
    if !schema.has(kind) {
        return None;
    }
    match decode(alloc, schema, kind, limits, bytes) {
        Ok((value, count)) => {
            digest.number(count as u64);
            Some(Ok(value))
        }
        Err(fault) => Some(Err(fault)),
    }
}

/// Adds the value that was decoded, or the fault.
pub fn add_outcome(
    alloc: Global,
    schema: &Schema,
    kind: KindId,
    limits: Limits,
    decoded: Option<Result<Value, DecodeFault>>,
    digest: &mut Digest,
) -> Result<(), NoMemory> {
    match decoded {
        Some(Ok(value)) => add_value(alloc, schema, kind, limits, &value, digest),
        Some(Err(fault)) => Ok(add_fault(digest, fault)),
        None => Ok(()),
    }
}

// Decodes bytes, and adds what comes of them.
fn add_decoded(
    alloc: Global,
    declared: &Declared,
    sort: Sort,
    in_segments: bool,
    bytes: &[u8],
    digest: &mut Digest,
) -> Result<(), NoMemory> {
    let (Some(kind), Some(limits)) = (declared.kind(type_of(sort)), Limits::new(4096, 16777216))
    else {
        return Ok(());
    };
    let schema = &declared.schema;
    let decoded = if in_segments {
        decode_segments(alloc, schema, kind, limits, bytes, digest)
    } else {
        decode_whole(alloc, schema, kind, limits, bytes, digest)
    };
    add_outcome(alloc, schema, kind, limits, decoded, digest)
}

/// Decodes and encodes so many values. One of sixteen has a byte that was changed.
pub fn work(
    alloc: Global,
    types: &[u8],
    random: &mut Random,
    rounds: u32,
    digest: &mut Digest,
) -> Result<bool, NoMemory> {
    let Ok(declared) = read(alloc, types) else {
        return Ok(false);
    };
    let pool = pool(alloc, random, 20000)?;
    let mut bytes = Vec::new(alloc);
    for _ in 0..rounds {
        let sort = next_sort(random);
        bytes.clear();
        push_value(&mut bytes, random, sort, &pool)?;
        if random.one_in(16) {
            spoil(&mut bytes, random);
        }
        let in_segments = random.one_in(3);
        add_decoded(alloc, &declared, sort, in_segments, &bytes, digest)?;
    }
    Ok(true)
}

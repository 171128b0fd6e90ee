//! The works, and what stands for the outcomes of many calls.

use crate::pieces::{Given, check, decode};
use std::alloc::Global;
use xdr_codec::{DecodeFault, encode};
use xdr_parts::{count_parts, parts};
use xdr_types::{Value, fits, size};

/// The outcome of refused bytes, whose place and reason are added.
const REFUSED: u64 = 1_000_000_000_000;

// What stands for a fault.
fn outcome_of(fault: DecodeFault) -> u64 {
    (fault.at as u64)
        .wrapping_mul(1000)
        .wrapping_add(u64::from(fault.why.number()))
        .wrapping_add(REFUSED)
}

// How many parts a list of them has.
fn listed(alloc: Global, given: &Given<'_>) -> Option<u64> {
    if !given.schema.has(given.kind) {
        return None;
    }
    match parts(alloc, given.schema, given.kind, given.limits, given.bytes) {
        Ok(list) => Some(list.len() as u64),
        Err(fault) => Some(outcome_of(fault)),
    }
}

// How many parts are counted.
fn counted(alloc: Global, given: &Given<'_>) -> Option<u64> {
    if !given.schema.has(given.kind) {
        return None;
    }
    match count_parts(alloc, given.schema, given.kind, given.limits, given.bytes) {
        Ok(counts) => Some(counts.parts as u64),
        Err(fault) => Some(outcome_of(fault)),
    }
}

// The outcome of a work on bytes.
fn on_bytes(alloc: Global, work: &str, given: &Given<'_>) -> Option<u64> {
    match work {
        "decode" => match decode(alloc, given)? {
            Ok(_) => Some(0),
            Err(fault) => Some(outcome_of(fault)),
        },
        "check" => match check(alloc, given)? {
            Ok(count) => Some(u64::from(count)),
            Err(fault) => Some(outcome_of(fault)),
        },
        "parts" => listed(alloc, given),
        "counts" => counted(alloc, given),
        _ => None,
    }
}

// The outcome of a work on the value.
fn on_value(alloc: Global, work: &str, given: &Given<'_>, value: &Value) -> Option<u64> {
    let Given {
        schema,
        kind,
        limits,
        ..
    } = *given;
    if !schema.has(kind) {
        return None;
    }
    let is_fit = fits(schema, kind, value, limits);
    match work {
        "fits" => Some(u64::from(is_fit)),
        "size" if is_fit => Some(u64::from(size(schema, kind, value, limits))),
        "encode" if is_fit => Some(encode(alloc, schema, kind, value, limits).ok()?.len() as u64),
        _ => None,
    }
}

// The value that is given, decoded at once, or its fault.
fn whole(alloc: Global, given: &Given<'_>) -> Option<Result<Value, DecodeFault>> {
    let piece = given.bytes.len().max(1);
    decode(alloc, &Given { piece, ..*given })
}

// The outcomes of so many calls on the value; that of the bytes alone, where they are refused.
fn on_value_again(alloc: Global, work: &str, given: &Given<'_>, times: u32) -> Option<u64> {
    let value = match whole(alloc, given)? {
        Ok(value) => value,
        Err(fault) => return Some(outcome_of(fault)),
    };
    let mut sum = 0u64;
    for _ in 0..times {
        let outcome = on_value(alloc, work, given, &value)?;
        sum = sum.wrapping_mul(3).wrapping_add(outcome);
    }
    Some(sum)
}

// The outcomes of so many calls on the bytes.
fn on_bytes_again(alloc: Global, work: &str, given: &Given<'_>, times: u32) -> Option<u64> {
    let mut sum = 0u64;
    for _ in 0..times {
        let outcome = on_bytes(alloc, work, given)?;
        sum = sum.wrapping_mul(3).wrapping_add(outcome);
    }
    Some(sum)
}

/// The outcomes of so many calls, each added to three times the sum before it; none, where there is no such work or
/// kind, or a piece has no bytes.
pub fn outcomes(alloc: Global, work: &str, given: &Given<'_>, times: u32) -> Option<u64> {
    match work {
        "fits" | "size" | "encode" => on_value_again(alloc, work, given, times),
        _ => on_bytes_again(alloc, work, given, times),
    }
}

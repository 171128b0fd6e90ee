//! The works, and what stands for the outcomes of many calls.
use std::alloc::Global;
use xdr_codec::{decode, encode};
use xdr_json::{Layout, json_of_bytes, write_json};
use xdr_json_reader::read_json;
use xdr_types::{KindId, Limits, NoMemory, Schema, Value, fits};

/// A JSON text that is refused, whose place is added.
const REFUSED: u64 = 1_000_000_000_000;

/// A kind within limits, and the bytes of a value of it, or its JSON.
#[derive(Clone, Copy)]
pub struct Given<'a> {
    pub schema: &'a Schema,
    pub kind: KindId,
    pub limits: Limits,
    pub input: &'a [u8],
}

// How many bytes were made; none, where memory was refused.
fn count_of(made: &Result<Vec<u8>, NoMemory>) -> Option<u64> {
    match made {
        Ok(bytes) => Some(bytes.len() as u64),
        Err(_) => None,
    }
}

// The JSON of the value that begins the input, by its bytes, so many times. That they are a value's is known before.
fn of_bytes(alloc: Global, given: &Given<'_>, times: u32) -> Option<u64> {
    let Given {
        schema,
        kind,
        limits,
        input,
    } = *given;
    if !schema.has(kind) {
        return None;
    }
    match decode(alloc, schema, kind, limits, input) {
        Ok((_value, used)) => {
            let bytes = &input[..used];
            let mut sum = 0u64;
            for _ in 0..times {
                let text = json_of_bytes(alloc, schema, kind, limits, bytes, Layout::Compact);
                sum = sum.wrapping_add(count_of(&text)?);
            }
            Some(sum)
        }
        Err(_) => None,
    }
}

// The JSON of a value, by its tree, so many times.
fn of_tree(alloc: Global, given: &Given<'_>, value: &Value, times: u32) -> Option<u64> {
    let Given {
        schema,
        kind,
        limits,
        ..
    } = *given;
    if !fits(schema, kind, value, limits) {
        return None;
    }
    let mut sum = 0u64;
    for _ in 0..times {
        let text = write_json(alloc, schema, kind, value, limits, Layout::Compact);
        sum = sum.wrapping_add(count_of(&text)?);
    }
    Some(sum)
}

// The same of the value that begins the input.
fn of_value(alloc: Global, given: &Given<'_>, times: u32) -> Option<u64> {
    let Given {
        schema,
        kind,
        limits,
        input,
    } = *given;
    if !schema.has(kind) {
        return None;
    }
    match decode(alloc, schema, kind, limits, input) {
        Ok((value, _used)) => of_tree(alloc, given, &value, times),
        Err(_) => None,
    }
}

// How many bytes encode a value.
fn encoded(alloc: Global, given: &Given<'_>, value: &Value) -> Option<u64> {
    let Given {
        schema,
        kind,
        limits,
        ..
    } = *given;
    if !fits(schema, kind, value, limits) {
        return None;
    }
    count_of(&encode(alloc, schema, kind, value, limits))
}

// What the text is read as, once: 1, or how many bytes encode the value; or the refusal.
fn of_text(alloc: Global, given: &Given<'_>, encodes: bool) -> Option<u64> {
    let Given {
        schema,
        kind,
        limits,
        input,
    } = *given;
    if !schema.has(kind) {
        return None;
    }
    match read_json(alloc, schema, kind, limits, input) {
        Ok(value) if encodes => encoded(alloc, given, &value),
        Ok(_) => Some(1),
        Err(fault) => Some(REFUSED.saturating_add(fault.at as u64)),
    }
}

// The same so many times.
fn of_text_again(alloc: Global, given: &Given<'_>, encodes: bool, times: u32) -> Option<u64> {
    let mut sum = 0u64;
    for _ in 0..times {
        sum = sum.wrapping_add(of_text(alloc, given, encodes)?);
    }
    Some(sum)
}

/// The outcomes of so many calls, added; none, where there is no such work, or the bytes are no value's.
pub fn outcomes(alloc: Global, work: &str, given: &Given<'_>, times: u32) -> Option<u64> {
    match work {
        "bytes" => of_bytes(alloc, given, times),
        "value" => of_value(alloc, given, times),
        "read" => of_text_again(alloc, given, false, times),
        "back" => of_text_again(alloc, given, true, times),
        _ => None,
    }
}

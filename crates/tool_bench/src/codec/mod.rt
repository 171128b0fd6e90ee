//! Encodes, decodes or checks one value again and again: VALUE is `uint1M`, `list2000`, `file1M`, `opaque1M` or
//! `opaque16M`, and WORK is `encode`, `decode` or `check`.
mod values;

ghost use Rattle.std.specs.Prelude.{◌≤◌};

use std::alloc::Global;
use values::{Sample, make_sample};
use xdr_codec::{Checker, Progress, decode, encode};
use xdr_types::{KindId, Limits, Schema, Value, fits};

/// Encodes the value so many times, and says whether each went well.
fn encodes(
    alloc: Global,
    schema: &Schema,
    kind: KindId,
    value: &Value,
    limits: Limits,
    count: u32,
) -> bool {
    if !fits(schema, kind, value, limits) {
        return false;
    }
    let mut well = true;
    for _ in 0..count {
        well = well && encode(alloc, schema, kind, value, limits).is_ok();
    }
    well
}

/// Encodes the value once, and decodes its bytes so many times.
fn decodes(
    alloc: Global,
    schema: &Schema,
    kind: KindId,
    value: &Value,
    limits: Limits,
    count: u32,
) -> bool {
    if !fits(schema, kind, value, limits) || !schema.has(kind) {
        return false;
    }
    let Ok(bytes) = encode(alloc, schema, kind, value, limits) else {
        return false;
    };
    let mut well = true;
    for _ in 0..count {
        well = well && decode(alloc, schema, kind, limits, bytes.as_slice()).is_ok();
    }
    well
}

/// Encodes the value once, and judges its bytes so many times, each time in one piece.
fn checks(
    alloc: Global,
    schema: &Schema,
    kind: KindId,
    value: &Value,
    limits: Limits,
    count: u32,
) -> bool {
    if !fits(schema, kind, value, limits) || !schema.has(kind) {
        return false;
    }
    let Ok(bytes) = encode(alloc, schema, kind, value, limits) else {
        return false;
    };
    let mut well = true;
    for _ in 0..count {
        let mut checker = Checker::start(alloc, schema, kind, limits);
        let used = bytes.len();
        well = well && checker.feed(bytes.as_slice()) == Ok(Progress::Done { used });
    }
    well
}

/// Does the work on the value so many times, by the words VALUE, WORK and COUNT, and says whether each call went well.
pub fn work(alloc: Global, words: &[String]) -> bool {
    let [name, what, count] = words else {
        return false;
    };
    let (Ok(made), Ok(count)) = (
        make_sample(alloc, name.as_str()),
        count.as_str().parse::<u32>(),
    ) else {
        return false;
    };
    let Some(limits) = Limits::new(4096, 16777216) else {
        return false;
    };
    let Sample {
        schema,
        kind,
        value,
    } = made;
    match what.as_str() {
        "encode" => encodes(alloc, &schema, kind, &value, limits, count),
        "decode" => decodes(alloc, &schema, kind, &value, limits, count),
        "check" => checks(alloc, &schema, kind, &value, limits, count),
        _ => false,
    }
}

//! Random values of random schemas, which a seed makes (`random_values`): a writer writes of their items what `encode`
//! writes of them, and within other limits it says of an item that was changed what a checker says of its bytes.
use crate::changed::{Written, is_changed_alike};
use crate::items::push_items;
use rand_pcg::Pcg32;
use std::alloc::Global;
use test_lines::asked::Asked;
use test_lines::case::Case;
use test_lines::random::{input, limits, made, schema};
use test_lines::reported::Report;
use xdr_codec::{decode, encode};
use xdr_types::{KindId, Schema, Value, fits};
use xdr_writer::{Item, Step, Writer};

// How many inputs are made for a schema, and how many schemas are tried for a value.
const INPUTS: u32 = 8;

const TRIED: u32 = 64;

// Puts all items of a value, and gives what was written; none where an answer was not right.
fn written<'a>(alloc: Global, asked: &Asked<'_>, items: Vec<Item<'a>>) -> Option<Written<'a>> {
    if !asked.schema.has(asked.kind) {
        return None;
    }
    let mut writer = Writer::start(alloc, asked.schema, asked.kind, asked.limits);
    let mut bytes = Vec::new(alloc);
    let mut ends = Vec::new(alloc);
    let mut is_well = true;
    for (number, item) in items.iter().enumerate() {
        let is_last = number.saturating_add(1) == items.len();
        let step = if is_last { Step::Done } else { Step::More };
        let answer = writer.put(*item, &mut bytes);
        is_well = is_well && answer == Ok(step) && ends.push(bytes.len()).is_ok();
    }
    let count = bytes.len().min(4294967295) as u32;
    if is_well && writer.finish() == Ok(count) {
        Some(Written { items, bytes, ends })
    } else {
        None
    }
}

// The bytes of a value that fits.
fn encoded(alloc: Global, asked: &Asked<'_>, value: &Value) -> Option<Vec<u8>> {
    let Asked {
        schema,
        kind,
        limits,
    } = *asked;
    if !fits(schema, kind, value, limits) {
        return None;
    }
    encode(alloc, schema, kind, value, limits).ok()
}

// Whether a writer agrees of a value.
fn is_agreed(random: &mut Pcg32, alloc: Global, asked: &Asked<'_>, value: &Value) -> bool {
    let mut items = Vec::new(alloc);
    if push_items(&mut items, asked.schema, asked.kind, value).is_err() {
        return false;
    }
    let Some(limits) = limits(random) else {
        return false;
    };
    let other = Asked { limits, ..*asked };
    match (encoded(alloc, asked, value), written(alloc, asked, items)) {
        (Some(bytes), Some(whole)) => {
            whole.bytes == bytes && is_changed_alike(random, alloc, &other, &whole)
        }
        _ => false,
    }
}

// What an input is.
#[derive(Clone, Copy, PartialEq, Eq)]
enum Found {
    // No value begins it.
    Nothing,
    // One does, and a writer agrees of it.
    Value,
    // One does, and a writer does not.
    Wrong,
}

// What a random input is, for a random kind of the schema.
fn of_input(random: &mut Pcg32, alloc: Global, schema: &Schema) -> Found {
    let kind = KindId {
        place: made(random),
    };
    let (Ok(bytes), Some(limits)) = (input(random, alloc), limits(random)) else {
        return Found::Wrong;
    };
    if !schema.has(kind) {
        return Found::Wrong;
    }
    let asked = Asked {
        schema,
        kind,
        limits,
    };
    match decode(alloc, schema, kind, limits, &bytes) {
        Ok((value, _)) => {
            if is_agreed(random, alloc, &asked, &value) {
                Found::Value
            } else {
                Found::Wrong
            }
        }
        Err(_) => Found::Nothing,
    }
}

// How many of the values of a schema a writer agrees of; none, where it does not agree of one.
fn agreed(random: &mut Pcg32, alloc: Global, schema: &Schema) -> Option<u32> {
    let mut values = 0u32;
    let mut is_well = true;
    for _ in 0..INPUTS {
        match of_input(random, alloc, schema) {
            Found::Nothing => {}
            Found::Value => values = values.saturating_add(1),
            Found::Wrong => is_well = false,
        }
    }
    if is_well { Some(values) } else { None }
}

// So many values of random schemas, or less where a writer does not agree of one.
fn values_found(random: &mut Pcg32, alloc: Global, count: u32) -> u32 {
    let mut values = 0u32;
    for _ in 0..u64::from(count).saturating_mul(u64::from(TRIED)) {
        if values >= count {
            break;
        }
        if let Some(schema) = schema(random, alloc) {
            match agreed(random, alloc, &schema) {
                Some(more) => values = values.saturating_add(more),
                None => break,
            }
        }
    }
    values.min(count)
}

/// Reports of how many random values a writer agrees, up to `count`.
pub fn call(out: &mut Report, case: &Case<'_>) {
    let mut random = Pcg32::new(u64::from(case.whole("seed")), 4506);
    let values = values_found(&mut random, case.alloc, case.whole("count"));
    out.answer(0);
    out.number("", u64::from(values));
    out.text(" values");
    out.end();
}

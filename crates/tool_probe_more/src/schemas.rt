//! The schema that lists of kinds and names make, or the fault of these: `Schema::build`. Of each kind, and of the
//! place behind the last, what the schema notes: its extent, the unit that decides, its levels. And what `{:?}` prints.
use crate::kinds::{kinds, names};
use std::env::Env;
use test_lines::case::{Case, allow};
use test_lines::reported::Report;
use xdr_types::{Decided, Extent, Flaw, KindId, Schema, SchemaFault};

/// Reports the case.
pub fn call(out: &mut Report, rt: &impl Env, case: &Case<'_>) {
    let kinds = kinds(case.alloc, case.word("kinds"));
    let names = names(case.alloc, case.word("names"));
    let before = case.refuse(rt);
    let answer = Schema::build(case.alloc, kinds, names);
    out.answer(allow(rt, before));
    match &answer {
        Ok(schema) => {
            out.text("ok");
            out.end();
            schema_words(out, schema);
        }
        Err(fault) => fault_words(out, *fault),
    }
}

fn fault_words(out: &mut Report, fault: SchemaFault) {
    match fault.why {
        Flaw::NoMemory => out.text("out of memory"),
        why => out.name("", &why),
    }
    out.number(" at ", fault.place as u64);
    out.end();
}

// How many bytes and levels each value has, and whether any so many bytes are one.
fn extent_words(out: &mut Report, extent: Option<Extent>) {
    match extent {
        Some(extent) => {
            out.number("", u64::from(extent.bytes));
            out.number(" ", u64::from(extent.depth));
            out.text(if extent.free { " free" } else { " bound" });
        }
        None => out.text("-"),
    }
}

// How many bytes stand before the unit that decides, and the place of its kind.
fn decided_words(out: &mut Report, decided: Option<Decided>) {
    match decided {
        Some(decided) => {
            out.number(", ", u64::from(decided.at));
            out.number(" ", u64::from(decided.kind.place));
        }
        None => out.text(", -"),
    }
}

fn levels_words(out: &mut Report, levels: Option<u32>) {
    match levels {
        Some(levels) => out.number(", ", u64::from(levels)),
        None => out.text(", -"),
    }
}

fn schema_words(out: &mut Report, schema: &Schema) {
    out.begin(" notes=");
    for place in 0..=schema.len() {
        let kind = KindId {
            place: place.min(4294967295) as u32,
        };
        out.between(place, "; ");
        extent_words(out, schema.extent(kind));
        decided_words(out, schema.decided(kind));
        levels_words(out, schema.levels(kind));
    }
    out.end();
    out.begin(" printed=");
    out.name("", schema);
    out.end();
}

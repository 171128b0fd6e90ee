//! JSON of the value that begins the input: `write_json` by its tree, `json_of_bytes` by its bytes, in the layout of
//! the case, compact or `indented`. And back: `read_json`, of the module `reading`. The kind `own` is a union that no
//! text declares: of its arms, one is called `case` and one has no name.
use crate::kinds::kinds;
use crate::reading;
use std::alloc::Global;
use std::env::Env;
use test_lines::asked::{Asked, asked_of};
use test_lines::case::{Case, allow};
use test_lines::reported::Report;
use xdr_codec::decode;
use xdr_json::{Layout, json_of_bytes, write_json};
use xdr_lang::read;
use xdr_types::{KindId, Limits, NoMemory, Schema};

// The kinds of the union `own` and the union, and where it stands.
const OWN_KINDS: &str = "hyper,bool,union:1;case:0:1;:0:0";

const OWN: u32 = 2;

/// Reports the case.
pub fn call(out: &mut Report, rt: &impl Env, case: &Case<'_>) {
    if case.word("kind") == "own" {
        return of_own(out, rt, case);
    }
    match read(case.alloc, &case.bytes("text")) {
        Ok(declared) => match asked_of(case, &declared) {
            Some(asked) => of_kind(out, rt, case, &asked),
            None => out.text("no kind or no limits"),
        },
        Err(_) => out.text("the text is refused"),
    }
}

// The schema of the union.
fn own_schema(alloc: Global) -> Option<Schema> {
    Schema::build(alloc, kinds(alloc, OWN_KINDS), Vec::new(alloc)).ok()
}

fn of_own(out: &mut Report, rt: &impl Env, case: &Case<'_>) {
    match (own_schema(case.alloc), case.limits()) {
        (Some(schema), Some(limits)) => of_own_kind(out, rt, case, &schema, limits),
        _ => out.text("no schema or no limits"),
    }
}

fn of_own_kind(out: &mut Report, rt: &impl Env, case: &Case<'_>, schema: &Schema, limits: Limits) {
    let asked = Asked {
        schema,
        kind: KindId { place: OWN },
        limits,
    };
    of_kind(out, rt, case, &asked)
}

fn of_kind(out: &mut Report, rt: &impl Env, case: &Case<'_>, asked: &Asked<'_>) {
    match case.call() {
        "write_json" => by_value(out, rt, case, asked, &case.input()),
        "read_json" => reading::by_text(out, rt, case, asked, &case.input()),
        _ => by_bytes(out, rt, case, asked, &case.input()),
    }
}

// The layout of a case.
fn layout_of(case: &Case<'_>) -> Layout {
    match case.word("layout") {
        "indented" => Layout::Indented,
        _ => Layout::Compact,
    }
}

// The words of a text, or of an allocation failure.
fn text_words(out: &mut Report, met: u64, answer: &Result<Vec<u8>, NoMemory>) {
    match answer {
        Ok(text) => {
            out.answered(met, "ok");
            out.word(" output=", text);
        }
        Err(_) => out.answered(met, "out of memory"),
    }
}

fn by_value(out: &mut Report, rt: &impl Env, case: &Case<'_>, asked: &Asked<'_>, input: &[u8]) {
    let Asked {
        schema,
        kind,
        limits,
    } = *asked;
    if !schema.has(kind) {
        return out.text("no kind");
    }
    match decode(case.alloc, schema, kind, limits, input) {
        Ok((value, _used)) => {
            let layout = layout_of(case);
            let before = case.refuse(rt);
            let answer = write_json(case.alloc, schema, kind, &value, limits, layout);
            text_words(out, allow(rt, before), &answer);
        }
        Err(_) => out.text("no value"),
    }
}

fn by_bytes(out: &mut Report, rt: &impl Env, case: &Case<'_>, asked: &Asked<'_>, input: &[u8]) {
    let Asked {
        schema,
        kind,
        limits,
    } = *asked;
    if !schema.has(kind) {
        return out.text("no kind");
    }
    match decode(case.alloc, schema, kind, limits, input) {
        Ok((_value, used)) => {
            let layout = layout_of(case);
            let bytes = &input[..used];
            let before = case.refuse(rt);
            let answer = json_of_bytes(case.alloc, schema, kind, limits, bytes, layout);
            text_words(out, allow(rt, before), &answer);
        }
        Err(_) => out.text("no value"),
    }
}

//! Values that JSON spells: `read_json`, the bytes of the value that the input spells, or why it spells none and where,
//! as line and column (`line_and_column`).
ghost use Rattle.std.specs.Prelude.{◌≤◌, length};

use std::env::Env;
use test_lines::asked::Asked;
use test_lines::case::{Case, allow};
use test_lines::reported::Report;
use xdr_codec::encode;
use xdr_json_reader::{JsonFault, JsonReason, line_and_column, read_json};
use xdr_types::{Value, fits};

// Why a text is refused, and where.
fn refusal(out: &mut Report, met: u64, text: &[u8], fault: JsonFault)
    requires { fault.at ≤ length text.now }
{
    let (line, column) = line_and_column(text, fault.at);
    out.answer(met);
    match fault.why {
        JsonReason::NoMemory => out.text("out of memory"),
        why => out.name("refused ", &why),
    }
    out.number(" at ", line as u64);
    out.number(":", column as u64);
    out.end();
}

// The bytes of a value that was read.
fn value_words(out: &mut Report, case: &Case<'_>, asked: &Asked<'_>, met: u64, value: &Value) {
    let Asked {
        schema,
        kind,
        limits,
    } = *asked;
    if !fits(schema, kind, value, limits) {
        return out.text("no value of the kind");
    }
    match encode(case.alloc, schema, kind, value, limits) {
        Ok(bytes) => {
            out.answered(met, "ok");
            out.digits(" output=", &bytes);
        }
        Err(_) => out.text("no memory for the bytes"),
    }
}

/// Reports what the text of the case is read as.
pub fn by_text(out: &mut Report, rt: &impl Env, case: &Case<'_>, asked: &Asked<'_>, text: &[u8]) {
    let Asked {
        schema,
        kind,
        limits,
    } = *asked;
    if !schema.has(kind) {
        return out.text("no kind");
    }
    let before = case.refuse(rt);
    let answer = read_json(case.alloc, schema, kind, limits, text);
    let met = allow(rt, before);
    match answer {
        Ok(value) => value_words(out, case, asked, met, &value),
        Err(fault) => refusal(out, met, text, fault),
    }
}

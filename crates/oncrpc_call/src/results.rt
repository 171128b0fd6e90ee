//! What the results of a call are: to the last byte a value of their kind, or why not.
ghost use Rattle.std.specs.Prelude.{◌≡◌, ◌≢◌, ◌<◌, ◌++◌, ◌∷◌, [], IfErr, IfOk, length, string_bytes};
ghost use Rattle.hex.specs.Hex.{encode_lower};
ghost use Rattle.xdr_types.specs.Tree.{Tree};
ghost use Rattle.xdr_parts.specs.Coming.{IsOneValue};
ghost use Rattle.oncrpc_call.specs.Asked.{wanted_of};
ghost use Rattle.oncrpc_call.specs.Lines.{follows_line, refused_line};
ghost use Rattle.oncrpc_call.specs.Private.Told.{Begins, IsRefusal, TellsResults};
ghost use Rattle.oncrpc_call.specs.Results.{shown_in};

use crate::asked::{Asked, Form};
use crate::page::Page;
use oncrpc_answers::{Answer, Failure, line_of};
use std::alloc::{AllocError, Global};
use xdr_codec::{DecodeFault, Reason, decode};
use xdr_json::json_of_bytes;
use xdr_show::show_whole;

/// What is printed of results.
pub fn results_page(alloc: Global, asked: &Asked, results: &[u8]) -> Result<Page, Failure>
    requires { asked.now.result.place < length asked.now.schema.kinds }
    ensures told { IfOk result (λ p. TellsResults (wanted_of asked.now) results.now p) }
    ensures memory { IfErr result (λ f. f ≡ Failure.NoMemory) }
{
    match decode(alloc, &asked.schema, asked.result, asked.limits, results) {
        Ok((_value, used)) => value_page(alloc, asked, results, used),
        Err(fault) => refused_page(alloc, fault),
    }
}

// What is printed of results that begin with a value of so many bytes.
fn value_page(alloc: Global, asked: &Asked, results: &[u8], used: usize) -> Result<Page, Failure>
    requires { Begins (wanted_of asked.now) results.now used }
    ensures told { IfOk result (λ p. TellsResults (wanted_of asked.now) results.now p) }
    ensures memory { IfErr result (λ f. f ≡ Failure.NoMemory) }
{
    if used < results.len() {
        let line = follows_line(alloc, used)?;
        return Ok(Page::Refusal(line.into_bytes()));
    }
    Ok(Page::Value(shown_of(alloc, asked, results)?))
}

// What is shown of the value whose encoding these bytes are, all of them.
fn shown_of(alloc: Global, asked: &Asked, bytes: &[u8]) -> Result<Vec<u8>, Failure>
    requires { (v : Tree) × IsOneValue asked.now.schema.kinds asked.now.result.place asked.now.limits bytes.now v }
    ensures shown { IfOk result (λ text. (v : Tree)
        → IsOneValue asked.now.schema.kinds asked.now.result.place asked.now.limits bytes.now v
        → text.items ≡ shown_in asked.now.form asked.now.schema.kinds asked.now.result.place v) }
    ensures memory { IfErr result (λ f. f ≡ Failure.NoMemory) }
{
    let Asked {
        schema,
        result,
        limits,
        form,
        ..
    } = asked;
    match *form {
        Form::Hex => Ok(hexadecimal_line(alloc, bytes)?.into_bytes()),
        Form::Lines => Ok(show_whole(alloc, schema, *result, *limits, bytes)?),
        Form::Json(layout) => {
            let mut text = json_of_bytes(alloc, schema, *result, *limits, bytes, layout)?;
            text.extend_from_slice(b"\n")?;
            Ok(text)
        }
    }
}

fn hexadecimal_line(alloc: Global, bytes: &[u8]) -> Result<String, AllocError>
    ensures { IfOk result (λ line. string_bytes line ≡ encode_lower bytes.now ++ 10 ∷ []) }
{
    let mut line = hex::encode(alloc, bytes)?;
    line.push_str("\n")?;
    Ok(line)
}

// The line of results that go on behind a value, at this place.
fn follows_line(alloc: Global, at: usize) -> Result<String, AllocError>
    ensures { IfOk result (λ line. string_bytes line ≡ follows_line at) }
{
    format!(in alloc; "result ends at {at}, more follows\n")
}

// The line of results that begin with no value.
fn refused_page(alloc: Global, fault: DecodeFault) -> Result<Page, Failure>
    ensures told { IfOk result (λ p. (fault.why ≢ Reason.NoMemory) × IsRefusal (refused_line fault) p) }
    ensures memory { IfErr result (λ f. f ≡ Failure.NoMemory) }
{
    if fault.why == Reason::NoMemory {
        return Err(Failure::NoMemory);
    }
    let refused = line_of(alloc, Answer::Refused(fault))?;
    let line = format!(in alloc; "result {}", refused.as_str())?;
    Ok(Page::Refusal(line.into_bytes()))
}

//! The lines of a value, by declarations that were read.
ghost use Rattle.std.specs.Prelude.{◌≡◌, ◌<◌, ℕ, length, IfOk, IfErr, option_map, Some};
ghost use Rattle.xdr_lang.specs.Views.{declared_of};
ghost use Rattle.xdr_show.specs.Shown.{show_text};
ghost use Rattle.c_values.specs.Answers.{BeginsWithValue};
ghost use Rattle.c_values.specs.Shown.{IsShown, IsShownByHeld};
ghost use Rattle.c_values.specs.Statuses.{Reports};

use super::answer::Answer;
use super::asking::kind_asked;
use super::buffer::put;
use super::handle::Handle;
use super::judge::judge;
use c_answers::Outcome;
use c_handles::{keep, taken};
use std::alloc::Global;
use xdr_codec::Reason;
use xdr_lang::Declared;
use xdr_show::show_bytes;
use xdr_types::{KindId, Limits, NoMemory, Schema};

/// The lines of the value that begins the input.
fn lines_of(
    alloc: Global,
    schema: &Schema,
    kind: KindId,
    limits: Limits,
    input: &[u8],
) -> Result<Vec<u8>, NoMemory>
    requires known { kind.place < length schema.now.kinds }
    requires begins { (used : ℕ) × BeginsWithValue
        (record { kinds = schema.now.kinds; place = kind.place; limits = limits }) input.now used }
    ensures { IfOk result (λ text. (used : ℕ) (begins : BeginsWithValue
        (record { kinds = schema.now.kinds; place = kind.place; limits = limits }) input.now used)
        → text.items ≡ show_text schema.now.kinds kind.place begins.value) }
{
    let _in_range = limits.depth();
    match show_bytes(alloc, schema, kind, limits, input) {
        Ok(lines) => Ok(lines),
        Err(fault) if fault.why == Reason::NoMemory => Err(NoMemory),
        Err(_) => unreachable!(),
    }
}

/// Judges the input, and puts the lines of its value into the buffer.
fn show_into(
    alloc: Global,
    schema: &Schema,
    kind: KindId,
    limits: Limits,
    input: &[u8],
    buffer: &mut [u8],
    written: &mut usize,
) -> Answer
    requires { kind.place < length schema.now.kinds }
    ensures { IsShown (record { kinds = schema.now.kinds; place = kind.place; limits = limits })
        input.now buffer.old buffer.new written.new result }
{
    *written = 0;
    let answer = judge(alloc, schema, kind, limits, input);
    if !answer.has_value() {
        return answer;
    }
    let Ok(lines) = lines_of(alloc, schema, kind, limits, input) else {
        return Answer::NoMemory;
    };
    if put(buffer, &lines, written) {
        answer
    } else {
        Answer::NoRoom {
            needed: lines.len(),
        }
    }
}

/// The same by declarations. The name is looked at before the limits.
fn show_by(
    alloc: Global,
    declared: &Declared,
    name: &[u8],
    depth: u32,
    bytes: u32,
    input: &[u8],
    buffer: &mut [u8],
    written: &mut usize,
) -> Answer
    ensures { IsShownByHeld (Some (declared_of declared.now)) name.now depth bytes input.now buffer.old buffer.new
        written.new result }
{
    *written = 0;
    let Some(kind) = kind_asked(declared, name) else {
        return Answer::NoKind;
    };
    let Some(limits) = Limits::new(depth, bytes) else {
        return Answer::BadLimits;
    };
    show_into(
        alloc,
        &declared.schema,
        kind,
        limits,
        input,
        buffer,
        written,
    )
}

/// Puts the lines of the value that begins the input into the buffer, as `oncrpc_declarations_show` says.
pub fn show_by_declarations(
    alloc: Global,
    handle: &mut Handle,
    name: &[u8],
    depth: u32,
    bytes: u32,
    input: &[u8],
    buffer: &mut [u8],
    written: &mut usize,
    outcome: &mut Outcome,
) -> u32
    // What the handle holds stays.
    ensures stay { handle.new.declared ≡ handle.old.declared }
    // The status and the outcome are those of an answer that is right by it.
    ensures answer { Reports (IsShownByHeld (option_map declared_of handle.old.declared) name.now depth bytes input.now
        buffer.old buffer.new written.new) result outcome.new }
{
    *written = 0;
    let answer = match taken(alloc, handle) {
        Some(state) => {
            let declared = state.declared();
            let answer = show_by(alloc, declared, name, depth, bytes, input, buffer, written);
            keep(alloc, handle, state);
            answer
        }
        None => Answer::NoDeclarations,
    };
    *outcome = answer.outcome();
    answer.status()
}

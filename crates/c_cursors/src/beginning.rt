//! A cursor before the first part of a value, and its end.
ghost use Rattle.std.specs.Prelude.{◌≡◌, ◌≤◌, ◌<◌, length, None, Some, option_map};
ghost use Rattle.xdr_lang.specs.Views.{declared_of};
ghost use Rattle.c_values.specs.Statuses.{Reports};
ghost use Rattle.c_cursors.specs.Held.{cursor_of, used_of};
ghost use Rattle.c_cursors.specs.Begun.{IsBegun, IsBegunByHeld};
ghost use Rattle.c_cursors.specs.Private.Beginning.{IsUnbegun, IsCounted, IsKept};

use super::handle::PartsCursor;
use super::state::State;
use c_answers::Outcome;
use c_handles::{keep, taken};
use c_values::{Answer, Handle, State as Declarations};
use std::alloc::Global;
use xdr_cursor::Cursor;
use xdr_stream::{DecodeFault, Reason};
use xdr_types::{KindId, Limits, Schema};

/// The answer to bytes that are refused, or to an allocation failure.
fn refusal(fault: DecodeFault) -> Answer
    ensures { IsUnbegun fault result }
{
    if fault.why == Reason::NoMemory {
        Answer::NoMemory
    } else {
        Answer::Refused(fault)
    }
}

/// The answer to a value of so many bytes, which begins the input.
fn counted(used: usize, input: &[u8]) -> Answer
    requires { used ≤ length input.now }
    ensures { IsCounted used input.now result }
{
    if used < input.len() {
        Answer::Followed { used }
    } else {
        Answer::Whole { used }
    }
}

/// Keeps a cursor over the parts of the value that begins the input. What was held before is freed.
fn keep_cursor(alloc: Global, cursor: Cursor, input: &[u8], handle: &mut PartsCursor) -> Answer
    requires { used_of cursor ≤ length input.now }
    ensures { IsKept cursor input.now (option_map cursor_of handle.old.held) (option_map cursor_of handle.new.held)
        result }
{
    let count = cursor.used();
    match Box::new(alloc, State { cursor }) {
        Ok(state) => {
            keep(alloc, handle, state);
            counted(count, input)
        }
        Err(_) => Answer::NoMemory,
    }
}

/// Starts a cursor before the first part of the value that begins the input, and keeps it.
fn start_in(
    alloc: Global,
    schema: &Schema,
    kind: KindId,
    limits: Limits,
    input: &[u8],
    handle: &mut PartsCursor,
) -> Answer
    requires { kind.place < length schema.now.kinds }
    ensures { IsBegun (record { kinds = schema.now.kinds; place = kind.place; limits = limits }) input.now
        (option_map cursor_of handle.old.held) (option_map cursor_of handle.new.held) result }
{
    let _in_range = limits.depth();
    match Cursor::start(alloc, schema, kind, limits, input) {
        Ok(cursor) => keep_cursor(alloc, cursor, input, handle),
        Err(fault) => refusal(fault),
    }
}

/// The same by declarations, which stay. The name is looked at before the limits.
fn start_by(
    alloc: Global,
    declarations: &mut Declarations,
    name: &[u8],
    depth: u32,
    bytes: u32,
    input: &[u8],
    handle: &mut PartsCursor,
) -> Answer
    ensures stay { declarations.new ≡ declarations.old }
    ensures answer { IsBegunByHeld (Some (declared_of declarations.old)) name.now depth bytes input.now
        (option_map cursor_of handle.old.held) (option_map cursor_of handle.new.held) result }
{
    let Some(kind) = declarations.kind(name) else {
        return Answer::NoKind;
    };
    let Some(limits) = Limits::new(depth, bytes) else {
        return Answer::BadLimits;
    };
    start_in(
        alloc,
        &declarations.declared().schema,
        kind,
        limits,
        input,
        handle,
    )
}

/// Starts a cursor before the first part of the value that begins the input, as `oncrpc_declarations_parts_start`
/// says.
pub fn start_cursor(
    alloc: Global,
    declarations: &mut Handle,
    name: &[u8],
    depth: u32,
    bytes: u32,
    input: &[u8],
    handle: &mut PartsCursor,
    outcome: &mut Outcome,
) -> u32
    // The declarations stay.
    ensures stay { declarations.new.declared ≡ declarations.old.declared }
    // The status and the outcome are those of an answer that is right by them, and what is held then.
    ensures answer { Reports (IsBegunByHeld (option_map declared_of declarations.old.declared) name.now depth bytes
        input.now (option_map cursor_of handle.old.held) (option_map cursor_of handle.new.held)) result outcome.new }
{
    let answer = match taken(alloc, declarations) {
        Some(mut state) => {
            let answer = start_by(alloc, &mut state, name, depth, bytes, input, handle);
            keep(alloc, declarations, state);
            answer
        }
        None => Answer::NoDeclarations,
    };
    *outcome = answer.outcome();
    answer.status()
}

/// Frees the cursor that the handle holds, if any.
pub fn free_cursor(alloc: Global, handle: &mut PartsCursor)
    ensures { handle.new.held ≡ None }
{
    let _gone = taken(alloc, handle);
}

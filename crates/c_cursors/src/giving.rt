//! The next part of a value.
ghost use Rattle.std.specs.Prelude.{◌≡◌, ◌<◌, ℕ, List, length, option_map, IfSome, MatchOption};
ghost use Rattle.xdr_types.specs.Layout.{Entry};
ghost use Rattle.xdr_lang.specs.Views.{declared_of};
ghost use Rattle.xdr_cursor.specs.Coming.{Awaits};
ghost use Rattle.c_cursors.specs.Held.{cursor_of};
ghost use Rattle.c_cursors.specs.Given.{ReportsGiven};
ghost use Rattle.c_cursors.specs.Giving.{IsGiven, IsGivenByHandle, IsGivenByHeld, HasRoom, HasNameOf};
ghost use Rattle.c_cursors.specs.Private.Giving.{IsGivenWithRoom, HasRoomFor, IsLacking};

use super::given::Given;
use super::handle::PartsCursor;
use super::putting::put_part;
use super::state::State;
use c_handles::{keep, taken};
use c_values::{Handle, ValuePart};
use std::alloc::Global;
use xdr_cursor::{Cursor, CursorFault};
use xdr_types::Schema;

/// How many bytes a name has, where that is more than the buffer has and there is a buffer.
fn name_lacking(name: &str, buffer: &[u8]) -> Option<usize>
    ensures { MatchOption result (HasRoomFor name.now buffer.now) (IsLacking name.now buffer.now) }
{
    let count = name.len();
    let room = buffer.len();
    if room == 0 {
        return None;
    }
    if count <= room {
        return None;
    }
    Some(count)
}

/// The same of the name of the next part. That still comes next.
fn lacking(cursor: &mut Cursor, schema: &Schema, buffer: &[u8]) -> Option<usize>
    ensures stay { (input : List ℕ) (es : List Entry) → Awaits cursor.old schema.now.kinds input es
        → Awaits cursor.new schema.now.kinds input es }
    ensures lacking { (input : List ℕ) (es : List Entry) → Awaits cursor.old schema.now.kinds input es
        → MatchOption result (HasRoom buffer.now es) (HasNameOf es) }
    ensures more { IfSome result (λ count. (0 < length buffer.now) × (length buffer.now < count)) }
{
    match cursor.next_name(schema) {
        Some(name) => name_lacking(name, buffer),
        None => None,
    }
}

/// Gives the next part and its name, for which the buffer has room, unless it is empty.
fn give(
    cursor: &mut Cursor,
    schema: &Schema,
    input: &[u8],
    part: &mut ValuePart,
    buffer: &mut [u8],
) -> Given
    ensures { IsGivenWithRoom schema.now.kinds input.now cursor.old cursor.new
        (record { part = part.old; buffer = buffer.old }) (record { part = part.new; buffer = buffer.new }) result }
{
    match cursor.next(schema, input) {
        Ok(Some(lent)) => {
            put_part(schema, &lent, part, buffer);
            Given::Done
        }
        Ok(None) => Given::NoPart,
        Err(CursorFault::NoMemory) => Given::NoMemory,
        Err(CursorFault::Astray) => Given::Astray,
    }
}

/// Gives the next part and its name, which goes into the buffer unless that is empty. A name that has no room is not
/// told of a cursor that has lost its place.
fn next_in(
    cursor: &mut Cursor,
    schema: &Schema,
    input: &[u8],
    part: &mut ValuePart,
    buffer: &mut [u8],
) -> Given
    ensures { IsGiven schema.now.kinds input.now cursor.old cursor.new
        (record { part = part.old; buffer = buffer.old }) (record { part = part.new; buffer = buffer.new }) result }
{
    if cursor.is_lost() {
        return Given::Astray;
    }
    match lacking(cursor, schema, buffer) {
        Some(count) => {
            part.name_count = count;
            Given::NoRoom
        }
        None => give(cursor, schema, input, part, buffer),
    }
}

/// The same of the cursor that a handle holds.
fn next_of(
    state: &mut State,
    schema: &Schema,
    input: &[u8],
    part: &mut ValuePart,
    buffer: &mut [u8],
) -> Given
    ensures { IsGiven schema.now.kinds input.now (cursor_of state.old) (cursor_of state.new)
        (record { part = part.old; buffer = buffer.old }) (record { part = part.new; buffer = buffer.new }) result }
{
    next_in(&mut state.cursor, schema, input, part, buffer)
}

/// The same by a handle.
fn next_by(
    alloc: Global,
    schema: &Schema,
    handle: &mut PartsCursor,
    input: &[u8],
    part: &mut ValuePart,
    buffer: &mut [u8],
) -> Given
    ensures { IsGivenByHandle schema.now.kinds input.now (option_map cursor_of handle.old.held)
        (option_map cursor_of handle.new.held) (record { part = part.old; buffer = buffer.old })
        (record { part = part.new; buffer = buffer.new }) result }
{
    match taken(alloc, handle) {
        Some(mut state) => {
            let answer = next_of(&mut state, schema, input, part, buffer);
            keep(alloc, handle, state);
            answer
        }
        None => Given::NoCursor,
    }
}

/// Gives the next part of the value, as `oncrpc_declarations_parts_next` says.
pub fn next_by_cursor(
    alloc: Global,
    declarations: &mut Handle,
    handle: &mut PartsCursor,
    input: &[u8],
    part: &mut ValuePart,
    buffer: &mut [u8],
) -> u32
    // The declarations stay.
    ensures stay { declarations.new.declared ≡ declarations.old.declared }
    // The status is that of an answer that is right by what both handles hold.
    ensures answer { ReportsGiven (IsGivenByHeld (option_map declared_of declarations.old.declared) input.now
        (option_map cursor_of handle.old.held) (option_map cursor_of handle.new.held)
        (record { part = part.old; buffer = buffer.old }) (record { part = part.new; buffer = buffer.new })) result }
{
    let answer = match taken(alloc, declarations) {
        Some(state) => {
            let answer = next_by(alloc, &state.declared().schema, handle, input, part, buffer);
            keep(alloc, declarations, state);
            answer
        }
        None => Given::NoDeclarations,
    };
    answer.status()
}

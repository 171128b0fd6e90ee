//! Parts that are passed over.
ghost use Rattle.std.specs.Prelude.{◌≡◌, option_map};
ghost use Rattle.xdr_lang.specs.Views.{declared_of};
ghost use Rattle.c_cursors.specs.Held.{cursor_of};
ghost use Rattle.c_cursors.specs.Given.{ReportsGiven};
ghost use Rattle.c_cursors.specs.Passing.{IsPassed, IsPassedByHandle, IsPassedByHeld};

use super::given::Given;
use super::handle::PartsCursor;
use super::state::State;
use c_handles::{keep, taken};
use c_values::Handle;
use std::alloc::Global;
use xdr_cursor::CursorFault;
use xdr_types::Schema;

/// Passes over the parts that are deeper.
fn skip_in(state: &mut State, schema: &Schema, input: &[u8], depth: u32) -> Given
    ensures { IsPassed schema.now.kinds input.now depth (cursor_of state.old) (cursor_of state.new) result }
{
    match state.cursor.skip(schema, input, depth) {
        Ok(()) => Given::Done,
        Err(CursorFault::NoMemory) => Given::NoMemory,
        Err(CursorFault::Astray) => Given::Astray,
    }
}

/// The same by a handle.
fn skip_by(
    alloc: Global,
    schema: &Schema,
    handle: &mut PartsCursor,
    input: &[u8],
    depth: u32,
) -> Given
    ensures { IsPassedByHandle schema.now.kinds input.now depth (option_map cursor_of handle.old.held)
        (option_map cursor_of handle.new.held) result }
{
    match taken(alloc, handle) {
        Some(mut state) => {
            let answer = skip_in(&mut state, schema, input, depth);
            keep(alloc, handle, state);
            answer
        }
        None => Given::NoCursor,
    }
}

/// Passes over the parts that come next, as long as they are deeper, as `oncrpc_declarations_parts_skip` says.
pub fn skip_by_cursor(
    alloc: Global,
    declarations: &mut Handle,
    handle: &mut PartsCursor,
    input: &[u8],
    depth: u32,
) -> u32
    // The declarations stay.
    ensures stay { declarations.new.declared ≡ declarations.old.declared }
    // The status is that of an answer that is right by what both handles hold.
    ensures answer { ReportsGiven (IsPassedByHeld (option_map declared_of declarations.old.declared) input.now depth
        (option_map cursor_of handle.old.held) (option_map cursor_of handle.new.held)) result }
{
    let answer = match taken(alloc, declarations) {
        Some(state) => {
            let answer = skip_by(alloc, &state.declared().schema, handle, input, depth);
            keep(alloc, declarations, state);
            answer
        }
        None => Given::NoDeclarations,
    };
    answer.status()
}

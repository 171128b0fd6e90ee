//! The parts of a value one by one (RFC 4506).
ghost use Rattle.std.specs.Prelude.{◌≡◌, None, option_map};
ghost use Rattle.xdr_lang.specs.Views.{declared_of};
ghost use Rattle.c_values.specs.Statuses.{Reports};
ghost use Rattle.c_cursors.specs.Held.{cursor_of};
ghost use Rattle.c_cursors.specs.Begun.{IsBegunByHeld};
ghost use Rattle.c_cursors.specs.Given.{ReportsGiven};
ghost use Rattle.c_cursors.specs.Giving.{IsGivenByHeld};
ghost use Rattle.c_cursors.specs.Passing.{IsPassedByHeld};

use c_answers::Outcome;
use c_cursors::PartsCursor;
use c_values::{Handle, ValuePart};
use std::alloc::Global;

/// Starts a cursor before the first part of the value that begins the input (RFC 4506 section 4), which is judged here
/// and not again. What the cursor held before is freed. The declarations that the other handle holds stay.
///
/// Status 0: a value that is all of the input. 1: a value, and then at least one more byte. `at` says how many bytes
/// the value has. 2: no value within the limits begins the input; `why` is the reason's number, 1 to 8, at the place
/// `at`. 4: no kind has the name. 5: the limits are out of range. 6: memory was refused. 7: the handle holds no
/// declarations. Above 1 the cursor is untouched.
#[unsafe(no_mangle)]
pub extern "C" fn oncrpc_declarations_parts_start(
    alloc: Global,
    handle: &mut Handle,
    name: &[u8],
    depth: u32,
    bytes: u32,
    input: &[u8],
    cursor: &mut PartsCursor,
    outcome: &mut Outcome,
) -> u32
    // What the handle holds stays.
    ensures stay { handle.new.declared ≡ handle.old.declared }
    // The status and the outcome are those of an answer that is right by it, and by what the cursor holds then.
    ensures answer { Reports (IsBegunByHeld (option_map declared_of handle.old.declared) name.now depth bytes
        input.now (option_map cursor_of cursor.old.held) (option_map cursor_of cursor.new.held)) result outcome.new }
{
    c_cursors::start_cursor(alloc, handle, name, depth, bytes, input, cursor, outcome)
}

/// Gives the next part of the value, by the declarations and the input that the cursor was started with, and puts its
/// name at the front of the buffer, unless that is empty. `name_count` tells how many bytes it has. The declarations
/// stay.
///
/// Status 0: the part is put, and lies in the input. 8: the buffer is too small for the name, which has `name_count`
/// bytes; all else is untouched, and the part still comes next. 34: no part is left. 6: memory was refused; the call
/// may be made again. 7: the handle holds no declarations. 35: the other holds no cursor. 36: the declarations or the
/// input are not those of the start, which is answered for ever after. Above 8, and at 6 and 7, the part and the buffer
/// are untouched.
#[unsafe(no_mangle)]
pub extern "C" fn oncrpc_declarations_parts_next(
    alloc: Global,
    handle: &mut Handle,
    cursor: &mut PartsCursor,
    input: &[u8],
    part: &mut ValuePart,
    buffer: &mut [u8],
) -> u32
    // What the handle holds stays.
    ensures stay { handle.new.declared ≡ handle.old.declared }
    // The status is that of an answer that is right by what both hold.
    ensures answer { ReportsGiven (IsGivenByHeld (option_map declared_of handle.old.declared) input.now
        (option_map cursor_of cursor.old.held) (option_map cursor_of cursor.new.held)
        (record { part = part.old; buffer = buffer.old }) (record { part = part.new; buffer = buffer.new })) result }
{
    c_cursors::next_by_cursor(alloc, handle, cursor, input, part, buffer)
}

/// Passes over the parts that come next, as long as they are deeper than `depth`, by the declarations and the input
/// that the cursor was started with. The declarations stay.
///
/// Status 0: the next part is the first that is not deeper, or none is left. 6: memory was refused; some were passed
/// over, and the call may be made again. 7, 35, 36: as of `oncrpc_declarations_parts_next`.
#[unsafe(no_mangle)]
pub extern "C" fn oncrpc_declarations_parts_skip(
    alloc: Global,
    handle: &mut Handle,
    cursor: &mut PartsCursor,
    input: &[u8],
    depth: u32,
) -> u32
    // What the handle holds stays.
    ensures stay { handle.new.declared ≡ handle.old.declared }
    // The status is that of an answer that is right by what both hold.
    ensures answer { ReportsGiven (IsPassedByHeld (option_map declared_of handle.old.declared) input.now depth
        (option_map cursor_of cursor.old.held) (option_map cursor_of cursor.new.held)) result }
{
    c_cursors::skip_by_cursor(alloc, handle, cursor, input, depth)
}

/// Frees the cursor that the handle holds, if any.
#[unsafe(no_mangle)]
pub extern "C" fn oncrpc_parts_free(alloc: Global, cursor: &mut PartsCursor)
    ensures { cursor.new.held ≡ None }
{
    c_cursors::free_cursor(alloc, cursor)
}

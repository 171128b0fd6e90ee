//! What the exports' contracts make certain for chosen inputs, each proved from the contracts alone.
ghost use Rattle.std.specs.Prelude.{◌≡◌, ◌≢◌, ◌+◌, ◌≤◌, length, option_map};
ghost use Rattle.c_cursors.specs.Held.{cursor_of};

use super::beginning::{free_cursor, start_cursor};
use super::giving::next_by_cursor;
use super::handle::PartsCursor;
use super::passing::skip_by_cursor;
use c_answers::Outcome;
use c_values::{Handle, ValuePart, free_declarations};
use std::alloc::Global;

/// A part that is given lies in the input, whatever the cursor was started with. Without one, what the caller lends for
/// it stays, but for the count of bytes of a name that has no room.
pub fn gives_within_the_input(
    alloc: Global,
    declarations: &mut Handle,
    handle: &mut PartsCursor,
    input: &[u8],
    part: &mut ValuePart,
    buffer: &mut [u8],
) -> u32
    ensures within { result ≡ 0 → part.new.at + part.new.count ≤ length input.now }
    ensures stays { result ≢ 0 → result ≢ 8 → part.new ≡ part.old }
    ensures place { result ≡ 8 → part.new.at ≡ part.old.at }
{
    next_by_cursor(alloc, declarations, handle, input, part, buffer)
}

/// The first part of a value is the value itself: it lies at its beginning, and its depth is 1.
pub fn gives_the_root_first(
    alloc: Global,
    declarations: &mut Handle,
    handle: &mut PartsCursor,
    input: &[u8],
    part: &mut ValuePart,
    buffer: &mut [u8],
    outcome: &mut Outcome,
) -> (u32, u32)
    ensures { result.0 ≤ 1 → result.1 ≡ 0 → (part.new.at ≡ 0) × (part.new.depth ≡ 1) }
{
    let started = start_cursor(
        alloc,
        declarations,
        b"file",
        4096,
        65536,
        input,
        handle,
        outcome,
    );
    let given = next_by_cursor(alloc, declarations, handle, input, part, buffer);
    (started, given)
}

/// After `free` nothing is given or passed over.
pub fn gives_nothing_after_free(
    alloc: Global,
    declarations: &mut Handle,
    handle: &mut PartsCursor,
    input: &[u8],
    part: &mut ValuePart,
    buffer: &mut [u8],
) -> (u32, u32)
    ensures statuses { (result.0 ≢ 0) × (result.1 ≢ 0) }
    ensures part { part.new ≡ part.old }
    ensures buffer { buffer.new ≡ buffer.old }
{
    free_cursor(alloc, handle);
    let given = next_by_cursor(alloc, declarations, handle, input, part, buffer);
    let passed = skip_by_cursor(alloc, declarations, handle, input, 0);
    (given, passed)
}

/// Without declarations no cursor is started, and one that was held stays.
pub fn starts_nothing_without_declarations(
    alloc: Global,
    declarations: &mut Handle,
    handle: &mut PartsCursor,
    input: &[u8],
    outcome: &mut Outcome,
) -> u32
    ensures status { result ≡ 7 }
    ensures held { option_map cursor_of handle.new.held ≡ option_map cursor_of handle.old.held }
{
    free_declarations(alloc, declarations);
    start_cursor(
        alloc,
        declarations,
        b"file",
        4096,
        65536,
        input,
        handle,
        outcome,
    )
}

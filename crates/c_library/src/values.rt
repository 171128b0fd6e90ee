//! Values by their declarations (RFC 4506), and records marked anew (RFC 5531 section 11).
ghost use Rattle.std.specs.Prelude.{◌≡◌, None, option_map};
ghost use Rattle.c_values.specs.Answers.{IsRightByText};
ghost use Rattle.c_values.specs.Statuses.{Reports};
ghost use Rattle.xdr_lang.specs.Views.{declared_of};
ghost use Rattle.c_values.specs.Held.{IsReading, IsRightByHeld};
ghost use Rattle.c_values.specs.Shown.{IsShownByHeld};
ghost use Rattle.c_values.specs.Parted.{IsPartedByHeld, ReportsParts};
ghost use Rattle.c_values.specs.Items.{given};
ghost use Rattle.c_values.specs.Written.{IsWrittenByHeld};
ghost use Rattle.c_values.specs.Normal.{IsMarked};

use c_answers::Outcome;
use c_values::{Handle, PartsOutcome, ValueItem, ValuePart};
use std::alloc::Global;

/// Reads the declarations, and answers whether the input is a value of the kind with that name within the limits. Such
/// a value is no deeper than `depth` (1 to 4096), and has no more than `bytes` bytes (4 to 16777216, a multiple of
/// four). The text is looked at first, then the name, then the limits, then the input.
///
/// Status 0: the input is a value, and 1: a value and then more bytes; `at` counts the value's bytes. 2: no value
/// within the limits begins the input; `why` is the reason's number, 1 to 8, at the place `at`. 3: the text declares
/// nothing; `why` is the fault's number, 1 to 12, at `line` and `column`, with `inner` for 10. 4: no kind has the name.
/// 5: the limits are out of range. 6: memory was refused.
#[unsafe(no_mangle)]
pub extern "C" fn oncrpc_check(
    alloc: Global,
    text: &[u8],
    name: &[u8],
    depth: u32,
    bytes: u32,
    input: &[u8],
    outcome: &mut Outcome,
) -> u32
    ensures { Reports (IsRightByText text.now name.now depth bytes input.now) result outcome.new }
{
    c_values::check_by_text(alloc, text, name, depth, bytes, input, outcome)
}

/// Reads a text of declarations into the handle. What that held before is freed.
///
/// Status 0: the handle holds what the text declares. 3: the text has an error; `why` is the fault's number, 1 to
/// 12, at `line` and `column`, with `inner` for 10. 6: memory was refused. At 3 and 6 the handle holds none.
#[unsafe(no_mangle)]
pub extern "C" fn oncrpc_declarations_read(
    alloc: Global,
    text: &[u8],
    handle: &mut Handle,
    outcome: &mut Outcome,
) -> u32
    ensures { Reports (IsReading text.now (option_map declared_of handle.new.declared)) result outcome.new }
{
    c_values::read_declarations(alloc, text, handle, outcome)
}

/// Answers whether the input is a value of the kind with that name, by the declarations that the handle holds. They
/// stay.
///
/// The statuses are those of `oncrpc_check`. In place of 3 comes 7: the handle holds no declarations.
#[unsafe(no_mangle)]
pub extern "C" fn oncrpc_declarations_check(
    alloc: Global,
    handle: &mut Handle,
    name: &[u8],
    depth: u32,
    bytes: u32,
    input: &[u8],
    outcome: &mut Outcome,
) -> u32
    // What the handle holds stays.
    ensures stay { handle.new.declared ≡ handle.old.declared }
    // The status and the outcome are those of an answer that is right by it.
    ensures answer { Reports (IsRightByHeld (option_map declared_of handle.old.declared) name.now depth bytes input.now)
        result outcome.new }
{
    c_values::check_by_declarations(alloc, handle, name, depth, bytes, input, outcome)
}

/// Puts the lines of the value that begins the input into the buffer, as `show` of the program prints them: one for
/// each part, a node before those inside it, two spaces further in. The declarations that the handle holds stay.
///
/// The statuses are those of `oncrpc_declarations_check`, and 8: the buffer is too small, `at` bytes are needed. At 0
/// and 1 `written` counts the bytes that were written, and the rest of the buffer is untouched. At any other status
/// the buffer is untouched, and `written` is 0.
#[unsafe(no_mangle)]
pub extern "C" fn oncrpc_declarations_show(
    alloc: Global,
    handle: &mut Handle,
    name: &[u8],
    depth: u32,
    bytes: u32,
    input: &[u8],
    buffer: &mut [u8],
    written: &mut usize,
    outcome: &mut Outcome,
) -> u32
    // What the handle holds stays.
    ensures stay { handle.new.declared ≡ handle.old.declared }
    // The status and the outcome are those of an answer that is right by it.
    ensures answer { Reports (IsShownByHeld (option_map declared_of handle.old.declared) name.now depth bytes input.now
        buffer.old buffer.new written.new) result outcome.new }
{
    c_values::show_by_declarations(
        alloc, handle, name, depth, bytes, input, buffer, written, outcome,
    )
}

/// Puts the parts of the value that begins the input into the buffers (RFC 4506 section 4), in the order of their
/// bytes, a node before those inside it, and their names joined. The declarations that the handle holds stay.
///
/// Status 0: the input is a value, and 1: a value and then more bytes. `at` counts the value's bytes, `parts` the
/// parts and `names` the bytes of names that were written; the rest of the buffers is untouched. 2: no value within
/// the limits begins the input; `why` is the reason's number, 1 to 8, at the place `at`. 4: no kind has the name. 5:
/// the limits are out of range. 6: memory was refused. 7: the handle holds no declarations. 8: a buffer is too small;
/// `at` counts the value's bytes, buffer for `parts` parts and `names` bytes is needed. Above 1 both buffers are
/// untouched.
#[unsafe(no_mangle)]
pub extern "C" fn oncrpc_declarations_parts(
    alloc: Global,
    handle: &mut Handle,
    name: &[u8],
    depth: u32,
    bytes: u32,
    input: &[u8],
    parts: &mut [ValuePart],
    names: &mut [u8],
    outcome: &mut PartsOutcome,
) -> u32
    // What the handle holds stays.
    ensures stay { handle.new.declared ≡ handle.old.declared }
    // The status and the outcome are those of an answer that is right by it.
    ensures answer { ReportsParts (IsPartedByHeld (option_map declared_of handle.old.declared) name.now depth bytes
        input.now (record { parts = parts.old; names = names.old }) (record { parts = parts.new; names = names.new }))
        result outcome.new }
{
    c_values::parts_by_declarations(
        alloc, handle, name, depth, bytes, input, parts, names, outcome,
    )
}

/// Puts the encoding of the value of the kind with that name that has these items into the buffer (RFC 4506 section
/// 4). The bytes of content lie in `content`. The declarations that the handle holds stay.
///
/// Status 0: there is such a value within the limits; `written` and `at` count the bytes that were written, and the
/// rest of the buffer is untouched. 26: no value within the limits has the items up to the one that `at` others are
/// before. Then `why` is the reason's number: 1 to 7, or 9 (another item is due), 10 (out of range), 11 (the value is
/// whole before), 13 (content that does not lie in `content`). With 12 no value has these items alone, and `at` counts
/// them. 4: no kind has the name. 5: the limits are out of range. 6: memory was refused. 7: the handle holds no
/// declarations. 8: the buffer is too small, `at` bytes are needed. Above 0 the buffer is untouched, and `written` is
/// 0.
#[unsafe(no_mangle)]
pub extern "C" fn oncrpc_declarations_write(
    alloc: Global,
    handle: &mut Handle,
    name: &[u8],
    depth: u32,
    bytes: u32,
    items: &[ValueItem],
    content: &[u8],
    buffer: &mut [u8],
    written: &mut usize,
    outcome: &mut Outcome,
) -> u32
    // What the handle holds stays.
    ensures stay { handle.new.declared ≡ handle.old.declared }
    // The status and the outcome are those of an answer that is right by it.
    ensures answer { Reports (IsWrittenByHeld (option_map declared_of handle.old.declared) name.now depth bytes
        (given items.now content.now) buffer.old buffer.new written.new) result outcome.new }
{
    c_values::write_by_declarations(
        alloc, handle, name, depth, bytes, items, content, buffer, written, outcome,
    )
}

/// Frees the declarations that the handle holds, if any. It then holds none, so that a second call does nothing.
#[unsafe(no_mangle)]
pub extern "C" fn oncrpc_declarations_free(alloc: Global, handle: &mut Handle)
    ensures { handle.new.declared ≡ None }
{
    c_values::free_declarations(alloc, handle);
}

/// Writes each record of the input into the buffer as one final fragment (RFC 5531 section 11). A record may have
/// `limit` bytes, at most 2147483647.
///
/// Status 0: the input is whole records. 2: after the records that are written, `why` 4, a record is too long by the
/// header at the place `at`, or 8, the input ends inside a record. At 0 and 2 `written` counts the bytes that were
/// written, and the rest of the buffer is untouched. 8: the buffer is too small, `at` bytes are needed. 5: the limit
/// is out of range. 6: memory was refused, or the input has more than 4294963200 bytes. At 5, 6 and 8 the buffer is
/// untouched, and `written` is 0.
#[unsafe(no_mangle)]
pub extern "C" fn oncrpc_normalise(
    alloc: Global,
    input: &[u8],
    limit: u32,
    buffer: &mut [u8],
    written: &mut usize,
    outcome: &mut Outcome,
) -> u32
    ensures { Reports (IsMarked limit input.now buffer.old buffer.new written.new) result outcome.new }
{
    c_values::normalise_records(alloc, input, limit, buffer, written, outcome)
}

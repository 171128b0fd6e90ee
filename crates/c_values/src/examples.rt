//! What the exports' contracts make certain for chosen inputs, each proved from the contracts alone.
ghost use Rattle.std.specs.Prelude.{◌≡◌, ◌≢◌, ◌<◌, ◌≤◌, ◌⊎◌, ◌^◌, codes, length, option_map, take};
ghost use Rattle.xdr_lang.specs.Views.{declared_of};
ghost use Rattle.c_values.specs.Argument.{HasArgument};
ghost use Rattle.c_values.specs.Pair.{HoldsPair, pair_bytes, pair_parts, pair_outcome};
ghost use Rattle.c_answers.specs.Outcomes.{only_at};

use super::check::check_by_text;
use super::declarations::{check_by_declarations, free_declarations, read_declarations};
use super::handle::Handle;
use super::item::ValueItem;
use super::listed::PartsOutcome;
use super::normal::normalise_records;
use super::part::ValuePart;
use super::parts::parts_by_declarations;
use super::show::show_by_declarations;
use super::write::write_by_declarations;
use c_answers::Outcome;
use std::alloc::Global;

/// Status 0 tells how many bytes the input has, and nothing else.
pub fn reports_the_count_of_a_value(
    alloc: Global,
    text: &[u8],
    input: &[u8],
    outcome: &mut Outcome,
) -> u32
    ensures { result ≡ 0 → outcome.new ≡ only_at (length input.now) }
{
    check_by_text(alloc, text, b"int", 1, 4, input, outcome)
}

/// Where memory was refused nothing is reported.
pub fn reports_nothing_without_memory(
    alloc: Global,
    text: &[u8],
    input: &[u8],
    outcome: &mut Outcome,
) -> u32
    ensures { result ≡ 6 → outcome.new ≡ only_at 0 }
{
    check_by_text(alloc, text, b"int", 1, 4, input, outcome)
}

/// Declarations that were read are there for a check.
pub fn holds_what_was_read(
    alloc: Global,
    text: &[u8],
    handle: &mut Handle,
    outcome: &mut Outcome,
) -> (u32, u32)
    ensures { result.0 ≡ 0 → result.1 ≢ 7 }
{
    let read = read_declarations(alloc, text, handle, outcome);
    let check = check_by_declarations(alloc, handle, b"int", 1, 4, b"", outcome);
    (read, check)
}

/// After `free` there are none.
pub fn holds_nothing_after_free(alloc: Global, handle: &mut Handle, outcome: &mut Outcome) -> u32
    ensures status { result ≡ 7 }
    ensures outcome { outcome.new ≡ only_at 0 }
{
    free_declarations(alloc, handle);
    check_by_declarations(alloc, handle, b"int", 1, 4, b"", outcome)
}

/// A buffer that is too small stays as it was.
pub fn leaves_small_buffer(
    alloc: Global,
    input: &[u8],
    buffer: &mut [u8],
    written: &mut usize,
    outcome: &mut Outcome,
) -> u32
    ensures { result ≡ 8 → (buffer.new ≡ buffer.old) × (written.new ≡ 0) }
{
    normalise_records(alloc, input, 65536, buffer, written, outcome)
}

/// By a limit out of its range nothing is written, of whatever input.
pub fn marks_nothing_by_a_limit_out_of_range(
    alloc: Global,
    input: &[u8],
    limit: u32,
    buffer: &mut [u8],
    written: &mut usize,
    outcome: &mut Outcome,
) -> u32
    requires { 2 ^ 31 ≤ limit }
    ensures status { (result ≡ 5) ⊎ (result ≡ 6) }
    ensures retained { (buffer.new ≡ buffer.old) × (written.new ≡ 0) }
    ensures outcome { outcome.new ≡ only_at 0 }
{
    normalise_records(alloc, input, limit, buffer, written, outcome)
}

/// Buffer for too few lines stays as it was.
pub fn shows_nothing_in_small_buffer(
    alloc: Global,
    handle: &mut Handle,
    input: &[u8],
    buffer: &mut [u8],
    written: &mut usize,
    outcome: &mut Outcome,
) -> u32
    ensures { result ≡ 8 → (buffer.new ≡ buffer.old) × (written.new ≡ 0) }
{
    show_by_declarations(alloc, handle, b"int", 1, 4, input, buffer, written, outcome)
}

/// Lines are shown by declarations that were read.
pub fn shows_by_what_was_read(
    alloc: Global,
    text: &[u8],
    handle: &mut Handle,
    buffer: &mut [u8],
    written: &mut usize,
    outcome: &mut Outcome,
) -> (u32, u32)
    ensures { result.0 ≡ 0 → result.1 ≢ 7 }
{
    let read = read_declarations(alloc, text, handle, outcome);
    let show = show_by_declarations(alloc, handle, b"int", 1, 4, b"", buffer, written, outcome);
    (read, show)
}

/// Arguments are named by numbers and counted from 1: the only argument of a procedure has the number 1.
pub fn names_an_argument(
    alloc: Global,
    handle: &mut Handle,
    input: &[u8],
    outcome: &mut Outcome,
) -> u32
    requires { HasArgument (option_map declared_of handle.old.declared) }
    ensures { result ≢ 4 }
{
    check_by_declarations(alloc, handle, b"100003.3.16.1", 1, 4, input, outcome)
}

/// Buffers of which one is too small stay as they were.
pub fn lists_nothing_in_small_buffers(
    alloc: Global,
    handle: &mut Handle,
    input: &[u8],
    parts: &mut [ValuePart],
    names: &mut [u8],
    outcome: &mut PartsOutcome,
) -> u32
    ensures retained { result ≡ 8 → (parts.new ≡ parts.old) × (names.new ≡ names.old) }
    ensures small { result ≡ 8 → (length parts.old < outcome.new.parts) ⊎ (length names.old < outcome.new.names) }
{
    parts_by_declarations(alloc, handle, b"int", 1, 4, input, parts, names, outcome)
}

/// Of a refused input no part is reported, and both buffers stay as they were.
pub fn lists_no_part_of_a_refusal(
    alloc: Global,
    handle: &mut Handle,
    input: &[u8],
    parts: &mut [ValuePart],
    names: &mut [u8],
    outcome: &mut PartsOutcome,
) -> u32
    ensures none { result ≡ 2 → (outcome.new.parts ≡ 0) × (outcome.new.names ≡ 0) }
    ensures retained { result ≡ 2 → (parts.new ≡ parts.old) × (names.new ≡ names.old) }
    ensures within { result ≡ 2 → outcome.new.at ≤ length input.now }
{
    parts_by_declarations(alloc, handle, b"int", 1, 4, input, parts, names, outcome)
}

/// A structure of a number and a string has four parts, the string two of them, and content is reported without the
/// zero after it. Each name stands behind those of the parts before.
pub fn lists_a_structure(
    alloc: Global,
    handle: &mut Handle,
    input: &[u8],
    parts: &mut [ValuePart],
    names: &mut [u8],
    outcome: &mut PartsOutcome,
) -> u32
    requires held { HoldsPair (option_map declared_of handle.old.declared) }
    requires input { input.now ≡ pair_bytes }
    ensures parts { result ≡ 0 → take 4 parts.new ≡ pair_parts }
    ensures names { result ≡ 0 → take 10 names.new ≡ codes "idnamename" }
    ensures outcome { result ≡ 0 → outcome.new ≡ pair_outcome }
{
    parts_by_declarations(alloc, handle, b"pair", 2, 12, input, parts, names, outcome)
}

/// Items that are refused are so for a reason, too few of them behind the last alone, and nothing is written of them.
pub fn tells_why_items_are_refused(
    alloc: Global,
    handle: &mut Handle,
    items: &[ValueItem],
    content: &[u8],
    buffer: &mut [u8],
    written: &mut usize,
    outcome: &mut Outcome,
) -> u32
    ensures reason { result ≡ 26 → 1 ≤ outcome.new.why }
    ensures place { result ≡ 26 → outcome.new.why ≡ 12 → outcome.new.at ≡ length items.now }
    ensures retained { result ≡ 26 → (buffer.new ≡ buffer.old) × (written.new ≡ 0) }
{
    write_by_declarations(
        alloc, handle, b"pair", 2, 12, items, content, buffer, written, outcome,
    )
}

//! One value: when something is printed, what stands before the line of its outcome, and how much is read.
ghost use Rattle.std.specs.Prelude.{◌≡◌, ◌≢◌, ◌⊎◌, ◌<◌, ◌≤◌, ◌+◌, ◌++◌, [], ℕ, List, length, take};
ghost use Rattle.std.specs.Io.KnownBytes.{Appends};
ghost use Rattle.xdr_io.specs.Reported.{Counts, MovesAtMost};
ghost use Rattle.oncrpc_answers.specs.declared.answer.Answer.{Answer};
ghost use Rattle.oncrpc_answers.specs.declared.answer.Answer.TheVariants.{BadHex, Whole};
ghost use Rattle.oncrpc_answers.specs.Lines.{line, line_status};
ghost use Rattle.oncrpc_tasks.specs.Stopping.{ReadsUnsettled};

use oncrpc_answers::{Failure, report};
use oncrpc_tasks::{Form, Question, answer_over, check_over, show_over};
use std::alloc::Global;
use xdr_io::{MemorySource, Sink, Source};
use xdr_json::Layout;
use xdr_types::{KindId, Limits, Schema};

/// An allocation failure ends with 4, so that a caller can tell it from a device that failed.
pub fn want_of_memory_is_4<F: Sink>(faults: &mut F) -> u8
    ensures { result ≡ 4 }
{
    report(Failure::NoMemory, faults)
}

/// Nothing is printed before the answer is known, so where memory was refused nothing was.
pub fn nothing_is_printed_at_4<I: Source, O: Sink, F: Sink>(
    alloc: Global,
    input: &mut I,
    output: &mut O,
    faults: &mut F,
    schema: &Schema,
    kind: KindId,
    limits: Limits,
    hex: bool,
) -> u8
    requires { kind.place < length schema.now.kinds }
    ensures { result ≡ 4 → output.new ≡ output.old }
{
    check_over(alloc, input, output, faults, schema, kind, limits, hex)
}

/// Where there is an answer, a refusal too, nothing is said of faults, and no read or write failed.
pub fn silent_where_it_answers<I: Source, O: Sink, F: Sink>(
    alloc: Global,
    input: &mut I,
    output: &mut O,
    faults: &mut F,
    schema: &Schema,
    kind: KindId,
    limits: Limits,
    hex: bool,
) -> u8
    requires { kind.place < length schema.now.kinds }
    ensures silent { result ≤ 1 → faults.new ≡ faults.old }
    ensures read { result ≤ 1 → Counts 0 (I.failures input.old) (I.failures input.new) }
    ensures written { result ≤ 1 → Counts 0 (O.failures output.old) (O.failures output.new) }
{
    check_over(alloc, input, output, faults, schema, kind, limits, hex)
}

/// Status 3 says that a read or a write failed, or that 1048576 reads were made.
pub fn a_device_is_3<I: Source, O: Sink, F: Sink>(
    alloc: Global,
    input: &mut I,
    output: &mut O,
    faults: &mut F,
    schema: &Schema,
    kind: KindId,
    limits: Limits,
    hex: bool,
) -> u8
    requires { kind.place < length schema.now.kinds }
    ensures { result ≡ 3 → Counts 1 (I.failures input.old) (I.failures input.new)
        ⊎ (Counts 1 (O.failures output.old) (O.failures output.new)
        ⊎ Counts 1048576 (I.reads input.old) (I.reads input.new)) }
{
    check_over(alloc, input, output, faults, schema, kind, limits, hex)
}

/// A read that fails is met only where what was read settles no answer: none is made after a refusal, nor after a byte
/// behind the value.
pub fn no_read_fails_after_the_answer<I: Source, O: Sink, F: Sink>(
    alloc: Global,
    input: &mut I,
    output: &mut O,
    faults: &mut F,
    schema: &Schema,
    kind: KindId,
    limits: Limits,
) -> u8
    requires { kind.place < length schema.now.kinds }
    ensures { result ≡ 3
        → ReadsUnsettled (record { kinds = schema.now.kinds; place = kind.place; limits = limits; form = Form.Outcome })
        (I.left input.old) (I.left input.new)
        ⊎ Counts 1 (O.failures output.old) (O.failures output.new) }
{
    check_over(alloc, input, output, faults, schema, kind, limits, false)
}

/// A show stops reading where a check does: a read that fails is met only where what was read settles no answer, so
/// none is made after a refusal.
pub fn no_read_of_a_show_fails_after_the_answer<I: Source, O: Sink, F: Sink>(
    alloc: Global,
    input: &mut I,
    output: &mut O,
    faults: &mut F,
    schema: &Schema,
    kind: KindId,
    limits: Limits,
) -> u8
    requires { kind.place < length schema.now.kinds }
    ensures { result ≡ 3
        → ReadsUnsettled (record { kinds = schema.now.kinds; place = kind.place; limits = limits; form = Form.Lines })
        (I.left input.old) (I.left input.new)
        ⊎ Counts 1 (O.failures output.old) (O.failures output.new) }
{
    show_over(alloc, input, output, faults, schema, kind, limits, false)
}

/// Of a value nothing is printed in part but the beginning of what is right.
pub fn no_other_part_is_printed<I: Source, O: Sink, F: Sink>(
    alloc: Global,
    input: &mut I,
    output: &mut O,
    faults: &mut F,
    schema: &Schema,
    kind: KindId,
    limits: Limits,
    hex: bool,
) -> u8
    requires { kind.place < length schema.now.kinds }
    ensures { result ≡ 3 → (output.new ≡ output.old) ⊎ ((answer : Answer) × (shown : List ℕ) × (count : ℕ)
        × (count < length (shown ++ line answer))
        × Appends (O.taken output.old) (O.taken output.new) (take count (shown ++ line answer))) }
{
    show_over(alloc, input, output, faults, schema, kind, limits, hex)
}

/// The input is read until more than the limit on bytes is there, by pages of 4096.
pub fn no_more_is_read<I: Source, O: Sink, F: Sink>(
    alloc: Global,
    input: &mut I,
    output: &mut O,
    faults: &mut F,
    schema: &Schema,
    kind: KindId,
    limits: Limits,
) -> u8
    requires { kind.place < length schema.now.kinds }
    ensures { MovesAtMost (limits.bytes + 4096) (I.left input.old) (I.left input.new) }
{
    show_over(alloc, input, output, faults, schema, kind, limits, false)
}

/// The line of the outcome comes after what is shown of a value.
pub fn a_line_after_the_value<I: Source, O: Sink, F: Sink>(
    alloc: Global,
    input: &mut I,
    output: &mut O,
    faults: &mut F,
    schema: &Schema,
    kind: KindId,
    limits: Limits,
    hex: bool,
) -> u8
    requires { kind.place < length schema.now.kinds }
    ensures { result ≡ 0 → (answer : Answer) × (shown : List ℕ)
        × Appends (O.taken output.old) (O.taken output.new) (shown ++ line answer) × (line_status answer ≡ 0) }
{
    show_over(alloc, input, output, faults, schema, kind, limits, hex)
}

/// Of a value that is refused nothing is shown but the line of its refusal.
pub fn nothing_of_a_refused_value<O: Sink, F: Sink>(
    alloc: Global,
    bytes: &[u8],
    output: &mut O,
    faults: &mut F,
    schema: &Schema,
    kind: KindId,
    limits: Limits,
    hex: bool,
) -> u8
    requires { kind.place < length schema.now.kinds }
    ensures { result ≡ 1 → (answer : Answer) × Appends (O.taken output.old) (O.taken output.new) (line answer) }
{
    let mut input = MemorySource::new(bytes, 4096, None);
    show_over(alloc, &mut input, output, faults, schema, kind, limits, hex)
}

/// One hexadecimal digit spells no byte, so no value is found in it.
pub fn odd_digits_are_refused<O: Sink, F: Sink>(
    alloc: Global,
    output: &mut O,
    faults: &mut F,
    schema: &Schema,
    kind: KindId,
    limits: Limits,
) -> u8
    requires { kind.place < length schema.now.kinds }
    ensures { result ≢ 0 }
{
    let mut input = MemorySource::new(b"0", 1, None);
    check_over(
        alloc, &mut input, output, faults, schema, kind, limits, true,
    )
}

/// White space in a text of hexadecimal is no fault: these two digits spell a byte, though a space stands before them.
#[tactic(auto, using(crate::proofs::Spelled::not_bad))]
pub fn white_space_is_dropped<O: Sink, F: Sink>(
    alloc: Global,
    output: &mut O,
    faults: &mut F,
    schema: &Schema,
    kind: KindId,
    limits: Limits,
) -> u8
    requires { kind.place < length schema.now.kinds }
    ensures { result ≤ 1 → (answer : Answer) × (shown : List ℕ)
        × Appends (O.taken output.old) (O.taken output.new) (shown ++ line answer) × (answer ≢ BadHex) }
{
    let mut input = MemorySource::new(b" 00", 1, None);
    check_over(
        alloc, &mut input, output, faults, schema, kind, limits, true,
    )
}

/// Nothing follows a value of no bytes in an empty input: its line is `ok N` without more.
pub fn nothing_follows_an_empty_input<O: Sink, F: Sink>(
    alloc: Global,
    output: &mut O,
    faults: &mut F,
    schema: &Schema,
    kind: KindId,
    limits: Limits,
) -> u8
    requires { kind.place < length schema.now.kinds }
    ensures { result ≡ 0 → (shown : List ℕ) × (used : ℕ)
        × Appends (O.taken output.old) (O.taken output.new) (shown ++ line (Whole used)) }
{
    let mut input = MemorySource::new(b"", 1, None);
    show_over(
        alloc, &mut input, output, faults, schema, kind, limits, false,
    )
}

/// As JSON the value alone is printed: nothing of the line of its outcome goes to the output, and where the input holds
/// no more than the value nothing is said of faults.
pub fn json_stands_alone<I: Source, O: Sink, F: Sink>(
    alloc: Global,
    input: &mut I,
    output: &mut O,
    faults: &mut F,
    schema: &Schema,
    kind: KindId,
    limits: Limits,
    layout: Layout,
) -> u8
    requires { kind.place < length schema.now.kinds }
    ensures { result ≤ 1 → (answer : Answer) × (shown : List ℕ)
        × Appends (O.taken output.old) (O.taken output.new) shown
        × (line_status answer ≡ result) × ((used : ℕ) → answer ≡ Whole used → faults.new ≡ faults.old) }
{
    let question = Question {
        schema,
        kind,
        limits,
        hex: false,
        form: Form::Json(layout),
    };
    answer_over(alloc, &question, input, output, faults)
}

/// A value that is refused prints no JSON at all.
pub fn no_json_of_a_refused_value<O: Sink, F: Sink>(
    alloc: Global,
    bytes: &[u8],
    output: &mut O,
    faults: &mut F,
    schema: &Schema,
    kind: KindId,
    limits: Limits,
    layout: Layout,
) -> u8
    requires { kind.place < length schema.now.kinds }
    ensures { result ≡ 1 → Appends (O.taken output.old) (O.taken output.new) [] }
{
    let question = Question {
        schema,
        kind,
        limits,
        hex: false,
        form: Form::Json(layout),
    };
    let mut input = MemorySource::new(bytes, 4096, None);
    answer_over(alloc, &question, &mut input, output, faults)
}

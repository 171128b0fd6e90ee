//! Streams of records: which limits are taken, and what is printed.
ghost use Rattle.std.specs.Prelude.{◌≡◌, ◌≢◌, ◌≤◌, ◌⊎◌, ◌++◌, ◌∷◌, [], ℕ, List, Some, Ok, IfSome, true};
ghost use Rattle.std.specs.Io.KnownBytes.{Appends, Consumes};
ghost use Rattle.hex.specs.Hex.{decode_of, encode_lower};
ghost use Rattle.xdr_io.specs.Reported.{Counts, CountsAtMost, MovesAtMost};
ghost use Rattle.rpc_record.specs.Marked.{Longest, normal};
ghost use Rattle.rpc_record.specs.Reading.{IsWhole};
ghost use Rattle.oncrpc_tasks.specs.Hexadecimal.{digits};
ghost use Rattle.oncrpc_tasks.specs.Records.{RefusedBytes};

use oncrpc_tasks::records_over;
use std::alloc::Global;
use xdr_io::{Sink, Source};

/// A record has at most 2147483647 bytes (RFC 5531 section 11), so a greater limit is refused, and nothing is read.
pub fn a_limit_too_great<I: Source, O: Sink, F: Sink>(
    alloc: Global,
    input: &mut I,
    output: &mut O,
    faults: &mut F,
) -> u8
    ensures status { result ≡ 2 }
    ensures unread { input.new ≡ input.old }
    ensures unprinted { output.new ≡ output.old }
{
    records_over(alloc, input, output, faults, 2147483648, false)
}

/// The greatest limit, 2147483647, is not refused.
pub fn the_greatest_limit<I: Source, O: Sink, F: Sink>(
    alloc: Global,
    input: &mut I,
    output: &mut O,
    faults: &mut F,
) -> u8
    ensures { result ≢ 2 }
{
    records_over(alloc, input, output, faults, 2147483647, false)
}

/// Where the stream was normalised to its end, nothing is said of faults. There, and where it is refused, no read or
/// write failed.
pub fn silent_at_its_end<I: Source, O: Sink, F: Sink>(
    alloc: Global,
    input: &mut I,
    output: &mut O,
    faults: &mut F,
    limit: u32,
    hex: bool,
) -> u8
    ensures silent { result ≡ 0 → faults.new ≡ faults.old }
    ensures unfailed { result ≤ 1 → Counts 0 (I.failures input.old) (I.failures input.new) }
    ensures unlost { result ≤ 1 → Counts 0 (O.failures output.old) (O.failures output.new) }
{
    records_over(alloc, input, output, faults, limit, hex)
}

/// However long a stream is, it is read in at most 1048576 reads.
pub fn reads_no_more_often<I: Source, O: Sink, F: Sink>(
    alloc: Global,
    input: &mut I,
    output: &mut O,
    faults: &mut F,
    limit: u32,
) -> u8
    ensures { CountsAtMost 1048576 (I.reads input.old) (I.reads input.new) }
{
    records_over(alloc, input, output, faults, limit, false)
}

/// Where a read failed and no write did, all records before it were written, whole.
pub fn written_before_a_read_failed<I: Source, O: Sink, F: Sink>(
    alloc: Global,
    input: &mut I,
    output: &mut O,
    faults: &mut F,
    limit: u32,
) -> u8
    requires { O.failures output.old ≡ Some 0 }
    ensures { result ≡ 3 → O.failures output.new ≡ Some 0
        → (read : List ℕ) × (records : List (List ℕ))
        × Consumes (I.left input.old) (I.left input.new) read × Longest limit records read
        × Appends (O.taken output.old) (O.taken output.new) (normal records) }
{
    records_over(alloc, input, output, faults, limit, false)
}

/// What is printed of a text of hexadecimal is the normal form of the records that it spells, one fragment for each,
/// and not the text again.
pub fn a_text_is_normalised<I: Source, O: Sink, F: Sink>(
    alloc: Global,
    input: &mut I,
    output: &mut O,
    faults: &mut F,
    limit: u32,
) -> u8
    ensures { result ≡ 0 → IfSome (I.left input.old) (λ text. (bytes : List ℕ) × (records : List (List ℕ))
        × (decode_of (digits text) ≡ Ok bytes) × IsWhole limit records bytes
        × Appends (O.taken output.old) (O.taken output.new) (encode_lower (normal records) ++ 10 ∷ [])) }
{
    records_over(alloc, input, output, faults, limit, true)
}

/// Where memory was refused for a text of hexadecimal, nothing was printed but what comes before a refusal's line.
pub fn a_text_at_4<I: Source, O: Sink, F: Sink>(
    alloc: Global,
    input: &mut I,
    output: &mut O,
    faults: &mut F,
    limit: u32,
) -> u8
    ensures { result ≡ 4 → (output.new ≡ output.old)
        ⊎ RefusedBytes limit true (I.left input.old) (I.left input.new) (O.taken output.old) (O.taken output.new) }
{
    records_over(alloc, input, output, faults, limit, true)
}

/// A text of hexadecimal is read to 1048576 bytes and a page of 4096.
pub fn a_text_is_read_so_far<I: Source, O: Sink, F: Sink>(
    alloc: Global,
    input: &mut I,
    output: &mut O,
    faults: &mut F,
    limit: u32,
) -> u8
    ensures { MovesAtMost 1052672 (I.left input.old) (I.left input.new) }
{
    records_over(alloc, input, output, faults, limit, true)
}

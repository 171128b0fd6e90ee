//! Streams of records brought to their normal form (RFC 5531 section 11).
ghost use Rattle.std.specs.Prelude.{◌≡◌, ℕ, List, [], ◌∷◌, IfOk, OnOk};
ghost use Rattle.std.specs.Io.KnownBytes.{Appends, Consumes};
ghost use Rattle.xdr_io.specs.Reported.{Counts};
ghost use Rattle.rpc_record.specs.Marked.{normal};
ghost use Rattle.rpc_record.specs.Reading.{RefusedIn};

use rpc_record::{Count, NoMemory, RecordFault, no_record_begins_another, normalise};
use std::alloc::Global;
use xdr_io::{MemorySource, Sink, Source};

/// No bytes have a normal form of no bytes.
pub fn normalises_nothing<W: Sink>(alloc: Global, writer: &mut W) -> Result<Count, RecordFault>
    ensures counted { IfOk result (λ count. (count.records ≡ 0) × (count.bytes ≡ 0)) }
    ensures written { OnOk result (Appends (W.taken writer.old) (W.taken writer.new) []) }
{
    no_record_begins_another();
    let mut source = MemorySource::new(&[], 4096, None);
    let count = normalise(alloc, &mut source, writer, 100)?;
    Ok(count)
}

/// An empty fragment ends no record: `00000000 00000000 80000000` is one empty record, whose normal form is `80000000`.
pub fn joins_empty_fragments<W: Sink>(alloc: Global, writer: &mut W) -> Result<Count, RecordFault>
    ensures counted { IfOk result (λ count. (count.records ≡ 1) × (count.bytes ≡ 4)) }
    ensures written { OnOk result (Appends (W.taken writer.old) (W.taken writer.new)
        (128 ∷ 0 ∷ 0 ∷ 0 ∷ [])) }
{
    no_record_begins_another();
    let stream = [0, 0, 0, 0, 0, 0, 0, 0, 0x80, 0, 0, 0];
    let mut source = MemorySource::new(&stream, 4096, None);
    let count = normalise(alloc, &mut source, writer, 0)?;
    Ok(count)
}

/// Two fragments are joined: `00000002 6162 80000001 63` has the normal form `80000003 616263`.
pub fn joins_two_fragments<W: Sink>(alloc: Global, writer: &mut W) -> Result<Count, RecordFault>
    ensures counted { IfOk result (λ count. (count.records ≡ 1) × (count.bytes ≡ 7)) }
    ensures written { OnOk result (Appends (W.taken writer.old) (W.taken writer.new)
        (128 ∷ 0 ∷ 0 ∷ 3 ∷ 97 ∷ 98 ∷ 99 ∷ [])) }
{
    no_record_begins_another();
    let stream = [0, 0, 0, 2, 0x61, 0x62, 0x80, 0, 0, 1, 0x63];
    let mut source = MemorySource::new(&stream, 4096, None);
    let count = normalise(alloc, &mut source, writer, 100)?;
    Ok(count)
}

/// Two records stay two, an empty one too: `80000001 61 80000000`.
pub fn keeps_two_records_apart<W: Sink>(alloc: Global, writer: &mut W) -> Result<Count, RecordFault>
    ensures counted { IfOk result (λ count. (count.records ≡ 2) × (count.bytes ≡ 9)) }
    ensures written { OnOk result (Appends (W.taken writer.old) (W.taken writer.new)
        (128 ∷ 0 ∷ 0 ∷ 1 ∷ 97 ∷ 128 ∷ 0 ∷ 0 ∷ 0 ∷ [])) }
{
    no_record_begins_another();
    let stream = [0x80, 0, 0, 1, 0x61, 0x80, 0, 0, 0];
    let mut source = MemorySource::new(&stream, 4096, None);
    let count = normalise(alloc, &mut source, writer, 100)?;
    Ok(count)
}

/// Where a header passes the limit the input is not reported as cut, though it ends behind it: `80000001` where the
/// limit is 0.
pub fn reports_no_long_header_as_cut<W: Sink>(
    alloc: Global,
    writer: &mut W,
    place: u64,
) -> Result<Count, RecordFault>
    ensures { result ≡ Err (RecordFault.Truncated place) → ⊥ }
{
    let stream = [0x80, 0, 0, 1];
    let mut source = MemorySource::new(&stream, 4096, None);
    normalise(alloc, &mut source, writer, 0)
}

/// Where memory is refused, the whole records before the one that no buffer was found for were written.
pub fn writes_what_was_whole<R: Source, W: Sink>(
    alloc: Global,
    reader: &mut R,
    writer: &mut W,
) -> Result<Count, RecordFault>
    ensures { result ≡ Err RecordFault.NoMemory → (read : List ℕ) × (records : List (List ℕ))
        × Consumes (R.left reader.old) (R.left reader.new) read × RefusedIn 100 records 4096 read
        × Appends (W.taken writer.old) (W.taken writer.new) (normal records) }
{
    normalise(alloc, reader, writer, 100)
}

/// Where a record is above the limit, no read and no write failed.
pub fn fails_by_no_device<R: Source, W: Sink>(
    alloc: Global,
    reader: &mut R,
    writer: &mut W,
    place: u64,
) -> Result<Count, RecordFault>
    ensures read { result ≡ Err (RecordFault.TooLong place) → Counts 0 (R.failures reader.old) (R.failures reader.new) }
    ensures write { result ≡ Err (RecordFault.TooLong place)
        → Counts 0 (W.failures writer.old) (W.failures writer.new) }
{
    normalise(alloc, reader, writer, 100)
}

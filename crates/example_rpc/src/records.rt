//! Records of a stream (RFC 5531 section 11): marked, and read in any pieces.
ghost use Rattle.std.specs.Prelude.{◌≡◌, ◌≤◌, ◌⊎◌, ℕ, List, [], ◌∷◌, true, IfOk, IfErr, IfSome, OnOk, MatchResult};
ghost use Rattle.std.specs.Prelude.{take, vec_len};
ghost use Rattle.std.specs.Io.KnownBytes.{Appends};
ghost use Rattle.rpc_record.specs.Reading.{IsWhole};
ghost use Rattle.rpc_record.specs.Represents.{Always, IsTaking, IsWaiting, IsBroken, limit_of};

use rpc_record::{
    NoMemory, RecordFault, RecordReader, RecordStep, last_header, mark, no_record_begins_another,
    too_long_ends_the_stream, write_marked,
};
use std::alloc::Global;
use xdr_io::{Cut, Sink};

/// A record of no bytes is a header alone: `80000000`.
#[tactic(auto, unfolding(rpc_record::specs::Marked::header))]
pub fn marks_nothing(alloc: Global) -> Result<Vec<u8>, NoMemory>
    ensures { IfOk result (λ marked. marked.items ≡ 128 ∷ 0 ∷ 0 ∷ 0 ∷ []) }
{
    mark(alloc, &[])
}

/// The header's highest bit says that the fragment is the last, and the others count its bytes: `80000003 616263`.
#[tactic(auto, unfolding(rpc_record::specs::Marked::header))]
pub fn marks_three_bytes(alloc: Global) -> Result<Vec<u8>, NoMemory>
    ensures { IfOk result (λ marked. marked.items ≡ 128 ∷ 0 ∷ 0 ∷ 3 ∷ 97 ∷ 98 ∷ 99 ∷ []) }
{
    mark(alloc, b"abc")
}

/// The header of a last fragment of 65536 bytes.
#[tactic(auto, unfolding(rpc_record::specs::Marked::header))]
pub fn heads_65536_bytes() -> [u8; 4]
    ensures { result ≡ 128 ∷ 1 ∷ 0 ∷ 0 ∷ [] }
{
    last_header(65536)
}

/// A record is written with its header before it, however the sink takes them: `80000003 616263`.
#[tactic(auto, unfolding(rpc_record::specs::Marked::header))]
pub fn writes_three_bytes<W: Sink>(writer: &mut W) -> Result<(), Cut>
    ensures { OnOk result (Appends (W.taken writer.old) (W.taken writer.new)
        (128 ∷ 0 ∷ 0 ∷ 3 ∷ 97 ∷ 98 ∷ 99 ∷ [])) }
{
    write_marked(writer, b"abc")
}

/// Where a write fails, what went out is reported exactly: the first `written` bytes of header and content.
#[tactic(auto, unfolding(rpc_record::specs::Marked::header))]
pub fn writes_three_bytes_in_part<W: Sink>(writer: &mut W) -> Result<(), Cut>
    ensures { IfErr result (λ cut. Appends (W.taken writer.old) (W.taken writer.new)
        (take cut.written (128 ∷ 0 ∷ 0 ∷ 3 ∷ 97 ∷ 98 ∷ 99 ∷ []))) }
{
    write_marked(writer, b"abc")
}

/// Nothing waits before the first byte.
pub fn has_none_at_first(alloc: Global) -> bool
    ensures { result ≡ true }
{
    RecordReader::start(alloc, 100).take().is_none()
}

/// A record is handed out once: what `take` leaves has none.
pub fn hands_out_once(reader: &mut RecordReader) -> bool
    ensures { result ≡ true }
{
    let _first = reader.take();
    reader.take().is_none()
}

/// So it is where a buffer for the next is handed over with the call.
pub fn hands_out_once_with(reader: &mut RecordReader, buffer: Vec<u8>) -> bool
    ensures { result ≡ true }
{
    let _first = reader.take_with(buffer);
    reader.take().is_none()
}

/// So it is where a record goes into a buffer with the piece that brings it: nothing waits after it.
pub fn leaves_none_where_it_goes_into_a_buffer(
    reader: &mut RecordReader,
    piece: &[u8],
    buffer: &mut Vec<u8>,
) -> bool
    ensures { result ≡ true }
{
    match reader.feed_into(piece, buffer) {
        Ok(RecordStep::Whole { .. }) => reader.take().is_none(),
        Ok(RecordStep::More) => reader.take().is_none(),
        Err(_) => reader.take().is_none(),
    }
}

/// While a record waits, a reader takes no more bytes.
pub fn waits_to_be_taken(reader: &mut RecordReader, piece: &[u8]) -> Result<RecordStep, RecordFault>
    requires { IsWaiting reader.old }
    ensures { result ≡ Ok (RecordStep.Whole 0) }
{
    reader.feed(piece)
}

/// What a piece brought is there to be taken: `Whole` comes exactly where a record waits.
pub fn hands_out_what_is_whole(reader: &mut RecordReader, piece: &[u8]) -> bool
    ensures { result ≡ true }
{
    match reader.feed(piece) {
        Ok(RecordStep::Whole { .. }) => reader.take().is_some(),
        Ok(RecordStep::More) => reader.take().is_none(),
        Err(_) => reader.take().is_none(),
    }
}

/// The record that is handed out is the one that was marked: `80000001 61`.
pub fn hands_out_the_content(alloc: Global) -> Option<Vec<u8>>
    ensures { IfSome result (λ content. content.items ≡ 97 ∷ []) }
{
    no_record_begins_another();
    let mut reader = RecordReader::start(alloc, 100);
    match reader.feed(&[0x80, 0, 0, 1, 0x61]) {
        Ok(RecordStep::Whole { .. }) => reader.take(),
        _ => None,
    }
}

/// The record that goes into a buffer is the one that was marked, `80000001 61`, and ends with the fifth byte.
pub fn puts_the_content_into_a_buffer(
    alloc: Global,
    buffer: &mut Vec<u8>,
) -> Result<RecordStep, RecordFault>
    ensures whole { IfOk result (λ step. (step ≡ RecordStep.Whole 5) × (buffer.new.items ≡ 97 ∷ [])) }
    ensures refused { IfErr result (λ f. f ≡ RecordFault.NoMemory) }
{
    no_record_begins_another();
    too_long_ends_the_stream();
    let mut reader = RecordReader::start(alloc, 100);
    reader.feed_into(&[0x80, 0, 0, 1, 0x61], buffer)
}

/// The bytes that are used end with the record's last: they are one record, whatever follows in the piece.
pub fn uses_one_record(alloc: Global, piece: &[u8]) -> Option<usize>
    ensures { IfSome result (λ used. (r : List ℕ) × IsWhole 100 (r ∷ []) (take used piece.now)) }
{
    match RecordReader::start(alloc, 100).feed(piece) {
        Ok(RecordStep::Whole { used }) => Some(used),
        _ => None,
    }
}

/// A record may have as many bytes as the limit says: `80000001 61` where the limit is 1.
pub fn takes_a_record_of_the_limit(alloc: Global) -> Result<RecordStep, RecordFault>
    ensures { IfErr result (λ f. f ≡ RecordFault.NoMemory) }
{
    too_long_ends_the_stream();
    RecordReader::start(alloc, 1).feed(&[0x80, 0, 0, 1, 0x61])
}

/// An input that ends inside a record is cut after the bytes that were taken: `800000` at 3.
pub fn reports_where_it_was_cut(alloc: Global) -> Option<RecordFault>
    ensures { IfSome result (λ f. f ≡ RecordFault.Truncated 3) }
{
    let mut reader = RecordReader::start(alloc, 100);
    match reader.feed(&[0x80, 0, 0]) {
        Ok(RecordStep::More) => match reader.end() {
            Ok(()) => None,
            Err(fault) => Some(fault),
        },
        _ => None,
    }
}

/// Where the input ends well and no record waits, the bytes taken are the records handed out, and no more.
pub fn ends_between_two_records(reader: &mut RecordReader) -> Result<(), RecordFault>
    requires { IsTaking reader.old }
    ensures { OnOk result (Always reader.old (λ rs bytes. IsWhole (limit_of reader.old) rs bytes)) }
{
    reader.end()
}

/// A fault is answered from then on, whatever comes.
pub fn stays_broken(
    reader: &mut RecordReader,
    fault: RecordFault,
    piece: &[u8],
) -> Result<RecordStep, RecordFault>
    requires { IsBroken reader.old fault }
    ensures { result ≡ Err fault }
{
    let _same = reader.end();
    reader.feed(piece)
}

/// Never more than the limit is kept, whatever lengths the headers say.
pub fn keeps_at_most_the_limit(alloc: Global, piece: &[u8]) -> usize
    ensures { result ≤ 100 }
{
    let mut reader = RecordReader::start(alloc, 100);
    let _fed = reader.feed(piece);
    reader.retained()
}

/// What is kept is the content of the record so far, all of it.
pub fn counts_what_is_retained(reader: &RecordReader) -> usize
    ensures { result ≡ vec_len reader.now.content }
{
    reader.retained()
}

/// A header that brings its record above the limit is refused at once, before any content, and its place is reported:
/// `80000001` where the limit is 0.
pub fn refuses_a_header_above_the_limit(alloc: Global) -> Result<RecordStep, RecordFault>
    ensures { MatchResult result (λ _. ⊥) (λ f. (f ≡ RecordFault.TooLong 0) ⊎ (f ≡ RecordFault.NoMemory)) }
{
    RecordReader::start(alloc, 0).feed(&[0x80, 0, 0, 1])
}

/// A fresh reader ends well: no bytes are a stream of no records.
pub fn ends_well_at_once(alloc: Global) -> Result<(), RecordFault>
    ensures { result ≡ Ok tt }
{
    RecordReader::start(alloc, 100).end()
}

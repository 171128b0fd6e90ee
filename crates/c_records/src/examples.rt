//! What the exports' contracts make certain for chosen inputs, each proved from the contracts alone.
ghost use Rattle.std.specs.Prelude.{◌≡◌, ◌≢◌, ◌<◌, ◌≤◌, ◌⊎◌, ℕ, List, [], ◌∷◌, length, take, Some, None, option_map};
ghost use Rattle.rpc_record.specs.Reading.{IsWhole};
ghost use Rattle.c_records.specs.Held.{Held, held_of};
ghost use Rattle.c_records.specs.Started.{IsFresh};
ghost use Rattle.c_answers.specs.Outcomes.{only_at};

use super::ending::end_records;
use super::feeding::feed_records;
use super::handle::Records;
use super::header::put_header;
use super::start::{free_records, start_records};
use super::taking::take_record;
use c_answers::Outcome;
use rpc_record::{no_record_begins_another, too_long_ends_the_stream};
use std::alloc::Global;

/// A reader that was started is before the first byte, whatever the handle held.
pub fn starts_before_the_first_byte(
    alloc: Global,
    handle: &mut Records,
    outcome: &mut Outcome,
) -> u32
    ensures held { result ≡ 0
        → (h : Held) × (option_map held_of handle.new.held ≡ Some h) × IsFresh 2147483647 h }
    ensures outcome { outcome.new ≡ only_at 0 }
{
    start_records(alloc, handle, 2147483647, outcome)
}

/// A limit above the greatest starts no reader, and what the handle held is freed.
pub fn starts_none_above_the_greatest_limit(
    alloc: Global,
    handle: &mut Records,
    outcome: &mut Outcome,
) -> u32
    ensures status { result ≡ 5 }
    ensures held { option_map held_of handle.new.held ≡ None }
    ensures outcome { outcome.new ≡ only_at 0 }
{
    start_records(alloc, handle, 2147483648, outcome)
}

/// After `free` there is no reader, and a second `free` is well.
pub fn reads_nothing_after_free(
    alloc: Global,
    handle: &mut Records,
    piece: &[u8],
    buffer: &mut [u8],
    outcome: &mut Outcome,
) -> (u32, u32, u32)
    ensures fed { result.0 ≡ 22 }
    ensures taken { result.1 ≡ 22 }
    ensures ended { result.2 ≡ 22 }
    ensures outcome { outcome.new ≡ only_at 0 }
    ensures buffer { buffer.new ≡ buffer.old }
    ensures held { handle.new.held ≡ None }
{
    free_records(alloc, handle);
    let fed = feed_records(alloc, handle, piece, outcome);
    let taken = take_record(alloc, handle, buffer, outcome);
    let ended = end_records(alloc, handle, outcome);
    free_records(alloc, handle);
    (fed, taken, ended)
}

/// Before the first byte no record waits, and the stream may end.
pub fn ends_well_before_the_first_byte(
    alloc: Global,
    handle: &mut Records,
    buffer: &mut [u8],
    outcome: &mut Outcome,
) -> (u32, u32, u32)
    ensures { result.0 ≡ 0 → (result.1 ≡ 24) × (buffer.new ≡ buffer.old) × (result.2 ≡ 0) × (outcome.new ≡ only_at 0) }
{
    let started = start_records(alloc, handle, 100, outcome);
    let taken = take_record(alloc, handle, buffer, outcome);
    let ended = end_records(alloc, handle, outcome);
    (started, taken, ended)
}

/// A record of two fragments, `00000002 6162 8000` and then `0001 63`, is whole with the second piece, all of which is
/// taken, and what is handed out is `616263`.
pub fn hands_out_a_record_of_two_fragments(
    alloc: Global,
    handle: &mut Records,
    buffer: &mut [u8],
    outcome: &mut Outcome,
) -> (u32, u32, u32, usize, u32)
    requires { 3 ≤ length buffer.old }
    ensures { result.0 ≡ 0 → result.1 ≢ 6 → result.2 ≢ 6
        → (result.1 ≡ 23) × (result.2 ≡ 0) × (result.3 ≡ 3) × (result.4 ≡ 0) × (outcome.new ≡ only_at 3)
        × (take 3 buffer.new ≡ 97 ∷ 98 ∷ 99 ∷ []) }
{
    no_record_begins_another();
    too_long_ends_the_stream();
    let started = start_records(alloc, handle, 3, outcome);
    let begun = feed_records(alloc, handle, &[0, 0, 0, 2, 0x61, 0x62, 0x80, 0], outcome);
    let fed = feed_records(alloc, handle, &[0, 1, 0x63], outcome);
    let used = outcome.at;
    let taken = take_record(alloc, handle, buffer, outcome);
    (started, begun, fed, used, taken)
}

/// Two records that come in one piece, `80000001 61 80000000`, are handed out one after the other: the first ends after
/// five bytes, and the rest is fed again.
pub fn hands_out_two_records_of_a_piece(
    alloc: Global,
    handle: &mut Records,
    buffer: &mut [u8],
    outcome: &mut Outcome,
) -> (u32, u32, usize, u32, u32)
    requires { 1 ≤ length buffer.old }
    ensures { result.0 ≡ 0 → result.1 ≢ 6 → result.4 ≢ 6
        → (result.1 ≡ 0) × (result.2 ≡ 5) × (result.3 ≡ 0) × (take 1 buffer.new ≡ 97 ∷ []) × (result.4 ≡ 0)
        × (outcome.new ≡ only_at 4) }
{
    too_long_ends_the_stream();
    let started = start_records(alloc, handle, 1, outcome);
    let fed = feed_records(
        alloc,
        handle,
        &[0x80, 0, 0, 1, 0x61, 0x80, 0, 0, 0],
        outcome,
    );
    let used = outcome.at;
    let taken = take_record(alloc, handle, buffer, outcome);
    let next = feed_records(alloc, handle, &[0x80, 0, 0, 0], outcome);
    (started, fed, used, taken, next)
}

/// The bytes that a first piece is told to have had taken are one record, whatever follows in the piece.
pub fn takes_one_record_of_a_piece(
    alloc: Global,
    handle: &mut Records,
    piece: &[u8],
    outcome: &mut Outcome,
) -> (u32, u32)
    ensures { result.0 ≡ 0 → result.1 ≡ 0
        → (r : List ℕ) × IsWhole 100 (r ∷ []) (take outcome.new.at piece.now) }
{
    let started = start_records(alloc, handle, 100, outcome);
    let fed = feed_records(alloc, handle, piece, outcome);
    (started, fed)
}

/// While a record waits nothing more is taken.
pub fn takes_nothing_while_a_record_waits(
    alloc: Global,
    handle: &mut Records,
    piece: &[u8],
    more: &[u8],
    outcome: &mut Outcome,
) -> (u32, u32)
    ensures { result.0 ≡ 0 → (result.1 ≡ 0) × (outcome.new ≡ only_at 0) }
{
    let first = feed_records(alloc, handle, piece, outcome);
    let second = feed_records(alloc, handle, more, outcome);
    (first, second)
}

/// A header above the limit, `80000003` where the limit is 2, is refused at its place, before any content.
pub fn refuses_a_header_above_the_limit(
    alloc: Global,
    handle: &mut Records,
    outcome: &mut Outcome,
) -> (u32, u32)
    ensures { result.0 ≡ 0 → (result.1 ≡ 6)
        ⊎ ((result.1 ≡ 2) × (outcome.new ≡ record { at = 0; line = 0; column = 0; why = 4; inner = 0 })) }
{
    let started = start_records(alloc, handle, 2, outcome);
    let fed = feed_records(alloc, handle, &[0x80, 0, 0, 3], outcome);
    (started, fed)
}

/// A refusal is answered from then on, with its place, whatever comes; and no record is handed out.
pub fn stays_refused(
    alloc: Global,
    handle: &mut Records,
    piece: &[u8],
    more: &[u8],
    buffer: &mut [u8],
    outcome: &mut Outcome,
    again: &mut Outcome,
    end: &mut Outcome,
) -> (u32, u32, u32, u32)
    ensures { (result.0 ≡ 2) ⊎ (result.0 ≡ 6) → (result.1 ≡ 24) × (buffer.new ≡ buffer.old)
        × (result.2 ≡ result.0) × (again.new ≡ outcome.new) × (result.3 ≡ result.0) × (end.new ≡ outcome.new) }
{
    let fed = feed_records(alloc, handle, piece, outcome);
    let taken = take_record(alloc, handle, buffer, end);
    let fed_again = feed_records(alloc, handle, more, again);
    let ended = end_records(alloc, handle, end);
    (fed, taken, fed_again, ended)
}

/// A record that did not go into the buffer is not lost: it goes into one that is large enough.
pub fn keeps_a_record_without_buffer(
    alloc: Global,
    handle: &mut Records,
    buffer: &mut [u8],
    more: &mut [u8],
    outcome: &mut Outcome,
) -> (u32, usize, u32)
    ensures buffer { result.0 ≡ 8 → (buffer.new ≡ buffer.old) × (length buffer.old < result.1) }
    ensures retained { result.0 ≡ 8 → result.1 ≤ length more.old → (result.2 ≡ 0) × (outcome.new ≡ only_at result.1) }
{
    let first = take_record(alloc, handle, buffer, outcome);
    let needed = outcome.at;
    let second = take_record(alloc, handle, more, outcome);
    (first, needed, second)
}

/// A record is handed out once.
pub fn hands_out_once(
    alloc: Global,
    handle: &mut Records,
    buffer: &mut [u8],
    outcome: &mut Outcome,
) -> (u32, u32)
    ensures { result.0 ≡ 0 → (result.1 ≡ 24) × (outcome.new ≡ only_at 0) }
{
    let first = take_record(alloc, handle, buffer, outcome);
    let second = take_record(alloc, handle, buffer, outcome);
    (first, second)
}

/// Behind a first record that was handed out the stream may end.
pub fn may_end_behind_a_record(
    alloc: Global,
    handle: &mut Records,
    piece: &[u8],
    buffer: &mut [u8],
    outcome: &mut Outcome,
) -> (u32, u32, u32, u32)
    ensures { result.0 ≡ 0 → result.1 ≡ 0 → result.2 ≡ 0 → (result.3 ≡ 0) × (outcome.new ≡ only_at 0) }
{
    no_record_begins_another();
    let started = start_records(alloc, handle, 100, outcome);
    let fed = feed_records(alloc, handle, piece, outcome);
    let taken = take_record(alloc, handle, buffer, outcome);
    let ended = end_records(alloc, handle, outcome);
    (started, fed, taken, ended)
}

/// A stream that ends inside a record, `800000`, is cut after the bytes that were taken.
pub fn reports_where_a_stream_is_cut(
    alloc: Global,
    handle: &mut Records,
    outcome: &mut Outcome,
) -> (u32, u32, u32)
    ensures { result.0 ≡ 0 → (result.1 ≡ 6) ⊎ ((result.1 ≡ 23) × (result.2 ≡ 2)
        × (outcome.new ≡ record { at = 3; line = 0; column = 0; why = 8; inner = 0 })) }
{
    let started = start_records(alloc, handle, 100, outcome);
    let fed = feed_records(alloc, handle, &[0x80, 0, 0], outcome);
    let ended = end_records(alloc, handle, outcome);
    (started, fed, ended)
}

/// The header of a last fragment of three bytes is `80000003` (RFC 5531 section 11), and of another `00000003`.
pub fn marks_the_last_fragment(last: &mut [u8; 4], other: &mut [u8; 4]) -> (u32, u32)
    ensures status { (result.0 ≡ 0) × (result.1 ≡ 0) }
    ensures last { last.new ≡ 128 ∷ 0 ∷ 0 ∷ 3 ∷ [] }
    ensures other { other.new ≡ 0 ∷ 0 ∷ 0 ∷ 3 ∷ [] }
{
    let first = put_header(3, true, last);
    let second = put_header(3, false, other);
    (first, second)
}

/// A fragment has at most 2147483647 bytes: the header of one more is not written.
pub fn marks_no_longer_fragment(header: &mut [u8; 4], other: &mut [u8; 4]) -> (u32, u32)
    ensures { (result.0 ≡ 5) × (header.new ≡ header.old) × (result.1 ≡ 5) × (other.new ≡ other.old) }
{
    let above = put_header(2147483648, true, header);
    let all = put_header(usize::MAX, false, other);
    (above, all)
}

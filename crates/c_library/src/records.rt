//! A stream of records that a program of C reads (RFC 5531 section 11).
ghost use Rattle.std.specs.Prelude.{◌≡◌, None, option_map};
ghost use Rattle.c_records.specs.Held.{held_of};
ghost use Rattle.c_records.specs.Started.{IsStarted};
ghost use Rattle.c_records.specs.Statuses.{Reports};
ghost use Rattle.c_records.specs.Fed.{IsFedBy};
ghost use Rattle.c_records.specs.Taken.{IsTakenBy};
ghost use Rattle.c_records.specs.Ended.{IsEndedBy};
ghost use Rattle.c_records.specs.Headed.{IsHeaded};

use c_answers::Outcome;
use c_records::Records;
use std::alloc::Global;

/// Starts a reader of a stream of records of at most `limit` bytes each, 0 to 2147483647 (RFC 5531 section 11), in the
/// handle. What the handle held before is freed.
///
/// Status 0: the handle holds the reader, before the first byte. 5: the limit is out of range. 6: memory was refused.
/// At 5 and 6 the handle holds none.
#[unsafe(no_mangle)]
pub extern "C" fn oncrpc_records_start(
    alloc: Global,
    handle: &mut Records,
    limit: u32,
    outcome: &mut Outcome,
) -> u32
    ensures { Reports (IsStarted limit (option_map held_of handle.new.held)) result outcome.new }
{
    c_records::start_records(alloc, handle, limit, outcome)
}

/// Takes the bytes of a piece of the stream, which may be empty, up to the end of a record (RFC 5531 section 11).
///
/// Status 0: a record is whole and waits for `oncrpc_records_take`. The first `at` bytes of the piece were taken, which
/// end with its last byte, and no other; while it waits none is taken. 23: all were taken, and more are wanted. 2: the
/// header at the place `at` in the stream would bring its record above the limit, `why` 4, or the stream ended inside a
/// record before, `why` 8. 6: memory for a record was refused. 2 and 6 are answered from then on. 22: the handle
/// holds no reader. A place is the count of the stream's bytes before it, 18446744073709551615 for every greater one.
#[unsafe(no_mangle)]
pub extern "C" fn oncrpc_records_feed(
    alloc: Global,
    handle: &mut Records,
    piece: &[u8],
    outcome: &mut Outcome,
) -> u32
    ensures { Reports (IsFedBy (option_map held_of handle.old.held) piece.now (option_map held_of handle.new.held))
        result outcome.new }
{
    c_records::feed_records(alloc, handle, piece, outcome)
}

/// Puts the record that waits, without the headers of its fragments, into the front of the buffer, and the next begins.
///
/// Status 0: the `at` bytes of the record are written, and the rest of the buffer is untouched. 8: the buffer is too
/// small, `at` bytes are needed, and the record waits on. 24: no record waits. 22: the handle holds no reader. At 8,
/// 22 and 24 the buffer is untouched, and what the handle holds stays. It takes no memory.
#[unsafe(no_mangle)]
pub extern "C" fn oncrpc_records_take(
    alloc: Global,
    handle: &mut Records,
    buffer: &mut [u8],
    outcome: &mut Outcome,
) -> u32
    ensures { Reports (IsTakenBy (option_map held_of handle.old.held) (option_map held_of handle.new.held)
        buffer.old buffer.new) result outcome.new }
{
    c_records::take_record(alloc, handle, buffer, outcome)
}

/// Tells whether the stream may end behind the bytes that were taken.
///
/// Status 0: they end with a record's last byte, or there are none. A record that waits waits on, and nothing changes.
/// 2: they end inside a record, `why` 8, and `at` counts them; or the header at the place `at` had been refused before,
/// `why` 4. 6: memory had been refused before. 2 and 6 are answered from then on. 22: the handle holds no reader. A
/// count or place above 18446744073709551615 is reported as that. It takes no memory.
#[unsafe(no_mangle)]
pub extern "C" fn oncrpc_records_end(
    alloc: Global,
    handle: &mut Records,
    outcome: &mut Outcome,
) -> u32
    ensures { Reports (IsEndedBy (option_map held_of handle.old.held) (option_map held_of handle.new.held))
        result outcome.new }
{
    c_records::end_records(alloc, handle, outcome)
}

/// Frees the reader that the handle holds, if any, with a record that waits. The handle then holds none, so that a
/// second call does nothing.
#[unsafe(no_mangle)]
pub extern "C" fn oncrpc_records_free(alloc: Global, handle: &mut Records)
    ensures { handle.new.held ≡ None }
{
    c_records::free_records(alloc, handle);
}

/// Puts the header of a fragment of so many bytes into `header`: the count in four bytes, most significant first, with
/// the highest bit for a record's last fragment (RFC 5531 section 11). It takes no memory.
///
/// Status 0: it is written. 5: no fragment has so many bytes, that is more than 2147483647, and `header` is untouched.
#[unsafe(no_mangle)]
pub extern "C" fn oncrpc_record_header(count: usize, is_last: bool, header: &mut [u8; 4]) -> u32
    ensures { IsHeaded count is_last header.old header.new result }
{
    c_records::put_header(count, is_last, header)
}

//! How each direction of the examples begins, and takes bytes.
ghost use Rattle.std.specs.Prelude.{◌≡◌, ◌+◌, ◌%◌, ◌^◌, [], OnOk};
ghost use Rattle.capture_records.specs.Exact.{HasTold, IsFresh, TakesAll};

use capture_packets::{Endpoint, Flags, Segment};
use capture_records::Side;
use std::alloc::AllocError;

/// Why an example ends before its answer.
#[derive(Clone, Copy, Debug, PartialEq, Eq)]
pub enum Stop {
    /// An allocation failed.
    NoMemory,
    /// Too many bytes are held behind a hole.
    Full,
}

impl From<AllocError> for Stop {
    fn from(_error: AllocError) -> Stop {
        Stop::NoMemory
    }
}

/// Begins a direction with a SYN of this number: nothing was told of it.
pub(crate) fn begin_by(side: &mut Side, sequence: u32)
    ensures { IsFresh side.old → HasTold side.new ((sequence + 1) % 2 ^ 32) [] [] }
{
    let endpoint = Endpoint {
        address: &[],
        port: 0,
    };
    let segment = Segment {
        from: endpoint,
        to: endpoint,
        sequence,
        flags: Flags {
            fin: false,
            syn: true,
            reset: false,
        },
        bytes: &[],
        missing: 0,
    };
    side.begin(segment);
    side.note(segment, (1, 0));
}

/// Takes all of the bytes of a segment with this number.
pub(crate) fn take_all(side: &mut Side, sequence: u32, bytes: &[u8]) -> Result<(), Stop>
    ensures { OnOk result (TakesAll side.old side.new sequence bytes.now) }
{
    match side.take(sequence, bytes)? {
        None => Ok(()),
        Some(_) => Err(Stop::Full),
    }
}

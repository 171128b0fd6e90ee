//! A reader's beginning and end.
ghost use Rattle.std.specs.Prelude.{◌≡◌, None, option_map};
ghost use Rattle.c_records.specs.Held.{held_of};
ghost use Rattle.c_records.specs.Started.{IsStarted};
ghost use Rattle.c_records.specs.Statuses.{Reports};

use super::answer::Answer;
use super::handle::Records;
use super::state::State;
use c_answers::Outcome;
use c_handles::{keep, taken};
use rpc_record::RecordReader;
use std::alloc::Global;

/// The greatest limit on the bytes of a record.
const MOST_LIMIT: u32 = 2147483647;

/// Starts a reader in the handle, which holds none where there is none to start.
fn start_in(alloc: Global, handle: &mut Records, limit: u32) -> Answer
    ensures { IsStarted limit (option_map held_of handle.new.held) result }
{
    let _before = taken(alloc, handle);
    if limit > MOST_LIMIT {
        return Answer::BadLimit;
    }
    let state = State {
        reader: RecordReader::start(alloc, limit),
        waits: false,
        last: Vec::new(alloc),
    };
    match Box::new(alloc, state) {
        Ok(state) => {
            keep(alloc, handle, state);
            Answer::Whole { count: 0 }
        }
        Err(_) => Answer::NoMemory,
    }
}

/// Starts a reader of a stream of records in the handle, as `oncrpc_records_start` says.
pub fn start_records(alloc: Global, handle: &mut Records, limit: u32, outcome: &mut Outcome) -> u32
    ensures { Reports (IsStarted limit (option_map held_of handle.new.held)) result outcome.new }
{
    let answer = start_in(alloc, handle, limit);
    *outcome = answer.outcome();
    answer.status()
}

/// Frees the reader that the handle holds, if any, with a record that waits.
pub fn free_records(alloc: Global, handle: &mut Records)
    ensures { handle.new.held ≡ None }
{
    let _gone = taken(alloc, handle);
}

//! Pieces of a stream.
ghost use Rattle.std.specs.Prelude.{◌≡◌, option_map};
ghost use Rattle.c_records.specs.Fed.{IsFed, IsFedBy};
ghost use Rattle.c_records.specs.Held.{held_of};
ghost use Rattle.c_records.specs.Statuses.{Reports};

use super::answer::Answer;
use super::handle::Records;
use super::state::State;
use c_answers::Outcome;
use c_handles::{keep, taken};
use rpc_record::RecordStep;
use std::alloc::Global;

/// Feeds a piece, and keeps the record that is whole then beside the reader.
fn feed_to(state: &mut State, piece: &[u8]) -> Answer
    ensures { IsFed (held_of state.old) piece.now (held_of state.new) result }
{
    if state.waits {
        return Answer::Whole { count: 0 };
    }
    match state.reader.feed_into(piece, &mut state.last) {
        Ok(RecordStep::More) => Answer::More,
        Ok(RecordStep::Whole { used }) => {
            state.waits = true;
            Answer::Whole { count: used }
        }
        Err(fault) => Answer::Refused(fault),
    }
}

/// Takes the bytes of a piece of the stream up to the end of a record, as `oncrpc_records_feed` says.
pub fn feed_records(alloc: Global, handle: &mut Records, piece: &[u8], outcome: &mut Outcome) -> u32
    ensures { Reports (IsFedBy (option_map held_of handle.old.held) piece.now (option_map held_of handle.new.held))
        result outcome.new }
{
    let answer = match taken(alloc, handle) {
        Some(mut state) => {
            let answer = feed_to(&mut state, piece);
            keep(alloc, handle, state);
            answer
        }
        None => Answer::NoReader,
    };
    *outcome = answer.outcome();
    answer.status()
}

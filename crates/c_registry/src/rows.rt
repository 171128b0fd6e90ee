//! Rows that the registry's own process sets and removes.
ghost use Rattle.std.specs.Prelude.{◌≡◌, option_map};
ghost use Rattle.registry_rows.specs.Rows.{row_of};
ghost use Rattle.c_registry.specs.Held.{held_of};
ghost use Rattle.c_registry.specs.Rows.{IsSet, IsSetBy, IsUnset, IsUnsetBy};
ghost use Rattle.c_registry.specs.Statuses.{Reports};

use super::answer::Answer;
use super::handle::Registry;
use super::state::State;
use c_answers::Outcome;
use c_handles::{keep, taken};
use std::alloc::Global;

/// The greatest count of bytes of an owner.
const MOST_OWNER: usize = 10;

/// Adds a row.
fn set_in(
    alloc: Global,
    state: &mut State,
    program: u32,
    version: u32,
    netid: &[u8],
    address: &[u8],
    owner: &[u8],
) -> Answer
    ensures { IsSet (held_of state.old) (row_of program version netid.now address.now owner.now) (held_of state.new)
        result }
{
    if MOST_OWNER < owner.len() {
        return Answer::Unchanged;
    }
    let rows = &mut state.directory;
    match rows.set(alloc, program, version, netid, address, owner) {
        Ok(true) => Answer::Whole { count: 0 },
        Ok(false) => Answer::Unchanged,
        Err(_) => Answer::NoMemory,
    }
}

/// Adds a row at the end, as `oncrpc_registry_set` says.
pub fn set_row(
    alloc: Global,
    handle: &mut Registry,
    program: u32,
    version: u32,
    netid: &[u8],
    address: &[u8],
    owner: &[u8],
    outcome: &mut Outcome,
) -> u32
    ensures { Reports (IsSetBy (option_map held_of handle.old.held)
        (row_of program version netid.now address.now owner.now) (option_map held_of handle.new.held))
        result outcome.new }
{
    let answer = match taken(alloc, handle) {
        Some(mut state) => {
            let answer = set_in(alloc, &mut state, program, version, netid, address, owner);
            keep(alloc, handle, state);
            answer
        }
        None => Answer::NoRegistry,
    };
    *outcome = answer.outcome();
    answer.status()
}

/// Removes rows.
fn unset_in(state: &mut State, program: u32, version: u32, netid: &[u8], owner: &[u8]) -> Answer
    ensures { IsUnset (held_of state.old) program version netid.now owner.now (held_of state.new) result }
{
    let rows = &mut state.directory;
    if rows.unset(program, version, netid, owner) {
        Answer::Whole { count: 0 }
    } else {
        Answer::Unchanged
    }
}

/// Removes rows, as `oncrpc_registry_unset` says.
pub fn unset_rows(
    alloc: Global,
    handle: &mut Registry,
    program: u32,
    version: u32,
    netid: &[u8],
    owner: &[u8],
    outcome: &mut Outcome,
) -> u32
    ensures { Reports (IsUnsetBy (option_map held_of handle.old.held) program version netid.now owner.now
        (option_map held_of handle.new.held)) result outcome.new }
{
    let answer = match taken(alloc, handle) {
        Some(mut state) => {
            let answer = unset_in(&mut state, program, version, netid, owner);
            keep(alloc, handle, state);
            answer
        }
        None => Answer::NoRegistry,
    };
    *outcome = answer.outcome();
    answer.status()
}

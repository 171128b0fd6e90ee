//! A registry's beginning and end.
ghost use Rattle.std.specs.Prelude.{◌≡◌, None, option_map};
ghost use Rattle.c_registry.specs.Held.{held_of};
ghost use Rattle.c_registry.specs.Rows.{IsStarted};
ghost use Rattle.c_registry.specs.Statuses.{Reports};

use super::answer::Answer;
use super::handle::Registry;
use super::hasher::Seeded;
use super::state::State;
use c_answers::Outcome;
use c_handles::{keep, taken};
use registry_answer::Answered;
use rpc_directory::Directory;
use std::alloc::Global;

/// Starts a registry in the handle, which holds none where memory is refused.
fn start_in(alloc: Global, handle: &mut Registry, port: u16, seed: &[u8]) -> Answer
    ensures { IsStarted port (option_map held_of handle.new.held) result }
{
    let _before = taken(alloc, handle);
    let Ok(directory) = Directory::start(alloc, Seeded::new(seed), port) else {
        return Answer::NoMemory;
    };
    let state = State {
        directory,
        waiting: Answered::Silent,
    };
    match Box::new(alloc, state) {
        Ok(state) => {
            keep(alloc, handle, state);
            Answer::Whole { count: 0 }
        }
        Err(_) => Answer::NoMemory,
    }
}

/// Starts a registry in the handle, as `oncrpc_registry_start` says.
pub fn start_registry(
    alloc: Global,
    handle: &mut Registry,
    port: u16,
    seed: &[u8],
    outcome: &mut Outcome,
) -> u32
    ensures { Reports (IsStarted port (option_map held_of handle.new.held)) result outcome.new }
{
    let answer = start_in(alloc, handle, port, seed);
    *outcome = answer.outcome();
    answer.status()
}

/// Frees the registry that the handle holds, if any.
pub fn free_registry(alloc: Global, handle: &mut Registry)
    ensures { handle.new.held ≡ None }
{
    let _gone = taken(alloc, handle);
}

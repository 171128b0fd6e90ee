//! Declarations that are read once, and asked many times.
ghost use Rattle.std.specs.Prelude.{◌≡◌, None, option_map};
ghost use Rattle.xdr_lang.specs.Views.{declared_of};
ghost use Rattle.c_values.specs.Held.{IsReading, IsRightByHeld};
ghost use Rattle.c_values.specs.Statuses.{Reports};

use super::answer::Answer;
use super::asking::answer_by;
use super::handle::Handle;
use super::state::State;
use super::unread::{Unread, read_text};
use c_answers::Outcome;
use c_handles::{keep, taken};
use std::alloc::Global;

/// Reads the text into the handle, which holds none where it is refused.
fn read_into(alloc: Global, text: &[u8], handle: &mut Handle) -> Answer
    ensures { IsReading text.now (option_map declared_of handle.new.declared) result }
{
    let _before = taken(alloc, handle);
    let declared = match read_text(alloc, text) {
        Ok(declared) => declared,
        Err(Unread::Undeclared(fault)) => return Answer::Undeclared(fault),
        Err(Unread::NoMemory) => return Answer::NoMemory,
    };
    match Box::new(alloc, State::of(declared)) {
        Ok(retained) => {
            keep(alloc, handle, retained);
            Answer::Whole { used: 0 }
        }
        Err(_) => Answer::NoMemory,
    }
}

/// Reads a text of declarations into the handle, as `oncrpc_declarations_read` says.
pub fn read_declarations(
    alloc: Global,
    text: &[u8],
    handle: &mut Handle,
    outcome: &mut Outcome,
) -> u32
    ensures { Reports (IsReading text.now (option_map declared_of handle.new.declared)) result outcome.new }
{
    let answer = read_into(alloc, text, handle);
    *outcome = answer.outcome();
    answer.status()
}

/// Answers whether the input is a value by the declarations that the handle holds, as `oncrpc_declarations_check`
/// says.
pub fn check_by_declarations(
    alloc: Global,
    handle: &mut Handle,
    name: &[u8],
    depth: u32,
    bytes: u32,
    input: &[u8],
    outcome: &mut Outcome,
) -> u32
    // What the handle holds stays.
    ensures stay { handle.new.declared ≡ handle.old.declared }
    // The status and the outcome are those of an answer that is right by it.
    ensures answer { Reports (IsRightByHeld (option_map declared_of handle.old.declared) name.now depth bytes input.now)
        result outcome.new }
{
    let answer = match taken(alloc, handle) {
        Some(mut state) => {
            let answer = answer_by(alloc, &mut state, name, depth, bytes, input);
            keep(alloc, handle, state);
            answer
        }
        None => Answer::NoDeclarations,
    };
    *outcome = answer.outcome();
    answer.status()
}

/// Frees the declarations that the handle holds, if any.
pub fn free_declarations(alloc: Global, handle: &mut Handle)
    ensures { handle.new.declared ≡ None }
{
    let _gone = taken(alloc, handle);
}

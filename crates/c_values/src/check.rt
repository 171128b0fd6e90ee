//! Checks of bytes by a text of declarations.
ghost use Rattle.std.specs.Prelude.{◌≡◌};
ghost use Rattle.c_values.specs.Answers.{IsRightByText};
ghost use Rattle.c_values.specs.Statuses.{Reports};

use super::answer::Answer;
use super::asking::answer_by;
use super::state::State;
use super::unread::{Unread, read_text};
use c_answers::Outcome;
use std::alloc::Global;

/// What the bytes are by what the text declares.
fn answer_to(
    alloc: Global,
    text: &[u8],
    name: &[u8],
    depth: u32,
    bytes: u32,
    input: &[u8],
) -> Answer
    ensures { IsRightByText text.now name.now depth bytes input.now result }
{
    match read_text(alloc, text) {
        Ok(declared) => answer_by(alloc, &mut State::of(declared), name, depth, bytes, input),
        Err(Unread::Undeclared(fault)) => Answer::Undeclared(fault),
        Err(Unread::NoMemory) => Answer::NoMemory,
    }
}

/// Reads the declarations, and answers whether the input is a value of the kind with that name, as `oncrpc_check`
/// says.
pub fn check_by_text(
    alloc: Global,
    text: &[u8],
    name: &[u8],
    depth: u32,
    bytes: u32,
    input: &[u8],
    outcome: &mut Outcome,
) -> u32
    ensures { Reports (IsRightByText text.now name.now depth bytes input.now) result outcome.new }
{
    let answer = answer_to(alloc, text, name, depth, bytes, input);
    *outcome = answer.outcome();
    answer.status()
}

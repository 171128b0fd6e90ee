//! What comes next.
ghost use Rattle.std.specs.Prelude.{◌≡◌, ◌%◌, ℕ, List, length};
ghost use Rattle.xdr_stream.specs.Finish.{Checks};
ghost use Rattle.xdr_stream.specs.Represents.{IsWaiting};
ghost use Rattle.xdr_due.specs.Due.{IsDue, IsNothing};

use xdr_stream::holding::held_by_checker;
use xdr_stream::machine::Awaits;
use xdr_stream::machine::frame::next;
use xdr_stream::{Nothing, Reader, State};
use xdr_types::KindId;

/// What comes next.
#[derive(Clone, Copy, Debug, PartialEq, Eq)]
pub enum Due {
    /// The unit that a node of this kind begins with: a number, a flag, a count or a length, as the kind has it.
    Unit(KindId),
    /// So many bytes of content, at least one.
    Content(u32),
    /// The eight bytes of a hyper integer, signed or not.
    Hyper(bool),
    /// The last four bytes of a hyper integer, signed or not.
    Low(bool),
    /// Nothing is awaited: reading has not begun, a unit is unfinished, the value is whole, or the bytes were refused.
    Nothing,
}

/// What comes next after the bytes that were given (RFC 4506 section 4). It takes no memory.
pub fn due_of(reader: &Reader<'_, Nothing>) -> Due
    // The next unit stands there, in each value that begins with the bytes.
    ensures due { (b : List ℕ) → Checks reader.now b
        → IsDue reader.now.schema.now.kinds reader.now.kind.place reader.now.limits b result }
    // Where a unit is needed and whole units came, something is due.
    ensures some { (b : List ℕ) → Checks reader.now b → IsWaiting reader.now.state → length b % 4 ≡ 0
        → IsNothing result → ⊥ }
{
    let held = held_by_checker(reader);
    if held.pending != 0 {
        return Due::Nothing;
    }
    match reader.state {
        State::Reading(awaits) => match awaits {
            Awaits::Next => match next(&reader.work) {
                Some(kind) => Due::Unit(kind),
                None => unreachable!(),
            },
            Awaits::Content(size) => Due::Content(size),
            Awaits::Wide(signed) => Due::Hyper(signed),
            Awaits::Low(signed, _) => Due::Low(signed),
        },
        State::Fresh => Due::Nothing,
        State::Finished => Due::Nothing,
        State::Failed(_) => Due::Nothing,
    }
}

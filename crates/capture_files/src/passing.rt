//! Bytes of a block that are passed over, and its end (draft-ietf-opsawg-pcapng section 3.1).

ghost use Rattle.std.specs.Prelude.{◌≡◌};
ghost use Rattle.capture_files.specs.Gathers.{Gathers};
ghost use Rattle.capture_files.specs.Passing.{end_step, passing_step};

use crate::captured::Interface;
use crate::numbers::{Order, word_at};
use crate::place::{Place, Step};
use crate::reason::CaptureReason;

/// The end of a block: its length once more. A block that describes an interface is read then.
#[tactic(auto, unfolding(crate::specs::Passing::end_step))]
pub fn end_step(order: Order, interface: Option<Interface>, total: u32, bytes: &[u8]) -> Step
    ensures step { result ≡ end_step order interface total bytes.now }
    ensures gathers { Gathers bytes.now result }
{
    if bytes.len() < 4 {
        return Step::Need(4);
    }
    if word_at(order, 0, bytes) != total {
        return Step::Refused(CaptureReason::BadLength);
    }
    match interface {
        Some(described) => Step::Described(Place::Block { order }, described),
        None => Step::Moved(Place::Block { order }),
    }
}

/// Bytes that are passed over, where so many are left.
#[tactic(auto, unfolding(crate::specs::Passing::passing_step))]
pub fn passing_step(
    order: Order,
    interface: Option<Interface>,
    left: u32,
    total: u32,
    bytes: &[u8],
) -> Step
    ensures step { result ≡ passing_step order interface left total bytes.now }
    ensures gathers { Gathers bytes.now result }
{
    if bytes.is_empty() {
        return Step::Need(1);
    }
    let passed = bytes.len().min(left as usize) as u32;
    Step::Moved(Place::Passing {
        order,
        interface,
        left: left - passed,
        total,
    })
}

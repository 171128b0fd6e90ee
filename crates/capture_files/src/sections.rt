//! The block that begins a section (draft-ietf-opsawg-pcapng section 4.1).

ghost use Rattle.std.specs.Prelude.{◌≡◌, ◌≤◌, length};
ghost use Rattle.capture_files.specs.Gathers.{Gathers};
ghost use Rattle.capture_files.specs.Sections.{section_order, section_in, section_step};

use crate::numbers::{Order, half_at, word_at};
use crate::place::{Place, Step};
use crate::reason::CaptureReason;

/// The number by which a section shows its order of bytes, and the same in the other order.
const ORDER_BIG: u32 = 0x1a2b3c4d;

const ORDER_LITTLE: u32 = 0x4d3c2b1a;

/// The order of bytes of the section whose first block stands here.
fn section_order(bytes: &[u8]) -> Option<Order>
    requires { 24 ≤ length bytes.now }
    ensures { result ≡ section_order bytes.now }
{
    match word_at(Order::Big, 8, bytes) {
        ORDER_BIG => Some(Order::Big),
        ORDER_LITTLE => Some(Order::Little),
        _ => None,
    }
}

/// That block in its order of bytes. How long the section says it is, is not asked for.
#[tactic(auto, unfolding(crate::specs::Sections::section_in))]
fn section_in(order: Order, bytes: &[u8]) -> Step
    requires { 24 ≤ length bytes.now }
    ensures step { result ≡ section_in order bytes.now }
    ensures gathers { Gathers bytes.now result }
{
    let total = word_at(order, 4, bytes);
    let minor = half_at(order, 14, bytes);
    if total % 4 != 0 || total < 28 {
        return Step::Refused(CaptureReason::BadLength);
    }
    if half_at(order, 12, bytes) != 1 || (minor != 0 && minor != 2) {
        return Step::Refused(CaptureReason::UnknownVersion);
    }
    Step::Section(Place::Passing {
        order,
        interface: None,
        left: total - 28,
        total,
    })
}

/// The block that begins a section, up to its options, which are passed over.
#[tactic(auto, unfolding(crate::specs::Sections::section_step))]
pub fn section_step(bytes: &[u8]) -> Step
    ensures step { result ≡ section_step bytes.now }
    ensures gathers { Gathers bytes.now result }
{
    if bytes.len() < 24 {
        return Step::Need(24);
    }
    match section_order(bytes) {
        Some(order) => section_in(order, bytes),
        None => Step::Refused(CaptureReason::NotACapture),
    }
}

//! The block that comes next in a section (draft-ietf-opsawg-pcapng section 3.1).

ghost use Rattle.std.specs.Prelude.{◌≡◌};
ghost use Rattle.capture_files.specs.Gathers.{Gathers};
ghost use Rattle.capture_files.specs.Blocks.{body_step, block_step};

use crate::captured::Interface;
use crate::interfaces::interface_step;
use crate::numbers::{Order, word_at};
use crate::packets::{packet_step, simple_step};
use crate::place::{Place, Step};
use crate::reason::CaptureReason;
use crate::sections::section_step;

// The types of the blocks that are read.
pub const SECTION: u32 = 0x0a0d0d0a;

const INTERFACE: u32 = 1;

const SIMPLE: u32 = 3;

const ENHANCED: u32 = 6;

/// A block of this type and length that begins no section. A block of another type is passed over, and so is the
/// obsolete packet block.
fn body_step(order: Order, kind: u32, total: u32, interfaces: &[Interface], bytes: &[u8]) -> Step
    ensures step { result ≡ body_step order kind total interfaces.now bytes.now }
    ensures gathers { Gathers bytes.now result }
{
    if total % 4 != 0 || total < 12 {
        return Step::Refused(CaptureReason::BadLength);
    }
    match kind {
        INTERFACE => interface_step(order, total, interfaces.len(), bytes),
        SIMPLE => simple_step(order, total, interfaces, bytes),
        ENHANCED => packet_step(order, total, interfaces, bytes),
        _ => Step::Moved(Place::Passing {
            order,
            interface: None,
            left: total - 12,
            total,
        }),
    }
}

/// The block that comes next: its type, its length, and then what its type has.
#[tactic(auto, unfolding(crate::specs::Blocks::block_step))]
pub fn block_step(order: Order, interfaces: &[Interface], bytes: &[u8]) -> Step
    ensures step { result ≡ block_step order interfaces.now bytes.now }
    ensures gathers { Gathers bytes.now result }
{
    if bytes.len() < 8 {
        return Step::Need(8);
    }
    let kind = word_at(order, 0, bytes);
    if kind == SECTION {
        return section_step(bytes);
    }
    body_step(order, kind, word_at(order, 4, bytes), interfaces, bytes)
}

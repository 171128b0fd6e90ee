//! What the bytes at a place of a file are.

ghost use Rattle.std.specs.Prelude.{◌≡◌};
ghost use Rattle.capture_files.specs.Gathers.{Gathers};
ghost use Rattle.capture_files.specs.Steps.{start_step, step_of};

use crate::blocks::{SECTION, block_step};
use crate::captured::Interface;
use crate::classic::{header_step, record_step};
use crate::interfaces::option_step;
use crate::numbers::{Order, word_at};
use crate::passing::{end_step, passing_step};
use crate::place::{Place, Step};
use crate::reason::CaptureReason;
use crate::sections::section_step;

// The first number of a file of the classic format, with microseconds and with nanoseconds, in both orders of bytes.
const MICROSECONDS_BIG: u32 = 0xa1b2c3d4;

const MICROSECONDS_LITTLE: u32 = 0xd4c3b2a1;

const NANOSECONDS_BIG: u32 = 0xa1b23c4d;

const NANOSECONDS_LITTLE: u32 = 0x4d3cb2a1;

/// The header of a file, by its first number.
#[tactic(auto, unfolding(crate::specs::Steps::start_step))]
fn start_step(bytes: &[u8]) -> Step
    ensures step { result ≡ start_step bytes.now }
    ensures gathers { Gathers bytes.now result }
{
    if bytes.len() < 4 {
        return Step::Need(4);
    }
    match word_at(Order::Big, 0, bytes) {
        MICROSECONDS_BIG => header_step(Order::Big, false, bytes),
        MICROSECONDS_LITTLE => header_step(Order::Little, false, bytes),
        NANOSECONDS_BIG => header_step(Order::Big, true, bytes),
        NANOSECONDS_LITTLE => header_step(Order::Little, true, bytes),
        SECTION => section_step(bytes),
        _ => Step::Refused(CaptureReason::NotACapture),
    }
}

/// What the bytes at this place are, in a section with these interfaces: a whole unit, the front of one, or none.
#[tactic(auto, unfolding(crate::specs::Steps::step_of))]
pub fn step(place: Place, interfaces: &[Interface], bytes: &[u8]) -> Step
    ensures step { result ≡ step_of place interfaces.now bytes.now }
    ensures gathers { Gathers bytes.now result }
{
    match place {
        Place::Start => start_step(bytes),
        Place::Record(file) => record_step(file, bytes),
        Place::Block { order } => block_step(order, interfaces, bytes),
        Place::Options {
            order,
            interface,
            left: 0,
            total,
        } => end_step(order, Some(interface), total, bytes),
        Place::Options {
            order,
            interface,
            left,
            total,
        } => option_step(order, interface, left, total, bytes),
        Place::Passing {
            order,
            interface,
            left: 0,
            total,
        } => end_step(order, interface, total, bytes),
        Place::Passing {
            order,
            interface,
            left,
            total,
        } => passing_step(order, interface, left, total, bytes),
    }
}

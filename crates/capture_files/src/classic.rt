//! The header and the records of the classic format (draft-ietf-opsawg-pcap sections 4 and 5).

ghost use Rattle.std.specs.Prelude.{◌≡◌, ◌≤◌, length};
ghost use Rattle.capture_files.specs.Gathers.{Gathers};
ghost use Rattle.capture_files.specs.Classic.{time_of, header_step, record_step};

use crate::captured::Found;
use crate::numbers::{Order, half_at, word_at};
use crate::place::{Classic, Place, Step};
use crate::reason::CaptureReason;

/// The longest packet that is taken.
pub const MOST_PACKET: u32 = 262144;

/// The header of a file. What it says of the length of its packets is not asked for: each record has its own.
#[tactic(auto, unfolding(crate::specs::Classic::header_step))]
pub fn header_step(order: Order, nanoseconds: bool, bytes: &[u8]) -> Step
    ensures step { result ≡ header_step order nanoseconds bytes.now }
    ensures gathers { Gathers bytes.now result }
{
    if bytes.len() < 24 {
        return Step::Need(24);
    }
    if half_at(order, 4, bytes) != 2 || half_at(order, 6, bytes) != 4 {
        return Step::Refused(CaptureReason::UnknownVersion);
    }
    let link = (word_at(order, 20, bytes) % 65536) as u16;
    Step::Moved(Place::Record(Classic {
        order,
        nanoseconds,
        link,
    }))
}

/// The time of a record, in microseconds or nanoseconds.
#[tactic(auto, unfolding(crate::specs::Classic::time_of))]
fn time_of(file: Classic, bytes: &[u8]) -> u64
    requires { 16 ≤ length bytes.now }
    ensures { result ≡ time_of file bytes.now }
{
    let seconds = word_at(file.order, 0, bytes) as u64;
    let fraction = word_at(file.order, 4, bytes) as u64;
    if file.nanoseconds {
        seconds * 1000000000 + fraction
    } else {
        seconds * 1000000 + fraction
    }
}

/// A record: the time, how many bytes were captured, how many the packet had, and the bytes.
#[tactic(auto, unfolding(crate::specs::Classic::record_step))]
pub fn record_step(file: Classic, bytes: &[u8]) -> Step
    ensures step { result ≡ record_step file bytes.now }
    ensures gathers { Gathers bytes.now result }
{
    if bytes.len() < 16 {
        return Step::Need(16);
    }
    let captured = word_at(file.order, 8, bytes);
    let original = word_at(file.order, 12, bytes);
    if MOST_PACKET < captured {
        return Step::Refused(CaptureReason::PacketTooLong);
    }
    if original < captured {
        return Step::Refused(CaptureReason::BadLength);
    }
    let size = captured as usize;
    if bytes.len() < 16 + size {
        return Step::Need(16 + size);
    }
    let found = Found {
        link: file.link,
        time: Some(time_of(file, bytes)),
        resolution: if file.nanoseconds { 9 } else { 6 },
        original,
        from: 16,
        size,
    };
    Step::Packet(Place::Record(file), found)
}

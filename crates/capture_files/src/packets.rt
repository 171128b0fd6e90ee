//! The blocks that have packets (draft-ietf-opsawg-pcapng sections 4.3 and 4.4).

ghost use Rattle.std.specs.Prelude.{◌≡◌, ◌≤◌, ◌+◌, length, slice_get};
ghost use Rattle.capture_files.specs.Gathers.{Gathers};
ghost use Rattle.capture_files.specs.Numbers.{word_at};
ghost use Rattle.capture_files.specs.Packets.{time_at, packet_on, packet_step, simple_size, simple_on, simple_step};

use crate::captured::{Found, Interface};
use crate::classic::MOST_PACKET;
use crate::numbers::{Order, word_at};
use crate::place::{Place, Step};
use crate::reason::CaptureReason;

/// The time of an enhanced packet, in units of its interface: the upper half, and then the lower.
#[tactic(auto, unfolding(crate::specs::Packets::time_at))]
fn time_at(order: Order, bytes: &[u8]) -> u64
    requires { 28 ≤ length bytes.now }
    ensures { result ≡ time_at order bytes.now }
{
    word_at(order, 12, bytes) as u64 * 4294967296 + word_at(order, 16, bytes) as u64
}

/// The interface of this number, which its section has described.
fn interface_at(interfaces: &[Interface], id: usize) -> Option<Interface>
    ensures { result ≡ slice_get interfaces.now id }
{
    interfaces.get(id).copied()
}

/// The packet of an enhanced packet's block of this length, on this interface.
#[tactic(auto, unfolding(crate::specs::Packets::packet_on))]
fn packet_on(order: Order, total: u32, interface: Interface, bytes: &[u8]) -> Step
    requires head { 28 ≤ length bytes.now }
    requires few { word_at order 20 bytes.now ≤ 262144 }
    requires fits { word_at order 20 bytes.now + 32 ≤ total }
    ensures step { result ≡ packet_on order total interface bytes.now }
    ensures gathers { Gathers bytes.now result }
{
    let captured = word_at(order, 20, bytes);
    let size = captured as usize;
    if bytes.len() < 28 + size {
        return Step::Need(28 + size);
    }
    let found = Found {
        link: interface.link,
        time: Some(time_at(order, bytes)),
        resolution: interface.resolution,
        original: word_at(order, 24, bytes),
        from: 28,
        size,
    };
    Step::Packet(passed(order, total - 32 - captured, total), found)
}

/// An enhanced packet's block of this length: its interface, the time, how many bytes were captured, how many the
/// packet had, and the bytes. Padding and options, which follow them, are passed over.
#[tactic(auto, unfolding(crate::specs::Packets::packet_step))]
pub fn packet_step(order: Order, total: u32, interfaces: &[Interface], bytes: &[u8]) -> Step
    ensures step { result ≡ packet_step order total interfaces.now bytes.now }
    ensures gathers { Gathers bytes.now result }
{
    if total < 32 {
        return Step::Refused(CaptureReason::BadLength);
    }
    if bytes.len() < 28 {
        return Step::Need(28);
    }
    let captured = word_at(order, 20, bytes);
    if MOST_PACKET < captured {
        return Step::Refused(CaptureReason::PacketTooLong);
    }
    if word_at(order, 24, bytes) < captured || total - 32 < captured {
        return Step::Refused(CaptureReason::BadLength);
    }
    match interface_at(interfaces, word_at(order, 8, bytes) as usize) {
        Some(interface) => packet_on(order, total, interface, bytes),
        None => Step::Refused(CaptureReason::UnknownInterface),
    }
}

/// So many bytes behind a packet, and then the length of its block once more.
fn passed(order: Order, left: u32, total: u32) -> Place
    ensures { result ≡ Place.Passing order None left total }
{
    Place::Passing {
        order,
        interface: None,
        left,
        total,
    }
}

/// How many bytes of a simple packet were captured: all, or as many as its interface has at most.
fn simple_size(interface: Interface, original: u32) -> u32
    ensures { result ≡ simple_size interface original }
{
    if interface.snapshot == 0 || original < interface.snapshot {
        original
    } else {
        interface.snapshot
    }
}

/// The packet of a simple packet's block of this length, on this interface.
#[tactic(auto, unfolding(crate::specs::Packets::simple_on))]
fn simple_on(order: Order, total: u32, interface: Interface, bytes: &[u8]) -> Step
    requires head { 12 ≤ length bytes.now }
    requires whole { 16 ≤ total }
    ensures step { result ≡ simple_on order total interface bytes.now }
    ensures gathers { Gathers bytes.now result }
{
    let original = word_at(order, 8, bytes);
    let captured = simple_size(interface, original);
    if MOST_PACKET < captured {
        return Step::Refused(CaptureReason::PacketTooLong);
    }
    if total - 16 < captured {
        return Step::Refused(CaptureReason::BadLength);
    }
    let size = captured as usize;
    if bytes.len() < 12 + size {
        return Step::Need(12 + size);
    }
    let found = Found {
        link: interface.link,
        time: None,
        resolution: interface.resolution,
        original,
        from: 12,
        size,
    };
    Step::Packet(passed(order, total - 16 - captured, total), found)
}

/// A simple packet's block of this length: how many bytes the packet had, and those that were captured. Its interface
/// is the first, and it has no time.
#[tactic(auto, unfolding(crate::specs::Packets::simple_step))]
pub fn simple_step(order: Order, total: u32, interfaces: &[Interface], bytes: &[u8]) -> Step
    ensures step { result ≡ simple_step order total interfaces.now bytes.now }
    ensures gathers { Gathers bytes.now result }
{
    if total < 16 {
        return Step::Refused(CaptureReason::BadLength);
    }
    if bytes.len() < 12 {
        return Step::Need(12);
    }
    match interface_at(interfaces, 0) {
        Some(interface) => simple_on(order, total, interface, bytes),
        None => Step::Refused(CaptureReason::UnknownInterface),
    }
}

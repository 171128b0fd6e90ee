//! The block that describes an interface, and its options (draft-ietf-opsawg-pcapng sections 3.5 and 4.2).

ghost use Rattle.std.specs.Prelude.{◌≡◌, ◌≤◌, ◌+◌, length};
ghost use Rattle.capture_files.specs.Gathers.{Gathers};
ghost use Rattle.capture_files.specs.Interfaces.{interface_step, padded_length, resolution_of, option_step};

use crate::captured::Interface;
use crate::numbers::{Order, half_at, word_at};
use crate::place::{Place, Step};
use crate::reason::CaptureReason;

/// How many interfaces a section may describe.
const MOST_INTERFACES: usize = 256;

/// The block of this length up to its options: the type of the link, and how many bytes of a packet are captured.
#[tactic(auto, unfolding(crate::specs::Interfaces::interface_step))]
pub fn interface_step(order: Order, total: u32, known: usize, bytes: &[u8]) -> Step
    ensures step { result ≡ interface_step order total known bytes.now }
    ensures gathers { Gathers bytes.now result }
{
    if total < 20 {
        return Step::Refused(CaptureReason::BadLength);
    }
    if MOST_INTERFACES <= known {
        return Step::Refused(CaptureReason::TooManyInterfaces);
    }
    if bytes.len() < 16 {
        return Step::Need(16);
    }
    let interface = Interface {
        link: half_at(order, 8, bytes),
        snapshot: word_at(order, 12, bytes),
        resolution: 6,
    };
    Step::Moved(Place::Options {
        order,
        interface,
        left: total - 20,
        total,
    })
}

/// How many bytes an option of this length has with its padding.
fn padded_length(size: u16) -> u32
    ensures { result ≡ padded_length size }
{
    (size as u32 + 3) / 4 * 4
}

/// The resolution of an interface's times behind an option.
fn resolution_of(interface: Interface, code: u16, size: u16, bytes: &[u8]) -> u8
    requires { 4 + size ≤ length bytes.now }
    ensures { result ≡ resolution_of interface code size bytes.now }
{
    if code == 9 && size == 1 {
        bytes[4]
    } else {
        interface.resolution
    }
}

/// An option of an interface, where so many bytes of them are left: its code, its length, and a value, which is padded.
#[tactic(auto, unfolding(crate::specs::Interfaces::option_step))]
pub fn option_step(order: Order, interface: Interface, left: u32, total: u32, bytes: &[u8]) -> Step
    ensures step { result ≡ option_step order interface left total bytes.now }
    ensures gathers { Gathers bytes.now result }
{
    if left < 4 {
        return Step::Refused(CaptureReason::BadLength);
    }
    if bytes.len() < 4 {
        return Step::Need(4);
    }
    let code = half_at(order, 0, bytes);
    if code == 0 {
        return Step::Moved(Place::Passing {
            order,
            interface: Some(interface),
            left: left - 4,
            total,
        });
    }
    let size = half_at(order, 2, bytes);
    let whole = 4 + padded_length(size);
    if left < whole {
        return Step::Refused(CaptureReason::BadLength);
    }
    if bytes.len() < whole as usize {
        return Step::Need(whole as usize);
    }
    let resolution = resolution_of(interface, code, size, bytes);
    Step::Moved(Place::Options {
        order,
        interface: Interface {
            link: interface.link,
            snapshot: interface.snapshot,
            resolution,
        },
        left: left - whole,
        total,
    })
}

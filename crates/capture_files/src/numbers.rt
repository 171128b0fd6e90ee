//! The numbers of a file, in the order of the bytes of the machine that wrote it.

ghost use Rattle.std.specs.Prelude.{◌≡◌, ◌≤◌, ◌+◌, length};
ghost use Rattle.capture_files.specs.Numbers.{half_at, word_at};

use byteorder::{BigEndian, ByteOrder, LittleEndian};

/// An order of the bytes of a number.
#[derive(Clone, Copy, Debug, PartialEq, Eq)]
pub enum Order {
    /// The highest byte first.
    Big,
    /// The lowest byte first.
    Little,
}

/// The number of 16 bits at this place.
#[tactic(auto, unfolding(crate::specs::Numbers::half_at))]
pub fn half_at(order: Order, place: usize, bytes: &[u8]) -> u16
    requires { place + 2 ≤ length bytes.now }
    ensures { result ≡ half_at order place bytes.now }
{
    match order {
        Order::Big => BigEndian::read_u16(&bytes[place..]),
        Order::Little => LittleEndian::read_u16(&bytes[place..]),
    }
}

/// The number of 32 bits at this place.
#[tactic(auto, unfolding(crate::specs::Numbers::word_at))]
pub fn word_at(order: Order, place: usize, bytes: &[u8]) -> u32
    requires { place + 4 ≤ length bytes.now }
    ensures { result ≡ word_at order place bytes.now }
{
    match order {
        Order::Big => BigEndian::read_u32(&bytes[place..]),
        Order::Little => LittleEndian::read_u32(&bytes[place..]),
    }
}

//! What stands for results.

/// A number made of all bytes and numbers that were added, in their order.
#[derive(Clone, Copy)]
pub struct Digest {
    state: u64,
}

// The number of the eight bytes at a place; where fewer are left, 0.
fn eight_at(bytes: &[u8], at: usize) -> u64 {
    match &bytes[at.min(bytes.len())..] {
        [a, b, c, d, e, f, g, h, ..] => u64::from_le_bytes([*a, *b, *c, *d, *e, *f, *g, *h]),
        _ => 0,
    }
}

impl Digest {
    pub fn new() -> Digest {
        Digest {
            state: 0x4F4E_4352_5043_5844,
        }
    }

    pub fn value(&self) -> u64 {
        self.state
    }

    /// Adds a number.
    pub fn number(&mut self, number: u64) {
        let mixed = (self.state ^ number).wrapping_mul(0x9E37_79B9_7F4A_7C15);
        self.state = mixed ^ (mixed >> 29);
    }

    /// Adds bytes and their count.
    pub fn bytes(&mut self, bytes: &[u8]) {
        for place in 0..bytes.len() / 8 {
            self.number(eight_at(bytes, place.saturating_mul(8)));
        }
        for byte in &bytes[bytes.len() - bytes.len() % 8..] {
            self.number(u64::from(*byte));
        }
        self.number(bytes.len() as u64);
    }
}

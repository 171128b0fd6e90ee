//! Limits on the depth and the bytes of a value.
ghost use Rattle.std.specs.Prelude.{◌≡◌, ◌≤◌, MatchOption};
ghost use Rattle.xdr_types.specs.Within.{AreBounds};

use std::marker::Model;

/// A limit on depth, 1 to 4096, where a root has depth 1, and one on bytes, 4 to 16777216 and a multiple of four.
#[derive(Clone, Copy, Debug)]
pub struct Limits {
    depth: u32,
    bytes: u32,
}

impl Model for Limits {
    ghost use Rattle.xdr_types.specs.Within.{Bounds, AreBounds};

    ghost Value = { Bounds };

    ghost view = { λ l. record { depth = l.depth; bytes = l.bytes } };

    ghost invariant = { λ l. AreBounds l.depth l.bytes };

    ghost inverse = { λ b. record { depth = b.depth; bytes = b.bytes } };
}

impl Limits {
    /// The limits, where both numbers are in range; else none.
    pub fn new(depth: u32, bytes: u32) -> Option<Limits>
        ensures { MatchOption result (AreBounds depth bytes → ⊥)
            (λ l. AreBounds depth bytes × (l ≡ record { depth = depth; bytes = bytes })) }
    {
        if depth == 0 || depth > 4096 || bytes < 4 || bytes > 16777216 || bytes % 4 != 0 {
            return None;
        }
        Some(Limits { depth, bytes })
    }

    /// The limit on depth.
    pub fn depth(self) -> u32
        ensures value { result ≡ self.depth }
        // Both limits are in their ranges.
        ensures range { AreBounds self.depth self.bytes }
    {
        self.depth
    }

    /// The limit on bytes.
    pub fn bytes(self) -> u32
        ensures { result ≡ self.bytes }
    {
        self.bytes
    }
}

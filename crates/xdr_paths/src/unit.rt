//! A unit of the bytes.
ghost use Rattle.std.specs.Prelude.{◌≡◌, ◌+◌, ◌≤◌, pos, length, take, drop};
ghost use Rattle.xdr_units.specs.Numbers.{num4};

/// The number in the unit at a place (RFC 4506 section 4.2).
pub fn unit_at(bytes: &[u8], at: usize) -> u32
    requires { at + 4 ≤ length bytes.now }
    ensures { num4 (pos result) ≡ take 4 (drop at bytes.now) }
{
    u32::from_be_bytes([bytes[at], bytes[at + 1], bytes[at + 2], bytes[at + 3]])
}

//! The number of a fault of a schema.
ghost use Rattle.std.specs.Prelude.{◌≤◌};

/// The number of a fault of a schema.
#[derive(Clone, Copy, Debug, PartialEq, Eq)]
pub struct FlawNumber {
    /// The number, from 1 to 10. An allocation failure, 11, is no flaw of a text.
    pub value: u8,
    pub ghost from_1: { 1 ≤ value },
    pub ghost to_10: { value ≤ 10 },
}

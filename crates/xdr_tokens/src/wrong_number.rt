//! The numbers of what may be wrong with a text.
ghost use Rattle.std.specs.Prelude.{◌≡◌, ◌≤◌};
ghost use Rattle.xdr_tokens.specs.Refusals.{wrong_number};

use crate::fault::Wrong;

impl Wrong {
    /// The number, from 1 to 12 in the order in which the faults are listed. An allocation failure is 13.
    pub fn number(self) -> u8
        // Each wrong has a number of its own.
        ensures number { result ≡ wrong_number self }
        // It is 1 to 12.
        ensures from_1 { 1 ≤ result }
        ensures to_12 { result ≤ 12 }
    {
        match self {
            Wrong::BadCharacter => 1,
            Wrong::BadNumber => 2,
            Wrong::Unexpected => 3,
            Wrong::FloatingKind => 4,
            Wrong::NameTwice => 5,
            Wrong::NameUnknown => 6,
            Wrong::NotASize => 7,
            Wrong::OutOfRange => 8,
            Wrong::TypedefLoop => 9,
            Wrong::BadSchema(_) => 10,
            Wrong::TextTooLong => 11,
            Wrong::NestedTooDeep => 12,
        }
    }
}

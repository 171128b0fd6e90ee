//! The places of faults in a text.
ghost use Rattle.std.specs.Prelude.{◌≡◌, ◌≤◌};
ghost use Rattle.xdr_tokens.specs.Refusals.{wrong_number};
ghost use Rattle.xdr_lang.specs.Refusals.{IsInner};

use thiserror::Error;
use xdr_tokens::{Fault, Wrong};

/// Why a text is refused, from 1: BadCharacter, BadNumber, Unexpected, FloatingKind, NameTwice,
/// NameUnknown, NotASize, OutOfRange, TypedefLoop, a fault of the schema with its number in `inner`
/// (else 0), TextTooLong, NestedTooDeep, NoMemory. Lines and columns count from 1, columns in bytes.
#[derive(Clone, Copy, Debug, PartialEq, Eq, Error)]
#[error("fault {number} ({inner}) at {line}:{column}")]
pub struct LangFault {
    /// Which fault, from 1 to 13.
    pub number: u8,
    /// The number of the schema's fault, or 0.
    pub inner: u8,
    /// The line, from 1.
    pub line: usize,
    /// The column, from 1, in bytes.
    pub column: usize,
}

/// The line and the column where `left` bytes are left to the end. Only a line feed begins a line.
fn position_of(text: &[u8], left: usize) -> (usize, usize)
    ensures line { 1 ≤ result.0 }
    ensures column { 1 ≤ result.1 }
{
    let at = text.len().saturating_sub(left);
    let mut line: usize = 1;
    let mut column: usize = 1;
    for (index, byte) in text.iter().enumerate() {
        if index == at {
            break;
        }
        if *byte == b'\n' {
            line = line.saturating_add(1);
            column = 1;
        } else {
            column = column.saturating_add(1);
        }
    }
    (line, column)
}

/// The number of the schema's fault, or 0.
fn inner_of(wrong: Wrong) -> u8
    ensures { IsInner (wrong_number wrong) result }
{
    match wrong {
        Wrong::BadSchema(flaw) => flaw.value,
        _ => 0,
    }
}

/// The fault of a text, as its caller sees it. An allocation failure stands at the beginning.
pub fn lang_fault(text: &[u8], fault: Fault) -> LangFault
    ensures memory { fault ≡ Fault.NoMemory → result.number ≡ 13 }
    ensures from_1 { 1 ≤ result.number }
    ensures to_13 { result.number ≤ 13 }
    // Number 10 has the number of the schema's fault, and else 0 stands there.
    ensures inner { IsInner result.number result.inner }
    ensures line { 1 ≤ result.line }
    ensures column { 1 ≤ result.column }
{
    match fault {
        Fault::Refused { wrong, left } => {
            let (line, column) = position_of(text, left);
            LangFault {
                number: wrong.number(),
                inner: inner_of(wrong),
                line,
                column,
            }
        }
        Fault::NoMemory => LangFault {
            number: 13,
            inner: 0,
            line: 1,
            column: 1,
        },
    }
}

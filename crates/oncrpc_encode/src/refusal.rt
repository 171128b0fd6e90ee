//! Why an input of JSON stands for no bytes.
ghost use Rattle.std.specs.Prelude.{◌≡◌, ◌++◌, codes, decimal, IfOk, string_bytes};
ghost use Rattle.oncrpc_encode.specs.Lines.{name, refusal_line};

use std::alloc::{AllocError, Global};
use xdr_json_reader::JsonReason;

/// Why a text stands for no bytes.
#[derive(Clone, Copy, PartialEq, Eq)]
pub enum Refusal {
    /// It spells no value, for this reason at this line and column, both from 1.
    At {
        why: JsonReason,
        line: usize,
        column: usize,
    },
    /// It has more bytes than are read.
    TooLong,
}

fn name_of(why: JsonReason) -> &'static str
    ensures { result.now ≡ name why }
{
    match why {
        JsonReason::NotJson => "NotJson",
        JsonReason::UnknownMember => "UnknownMember",
        JsonReason::MissingMember => "MissingMember",
        JsonReason::MemberTwice => "MemberTwice",
        JsonReason::WrongType => "WrongType",
        JsonReason::OutOfRange => "OutOfRange",
        JsonReason::NotWhole => "NotWhole",
        JsonReason::UnknownName => "UnknownName",
        JsonReason::BadHex => "BadHex",
        JsonReason::WrongLength => "WrongLength",
        JsonReason::NoArm => "NoArm",
        JsonReason::TooDeep => "TooDeep",
        JsonReason::TooLarge => "TooLarge",
        JsonReason::NoMemory => "NoMemory",
    }
}

// The end of a line: where a text is refused.
fn place_of(alloc: Global, line: usize, column: usize) -> Result<String, AllocError>
    ensures { IfOk result (λ text.
        string_bytes text ≡ decimal line ++ codes ":" ++ decimal column ++ codes "\n") }
{
    format!(in alloc; "{line}:{column}\n")
}

/// The line of a refusal, with its line feed. The error is an allocation failure.
pub fn line_of(alloc: Global, refusal: Refusal) -> Result<String, AllocError>
    ensures { IfOk result (λ text. string_bytes text ≡ refusal_line refusal) }
{
    match refusal {
        Refusal::At { why, line, column } => {
            let place = place_of(alloc, line, column)?;
            format!(in alloc; "refused {} at {}", name_of(why), place.as_str())
        }
        Refusal::TooLong => String::from_str(alloc, "refused text too long\n"),
    }
}

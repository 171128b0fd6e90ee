//! The line that says what an input holds.
ghost use Rattle.std.specs.Prelude.{◌≡◌, IfOk, string_bytes};
ghost use Rattle.oncrpc_answers.specs.Lines.{line, line_status, name};

use std::alloc::{AllocError, Global};
use xdr_stream::{DecodeFault, Reason};

/// What an input holds.
#[derive(Clone, Copy, PartialEq, Eq)]
pub enum Answer {
    /// A value of so many bytes, and no more.
    Whole { used: usize },
    /// A value of so many bytes, and at least one more byte.
    MoreFollows { used: usize },
    /// Bytes that begin with no value, for this reason at this place.
    Refused(DecodeFault),
    /// A text that is no hexadecimal.
    BadHex,
    /// A text of hexadecimal with more than 1048576 bytes.
    HexTooLong,
}

/// The exit status: 0 where there is a value, else 1.
pub fn status_of(answer: Answer) -> u8
    ensures { result ≡ line_status answer }
{
    match answer {
        Answer::Whole { .. } | Answer::MoreFollows { .. } => 0,
        Answer::Refused(_) | Answer::BadHex | Answer::HexTooLong => 1,
    }
}

fn name_of(why: Reason) -> &'static str
    ensures { result.now ≡ name why }
{
    match why {
        Reason::BadBool => "BadBool",
        Reason::BadNumbered => "BadNumbered",
        Reason::BadCase => "BadCase",
        Reason::TooLong => "TooLong",
        Reason::BadPadding => "BadPadding",
        Reason::TooDeep => "TooDeep",
        Reason::TooLarge => "TooLarge",
        Reason::Truncated => "Truncated",
        Reason::NoMemory => "NoMemory",
    }
}

/// The line of an answer, with its line feed. The error is an allocation failure.
pub fn line_of(alloc: Global, answer: Answer) -> Result<String, AllocError>
    ensures { IfOk result (λ text. string_bytes text ≡ line answer) }
{
    match answer {
        Answer::Whole { used } => format!(in alloc; "ok {used}\n"),
        Answer::MoreFollows { used } => format!(in alloc; "ok {used}, more follows\n"),
        Answer::Refused(fault) => format!(in alloc;
            "refused {} at {}\n",
            name_of(fault.why),
            fault.at
        ),
        Answer::BadHex => String::from_str(alloc, "refused bad hex\n"),
        Answer::HexTooLong => String::from_str(alloc, "refused hex too long\n"),
    }
}

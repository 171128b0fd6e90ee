//! Why bytes of a message are refused, and where.
ghost use Rattle.std.specs.Prelude.{◌≡◌};
ghost use Rattle.oncrpc_messages.specs.Refusals.{why_name};

use xdr_codec::Reason;

/// Why bytes are refused.
#[derive(Clone, Copy, Debug, PartialEq, Eq)]
pub enum Why {
    /// They are no value of their kind, for this reason (RFC 4506 sections 3 and 4).
    Bytes(Reason),
    /// They stand behind all that is to be there.
    MoreFollows,
}

/// Why bytes of a message are refused, and the count of bytes of the message before them.
#[derive(Clone, Copy, Debug, PartialEq, Eq)]
pub struct Refusal {
    pub why: Why,
    pub at: usize,
}

/// What the bytes of a message are found to be.
#[derive(Clone, Copy, Debug, PartialEq, Eq)]
pub enum Verdict {
    /// All of them are the encoding of what was read.
    Canonical,
    /// The same up to arguments or results whose kinds are not known.
    Unjudged,
    /// Some are refused.
    Refused(Refusal),
}

/// The word of a reason.
pub fn why_name(why: Why) -> &'static str
    ensures { result.now ≡ why_name why }
{
    match why {
        Why::Bytes(Reason::BadBool) => "BadBool",
        Why::Bytes(Reason::BadNumbered) => "BadNumbered",
        Why::Bytes(Reason::BadCase) => "BadCase",
        Why::Bytes(Reason::TooLong) => "TooLong",
        Why::Bytes(Reason::BadPadding) => "BadPadding",
        Why::Bytes(Reason::TooDeep) => "TooDeep",
        Why::Bytes(Reason::TooLarge) => "TooLarge",
        Why::Bytes(Reason::Truncated) => "Truncated",
        Why::Bytes(Reason::NoMemory) => "NoMemory",
        Why::MoreFollows => "MoreFollows",
    }
}

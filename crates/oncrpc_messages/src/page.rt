//! What is printed of a message, and what it is found to be.
use crate::asked::Asked;
use crate::refusal::Verdict;

/// What a message is.
#[derive(Clone, Copy, Debug, PartialEq, Eq)]
pub enum Said {
    /// A call with this xid, and what it asks for, at time 0.
    Call { xid: u32, asked: Asked },
    /// A reply with this xid.
    Reply { xid: u32 },
    /// Neither.
    Neither,
}

/// What a message is found to be.
#[derive(Clone, Copy, Debug, PartialEq, Eq)]
pub struct Found {
    /// What its bytes are found to be. What is refused has its place in the message.
    pub verdict: Verdict,
    /// What the message is.
    pub said: Said,
}

/// What is printed of a message, up to what is refused of it.
#[derive(Drop)]
pub struct Page {
    /// The text: lines, or a JSON object that is not closed.
    pub text: Vec<u8>,
    /// What its bytes are found to be. What is refused has its place in the message.
    pub verdict: Verdict,
    /// What the message is.
    pub said: Said,
}

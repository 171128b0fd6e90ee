//! What goes wrong between a client and a server, and what is counted.
use rpc_message::ReplyFault;
use rpc_record::RecordFault;
use thiserror::Error;

/// Why serving stopped. Places and counts are of bytes, and `u64::MAX` stands for every greater one.
#[derive(Clone, Copy, Debug, PartialEq, Eq, Error)]
pub enum ServeFault {
    /// The input is no stream of records of at most 65536 bytes: `TooLong` or `Truncated`.
    #[error("{0}")]
    Record(RecordFault),
    /// A read failed.
    #[error("a read failed")]
    Read,
    /// A write failed, after so many bytes of the output.
    #[error("a write failed after {written} bytes")]
    Write { written: u64 },
    /// One more than the most reads would be needed.
    #[error("too many reads")]
    TooManyReads,
    /// Memory was refused before a record was whole.
    #[error("out of memory")]
    NoMemory,
}

/// Why serving datagrams stopped, after so many that were finished: each was answered, and its reply, if it wants one,
/// was sent.
#[derive(Clone, Copy, Debug, PartialEq, Eq, Error)]
pub enum DatagramFault {
    /// A receive failed.
    #[error("a receive failed after {done} datagrams")]
    Read { done: u64 },
    /// A send failed.
    #[error("a send failed after {done} datagrams")]
    Write { done: u64 },
}

/// How many records or datagrams were answered, and how many replies went out. `u64::MAX` stands for every greater
/// number.
#[derive(Clone, Copy, Debug, PartialEq, Eq)]
pub struct Served {
    pub records: u64,
    pub replies: u64,
}

/// Why a call was not exchanged for a reply. Places and counts are of bytes, and `u64::MAX` stands for every greater
/// one. Over datagrams a read is a receive, a write is a send, and the datagram stands for the first record.
#[derive(Clone, Copy, Debug, PartialEq, Eq, Error)]
pub enum ClientFault {
    /// The input has no first record of at most 16777216 bytes: `TooLong` or `Truncated`.
    #[error("{0}")]
    Record(RecordFault),
    /// A read failed.
    #[error("a read failed")]
    Read,
    /// A write failed, after so many bytes of the call's record.
    #[error("a write failed after {written} bytes")]
    Write { written: u64 },
    /// The first record is no reply.
    #[error("{0}")]
    Reply(ReplyFault),
    /// The first record is a reply to another call.
    #[error("a reply to {got}")]
    WrongXid { got: u32 },
    /// One more than the most reads would be needed.
    #[error("too many reads")]
    TooManyReads,
    /// Memory was refused.
    #[error("out of memory")]
    NoMemory,
}

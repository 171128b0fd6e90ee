//! What became of a connection.
ghost use Rattle.std.specs.Prelude.{◌≡◌, IfOk, string_bytes};
ghost use Rattle.oncrpc_sessions.specs.Endings.{connection_text, outcome_text, ending_line, why_of};
ghost use Rattle.oncrpc_sessions.specs.declared.whence.Whence.TheVariants as over;

use crate::whence::Whence;
use registry_sessions::SessionFault;
use rpc_record::RecordFault;
use std::alloc::{AllocError, Global};
use std::net::SocketAddr;

/// Why a connection ended.
#[derive(Clone, Copy, Debug, PartialEq, Eq)]
pub enum Why {
    /// Its peer sent no more, between two records.
    Done,
    /// Its peer sent no whole record and took nothing of its replies for as long as a client may.
    Idle,
    /// Its bytes are no stream of records of at most 65536 bytes, or a read, a write or memory failed.
    Fault(RecordFault),
}

/// A connection that has ended.
#[derive(Clone, Copy, Debug, PartialEq, Eq)]
pub struct Ending {
    /// Its number, from 0, which no other connection has.
    pub number: u64,
    /// Where it came from.
    pub whence: Whence,
    /// How many records were answered, with a reply or with none.
    pub records: u64,
    /// How many replies there were, written or not.
    pub replies: u64,
    /// Why it ended.
    pub why: Why,
}

impl Ending {
    /// The line of it, with its line feed. Connections are counted from 1. The error is an allocation failure.
    pub fn line(&self, alloc: Global) -> Result<String, AllocError>
        ensures { IfOk result (λ text. string_bytes text ≡ ending_line self.now) }
    {
        let mut line = connection_text(alloc, self.number, self.whence)?;
        let outcome = outcome_text(alloc, self.records, self.replies, self.why)?;
        line.push_str(outcome.as_str())?;
        Ok(line)
    }
}

// Which connection it is, and where it came from.
fn connection_text(alloc: Global, number: u64, whence: Whence) -> Result<String, AllocError>
    ensures { IfOk result (λ text. string_bytes text ≡ connection_text number whence) }
{
    match whence {
        Whence::Address(peer) => address_text(alloc, number, peer),
        Whence::Local => local_text(alloc, number),
    }
}

fn address_text(alloc: Global, number: u64, peer: SocketAddr) -> Result<String, AllocError>
    ensures { IfOk result (λ text. string_bytes text ≡ connection_text number (over.Address peer)) }
{
    let number = number as u128 + 1;
    format!(in alloc; "connection {number} from {peer}: ")
}

fn local_text(alloc: Global, number: u64) -> Result<String, AllocError>
    ensures { IfOk result (λ text. string_bytes text ≡ connection_text number over.Local) }
{
    let number = number as u128 + 1;
    format!(in alloc; "connection {number} from local: ")
}

// What became of it.
fn outcome_text(alloc: Global, records: u64, replies: u64, why: Why) -> Result<String, AllocError>
    ensures { IfOk result (λ text. string_bytes text ≡ outcome_text records replies why) }
{
    match why {
        Why::Done => format!(in alloc; "{records} records, {replies} replies\n"),
        Why::Idle => String::from_str(alloc, "Idle\n"),
        Why::Fault(RecordFault::TooLong { at }) => format!(in alloc; "TooLong at {at}\n"),
        Why::Fault(RecordFault::Truncated { at }) => format!(in alloc; "Truncated at {at}\n"),
        Why::Fault(RecordFault::Read) => String::from_str(alloc, "Read\n"),
        Why::Fault(RecordFault::Write { written: _ }) => String::from_str(alloc, "Write\n"),
        Why::Fault(RecordFault::TooManyReads) => String::from_str(alloc, "TooManyReads\n"),
        Why::Fault(RecordFault::NoMemory) => String::from_str(alloc, "NoMemory\n"),
    }
}

impl From<SessionFault> for Why {
    ghost from_gives = { λ fault why. why ≡ why_of fault };

    fn from(fault: SessionFault) -> Why {
        match fault {
            SessionFault::Record(fault) => Why::Fault(fault),
            SessionFault::NoMemory => Why::Fault(RecordFault::NoMemory),
        }
    }
}

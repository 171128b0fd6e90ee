//! What the calls answer, in the words that the program prints where it prints them.
use rpc_engine::{ClientFault, DatagramFault, ServeFault, Served};
use rpc_message::{OpaqueAuth, Reply, ReplyFault, Status, Why};
use rpc_record::{RecordFault, RecordStep};
use test_lines::lent::refusal;
use test_lines::reported::Report;
use xdr_codec::{DecodeFault, Progress};

/// How far a decoder or a checker has come.
pub fn progress(out: &mut Report, answer: Result<Progress, DecodeFault>) {
    match answer {
        Ok(Progress::More) => out.text("more"),
        Ok(Progress::Done { used }) => out.number("done ", used as u64),
        Err(fault) => refusal(out, fault),
    }
}

/// The count of a value's bytes that a checker gives, or why they are refused.
pub fn counted(out: &mut Report, answer: Result<u32, DecodeFault>) {
    match answer {
        Ok(used) => out.number("ok ", u64::from(used)),
        Err(fault) => refusal(out, fault),
    }
}

/// Why a stream of records ended early.
pub fn record_fault(out: &mut Report, fault: RecordFault) {
    match fault {
        RecordFault::TooLong { at } => out.number("refused TooLong at ", at),
        RecordFault::Truncated { at } => out.number("refused Truncated at ", at),
        RecordFault::Read => out.text("read fault"),
        RecordFault::Write { written } => out.number("write fault after ", written),
        RecordFault::TooManyReads => out.text("too many reads"),
        RecordFault::NoMemory => out.text("out of memory"),
    }
}

/// Whether records ended well.
pub fn ended(out: &mut Report, answer: Result<(), RecordFault>) {
    match answer {
        Ok(()) => out.text("ok"),
        Err(fault) => record_fault(out, fault),
    }
}

/// How far a reader of records has come.
pub fn step(out: &mut Report, answer: Result<RecordStep, RecordFault>) {
    match answer {
        Ok(RecordStep::More) => out.text("more"),
        Ok(RecordStep::Whole { used }) => out.number("whole ", used as u64),
        Err(fault) => record_fault(out, fault),
    }
}

// How many records were answered, and how many replies went out.
fn tally(out: &mut Report, count: Served) {
    out.number("", count.records);
    out.number(" records, ", count.replies);
    out.text(" replies");
}

/// What was served, or why that ended.
pub fn served(out: &mut Report, answer: Result<Served, ServeFault>) {
    match answer {
        Ok(count) => tally(out, count),
        Err(ServeFault::Record(fault)) => record_fault(out, fault),
        Err(ServeFault::Read) => out.text("read fault"),
        Err(ServeFault::Write { written }) => out.number("write fault after ", written),
        Err(ServeFault::TooManyReads) => out.text("too many reads"),
        Err(ServeFault::NoMemory) => out.text("out of memory"),
    }
}

/// The same of datagrams.
pub fn datagrams(out: &mut Report, answer: Result<Served, DatagramFault>) {
    match answer {
        Ok(count) => tally(out, count),
        Err(DatagramFault::Read { done }) => out.number("read fault after ", done),
        Err(DatagramFault::Write { done }) => out.number("write fault after ", done),
    }
}

/// A flavor of authentication and its body.
pub fn auth(out: &mut Report, before: &str, auth: &OpaqueAuth) {
    out.number(before, u64::from(auth.flavor));
    out.digits(":", &auth.body);
}

// Two numbers behind a word.
fn range(out: &mut Report, word: &str, low: u32, high: u32) {
    out.number(word, u64::from(low));
    out.number(" ", u64::from(high));
}

// What an accepted call came to (RFC 5531 section 9).
fn status(out: &mut Report, status: &Status) {
    match status {
        Status::Success(results) => out.digits("SUCCESS ", results),
        Status::ProgUnavail => out.text("PROG_UNAVAIL"),
        Status::ProgMismatch { low, high } => range(out, "PROG_MISMATCH ", *low, *high),
        Status::ProcUnavail => out.text("PROC_UNAVAIL"),
        Status::GarbageArgs => out.text("GARBAGE_ARGS"),
        Status::SystemErr => out.text("SYSTEM_ERR"),
    }
}

// Why a call was denied (RFC 5531 section 9).
fn denial(out: &mut Report, why: Why) {
    match why {
        Why::RpcMismatch { low, high } => range(out, "RPC_MISMATCH ", low, high),
        Why::AuthError(stat) => out.number("AUTH_ERROR ", u64::from(stat)),
    }
}

/// A reply: its xid, its verifier and its status, or why it was denied.
pub fn reply(out: &mut Report, reply: &Reply) {
    match reply {
        Reply::Accepted {
            xid,
            verf,
            status: came,
        } => {
            out.number("reply to ", u64::from(*xid));
            auth(out, ", verifier ", verf);
            out.text(", ");
            status(out, came);
        }
        Reply::Denied { xid, why } => {
            out.number("denial to ", u64::from(*xid));
            out.text(", ");
            denial(out, *why);
        }
    }
}

/// Why bytes are no reply.
pub fn reply_fault(out: &mut Report, fault: ReplyFault) {
    match fault {
        ReplyFault::NoMemory => out.text("out of memory"),
        fault => out.name("refused ", &fault),
    }
}

/// The reply to a call that was exchanged, or why there is none.
pub fn exchanged(out: &mut Report, answer: &Result<Reply, ClientFault>) {
    match answer {
        Ok(got) => reply(out, got),
        Err(ClientFault::Record(fault)) => record_fault(out, *fault),
        Err(ClientFault::Read) => out.text("read fault"),
        Err(ClientFault::Write { written }) => out.number("write fault after ", *written),
        Err(ClientFault::Reply(fault)) => reply_fault(out, *fault),
        Err(ClientFault::WrongXid { got }) => out.number("refused WrongXid ", u64::from(*got)),
        Err(ClientFault::TooManyReads) => out.text("too many reads"),
        Err(ClientFault::NoMemory) => out.text("out of memory"),
    }
}

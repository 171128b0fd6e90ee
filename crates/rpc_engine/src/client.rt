//! The exchange of a call for a reply.
ghost use Rattle.std.specs.Prelude.{◌≡◌, ◌≤◌, true, length, IsErrOf, MatchResult};
ghost use Rattle.xdr_io.specs.Reported.{Counts, CountsAtMost};
ghost use Rattle.xdr_io.specs.declared.input.TheConstants.{MOST_READS};
ghost use Rattle.rpc_record.specs.Marked.{fragment};
ghost use Rattle.rpc_message.specs.Spelling.{call as call_bytes};
ghost use Rattle.rpc_message.specs.View.{call_view, reply_view};
ghost use Rattle.rpc_engine.specs.Exchanged.{CountsExchange, Exchanged, Exchanges, IsExact, xid_of, read_failures};
ghost use Rattle.rpc_engine.specs.Exchanged.{write_failures};
ghost use Rattle.rpc_engine.specs.DatagramExchange.{Replies};
ghost use Rattle.rpc_engine.specs.Private.Looking.{FirstRead, client_fault_of};
ghost use Rattle.rpc_engine.specs.declared.fault.ClientFault.TheVariants as faults;

use crate::fault::ClientFault;
use rpc_message::{Call, Reply, ReplyFault, read_reply, write_call};
use rpc_record::{RecordFault, RecordStream, mark, too_long_ends_the_stream};
use std::alloc::Global;
use xdr_io::{Sink, Source, write_whole};

/// The most bytes of a reply that is kept.
const MOST_REPLY: u32 = 16777216;

/// The call as one last fragment.
fn marked_call(alloc: Global, call: &Call) -> Result<Vec<u8>, ClientFault>
    requires cred { length call.now.cred.body.items ≤ 400 }
    requires verf { length call.now.verf.body.items ≤ 400 }
    requires short { length (call_bytes (call_view call.now)) ≤ 2147483647 }
    ensures { MatchResult result (λ v. v.items ≡ fragment true (call_bytes (call_view call.now)))
        (λ f. f ≡ faults.NoMemory) }
{
    let Ok(bytes) = write_call(alloc, call) else {
        return Err(ClientFault::NoMemory);
    };
    match mark(alloc, &bytes) {
        Ok(record) => Ok(record),
        Err(_) => Err(ClientFault::NoMemory),
    }
}

/// What a fault of the record reader is to the client.
fn record_fault(fault: RecordFault) -> ClientFault
    ensures { result ≡ client_fault_of fault }
{
    match fault {
        RecordFault::Read => ClientFault::Read,
        RecordFault::TooManyReads => ClientFault::TooManyReads,
        RecordFault::NoMemory => ClientFault::NoMemory,
        other => ClientFault::Record(other),
    }
}

/// The first record of a reader.
fn first_record<R: Source>(alloc: Global, reader: &mut R) -> Result<Vec<u8>, ClientFault>
    ensures found { FirstRead (R.left reader.old) (R.left reader.new) result }
    ensures read { Counts (read_failures result) (R.failures reader.old) (R.failures reader.new) }
    ensures reads { CountsAtMost MOST_READS (R.reads reader.old) (R.reads reader.new) }
    ensures many { IsErrOf result ClientFault.TooManyReads
        → Counts MOST_READS (R.reads reader.old) (R.reads reader.new) }
{
    let mut records = RecordStream::start(alloc, MOST_REPLY);
    match records.next_record(reader) {
        Ok(Some(record)) => Ok(record),
        Ok(None) => Err(ClientFault::Record(RecordFault::Truncated { at: 0 })),
        Err(fault) => Err(record_fault(fault)),
    }
}

/// The reply that a message is, to the call with this xid.
pub fn reply_to(alloc: Global, xid: u32, message: &[u8]) -> Result<Reply, ClientFault>
    ensures { Replies xid message.now result }
{
    match read_reply(alloc, message) {
        Ok(reply) => {
            let got = xid_of(&reply);
            if got == xid {
                Ok(reply)
            } else {
                Err(ClientFault::WrongXid { got })
            }
        }
        Err(ReplyFault::NoMemory) => Err(ClientFault::NoMemory),
        Err(fault) => Err(ClientFault::Reply(fault)),
    }
}

/// The xid of a reply.
fn xid_of(reply: &Reply) -> u32
    ensures { result ≡ xid_of (reply_view reply.now) }
{
    match reply {
        Reply::Accepted { xid, .. } => *xid,
        Reply::Denied { xid, .. } => *xid,
    }
}

/// Reads the first record as the reply to a call with this xid.
fn receive<R: Source>(alloc: Global, reader: &mut R, xid: u32) -> Result<Reply, ClientFault>
    ensures answer { Exchanged xid (R.left reader.old) (R.left reader.new) result }
    ensures exact { IsExact xid (R.left reader.old) result }
    ensures unwritten { write_failures result ≡ 0 }
    ensures read { Counts (read_failures result) (R.failures reader.old) (R.failures reader.new) }
    ensures reads { CountsAtMost MOST_READS (R.reads reader.old) (R.reads reader.new) }
    ensures many { IsErrOf result ClientFault.TooManyReads
        → Counts MOST_READS (R.reads reader.old) (R.reads reader.new) }
{
    // The law, for the proof: where a header passes the limit, whatever follows in the reader changes nothing.
    too_long_ends_the_stream();
    match first_record(alloc, reader) {
        Ok(record) => reply_to(alloc, xid, &record),
        Err(fault) => Err(fault),
    }
}

/// Writes the call as one last fragment, and reads the first record, of at most 16777216 bytes, as its reply (RFC 5531
/// sections 9 and 11). The call's credential and verifier have bodies of at most 400 bytes, and the call has at most
/// 2147483647. What follows the first record in the last read is dropped. After `Write` the first `written` bytes of
/// the call's record went out, and after `NoMemory` all of it or nothing. After any answer but `Read` no read failed.
/// An input that ends before its first byte is `Truncated` at 0.
pub fn exchange<R: Source, W: Sink>(
    alloc: Global,
    reader: &mut R,
    writer: &mut W,
    call: &Call,
) -> Result<Reply, ClientFault>
    requires cred { length call.now.cred.body.items ≤ 400 }
    requires verf { length call.now.verf.body.items ≤ 400 }
    requires short { length (call_bytes (call_view call.now)) ≤ 2147483647 }
    // What went out of the call's record, and that the answer is what the bytes that were read are to this call.
    ensures exchanged { Exchanges (call_view call.now) (R.left reader.old) (R.left reader.new)
        (W.taken writer.old) (W.taken writer.new) result }
    // What failed where the answer is `Read` or `Write`, and how many reads were made.
    ensures counted { CountsExchange (R.reads reader.old) (R.reads reader.new)
        (R.failures reader.old) (R.failures reader.new) (W.failures writer.old) (W.failures writer.new) result }
{
    let marked = match marked_call(alloc, call) {
        Ok(marked) => marked,
        Err(_) => return Err(ClientFault::NoMemory),
    };
    match write_whole(writer, &marked) {
        Ok(()) => receive(alloc, reader, call.xid),
        Err(cut) => Err(ClientFault::Write {
            written: cut.written as u64,
        }),
    }
}

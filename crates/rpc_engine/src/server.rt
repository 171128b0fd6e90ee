//! The registry as a server over a stream of records.
ghost use Rattle.std.specs.Prelude.{◌≡◌, IfOk, IfErr, IsErrOf};
ghost use Rattle.xdr_io.specs.Reported.{Counts, CountsAtMost};
ghost use Rattle.xdr_io.specs.declared.input.TheConstants.{MOST_READS};
ghost use Rattle.registry_answer.specs.Views.{netid_of};
ghost use Rattle.rpc_engine.specs.Served.{Serves, Stops, read_failures, write_failures};
ghost use Rattle.rpc_engine.specs.Private.Serving.{fault_of};

use crate::fault::{ServeFault, Served};
use crate::session::Session;
use registry_answer::Transport;
use rpc_directory::Directory;
use rpc_record::{RecordFault, RecordStream};
use std::alloc::Global;
use std::hash::BuildHasher;
use xdr_io::{Sink, Source};

/// The most bytes of a record that is kept.
const MOST_RECORD: u32 = 65536;

/// How much memory is kept for the record to come: more than one takes that is whole in a read of 4096 bytes.
const MOST_KEPT: usize = 8192;

/// Drops a record that was answered. Its memory serves the next, but what a long record took is given back.
fn drop_record(alloc: Global, record: &mut Vec<u8>) {
    if record.capacity() > MOST_KEPT {
        *record = Vec::new(alloc);
    }
}

/// What a fault of the record reader is to the server.
fn record_fault(fault: RecordFault) -> ServeFault
    ensures { result ≡ fault_of fault }
{
    match fault {
        RecordFault::Read => ServeFault::Read,
        RecordFault::TooManyReads => ServeFault::TooManyReads,
        RecordFault::NoMemory => ServeFault::NoMemory,
        other => ServeFault::Record(other),
    }
}

/// Answers each record of the reader, its reply written before the next record is looked at, until the reader has ended
/// between two records. Records have at most 65536 bytes (RFC 5531 section 11). A record for whose answer memory is
/// refused gets the reply SYSTEM_ERR, and the rows stay. After `Record`, `Read`, `TooManyReads`, which comes where
/// 1048576 reads did not reach the end, and `NoMemory`, which comes where a record could not be kept, the records
/// before were answered. After `Write` the first `written` bytes of the output went out, of which the last are some of
/// the reply to the record being answered, and the rows are those after that record. After any answer but `Read` no
/// read failed.
pub fn serve<R: Source, W: Sink, S: BuildHasher>(
    alloc: Global,
    reader: &mut R,
    writer: &mut W,
    directory: &mut Directory<S>,
    transport: Transport,
) -> Result<Served, ServeFault>
    // All was read, and rows and replies are those of the registry's run along its records.
    ensures ok { IfOk result (λ served. Serves (netid_of transport) directory.old directory.new
        (R.left reader.old) (R.left reader.new) (W.taken writer.old) (W.taken writer.new) served) }
    // Some was read, in which the fault is, and the rows are those of a run along the records before it.
    ensures fault { IfErr result (λ f. Stops (netid_of transport) directory.old directory.new
        (R.left reader.old) (R.left reader.new) (W.taken writer.old) (W.taken writer.new) f) }
    // One read failed where the answer is `Read`, and else none; one write where it is `Write`, and else none.
    ensures read { Counts (read_failures result) (R.failures reader.old) (R.failures reader.new) }
    ensures write { Counts (write_failures result) (W.failures writer.old) (W.failures writer.new) }
    // So many reads are made at most, and all of them where there were too many.
    ensures reads { CountsAtMost MOST_READS (R.reads reader.old) (R.reads reader.new) }
    ensures many { IsErrOf result ServeFault.TooManyReads
        → Counts MOST_READS (R.reads reader.old) (R.reads reader.new) }
{
    let mut records = RecordStream::start(alloc, MOST_RECORD);
    let mut session = Session::new(alloc);
    let mut record = Vec::new(alloc);
    'records: loop {
        match records.next_record_into(reader, &mut record) {
            Ok(false) => return Ok(session.served),
            Ok(true) => {
                match session.answer_record(alloc, directory, transport, &record, writer) {
                    Ok(()) => drop_record(alloc, &mut record),
                    Err(lost) => return Err(lost),
                }
            }
            Err(fault) => return Err(record_fault(fault)),
        }
    }
}

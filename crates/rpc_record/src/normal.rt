//! The normal form of a stream of records.
ghost use Rattle.std.specs.Prelude.{◌≤◌, IfOk, IfErr, IsErrOf};
ghost use Rattle.xdr_io.specs.Reported.{Counts, CountsAtMost};
ghost use Rattle.xdr_io.specs.declared.input.TheConstants.{MOST_READS};
ghost use Rattle.rpc_record.specs.Failures.{read_failures, write_failures};
ghost use Rattle.rpc_record.specs.Normalised.{Normalised, Stops};
ghost use Rattle.rpc_record.specs.Private.Passing.{IsStarted, ReadsAtMost};

use super::fault::{Count, RecordFault};
use super::outbox::Outbox;
use super::stream::RecordStream;
use std::alloc::Global;
use xdr_io::{Sink, Source};

/// Writes each record of the reader as one last fragment, and counts them, once the reader has ended between two
/// records. `TooLong`, `Truncated`, `Read` and `NoMemory` come after the records before were written, and so does
/// `TooManyReads`, where 1048576 reads did not reach the end. Of `NoMemory` these are the whole records before the one
/// that memory was refused for. After `Write` the first `written` bytes of that output went out, though more records
/// may have been whole. After any answer but `Read` no read failed. The records that come whole in one read go out
/// together.
pub fn normalise<R: Source, W: Sink>(
    alloc: Global,
    reader: &mut R,
    writer: &mut W,
    limit: u32,
) -> Result<Count, RecordFault>
    requires { limit ≤ 2147483647 }
    // All was read, and its normal form was written.
    ensures ok { IfOk result (λ count.
        Normalised limit (R.left reader.old) (R.left reader.new) (W.taken writer.old) (W.taken writer.new) count) }
    // Some was read, in which the fault is, and the normal form of the records before it was written, or a front of it.
    ensures fault { IfErr result (λ f.
        Stops limit (R.left reader.old) (R.left reader.new) (W.taken writer.old) (W.taken writer.new) f) }
    // One read failed where the answer is `Read`, and else none; one write where it is `Write`, and else none.
    ensures read { Counts (read_failures result) (R.failures reader.old) (R.failures reader.new) }
    ensures write { Counts (write_failures result) (W.failures writer.old) (W.failures writer.new) }
    // So many reads are made at most, and all of them where there were too many.
    ensures reads { CountsAtMost MOST_READS (R.reads reader.old) (R.reads reader.new) }
    ensures many { IsErrOf result RecordFault.TooManyReads
        → Counts MOST_READS (R.reads reader.old) (R.reads reader.new) }
{
    let mut records = RecordStream::start(alloc, limit);
    let mut outbox = Outbox::new();
    pass_on(&mut records, &mut outbox, reader, writer)
}

// Hands on all records of a stream that has read nothing, through an outbox that nothing was handed to.
fn pass_on<R: Source, W: Sink>(
    records: &mut RecordStream,
    outbox: &mut Outbox,
    reader: &mut R,
    writer: &mut W,
) -> Result<Count, RecordFault>
    requires { IsStarted records.old outbox.old }
    ensures ok { IfOk result (λ count. Normalised records.old.records.limit
        (R.left reader.old) (R.left reader.new) (W.taken writer.old) (W.taken writer.new) count) }
    ensures fault { IfErr result (λ f. Stops records.old.records.limit
        (R.left reader.old) (R.left reader.new) (W.taken writer.old) (W.taken writer.new) f) }
    ensures read { Counts (read_failures result) (R.failures reader.old) (R.failures reader.new) }
    ensures write { Counts (write_failures result) (W.failures writer.old) (W.failures writer.new) }
    ensures reads { ReadsAtMost (R.reads reader.old) (R.reads reader.new) result }
{
    'records: loop {
        match records.next_held() {
            Ok(None) => {}
            Ok(Some(record)) => match outbox.put_record(writer, &record) {
                Ok(()) => continue,
                Err(lost) => return Err(lost),
            },
            Err(fault) => {
                return match outbox.flush(writer) {
                    Ok(()) => Err(fault),
                    Err(lost) => Err(lost),
                };
            }
        }
        match outbox.flush(writer) {
            Ok(()) => {}
            Err(lost) => return Err(lost),
        }
        match records.next_record(reader) {
            Ok(None) => return Ok(outbox.count),
            Ok(Some(record)) => match outbox.put_record(writer, &record) {
                Ok(()) => {}
                Err(lost) => return Err(lost),
            },
            Err(fault) => return Err(fault),
        }
    }
}

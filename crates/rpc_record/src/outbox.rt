//! Output that is gathered, so that small records go out together.
ghost use Rattle.std.specs.Prelude.{◌≡◌, ◌<◌, ◌≤◌, ◌+◌, ◌^◌, true, [], length, IfErr, OnOk, OnErr};
ghost use Rattle.xdr_io.specs.Reported.{Counts};

use super::fault::{Count, RecordFault};
use super::header::last_header;
use xdr_io::{Sink, write_whole};

/// How many bytes wait at most: there is space for what one read of 4096 bytes makes of records of up to 4092 bytes.
const BUFFER_SIZE: usize = 8192;

/// Bytes that wait to go out together, and the count of what went out before.
#[derive(Drop)]
pub struct Outbox {
    pub count: Count,
    buffer: [u8; 8192],
    used: usize,
    ghost fits: { used ≤ 8192 },
}

impl Outbox {
    ghost use Rattle.rpc_record.specs.Marked.{fragment};
    ghost use Rattle.rpc_record.specs.Reading.{capped};
    ghost use Rattle.rpc_record.specs.Private.Sending.{Sends, SendingCut};

    /// An outbox that nothing was handed to.
    pub fn new() -> Self
        ensures empty { result.used ≡ 0 }
        ensures records { result.count.records ≡ 0 }
        ensures bytes { result.count.bytes ≡ 0 }
    {
        Outbox {
            count: Count {
                records: 0,
                bytes: 0,
            },
            buffer: [0; BUFFER_SIZE],
            used: 0,
        }
    }

    /// Writes what waits.
    pub fn flush<W: Sink>(&mut self, writer: &mut W) -> Result<(), RecordFault>
        // All that waited went out, and nothing waits.
        ensures ok { OnOk result (Sends self.old self.new (W.taken writer.old) (W.taken writer.new) []) }
        ensures empty { OnOk result (self.new.used ≡ 0) }
        // No record is counted.
        ensures records { self.new.count.records ≡ self.old.count.records }
        // A front of what waited went out, as the fault counts.
        ensures cut { IfErr result (λ f. SendingCut self.old (W.taken writer.old) (W.taken writer.new) [] f) }
        // No write failed where the answer is Ok, and else one.
        ensures none_failed { OnOk result (Counts 0 (W.failures writer.old) (W.failures writer.new)) }
        ensures one_failed { OnErr result (Counts 1 (W.failures writer.old) (W.failures writer.new)) }
    {
        match write_whole(writer, &self.buffer[..self.used]) {
            Ok(()) => {
                self.count.bytes = self.count.bytes.saturating_add(self.used as u64);
                self.used = 0;
                Ok(())
            }
            Err(cut) => Err(RecordFault::Write {
                written: self.count.bytes.saturating_add(cut.written as u64),
            }),
        }
    }

    /// Hands over bytes, which go out after those that wait: together with them where there is space.
    pub fn put<W: Sink>(&mut self, writer: &mut W, bytes: &[u8]) -> Result<(), RecordFault>
        // What waited and these bytes went out or wait, in this order.
        ensures ok { OnOk result (Sends self.old self.new (W.taken writer.old) (W.taken writer.new) bytes.now) }
        // No record is counted.
        ensures records { self.new.count.records ≡ self.old.count.records }
        // A front of what waited and of these bytes went out, as the fault counts.
        ensures cut { IfErr result (λ f. SendingCut self.old (W.taken writer.old) (W.taken writer.new) bytes.now f) }
        // No write failed where the answer is Ok, and else one.
        ensures none_failed { OnOk result (Counts 0 (W.failures writer.old) (W.failures writer.new)) }
        ensures one_failed { OnErr result (Counts 1 (W.failures writer.old) (W.failures writer.new)) }
    {
        let used = self.used;
        if bytes.len() <= BUFFER_SIZE - used {
            self.buffer[used..used + bytes.len()].copy_from_slice(bytes);
            self.used = used + bytes.len();
            return Ok(());
        }
        match self.flush(writer) {
            Ok(()) => {}
            Err(fault) => return Err(fault),
        }
        match write_whole(writer, bytes) {
            Ok(()) => {
                self.count.bytes = self.count.bytes.saturating_add(bytes.len() as u64);
                Ok(())
            }
            Err(cut) => Err(RecordFault::Write {
                written: self.count.bytes.saturating_add(cut.written as u64),
            }),
        }
    }

    /// Hands over a record as one last fragment, and counts it.
    pub fn put_record<W: Sink>(&mut self, writer: &mut W, content: &[u8]) -> Result<(), RecordFault>
        requires { length content.now < 2 ^ 31 }
        // What waited and the record went out or wait, in this order.
        ensures ok { OnOk result
            (Sends self.old self.new (W.taken writer.old) (W.taken writer.new) (fragment true content.now)) }
        // One more record is counted, 2^64 - 1 at most.
        ensures records { OnOk result (self.new.count.records ≡ capped (self.old.count.records + 1)) }
        // A front of what waited and of the record went out, as the fault counts.
        ensures cut { IfErr result
            (λ f. SendingCut self.old (W.taken writer.old) (W.taken writer.new) (fragment true content.now) f) }
        // No write failed where the answer is Ok, and else one.
        ensures none_failed { OnOk result (Counts 0 (W.failures writer.old) (W.failures writer.new)) }
        ensures one_failed { OnErr result (Counts 1 (W.failures writer.old) (W.failures writer.new)) }
    {
        let header = last_header(content.len() as u32);
        match self.put(writer, &header) {
            Ok(()) => {}
            Err(fault) => return Err(fault),
        }
        match self.put(writer, content) {
            Ok(()) => {
                self.count.records = self.count.records.saturating_add(1);
                Ok(())
            }
            Err(fault) => Err(fault),
        }
    }
}

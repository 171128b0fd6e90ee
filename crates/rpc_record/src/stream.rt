//! The records of a source, one after another.
ghost use Rattle.std.specs.Prelude.{◌≤◌};
ghost use Rattle.xdr_io.specs.declared.input.TheConstants.{MOST_READS};

use super::fault::{RecordFault, RecordStep};
use super::reader::RecordReader;
use std::alloc::Global;
use xdr_io::{MOST_READS, ReadFault, Source};

/// How many bytes a read gives at most.
const MOST_PIECE: usize = 4096;

/// Reads a source of marked records, and hands them out one after another (RFC 5531, section 11).
#[derive(Drop)]
pub struct RecordStream {
    records: RecordReader,
    /// What the last read gave, at its front.
    piece: [u8; 4096],
    /// How many bytes that is.
    size: usize,
    /// How many of them were taken.
    at: usize,
    /// How many reads were made.
    reads: u32,
    ghost within: { at ≤ size },
    ghost fits: { size ≤ 4096 },
    ghost few: { reads ≤ MOST_READS },
}

impl RecordStream {
    ghost use Rattle.std.specs.Prelude.{◌≡◌, ◌<◌, ◌≤◌, ℕ, List, [], Option, Some, Ok, IfOk, IfErr, OnOk, IsErrOf};
    ghost use Rattle.std.specs.Prelude.{IfSome, true};
    ghost use Rattle.rpc_record.specs.Reading.{IsFeedFault};
    ghost use Rattle.xdr_io.specs.Reported.{Counts};
    ghost use Rattle.rpc_record.specs.Streamed.{HasRead, HandsHeld, HandsNext, IsOpen, handed, most_to_come, reads_of};
    ghost use Rattle.rpc_record.specs.Failures.{read_failures};

    /// The records of a source, of at most `limit` bytes each, before the first read.
    pub fn start(alloc: Global, limit: u32) -> Self
        requires { limit ≤ 2147483647 }
        // Records can be asked for, and no read was made.
        ensures open { IsOpen result }
        ensures unread { reads_of result ≡ 0 }
        // Nothing was read of the source and no record handed out.
        ensures read { (left : Option (List ℕ)) → HasRead limit result [] left left }
    {
        RecordStream {
            records: RecordReader::start(alloc, limit),
            piece: [0; MOST_PIECE],
            size: 0,
            at: 0,
            reads: 0,
        }
    }

    /// Hands out the next record that is whole in what was read, with no further read. None: no more is, and all that
    /// was read is taken. `TooLong` comes at a header that brings its record above the limit, and `NoMemory` where
    /// memory is refused for a record.
    pub fn next_held(&mut self) -> Result<Option<Vec<u8>>, RecordFault>
        requires { IsOpen self.old }
        // After a record, or none, more can be asked for.
        ensures open { OnOk result (IsOpen self.new) }
        // No read is made.
        ensures reads { reads_of self.new ≡ reads_of self.old }
        // With each record fewer are still to come, and else not more, so that a loop over the records ends.
        ensures fewer { IfOk result (λ r. IfSome r (λ v. most_to_come self.new < most_to_come self.old)) }
        ensures no_more { most_to_come self.new ≤ most_to_come self.old }
        // A fault is `TooLong` or `NoMemory`.
        ensures fault { IfErr result (λ f. IsFeedFault f) }
        // The record, that there is none or the fault is what stands in the bytes that were read.
        ensures next { HandsHeld self.old self.new result }
    {
        let mut record = self.records.buffer();
        match self.held_into(&mut record) {
            Ok(true) => Ok(Some(record)),
            Ok(false) => Ok(None),
            Err(fault) => Err(fault),
        }
    }

    /// As `next_held`, with the record in the buffer. True: there is one.
    fn held_into(&mut self, buffer: &mut Vec<u8>) -> Result<bool, RecordFault>
        requires { IsOpen self.old }
        ensures open { OnOk result (IsOpen self.new) }
        ensures reads { reads_of self.new ≡ reads_of self.old }
        ensures fewer { IfOk result (λ b. b ≡ true → most_to_come self.new < most_to_come self.old) }
        ensures no_more { most_to_come self.new ≤ most_to_come self.old }
        ensures fault { IfErr result (λ f. IsFeedFault f) }
        ensures next { HandsHeld self.old self.new (handed result buffer.new) }
    {
        let read = &self.piece[..self.size];
        match self.records.feed_into(&read[self.at..], buffer) {
            Ok(RecordStep::Whole { used }) => {
                self.at += used;
                Ok(true)
            }
            Ok(RecordStep::More) => {
                self.at = self.size;
                Ok(false)
            }
            Err(fault) => Err(fault),
        }
    }

    /// Hands out the next record, and reads on where none is whole in what was read. None: the source has ended between
    /// two records. `Truncated` comes where it has ended inside one, `Read` where a read failed, `TooManyReads` where
    /// 1048576 reads since the start did not reach the end of a record, and `TooLong` and `NoMemory` as by `next_held`.
    pub fn next_record<R: Source>(&mut self, source: &mut R) -> Result<Option<Vec<u8>>, RecordFault>
        requires { IsOpen self.old }
        // The record, the end or the fault is what stands behind the records that were handed out before.
        ensures next { (limit : ℕ) (rs : List (List ℕ)) (left : Option (List ℕ))
            → HasRead limit self.old rs left (R.left source.old)
            → HandsNext limit self.new rs left (R.left source.new) result }
        // With each record fewer are still to come, so that a loop over the records ends.
        ensures fewer { IfOk result (λ r. IfSome r (λ v. most_to_come self.new < most_to_come self.old)) }
        // The stream counts its reads as the source does,
        ensures reads { (start : Option ℕ) → Counts (reads_of self.old) start (R.reads source.old)
            → Counts (reads_of self.new) start (R.reads source.new) }
        // makes so many at most,
        ensures most { reads_of self.new ≤ MOST_READS }
        // and has made all of them where it says that there were too many.
        ensures many { IsErrOf result RecordFault.TooManyReads → reads_of self.new ≡ MOST_READS }
        // One read failed where the answer is `Read`, and else none.
        ensures read { Counts (read_failures result) (R.failures source.old) (R.failures source.new) }
    {
        let mut record = self.records.buffer();
        match self.next_record_into(source, &mut record) {
            Ok(true) => Ok(Some(record)),
            Ok(false) => Ok(None),
            Err(fault) => Err(fault),
        }
    }

    /// As `next_record`, with the record in the buffer, whose bytes are dropped: its memory serves again, or is given
    /// to a record to come. True: there is one. But for a record, the buffer's bytes are any.
    pub fn next_record_into<R: Source>(
        &mut self,
        source: &mut R,
        buffer: &mut Vec<u8>,
    ) -> Result<bool, RecordFault>
        requires { IsOpen self.old }
        // The record, the end or the fault is what stands behind the records that were handed out before.
        ensures next { (limit : ℕ) (rs : List (List ℕ)) (left : Option (List ℕ))
            → HasRead limit self.old rs left (R.left source.old)
            → HandsNext limit self.new rs left (R.left source.new) (handed result buffer.new) }
        // With each record fewer are still to come, so that a loop over the records ends.
        ensures fewer { IfOk result (λ b. b ≡ true → most_to_come self.new < most_to_come self.old) }
        // The stream counts its reads as the source does,
        ensures reads { (start : Option ℕ) → Counts (reads_of self.old) start (R.reads source.old)
            → Counts (reads_of self.new) start (R.reads source.new) }
        // makes so many at most,
        ensures most { reads_of self.new ≤ MOST_READS }
        // and has made all of them where it says that there were too many.
        ensures many { IsErrOf result RecordFault.TooManyReads → reads_of self.new ≡ MOST_READS }
        // One read failed where the answer is `Read`, and else none.
        ensures read { Counts (read_failures result) (R.failures source.old) (R.failures source.new) }
    {
        'reads: loop {
            match self.held_into(buffer) {
                Ok(false) => {}
                Ok(true) => return Ok(true),
                Err(fault) => return Err(fault),
            }
            if self.reads == MOST_READS {
                return Err(RecordFault::TooManyReads);
            }
            self.reads += 1;
            self.at = 0;
            match source.read(&mut self.piece) {
                Ok(size) => self.size = size,
                Err(ReadFault) => return Err(RecordFault::Read),
            }
            if self.size == 0 {
                return match self.records.end() {
                    Ok(()) => Ok(false),
                    Err(fault) => Err(fault),
                };
            }
        }
    }
}

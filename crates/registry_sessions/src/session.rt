//! One connection: the bytes that it has brought, and the replies that wait to be written.
ghost use Rattle.std.specs.Prelude.{◌≡◌, ◌+◌, ◌*◌, ◌≤◌, ◌<◌, ◌↔◌, [], ℕ, List, length, drop, IsTrue, IfOk, IfErr};
ghost use Rattle.std.specs.Prelude.{OnOk, OnErr};
ghost use Rattle.std.specs.Prelude.{vec_len, vec_capacity};
ghost use Rattle.rpc_record.specs.Represents.{IsWaiting, limit_of};
ghost use Rattle.rpc_engine.specs.Served.{most_record};
ghost use Rattle.registry_sessions.specs.Bounds.{most_marked, most_spare};
ghost use Rattle.registry_sessions.specs.Private.Replying.{AnswersNext, fault_of};

use crate::fault::{SessionFault, Taken};
use crate::origin::Origin;
use crate::replies::push_reply;
use rpc_directory::Directory;
use rpc_record::{NoMemory, RecordFault, RecordReader, RecordStep, too_long_ends_the_stream};
use std::alloc::Global;
use std::hash::BuildHasher;
use std::mem;

/// The most bytes of a record that is kept.
const MOST_RECORD: u32 = 65536;

/// How much memory is kept for a record to come: more than one takes that is whole in a read of 4096 bytes.
const MOST_KEPT: usize = 8192;

/// A connection that is served. It takes the bytes that the peer sends, in any pieces, and answers each record as soon
/// as it is whole. It holds the replies, each as one last fragment, until writes have taken them.
#[derive(Drop)]
pub struct Session {
    records: RecordReader,
    /// The empty memory of a record that was answered, for one to come.
    spare: Vec<u8>,
    /// Replies, of which writes took the first `sent` bytes: at most half of them.
    output: Vec<u8>,
    sent: usize,
    /// With more bytes than these waiting no record is answered.
    bound: u32,
    fault: Option<SessionFault>,
    origin: Origin,
    alloc: Global,
    ghost limit: { limit_of records ≡ most_record },
    ghost lean: { vec_capacity spare ≤ most_spare },
    ghost half: { sent + sent ≤ vec_len output },
    ghost waits: { vec_len output ≤ sent + (bound + most_marked) },
    ghost few: { vec_len output ≤ 2 * bound + most_marked },
}

/// An empty buffer with this one's memory, where that is not much.
fn emptied(alloc: Global, buffer: Vec<u8>) -> Vec<u8>
    ensures empty { result.items ≡ [] }
    ensures lean { vec_capacity result ≤ most_spare }
{
    if buffer.capacity() > MOST_KEPT {
        return Vec::new(alloc);
    }
    let mut empty = buffer;
    empty.clear();
    empty
}

/// What a fault of the record reader is to the session.
fn record_fault(fault: RecordFault) -> SessionFault
    ensures { result ≡ fault_of fault }
{
    match fault {
        RecordFault::NoMemory => SessionFault::NoMemory,
        other => SessionFault::Record(other),
    }
}

/// Answers the record that waits, and keeps some of its memory.
fn answer_next<S: BuildHasher>(
    alloc: Global,
    records: &mut RecordReader,
    spare: &mut Vec<u8>,
    origin: Origin,
    directory: &mut Directory<S>,
    out: &mut Vec<u8>,
) -> Result<(), NoMemory>
    requires waiting { IsWaiting records.old }
    ensures ok { OnOk result (AnswersNext origin directory.old records.old records.new directory.new out.old.items
        out.new.items) }
    ensures rows { OnErr result (directory.new ≡ directory.old) }
    ensures bytes { OnErr result (out.new.items ≡ out.old.items) }
    ensures limit { limit_of records.new ≡ limit_of records.old }
    ensures lean { vec_capacity spare.new ≤ most_spare }
{
    let memory = mem::replace(spare, Vec::new(alloc));
    match records.take_with(memory) {
        Some(record) => {
            let pushed = push_reply(alloc, origin, directory, &record, out);
            *spare = emptied(alloc, record);
            pushed
        }
        None => Ok(()),
    }
}

impl Session {
    ghost use Rattle.rpc_record.specs.Marked.{Longest};
    ghost use Rattle.registry_sessions.specs.Represents.{output_of, bound_of, origin_of, kept_of, fault_in, IsFull};
    ghost use Rattle.registry_sessions.specs.Represents.{HasRead, Holds, Takes, Breaks, Stays, Took, Concludes};

    /// A session before its first byte. Its bytes are to come from `origin`. While more than `bound` bytes of its
    /// output wait, it takes nothing.
    pub fn start(alloc: Global, bound: u32, origin: Origin) -> Self
        // It has taken no bytes and answered no records,
        ensures reads { HasRead result [] [] }
        // and has no replies.
        ensures replies { Holds result [] 0 }
        ensures bound { bound_of result ≡ bound }
        ensures origin { origin_of result ≡ origin }
    {
        Session {
            records: RecordReader::start(alloc, MOST_RECORD),
            spare: Vec::new(alloc),
            output: Vec::new(alloc),
            sent: 0,
            bound,
            fault: None,
            origin,
            alloc,
        }
    }

    /// Takes bytes of a piece that the peer sent, at most up to the end of a record, and answers that record (RFC 5531
    /// sections 9 and 11): its reply stands behind the output. `Full`: more bytes than the bound wait, and nothing was
    /// taken. A fault takes the piece: `TooLong`, at a header that brings its record above 65536 bytes, and `NoMemory`,
    /// where memory was refused for a record or its reply. It is answered from then on, and the rows and the output
    /// are those of the records before.
    pub fn take_in<S: BuildHasher>(
        &mut self,
        piece: &[u8],
        directory: &mut Directory<S>,
    ) -> Result<Taken, SessionFault>
        // What was taken, that the record was answered, and where its reply stands.
        ensures taken { IfOk result (λ taken. Takes self.old self.new directory.old directory.new piece.now taken) }
        // What a fault says of all bytes that were ever taken.
        ensures fault { IfErr result (λ f. Breaks self.old self.new directory.old directory.new piece.now f) }
        // After a fault nothing changes, and above the bound nothing is taken.
        ensures stays { Stays self.old self.new result }
        ensures bound { bound_of self.new ≡ bound_of self.old }
        ensures origin { origin_of self.new ≡ origin_of self.old }
    {
        // The law, for the proof: where a header passes the limit, the records before it are those of the longest
        // front.
        too_long_ends_the_stream();
        if let Some(fault) = self.fault {
            return Err(fault);
        }
        if self.is_full() {
            return Ok(Taken::Full);
        }
        match self.records.feed(piece) {
            Ok(RecordStep::More) => Ok(Taken::More),
            Ok(RecordStep::Whole { used }) => {
                match answer_next(
                    self.alloc,
                    &mut self.records,
                    &mut self.spare,
                    self.origin,
                    directory,
                    &mut self.output,
                ) {
                    Ok(()) => Ok(Taken::Answered { used }),
                    Err(NoMemory) => {
                        self.fault = Some(SessionFault::NoMemory);
                        Err(SessionFault::NoMemory)
                    }
                }
            }
            Err(fault) => {
                let fault = record_fault(fault);
                // No byte of the record that was not whole is kept.
                self.records = RecordReader::start(self.alloc, MOST_RECORD);
                self.fault = Some(fault);
                Err(fault)
            }
        }
    }

    /// Whether more bytes than the bound wait: the connection is not to be read before some are written.
    pub fn is_full(&self) -> bool
        ensures { IsTrue result ↔ IsFull self.now }
    {
        (self.bound as usize) < self.output.len() - self.sent
    }

    /// The fault that was answered. None: bytes can be taken.
    pub fn fault(&self) -> Option<SessionFault>
        ensures { result ≡ fault_in self.now }
    {
        self.fault
    }

    /// The bytes that wait to be written: at most 16777244 more than the bound, for a reply is not cut.
    pub fn output(&self) -> &[u8]
        ensures output { result.now ≡ output_of self.now }
        ensures few { length result.now ≤ bound_of self.now + most_marked }
    {
        &self.output[self.sent..]
    }

    /// How many bytes are kept: of a record that is not whole, of replies that wait, and of replies that were written
    /// and not yet dropped. Whatever was declared, they are at most 65536, twice the bound, and 16777244. Besides them
    /// there is memory of at most 8192 bytes for a record to come, and what the buffers have to spare.
    pub fn retained(&self) -> usize
        ensures count { result ≡ kept_of self.now }
        ensures few { result ≤ most_record + (2 * bound_of self.now + most_marked) }
    {
        self.records.retained() + self.output.len()
    }

    /// Tells that a write took the first n bytes of the output, which has so many.
    pub fn took(&mut self, n: usize)
        requires { n ≤ length (output_of self.old) }
        ensures output { output_of self.new ≡ drop n (output_of self.old) }
        // What was read stays, and so many more bytes of the replies were taken.
        ensures took { Took self.old self.new n }
        ensures bound { bound_of self.new ≡ bound_of self.old }
        ensures origin { origin_of self.new ≡ origin_of self.old }
    {
        self.sent += n;
        let waiting = self.output.len() - self.sent;
        if waiting == 0 {
            let memory = mem::replace(&mut self.output, Vec::new(self.alloc));
            self.output = emptied(self.alloc, memory);
            self.sent = 0;
        } else if waiting <= self.sent {
            self.output.copy_within(self.sent.., 0);
            self.sent = 0;
            self.output.truncate(waiting);
        }
    }

    /// The records that were answered are those of the longest front of the bytes taken that is a stream of records of
    /// at most 65536 bytes.
    pub fn records_are_longest(&self)
        ensures { (bytes : List ℕ) (rs : List (List ℕ)) → HasRead self.now bytes rs → Longest most_record rs bytes }
    {}

    /// Tells that the peer sends no more: well between two records, which changes nothing. Inside one it is `Truncated`
    /// after the bytes taken, from then on, and an earlier fault is answered again. The output stays.
    pub fn end(&mut self) -> Result<(), SessionFault>
        // What the answer says of all bytes that were ever taken.
        ensures concludes { Concludes self.old self.new result }
        ensures output { output_of self.new ≡ output_of self.old }
        ensures bound { bound_of self.new ≡ bound_of self.old }
        ensures origin { origin_of self.new ≡ origin_of self.old }
    {
        if let Some(fault) = self.fault {
            return Err(fault);
        }
        match self.records.end() {
            Ok(()) => Ok(()),
            Err(fault) => {
                let fault = record_fault(fault);
                self.fault = Some(fault);
                Err(fault)
            }
        }
    }
}

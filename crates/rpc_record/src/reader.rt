//! A reader of records, in any pieces: `taking` takes the bytes of a piece.
ghost use Rattle.std.specs.Prelude.{◌+◌, ◌≤◌, vec_len};
ghost use Rattle.rpc_record.specs.Fields.{left_of};

use super::fault::{RecordFault, RecordStep};
use super::place::Place;
use super::single::single_record;
use std::alloc::Global;
use std::mem;

mod taking;

/// Takes a stream of records in any pieces, and hands the records out.
#[derive(Drop)]
pub struct RecordReader {
    limit: u32,
    place: Place,
    /// The content of the record so far.
    content: Vec<u8>,
    alloc: Global,
    /// How many bytes were taken, u64::MAX for more.
    taken: u64,
    ghost fits: { vec_len content + left_of place ≤ limit },
}

impl RecordReader {
    ghost use Rattle.std.specs.Prelude.{◌≡◌, ◌<◌, ◌^◌, ◌++◌, ℕ, List, [], ◌∷◌, length, true, Some, IfOk, IfErr};
    ghost use Rattle.rpc_record.specs.Represents.{Represents, Always, IsTaking, IsWaiting, IsBroken, limit_of};
    ghost use Rattle.rpc_record.specs.Represents.{Takes, Feeds, Reports, Stays, Hands, IsHanded, Ends, Concludes};
    ghost use Rattle.rpc_record.specs.Represents.{IsBetween, Moves, Fills, IsFilled};
    ghost use Rattle.rpc_record.specs.Private.Steps.{Refuses, TakesSingle};
    ghost use Rattle.rpc_record.specs.Marked.{Longest, fragment};
    ghost use Rattle.rpc_record.specs.Reading.{TooLongAt, IsWhole, Begins, Faulty, HasNoLong};
    ghost use Rattle.rpc_record.specs.declared.place.Place.TheVariants as place;

    /// A reader of records of at most `limit` bytes, before the first byte.
    pub fn start(alloc: Global, limit: u32) -> Self
        requires { limit ≤ 2147483647 }
        ensures limit { limit_of result ≡ limit }
        // It is between two records, has taken no bytes and handed out no records.
        ensures taking { IsTaking result }
        // So it stands for no bytes and no records.
        ensures represents { Represents result [] [] }
    {
        RecordReader {
            limit,
            place: Place::Between,
            content: Vec::new(alloc),
            alloc,
            taken: 0,
        }
    }

    /// Takes the bytes of a piece, which may be empty, up to the end of a record (RFC 5531, section 11). `More`: all
    /// were taken. `Whole`: a record waits, and the first `used` bytes were taken, which end with its last byte; while
    /// it waits nothing more is. `TooLong`, at a header that brings its record above the limit, and `NoMemory` take
    /// the whole piece and are answered from then on.
    pub fn feed(&mut self, piece: &[u8]) -> Result<RecordStep, RecordFault>
        ensures limit { limit_of self.new ≡ limit_of self.old }
        // What was taken, and where the reader is then.
        ensures feeds { Feeds self.old self.new piece.now result }
        // What the answer says of all bytes that were ever taken.
        ensures reports { Reports self.old piece.now result }
        // After a fault, and while a record waits, nothing changes.
        ensures stays { Stays self.old result }
    {
        // The shortcut for what comes most: a record that is one fragment, whole in the piece.
        if let Place::Between = self.place {
            if let Some(record) = single_record(piece, self.space()) {
                return self.take_single(record);
            }
        }
        self.feed_on(piece)
    }

    /// Takes a record with this content that is one fragment. Where memory is refused for it, it is broken.
    fn take_single(&mut self, content: &[u8]) -> Result<RecordStep, RecordFault>
        requires between { IsBetween self.old }
        requires counted { length content.now < 2 ^ 31 }
        requires fits { vec_len self.old.content + length content.now ≤ limit_of self.old }
        ensures { TakesSingle self.old self.new content.now result }
    {
        match self.content.extend_from_slice(content) {
            Ok(()) => {
                let used = 4 + content.len();
                self.taken = self.taken.saturating_add(used as u64);
                self.place = Place::Whole;
                Ok(RecordStep::Whole { used })
            }
            Err(_) => {
                self.place = Place::Broken(RecordFault::NoMemory);
                Err(RecordFault::NoMemory)
            }
        }
    }

    /// As `feed`, and a record that is whole then is handed out into the buffer, so that the next begins. `Whole`: the
    /// bytes that the buffer had are dropped, and it holds the content of the record; its memory may be given to a
    /// record to come. `More`, and a fault: the buffer's bytes are any.
    pub fn feed_into(
        &mut self,
        piece: &[u8],
        buffer: &mut Vec<u8>,
    ) -> Result<RecordStep, RecordFault>
        ensures limit { limit_of self.new ≡ limit_of self.old }
        // What was taken, and that the record in the buffer counts as handed out.
        ensures fills { Fills self.old self.new piece.now buffer.new.items result }
        // What the answer says of all bytes that were ever taken.
        ensures reports { Reports self.old piece.now result }
        // Where a record is whole, the buffer holds the one that the bytes end with.
        ensures content { IsFilled self.old piece.now buffer.new.items result }
        // After a fault, and while a record waits, nothing changes.
        ensures stays { Stays self.old result }
    {
        if let Place::Between = self.place {
            if let Some(record) = single_record(piece, self.limit) {
                return self.put_single(record, buffer);
            }
        }
        self.hand_into(piece, buffer)
    }

    /// Takes a record with this content that is one fragment, and puts it into the buffer. Where memory is refused for
    /// it, it is broken.
    fn put_single(
        &mut self,
        content: &[u8],
        buffer: &mut Vec<u8>,
    ) -> Result<RecordStep, RecordFault>
        requires between { IsBetween self.old }
        requires counted { length content.now < 2 ^ 31 }
        requires fits { length content.now ≤ limit_of self.old }
        ensures limit { limit_of self.new ≡ limit_of self.old }
        ensures whole { IfOk result (λ s. (s ≡ RecordStep.Whole (4 + length content.now))
            × (buffer.new.items ≡ content.now) × IsBetween self.new
            × Moves self.old self.new (fragment true content.now) (content.now ∷ [])) }
        ensures refused { IfErr result (λ f. (f ≡ RecordFault.NoMemory) × (self.new.place ≡ place.Broken f)
            × Takes self.old self.new (fragment true content.now)) }
        ensures refuses { Refuses self.old self.new (fragment true content.now) }
    {
        buffer.clear();
        match buffer.extend_from_slice(content) {
            Ok(()) => {
                let used = 4 + content.len();
                self.taken = self.taken.saturating_add(used as u64);
                Ok(RecordStep::Whole { used })
            }
            Err(_) => {
                self.place = Place::Broken(RecordFault::NoMemory);
                Err(RecordFault::NoMemory)
            }
        }
    }

    /// As `feed_into`, with the record taken out of the reader where it is whole.
    #[inline(never)]
    fn hand_into(&mut self, piece: &[u8], buffer: &mut Vec<u8>) -> Result<RecordStep, RecordFault>
        ensures limit { limit_of self.new ≡ limit_of self.old }
        ensures fills { Fills self.old self.new piece.now buffer.new.items result }
        ensures reports { Reports self.old piece.now result }
        ensures content { IsFilled self.old piece.now buffer.new.items result }
        ensures stays { Stays self.old result }
    {
        let step = self.feed_on(piece)?;
        if let RecordStep::Whole { .. } = step {
            let memory = mem::replace(buffer, Vec::new(self.alloc));
            *buffer = self.hand_out(memory);
        }
        Ok(step)
    }

    /// An empty buffer of the reader's memory.
    pub(super) fn buffer(&self) -> Vec<u8> {
        Vec::new(self.alloc)
    }

    /// For how many more bytes of a record there is space.
    fn space(&self) -> u32
        ensures { vec_len self.now.content + result ≡ limit_of self.now }
    {
        (self.limit as usize).saturating_sub(self.content.len()) as u32
    }

    /// How many bytes of a record are kept: never more than the limit.
    pub fn retained(&self) -> usize
        ensures count { result ≡ vec_len self.now.content }
        ensures within { result ≤ limit_of self.now }
    {
        self.content.len()
    }

    /// Hands out the record that waits, whose last byte is the last that was taken, and the next begins. None where
    /// none waits, which changes nothing.
    pub fn take(&mut self) -> Option<Vec<u8>>
        ensures limit { limit_of self.new ≡ limit_of self.old }
        // The record counts as handed out, or none waits and nothing changes.
        ensures hands { Hands self.old self.new result }
        // It is the one that the bytes taken end with.
        ensures content { IsHanded self.old result }
    {
        self.take_with(Vec::new(self.alloc))
    }

    /// As `take`, and the next record goes into this buffer's memory, whose bytes are dropped. Where no record is whole
    /// that memory is freed.
    pub fn take_with(&mut self, buffer: Vec<u8>) -> Option<Vec<u8>>
        ensures limit { limit_of self.new ≡ limit_of self.old }
        // The record counts as handed out, or none waits and nothing changes.
        ensures hands { Hands self.old self.new result }
        // It is the one that the bytes taken end with.
        ensures content { IsHanded self.old result }
    {
        if let Place::Whole = self.place {
            Some(self.hand_out(buffer))
        } else {
            None
        }
    }

    /// Hands out the record that waits, and the next goes into this buffer's memory, whose bytes are dropped.
    fn hand_out(&mut self, buffer: Vec<u8>) -> Vec<u8>
        requires waiting { IsWaiting self.old }
        ensures limit { limit_of self.new ≡ limit_of self.old }
        ensures hands { Hands self.old self.new (Some result) }
        ensures content { IsHanded self.old (Some result) }
    {
        let mut empty = buffer;
        empty.clear();
        self.place = Place::Between;
        mem::replace(&mut self.content, empty)
    }

    /// Ends the input: well between two records and while one waits, which changes nothing. Inside a record it is
    /// `Truncated` after the bytes taken, from then on, and an earlier fault is answered again.
    pub fn end(&mut self) -> Result<(), RecordFault>
        ensures limit { limit_of self.new ≡ limit_of self.old }
        // Where the reader was, and where it is then.
        ensures ends { Ends self.old self.new result }
        // What the answer says of all bytes that were ever taken.
        ensures concludes { Concludes self.old result }
    {
        match self.place {
            Place::Between | Place::Whole => Ok(()),
            Place::Broken(fault) => Err(fault),
            Place::Header { .. } | Place::Content(_) => {
                let fault = RecordFault::Truncated { at: self.taken };
                self.place = Place::Broken(fault);
                Err(fault)
            }
        }
    }

    /// The records handed out are those of the longest front of the bytes that is a stream of records within the
    /// limit, and so are they with the one that waits. While bytes are taken no header has passed the limit. After
    /// `TooLong` a header did, at that place, where the longest such front ends.
    pub fn records_are_longest(&self)
        // While bytes are taken: no header has passed the limit, and the records are those of the longest front.
        ensures not_long { IsTaking self.now → Always self.now (λ rs bytes. HasNoLong (limit_of self.now) bytes) }
        ensures taking { IsTaking self.now → Always self.now (λ rs bytes. Longest (limit_of self.now) rs bytes) }
        ensures begins { IsTaking self.now → Always self.now (λ rs bytes. Begins (limit_of self.now) rs bytes) }
        // While a record waits: with it the records are those of the longest front, and all bytes are in records.
        ensures waiting { IsWaiting self.now
            → Always self.now (λ rs bytes. (r : List ℕ) × Longest (limit_of self.now) (rs ++ r ∷ []) bytes) }
        ensures whole { IsWaiting self.now → Always self.now (λ rs bytes.
            (r : List ℕ) × (IsWhole (limit_of self.now) (rs ++ r ∷ []) bytes × HasNoLong (limit_of self.now) bytes)) }
        // After a fault: what it says of the bytes, and where a header passed the limit.
        ensures faulty { (f : RecordFault) → IsBroken self.now f
            → Always self.now (λ rs bytes. Faulty (limit_of self.now) rs f bytes) }
        ensures long { (at : ℕ) → IsBroken self.now (RecordFault.TooLong at)
            → Always self.now (λ rs bytes.
            TooLongAt (limit_of self.now) rs at bytes × Longest (limit_of self.now) rs bytes) }
    {}
}

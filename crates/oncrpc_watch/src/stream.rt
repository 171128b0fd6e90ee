//! One direction of a connection.
ghost use Rattle.std.specs.Prelude.{◌≡◌, ◌<◌, ◌∷◌, ℕ, [], true, false, IfErr, IfOk, OnOk, Option};
ghost use Rattle.rpc_record.specs.Streamed.{most_to_come};
ghost use Rattle.oncrpc_watch.specs.Events.{Ends, Record};
ghost use Rattle.oncrpc_watch.specs.Private.Steps.{GoesOn, IsSound, IsStanding, Prints, ReadFails, Reads, Stands};
ghost use Rattle.oncrpc_watch.specs.Private.Steps.{StopsOn, StopsTelling, TellsOn, came, is_last, reached, sunk};

use crate::ending::{Ending, ending_line, ending_of};
use crate::placed::Placed;
use crate::watch::Watch;
use oncrpc_answers::Failure;
use oncrpc_messages::{Verdict, close_page};
use rpc_record::RecordStream;
use std::alloc::Global;
use xdr_io::{Sink, Source, write_whole};

/// The way of all messages of a connection.
pub const WAY: u32 = 0;

/// The most bytes of a record: a head, and 16777216 bytes of arguments or results.
pub const MOST_RECORD: u32 = 16781312;

/// One direction: its records, one after another.
#[derive(Drop)]
pub struct Stream<R> {
    alloc: Global,
    /// What it is called where it is refused.
    name: &'static str,
    source: Placed<R>,
    records: RecordStream,
    /// The record at work.
    pub record: Vec<u8>,
    /// Whether it has ended.
    ended: bool,
}

/// What comes of a read.
#[derive(Clone, Copy)]
pub enum Come {
    /// A record.
    Record,
    /// The end between two records.
    End,
    /// What is refused.
    Refused(Ending),
}

impl<R: Source> Stream<R> {
    /// Before the first read.
    pub fn new(alloc: Global, name: &'static str, source: R) -> Stream<R>
        ensures stands { Stands (reached R.left R.failures R.reads result) (R.left source) [] }
        ensures name { result.name.now ≡ name.now }
        ensures sound { IsSound (R.failures source) (R.reads source) (reached R.left R.failures R.reads result) }
    {
        Stream {
            alloc,
            name,
            source: Placed::new(alloc, source),
            records: RecordStream::start(alloc, MOST_RECORD),
            record: Vec::new(alloc),
            ended: false,
        }
    }

    /// Reads the next record. False: there is none. Where the stream is refused, that is printed.
    pub fn next<O: Sink>(&mut self, watch: &mut Watch<'_>, output: &mut O) -> Result<bool, Failure>
        requires standing { IsStanding (reached R.left R.failures R.reads self.old) }
        ensures reads { IfOk result (λ more. Reads more
            (reached R.left R.failures R.reads self.old) (reached R.left R.failures R.reads self.new)
            self.new.record.items watch.old watch.new (sunk O.taken O.failures output.old)
            (sunk O.taken O.failures output.new)) }
        ensures fewer { IfOk result (λ more. more ≡ true
            → most_to_come self.new.records < most_to_come self.old.records) }
        ensures stops { IfErr result (λ f. StopsOn
            (reached R.left R.failures R.reads self.old) (reached R.left R.failures R.reads self.new)
            watch.old (sunk O.taken O.failures output.old) (sunk O.taken O.failures output.new) f) }
    {
        if self.ended {
            return Ok(false);
        }
        match self.read()? {
            Come::Record => Ok(true),
            Come::End => Ok(false),
            Come::Refused(ending) => {
                self.refuse(ending, watch, output)?;
                Ok(false)
            }
        }
    }

    // Reads the next record of a stream that has not ended.
    fn read(&mut self) -> Result<Come, Failure>
        requires begun { self.old.ended ≡ false }
        requires standing { IsStanding (reached R.left R.failures R.reads self.old) }
        ensures on { IfOk result (λ k. GoesOn
            (reached R.left R.failures R.reads self.old) (reached R.left R.failures R.reads self.new)
            (came k self.old.name.now self.new.record.items)) }
        ensures ended { IfOk result (λ k. self.new.ended ≡ is_last k) }
        ensures fewer { IfOk result (λ k. is_last k ≡ false
            → most_to_come self.new.records < most_to_come self.old.records) }
        ensures fails { IfErr result (λ f. (failures reads : Option ℕ)
            → IsSound failures reads (reached R.left R.failures R.reads self.old)
            → ReadFails failures reads (reached R.left R.failures R.reads self.new) f) }
    {
        self.source.begin();
        match self
            .records
            .next_record_into(&mut self.source, &mut self.record)
        {
            Ok(true) => Ok(Come::Record),
            Ok(false) => {
                self.ended = true;
                Ok(Come::End)
            }
            Err(fault) => {
                self.ended = true;
                let ending = ending_of(fault)?;
                Ok(Come::Refused(ending))
            }
        }
    }

    // Prints that the stream is refused.
    fn refuse<O: Sink>(
        &self,
        ending: Ending,
        watch: &mut Watch<'_>,
        output: &mut O,
    ) -> Result<(), Failure>
        ensures prints { OnOk result (Prints watch.old watch.new (Ends self.now.name.now ending ∷ [])
            (sunk O.taken O.failures output.old) (sunk O.taken O.failures output.new)) }
        ensures stops { IfErr result (λ f. StopsTelling watch.old (Ends self.now.name.now ending ∷ [])
            (sunk O.taken O.failures output.old) (sunk O.taken O.failures output.new) f) }
    {
        watch.refuse();
        let line = ending_line(self.alloc, watch.form(), self.name, ending)?;
        write_whole(output, line.as_bytes())?;
        Ok(())
    }

    /// Prints the record at work.
    pub fn tell<O: Sink>(&mut self, watch: &mut Watch<'_>, output: &mut O) -> Result<(), Failure>
        ensures prints { OnOk result (Prints watch.old watch.new (Record self.old.record.items ∷ [])
            (sunk O.taken O.failures output.old) (sunk O.taken O.failures output.new)) }
        ensures stops { IfErr result (λ f. StopsTelling watch.old (Record self.old.record.items ∷ [])
            (sunk O.taken O.failures output.old) (sunk O.taken O.failures output.new) f) }
        ensures same { (reached R.left R.failures R.reads self.new)
            ≡ (reached R.left R.failures R.reads self.old) }
    {
        self.source.take_record()?;
        let record = self.record.as_slice();
        let told = watch.tell(WAY, 0, record)?;
        let place = self.place_of(told.page.verdict);
        let text = close_page(self.alloc, watch.form(), told.page, place)?;
        let bytes = text.as_slice();
        write_whole(output, bytes)?;
        Ok(())
    }

    // The place in the stream of what is refused of the record at work, or 0.
    fn place_of(&self, verdict: Verdict) -> u64 {
        match verdict {
            Verdict::Refused(refusal) => self.source.place_of(refusal.at),
            Verdict::Canonical | Verdict::Unjudged => 0,
        }
    }

    /// Reads the next record and prints it. False: there is none.
    pub fn tell_next<O: Sink>(
        &mut self,
        watch: &mut Watch<'_>,
        output: &mut O,
    ) -> Result<bool, Failure>
        requires standing { IsStanding (reached R.left R.failures R.reads self.old) }
        ensures tells { OnOk result (TellsOn
            (reached R.left R.failures R.reads self.old) (reached R.left R.failures R.reads self.new)
            watch.old watch.new (sunk O.taken O.failures output.old) (sunk O.taken O.failures output.new)) }
        ensures ended { IfOk result (λ more. more ≡ false → self.new.ended ≡ true) }
        ensures fewer { IfOk result (λ more. more ≡ true
            → most_to_come self.new.records < most_to_come self.old.records) }
        ensures stops { IfErr result (λ f. StopsOn
            (reached R.left R.failures R.reads self.old) (reached R.left R.failures R.reads self.new)
            watch.old (sunk O.taken O.failures output.old) (sunk O.taken O.failures output.new) f) }
    {
        match self.next(watch, output) {
            Ok(true) => {}
            Ok(false) => return Ok(false),
            Err(failure) => return Err(failure),
        }
        self.tell(watch, output)?;
        Ok(true)
    }

    /// Reads all records and prints them.
    pub fn tell_all<O: Sink>(
        &mut self,
        watch: &mut Watch<'_>,
        output: &mut O,
    ) -> Result<(), Failure>
        requires standing { IsStanding (reached R.left R.failures R.reads self.old) }
        ensures tells { OnOk result (TellsOn
            (reached R.left R.failures R.reads self.old) (reached R.left R.failures R.reads self.new)
            watch.old watch.new (sunk O.taken O.failures output.old) (sunk O.taken O.failures output.new)) }
        ensures ended { OnOk result (self.new.ended ≡ true) }
        ensures stops { IfErr result (λ f. StopsOn
            (reached R.left R.failures R.reads self.old) (reached R.left R.failures R.reads self.new)
            watch.old (sunk O.taken O.failures output.old) (sunk O.taken O.failures output.new) f) }
    {
        'records: loop {
            match self.tell_next(watch, output) {
                Ok(true) => {}
                Ok(false) => return Ok(()),
                Err(failure) => return Err(failure),
            }
        }
    }
}

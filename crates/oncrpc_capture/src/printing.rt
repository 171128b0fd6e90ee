//! Where what is found goes.
use crate::seen::Seen;
use crate::stats::Stats;
use crate::text::{front_text, joined, note_text, place_of, refused_text, unread_text};
use crate::told::{told_name, why_unread};
use capture_packets::Reason;
use capture_records::Told;
use oncrpc_answers::Failure;
use oncrpc_messages::{Page, Verdict, close_page};
use oncrpc_watch::{Watch, counts_line};
use std::alloc::{AllocError, Global};
use xdr_io::{Sink, write_whole};

/// Where what is found goes: to the output, or into counts.
#[derive(Drop)]
pub struct Printing<'a> {
    alloc: Global,
    pub watch: Watch<'a>,
    pub stats: Option<Stats>,
}

impl<'a> Printing<'a> {
    ghost use Rattle.std.specs.Prelude.{◌≡◌, ◌⊎◌, ◌∷◌, [], IfOk, OnOk, codes, false, is_some, true};
    ghost use Rattle.oncrpc_watch.specs.Events.{stream_line};
    ghost use Rattle.std.specs.Io.KnownBytes.{Appends};
    ghost use Rattle.oncrpc_messages.specs.Closing.{closed};
    ghost use Rattle.oncrpc_capture.specs.Entries.{FileRefused, Message, Note, TooLong, Unread, place_of};
    ghost use Rattle.oncrpc_capture.specs.Notes.{told_name, why_unread};
    ghost use Rattle.oncrpc_capture.specs.Private.Steps.{Closes, Prints, PrintsHeard, PrintsOf, PutsTables};
    ghost use Rattle.oncrpc_capture.specs.Brought.{IsToldBy, SaysSome};
    ghost use Rattle.oncrpc_capture.specs.Texts.{behind, front_text, note_text, unread_text};

    /// Nothing was found.
    pub fn new(alloc: Global, watch: Watch<'a>, stats: bool) -> Printing<'a>
        ensures watch { result.watch ≡ watch.entry }
        ensures stats { is_some result.stats ≡ stats }
    {
        let stats = if stats { Some(Stats::new(alloc)) } else { None };
        Printing {
            alloc,
            watch,
            stats,
        }
    }

    /// Whether a datagram of this way is told: a message, or else a reply whose call is known.
    pub fn is_told(&self, is_message: bool, way: u32, bytes: &[u8]) -> bool
        ensures told { result ≡ true → (is_message ≡ true) ⊎ SaysSome bytes.now }
        ensures untold { result ≡ false → is_message ≡ false }
    {
        if is_message {
            return true;
        }
        self.watch.is_asked(way, bytes)
    }

    /// How many messages, records and files are refused so far.
    pub fn refused(&self) -> u64
        ensures { result ≡ self.now.watch.counts.refused }
    {
        let counts = self.watch.counts();
        counts.refused
    }

    /// A message of this way that ended with this packet.
    pub fn record<O: Sink>(
        &mut self,
        way: u32,
        seen: Seen,
        bytes: &[u8],
        output: &mut O,
    ) -> Result<(), Failure>
        ensures { OnOk result (Prints self.old self.new (Message seen way bytes.now ∷ []) (O.taken output.old)
            (O.taken output.new)) }
    {
        match &mut self.stats {
            Some(stats) => {
                let judged = self.watch.judge(way, seen.time, bytes)?;
                stats.count(judged.found, judged.asked, seen)?;
                Ok(())
            }
            None => {
                let told = self.watch.tell(way, seen.time, bytes)?;
                self.put_message(seen, told.page, output)
            }
        }
    }

    // Writes a message.
    fn put_message<O: Sink>(&self, seen: Seen, page: Page, output: &mut O) -> Result<(), Failure>
        ensures { OnOk result (Appends (O.taken output.old) (O.taken output.new)
            (behind self.now.watch.terms.form (front_text self.now.watch.terms.form seen)
            (closed self.now.watch.terms.form page.text.items page.verdict (place_of page.verdict)))) }
    {
        let text = self.text_of(seen, page)?;
        write_whole(output, &text)?;
        Ok(())
    }

    /// A datagram of this way, of which so many bytes were not captured: a message, or a part of one.
    pub fn datagram<O: Sink>(
        &mut self,
        way: u32,
        seen: Seen,
        bytes: &[u8],
        missing: usize,
        output: &mut O,
    ) -> Result<(), Failure>
        ensures { OnOk result (PrintsOf (λ es. IsToldBy missing seen bytes.now es) self.old self.new
            (O.taken output.old) (O.taken output.new)) }
    {
        if missing == 0 {
            self.record(way, seen, bytes, output)
        } else {
            self.note(seen, Told::Missing, missing as u64, output)
        }
    }

    // The text of a message behind that of its packet.
    fn text_of(&self, seen: Seen, page: Page) -> Result<Vec<u8>, AllocError>
        ensures { IfOk result (λ text. text.items ≡ behind self.now.watch.terms.form
            (front_text self.now.watch.terms.form seen)
            (closed self.now.watch.terms.form page.text.items page.verdict (place_of page.verdict))) }
    {
        let form = self.watch.form();
        let place = place_of(page.verdict);
        let front = front_text(self.alloc, form, seen)?.into_bytes();
        let message = close_page(self.alloc, form, page, place)?;
        joined(form, front, &message)
    }

    /// What is said of so many bytes.
    pub fn note<O: Sink>(
        &mut self,
        seen: Seen,
        told: Told,
        count: u64,
        output: &mut O,
    ) -> Result<(), Failure>
        ensures { OnOk result (Prints self.old self.new (Note seen (told_name told) count ∷ []) (O.taken output.old)
            (O.taken output.new)) }
    {
        match &mut self.stats {
            Some(stats) => {
                stats.note(told, count);
                Ok(())
            }
            None => self.put_note(seen, told, count, output),
        }
    }

    /// The same, where something is to be said.
    pub fn note_some<O: Sink>(
        &mut self,
        seen: Seen,
        said: Option<(Told, u64)>,
        output: &mut O,
    ) -> Result<(), Failure>
        ensures { OnOk result (PrintsHeard self.old self.new (O.taken output.old) (O.taken output.new)) }
    {
        match said {
            Some((told, count)) => self.note(seen, told, count, output),
            None => Ok(()),
        }
    }

    // Writes what is said of so many bytes.
    fn put_note<O: Sink>(
        &self,
        seen: Seen,
        told: Told,
        count: u64,
        output: &mut O,
    ) -> Result<(), Failure>
        ensures { OnOk result (Appends (O.taken output.old) (O.taken output.new)
            (behind self.now.watch.terms.form (front_text self.now.watch.terms.form seen)
            (note_text self.now.watch.terms.form (told_name told) count))) }
    {
        let line = note_text(self.alloc, self.watch.form(), told_name(told), count)?;
        self.put(seen, line.as_bytes(), output)?;
        Ok(())
    }

    /// A header that no record has.
    pub fn too_long<O: Sink>(&mut self, seen: Seen, output: &mut O) -> Result<(), Failure>
        ensures { OnOk result (Prints self.old self.new (TooLong seen ∷ []) (O.taken output.old)
            (O.taken output.new)) }
    {
        self.watch.refuse();
        match &mut self.stats {
            Some(stats) => {
                stats.refuse_record();
                Ok(())
            }
            None => self.put_too_long(seen, output),
        }
    }

    // Writes that a header is that of no record.
    fn put_too_long<O: Sink>(&self, seen: Seen, output: &mut O) -> Result<(), Failure>
        ensures { OnOk result (Appends (O.taken output.old) (O.taken output.new)
            (behind self.now.watch.terms.form (front_text self.now.watch.terms.form seen)
            (stream_line self.now.watch.terms.form (codes "record") (codes "TooLong") 0))) }
    {
        let line = refused_text(self.alloc, self.watch.form(), "record", "TooLong", 0)?;
        self.put(seen, line.as_bytes(), output)?;
        Ok(())
    }

    // Writes a text behind that of its packet.
    fn put<O: Sink>(&self, seen: Seen, text: &[u8], output: &mut O) -> Result<(), Failure>
        ensures { OnOk result (Appends (O.taken output.old) (O.taken output.new)
            (behind self.now.watch.terms.form (front_text self.now.watch.terms.form seen) text.now)) }
    {
        let form = self.watch.form();
        let front = front_text(self.alloc, form, seen)?.into_bytes();
        let line = joined(form, front, text)?;
        write_whole(output, &line)?;
        Ok(())
    }

    /// A packet that is not read, by its number and time, for this reason.
    pub fn unread<O: Sink>(
        &mut self,
        frame: u64,
        time: u64,
        reason: Reason,
        output: &mut O,
    ) -> Result<(), Failure>
        ensures { OnOk result (Prints self.old self.new (Unread frame time (why_unread reason) ∷ [])
            (O.taken output.old) (O.taken output.new)) }
    {
        match &mut self.stats {
            Some(stats) => {
                stats.unread(reason);
                Ok(())
            }
            None => self.put_unread(frame, time, reason, output),
        }
    }

    // Writes that a packet is not read.
    fn put_unread<O: Sink>(
        &self,
        frame: u64,
        time: u64,
        reason: Reason,
        output: &mut O,
    ) -> Result<(), Failure>
        ensures { OnOk result (Appends (O.taken output.old) (O.taken output.new)
            (unread_text self.now.watch.terms.form frame time (why_unread reason))) }
    {
        let form = self.watch.form();
        let line = unread_text(self.alloc, form, frame, time, why_unread(reason))?;
        write_whole(output, line.as_bytes())?;
        Ok(())
    }

    /// Why the file is refused, and where.
    pub fn refuse_file<O: Sink>(
        &mut self,
        why: &str,
        at: u64,
        output: &mut O,
    ) -> Result<(), Failure>
        ensures { OnOk result (Prints self.old self.new (FileRefused why.now at ∷ []) (O.taken output.old)
            (O.taken output.new)) }
    {
        self.watch.refuse();
        let line = refused_text(self.alloc, self.watch.form(), "file", why, at)?;
        write_whole(output, line.as_bytes())?;
        Ok(())
    }

    /// The closing lines.
    pub fn close<O: Sink>(&self, output: &mut O) -> Result<(), Failure>
        ensures { OnOk result (Closes self.now (O.taken output.old) (O.taken output.new)) }
    {
        let line = counts_line(self.alloc, self.watch.form(), self.watch.counts())?;
        self.put_tables(output)?;
        write_whole(output, line.as_bytes())?;
        Ok(())
    }

    // The tables, where counts are asked for.
    fn put_tables<O: Sink>(&self, output: &mut O) -> Result<(), Failure>
        ensures { OnOk result (PutsTables (is_some self.now.stats) (O.taken output.old) (O.taken output.new)) }
    {
        match &self.stats {
            Some(stats) => {
                let text = stats.text(self.watch.terms())?;
                write_whole(output, text.as_bytes())?;
                Ok(())
            }
            None => Ok(()),
        }
    }
}

//! Messages told or judged one after another, with the calls to which replies answer.
ghost use Rattle.std.specs.Prelude.{◌≡◌, ℕ, MatchOption, ⊤};
ghost use Rattle.rpc_message.specs.Message.{CallView, ReplyView};
ghost use Rattle.rpc_message.specs.Spelling.{CallBytes, ReplyBytes};

use crate::counts::Counts;
use crate::table::CallTable;
use crate::terms::Terms;
use oncrpc_messages::{
    Asked, Form, Found, Page, Said, call_program, judge_message, read_message, reply_xid,
};
use std::alloc::Global;
use xdr_types::NoMemory;

/// What is told of a record.
#[derive(Drop)]
pub struct Told {
    /// What is printed of it.
    pub page: Page,
    /// The call to which it answers, where it is a reply and its call is known.
    pub asked: Option<Asked>,
}

/// What is found of a record.
#[derive(Clone, Copy)]
pub struct Judged {
    /// What it is found to be.
    pub found: Found,
    /// The call to which it answers, where it is a reply and its call is known.
    pub asked: Option<Asked>,
}

/// What was seen of messages so far.
#[derive(Drop)]
pub struct Watch<'a> {
    alloc: Global,
    terms: Terms<'a>,
    table: CallTable,
    counts: Counts,
}

impl<'a> Watch<'a> {
    ghost use Rattle.std.specs.Prelude.{◌≡◌, ℕ, List, ◌∷◌, true, IfOk, OnErr, OnOk};
    ghost use Rattle.oncrpc_messages.specs.Messages.{SaysReply};
    ghost use Rattle.oncrpc_watch.specs.Counted.{refused};
    ghost use Rattle.oncrpc_watch.specs.Heard.{Heard};
    ghost use Rattle.oncrpc_watch.specs.Represents.{IsAt, Recalls};
    ghost use Rattle.oncrpc_watch.specs.Run.{FindsRecord, State, TellsRecord, heard, heard_of, nothing};
    ghost use Rattle.oncrpc_watch.specs.Terms.{terms_of};
    ghost use Rattle.oncrpc_watch.specs.Waiting.{waiting};

    /// No message was seen.
    pub fn new(alloc: Global, terms: &Terms<'a>) -> Watch<'a>
        ensures terms { result.terms ≡ terms.now }
        ensures nothing { IsAt result nothing }
    {
        let Terms {
            declared,
            known,
            heads,
            limits,
            form,
            brief,
        } = *terms;
        Watch {
            alloc,
            terms: Terms {
                declared,
                known,
                heads,
                limits,
                form,
                brief,
            },
            table: CallTable::new(alloc),
            counts: Counts::none(),
        }
    }

    /// By what messages are judged.
    pub fn terms(&self) -> &Terms<'a>
        ensures { result.now ≡ self.now.terms }
    {
        &self.terms
    }

    /// How messages are printed.
    pub fn form(&self) -> Form
        ensures { result ≡ self.now.terms.form }
    {
        self.terms.form
    }

    /// How many messages there were so far.
    pub fn counts(&self) -> Counts
        ensures { result ≡ self.now.counts }
    {
        self.counts
    }

    /// Counts something beside messages that is refused.
    pub fn refuse(&mut self)
        ensures terms { self.new.terms ≡ self.old.terms }
        ensures table { self.new.table ≡ self.old.table }
        ensures counts { self.new.counts ≡ refused self.old.counts }
    {
        self.counts.refuse();
    }

    /// How many more calls can be noted before one is forgotten.
    pub fn spare(&self) -> usize {
        self.table.spare()
    }

    /// Whether a record of this way is a reply whose call is known.
    pub fn is_asked(&self, way: u32, record: &[u8]) -> bool
        ensures { result ≡ true → (xid : ℕ) × SaysReply xid record.now }
    {
        match reply_xid(record) {
            Some(xid) => self.table.find(way, xid).is_some(),
            None => false,
        }
    }

    /// Whether a record of this way is a reply whose call is not known.
    pub fn is_unasked(&self, way: u32, record: &[u8]) -> bool {
        match reply_xid(record) {
            Some(xid) => self.table.find(way, xid).is_none(),
            None => false,
        }
    }

    /// Tells a record of this way that came at this time. A reply is read by the call of its xid, which waits no more
    /// then; a call waits for its reply. The error is an allocation failure: then nothing is heard, nor counted.
    pub fn tell(&mut self, way: u32, time: u64, record: &[u8]) -> Result<Told, NoMemory>
        // What is told is what its bytes say, by what was heard before,
        ensures told { IfOk result (λ t. (s : State) → IsAt self.old s
            → TellsRecord (terms_of self.old.terms) s.history way record.now t.page t.asked) }
        // and it is heard then, and counted.
        ensures heard { IfOk result (λ t. (s : State) → IsAt self.old s
            → IsAt self.new (heard s way time t.page t.asked)) }
        ensures unchanged { OnErr result ((s : State) → IsAt self.old s → IsAt self.new s) }
        ensures terms { self.new.terms ≡ self.old.terms }
    {
        let asked = self.call_of(way, record);
        let settings = self.terms.settings(program_of(record, asked));
        let page = read_message(self.alloc, &settings, asked, record)?;
        self.note(way, time, page.said)?;
        self.counts.count(page.said, page.verdict, asked.is_some());
        Ok(Told { page, asked })
    }

    /// Judges a record of this way that came at this time, as `tell` does; no text is made of it. The error is an
    /// allocation failure: then nothing is heard, nor counted.
    pub fn judge(&mut self, way: u32, time: u64, record: &[u8]) -> Result<Judged, NoMemory>
        // What is found is what its bytes say, by what was heard before,
        ensures found { IfOk result (λ j. (s : State) → IsAt self.old s
            → FindsRecord (terms_of self.old.terms) s.history way record.now j.found j.asked) }
        // and it is heard then, and counted.
        ensures heard { IfOk result (λ j. (s : State) → IsAt self.old s
            → IsAt self.new (heard_of s way time j.found j.asked)) }
        ensures unchanged { OnErr result ((s : State) → IsAt self.old s → IsAt self.new s) }
        ensures terms { self.new.terms ≡ self.old.terms }
    {
        let asked = self.call_of(way, record);
        let settings = self.terms.settings(program_of(record, asked));
        let found = judge_message(self.alloc, &settings, asked, record)?;
        self.note(way, time, found.said)?;
        self.counts
            .count(found.said, found.verdict, asked.is_some());
        Ok(Judged { found, asked })
    }

    // The call that waits for a record of this way, where that says that it is a reply.
    fn call_of(&self, way: u32, record: &[u8]) -> Option<Asked>
        ensures { (xid : ℕ) → SaysReply xid record.now → result ≡ waiting self.now.table way xid }
    {
        let xid = reply_xid(record)?;
        self.table.find(way, xid)
    }

    // A call waits then, and that to which a reply answers waits no more.
    fn note(&mut self, way: u32, time: u64, said: Said) -> Result<(), NoMemory>
        ensures recalls { OnOk result ((history : List Heard) → Recalls self.old.table history
            → Recalls self.new.table (record { way = way; time = time; said = said } ∷ history)) }
        ensures unchanged { OnErr result ((history : List Heard) → Recalls self.old.table history
            → Recalls self.new.table history) }
        ensures terms { self.new.terms ≡ self.old.terms }
        ensures counts { self.new.counts ≡ self.old.counts }
    {
        match said {
            Said::Call { xid, asked } => {
                let call = Asked { time, ..asked };
                self.table.note(way, xid, call)?;
            }
            Said::Reply { xid } => {
                let _answered = self.table.take(way, xid);
            }
            Said::Neither => {}
        }
        Ok(())
    }
}

// The program of a record that is a call, or of the call to which it answers.
fn program_of(record: &[u8], asked: Option<Asked>) -> u32
    ensures call { (c : CallView) → CallBytes c record.now → result ≡ c.prog }
    ensures reply { (r : ReplyView) → ReplyBytes r record.now → MatchOption asked ⊤ (λ a. result ≡ a.program) }
{
    match call_program(record) {
        Some(program) => program,
        None => match asked {
            Some(call) => call.program,
            None => 0,
        },
    }
}

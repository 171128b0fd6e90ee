//! Items whose bytes go to a sink.
ghost use Rattle.std.specs.Prelude.{◌≡◌, ℕ, List, [], IfOk, IfErr, Err};
ghost use Rattle.std.specs.Io.KnownBytes.{Appends};
ghost use Rattle.xdr_writer.specs.Items.{NodeItem, item_view};
ghost use Rattle.xdr_writer.specs.Represents.{RepresentsItems, HasRefused, IsSame};
ghost use Rattle.xdr_writer.specs.Answers.{Took};
ghost use Rattle.xdr_writer.specs.Sinking.{IsNotOut};
ghost use Rattle.xdr_writer.specs.declared.sinking.PutFault.TheVariants.{Refused};

use crate::item::{Item, Step};
use crate::refusal::WriteRefusal;
use crate::writer::Writer;
use thiserror::Error;
use xdr_io::{Cut, Sink, write_whole};

/// Why an item is not out.
#[derive(Clone, Copy, Debug, PartialEq, Eq, Error)]
pub enum PutFault {
    /// It is refused, and nothing of it went out.
    #[error("{0}")]
    Refused(WriteRefusal),
    /// A write failed. The writer has taken the item, and the first of its bytes went out.
    #[error("{0}")]
    Cut(Cut),
}

impl<'s> Writer<'s> {
    /// Takes the next item as `put` does, and writes its bytes to a sink. They go through `buffer`, whose capacity
    /// serves again: what stood in it is lost. Memory is taken as `put` takes it. After `Cut` the bytes that went out
    /// are no encoding's front but by chance of what the caller does then: it may write the rest of the item's.
    pub fn put_to<W: Sink>(
        &mut self,
        item: Item,
        buffer: &mut Vec<u8>,
        sink: &mut W,
    ) -> Result<Step, PutFault>
        // The item stands behind those so far, and its bytes went out.
        ensures took { IfOk result (λ s. (is : List NodeItem) → RepresentsItems self.old is
            → (bytes : List ℕ) × Took self.old self.new is (item_view item.entry) [] bytes s
            × Appends (W.taken sink.old) (W.taken sink.new) bytes) }
        // Else it is refused and nothing went out, or it is taken and the first of its bytes did.
        ensures not_out { IfErr result (IsNotOut self.old self.new (item_view item.entry) (W.taken sink.old)
            (W.taken sink.new)) }
        // A refusal of an earlier call comes again.
        ensures for_ever { (f : WriteRefusal) → HasRefused self.old f → result ≡ Err (Refused f) }
        // The schema, the kind and the limits stay.
        ensures same { IsSame self.old self.new }
    {
        buffer.clear();
        let step = match self.put(item, buffer) {
            Ok(step) => step,
            Err(refusal) => return Err(PutFault::Refused(refusal)),
        };
        match write_whole(sink, buffer) {
            Ok(()) => Ok(step),
            Err(cut) => Err(PutFault::Cut(cut)),
        }
    }
}

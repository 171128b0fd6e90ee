//! A writer, and what it is asked: the next item, the count of the value's bytes.
ghost use Rattle.std.specs.Prelude.{◌≡◌, ◌≤◌, None, true};
ghost use Rattle.xdr_codec.specs.Checks as checks;
ghost use Rattle.xdr_stream.specs.declared.fault.DecodeFault.{DecodeFault};

use crate::item::{Item, Step};
use crate::refusal::{WriteRefusal, end_of};
use crate::runs::{Known, no_run};
use crate::taking::take;
use std::alloc::Global;
use xdr_codec::Checker;
use xdr_types::{KindId, Limits, Schema};

/// Takes the items of a value of a kind in their order, and writes their bytes. It keeps a frame for each open node, at
/// most one more than the limit on depth, and no item.
#[derive(Drop)]
pub struct Writer<'s> {
    pub(crate) checker: Checker<'s>,
    pub(crate) schema: &'s Schema,
    pub(crate) limits: Limits,
    /// How many bytes are written.
    pub(crate) written: usize,
    /// How many items are taken.
    pub(crate) count: usize,
    pub(crate) refused: Option<WriteRefusal>,
    pub(crate) known: Known,
    ghost few: { count ≤ written },
    ghost low: { written ≤ 16777216 },
    ghost limits_are: { checker.reader.limits ≡ limits },
    ghost schema_is: { checker.reader.schema.now ≡ schema.now },
    ghost waiting: { known.waits ≡ true → (checks.IsWaiting checker → ⊥) → ⊥ },
    ghost sound: { refused ≡ None → (f : DecodeFault) → checks.HasFailed checker f → ⊥ },
}

impl<'s> Writer<'s> {
    ghost use Rattle.std.specs.Prelude.{◌+◌, ◌<◌, List, [], length, IfOk, IfErr, Err, vec_capacity};
    ghost use Rattle.xdr_types.specs.Kinds.{kind_at};
    ghost use Rattle.xdr_stream.specs.Spared.{HasNoParts};
    ghost use Rattle.xdr_writer.specs.declared.refusal.Why.TheVariants.{NoMemory};
    ghost use Rattle.xdr_writer.specs.Items.{NodeItem, item_view, all_spelled};
    ghost use Rattle.xdr_writer.specs.Represents.{RepresentsItems, HasRefused, IsStarted, kinds_of, kind_of};
    ghost use Rattle.xdr_writer.specs.Answers.{Took, Rejects, Stays, most_bytes, IsWritten, RejectsEnd};

    /// A writer that has taken no item. It takes no memory.
    pub fn start(alloc: Global, schema: &'s Schema, kind: KindId, limits: Limits) -> Writer<'s>
        requires { kind.place < length schema.now.kinds }
        // The fields represent no item.
        ensures represents { RepresentsItems result [] }
        // The schema, the kind and the limits are those that were given.
        ensures settings { IsStarted result schema.now kind limits }
    {
        Writer {
            checker: Checker::start(alloc, schema, kind, limits),
            schema,
            limits,
            written: 0,
            count: 0,
            refused: None,
            known: Known {
                waits: false,
                run: no_run(),
            },
        }
    }

    /// Takes the next item and writes its bytes behind what stands in `out` (RFC 4506 sections 3 and 4). `More` says
    /// that some value has these items and more, and none these alone; `Done`, that they are all items of a value of
    /// the kind within the limits, and all bytes written its encoding.
    ///
    /// A refusal comes only where no value within the limits has the items so far and then this one, or memory was
    /// refused. The first is so where another item is due, where its number is out of range, and where decoding its
    /// bytes ends without a value. The item's bytes are judged before any is written, so nothing of it is written then;
    /// the refusal comes again at each later call.
    ///
    /// Memory is taken for frames, where a node opens, and for `out`, as much as the item's bytes ask for. No clause
    /// says which items open a node, so an allocation failure is ruled out for kinds without parts alone.
    pub fn put(&mut self, item: Item, out: &mut Vec<u8>) -> Result<Step, WriteRefusal>
        // The item stands behind those so far, and its bytes behind what stood there.
        ensures took { IfOk result (λ s. (is : List NodeItem) → RepresentsItems self.old is
            → Took self.old self.new is (item_view item.entry) out.old.items out.new.items s) }
        // A refusal says why it does not, and counts the items before it. Nothing of the item is written then.
        ensures refuses { Rejects self.old self.new (item_view item.entry) out.old.items out.new.items result }
        // An allocation failure is answered only where the kind has parts or `out` is to grow.
        ensures granted { IfErr result (λ f. (is : List NodeItem) → RepresentsItems self.old is
            → HasNoParts (kind_at (kinds_of self.old) (kind_of self.old))
            → length out.old.items + most_bytes (item_view item.entry) ≤ vec_capacity out.old
            → f.why ≡ NoMemory → ⊥) }
        // A refusal comes again. The schema, the kind and the limits stay.
        ensures stays { Stays self.old self.new result }
    {
        if let Some(refusal) = self.refused {
            return Err(refusal);
        }
        let _in_range = self.limits.depth();
        let schema = self.schema;
        let before = out.len();
        let space = (self.limits.bytes() as usize).saturating_sub(self.written);
        match take(&mut self.checker, schema, &mut self.known, space, item, out) {
            Ok(step) => {
                self.written += out.len() - before;
                self.count += 1;
                self.known.waits = step.is_more();
                Ok(step)
            }
            Err(why) => {
                let refusal = WriteRefusal {
                    why,
                    item: self.count,
                };
                self.refused = Some(refusal);
                Err(refusal)
            }
        }
    }

    /// The count of the value's bytes, 0 of a void. A refusal of an earlier call comes again; where the value is not
    /// whole, it is `Unfinished` at the count of items taken. It takes no memory, and answers `NoMemory` only where
    /// `put` did.
    pub fn finish(self) -> Result<u32, WriteRefusal>
        // The items are those of a value within the limits, and its bytes are counted.
        ensures whole { IfOk result (λ n. (is : List NodeItem) → RepresentsItems self.entry is
            → IsWritten (kinds_of self.entry) (kind_of self.entry) self.entry.limits is
            × (n ≡ length (all_spelled is))) }
        // A refusal says why no value has the items alone, and counts them.
        ensures refuses { RejectsEnd self.entry result }
        // One of an earlier call comes again.
        ensures for_ever { (f : WriteRefusal) → HasRefused self.entry f → result ≡ Err f }
        // An allocation failure is answered only where an earlier call answered it.
        ensures granted { IfErr result (λ f. f.why ≡ NoMemory → HasRefused self.entry f) }
    {
        if let Some(refusal) = self.refused {
            return Err(refusal);
        }
        let _in_range = self.limits.depth();
        let item = self.count;
        match self.checker.finish() {
            Ok(count) => Ok(count),
            Err(fault) => Err(WriteRefusal {
                why: end_of(fault),
                item,
            }),
        }
    }
}

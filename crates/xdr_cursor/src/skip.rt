//! Parts that are passed over.
ghost use Rattle.std.specs.Prelude.{◌≡◌, ◌<◌, ◌^◌, ℕ, List, ◌∷◌, None, true, Err, IfErr, OnOk};
ghost use Rattle.xdr_types.specs.Kinds.{KindView};
ghost use Rattle.xdr_types.specs.Layout.{Entry};
ghost use Rattle.xdr_types.specs.Extent.{IsExtent};
ghost use Rattle.xdr_cursor.specs.Frames.{left_in};
ghost use Rattle.xdr_cursor.specs.Coming.{Awaits, Passes, Skips};
ghost use Rattle.xdr_cursor.specs.Standing.{Stands};
ghost use Rattle.xdr_cursor.specs.Private.Showing.{part_of};
ghost use Rattle.xdr_cursor.specs.Private.Stepping.{IsSameValue};
ghost use Rattle.xdr_cursor.specs.Private.Passing.{BeginsWith, IsRun, GoesOver};

use crate::cursor::Cursor;
use crate::fault::CursorFault;
use crate::frame::{Frame, Next};
use crate::step::has_room;
use xdr_types::{Extent, KindId, Schema};

impl Cursor {
    /// Passes over the parts that come next, as long as they are deeper than this. Behind a part of depth d that is all
    /// inside its node, where the depth is d, and all that is left of the node around it, where it is d - 1. What has
    /// one size is passed over without a look, also many items at once.
    pub fn skip(&mut self, schema: &Schema, input: &[u8], depth: u32) -> Result<(), CursorFault>
        // The parts that were to come up to the first that is not deeper are passed over, and the others come after.
        ensures skipped { OnOk result ((es : List Entry) → Awaits self.old schema.now.kinds input.now es
            → Skips self.new schema.now.kinds input.now depth es) }
        // With the schema and the input of the start only memory is wanting. Then some of them are passed over.
        ensures fault { IfErr result (λ f. (es : List Entry) → Awaits self.old schema.now.kinds input.now es
            → (f ≡ CursorFault.NoMemory) × Passes self.new schema.now.kinds input.now depth es) }
        // What has lost its place stays astray.
        ensures lost { (result ≡ Err CursorFault.Astray → self.new.lost ≡ true)
            × (self.old.lost ≡ true → result ≡ Err CursorFault.Astray) }
    {
        if self.lost {
            return Err(CursorFault::Astray);
        }
        match self.pass_deeper(schema, input, depth) {
            Ok(()) => Ok(()),
            Err(CursorFault::NoMemory) => Err(CursorFault::NoMemory),
            Err(CursorFault::Astray) => {
                self.lost = true;
                Err(CursorFault::Astray)
            }
        }
    }

    // The same, where it has not lost its place.
    fn pass_deeper(&mut self, schema: &Schema, input: &[u8], depth: u32) -> Result<(), CursorFault>
        ensures skipped { OnOk result ((es : List Entry) → Awaits self.old schema.now.kinds input.now es
            → Skips self.new schema.now.kinds input.now depth es) }
        ensures fault { IfErr result (λ f. (es : List Entry) → Awaits self.old schema.now.kinds input.now es
            → (f ≡ CursorFault.NoMemory) × Passes self.new schema.now.kinds input.now depth es) }
        ensures same { IsSameValue self.old self.new }
    {
        if self.used > input.len() {
            return Err(CursorFault::Astray);
        }
        let bytes = &input[..self.used];
        loop {
            let Some((next, rest)) = self.due(schema) else {
                return Ok(());
            };
            if self.parents.len() < depth as usize {
                return Ok(());
            }
            self.pass(schema, bytes, next, rest)?;
        }
    }

    // Passes over the part that comes next, or more.
    fn pass(
        &mut self,
        schema: &Schema,
        bytes: &[u8],
        next: Next<'_>,
        rest: Frame,
    ) -> Result<(), CursorFault>
        requires { left_in schema.now.kinds self.old.work ≡ part_of next ∷ left_in schema.now.kinds rest }
        ensures passed { OnOk result ((es : List Entry) → Stands self.old schema.now.kinds bytes.now es
            → GoesOver self.old self.new schema.now.kinds bytes.now es) }
        ensures fault { IfErr result (λ f. (es : List Entry) → Stands self.old schema.now.kinds bytes.now es
            → (f ≡ CursorFault.NoMemory) × Stands self.new schema.now.kinds bytes.now es) }
        ensures same { IsSameValue self.old self.new }
        ensures more { OnOk result ((self.old.steps < self.new.steps) × (self.new.steps < 2 ^ 64)) }
    {
        if self.content.is_none() {
            if let Some(extent) = schema.extent(next.kind) {
                return self.jump(bytes, next.kind, rest, extent);
            }
        }
        let _part = self.step(schema, bytes, next, rest)?;
        Ok(())
    }

    // Passes over the part that comes next, each of whose values has this extent: over all items, where it is one of
    // several. Then comes the rest.
    fn jump(
        &mut self,
        bytes: &[u8],
        next: KindId,
        rest: Frame,
        extent: Extent,
    ) -> Result<(), CursorFault>
        ensures passed { OnOk result ((kinds : List KindView) (es : List Entry) → IsExtent kinds next.place extent
            → BeginsWith kinds self.old.work next.place rest → self.old.content ≡ None
            → Stands self.old kinds bytes.now es → GoesOver self.old self.new kinds bytes.now es) }
        ensures fault { IfErr result (λ f. (kinds : List KindView) (es : List Entry)
            → IsExtent kinds next.place extent → BeginsWith kinds self.old.work next.place rest
            → self.old.content ≡ None → Stands self.old kinds bytes.now es → ⊥) }
        ensures same { IsSameValue self.old self.new }
        ensures more { OnOk result ((self.old.steps < self.new.steps) × (self.new.steps < 2 ^ 64)) }
    {
        let (count, after) = run_of(self.work, rest);
        let size = count as usize * extent.bytes as usize;
        if self.steps == usize::MAX {
            return Err(CursorFault::Astray);
        }
        if !has_room(bytes, self.at, size) {
            return Err(CursorFault::Astray);
        }
        self.at += size;
        self.work = after;
        self.steps += 1;
        Ok(())
    }
}

// How many parts of one kind come next, and the node at work behind them: all items, or one field.
fn run_of(work: Frame, rest: Frame) -> (u32, Frame)
    ensures { (kinds : List KindView) (place : ℕ) → BeginsWith kinds work place rest
        → IsRun kinds work place result.0 result.1 }
{
    match work {
        Frame::Items { item, left } => (left, Frame::Items { item, left: 0 }),
        _ => (1, rest),
    }
}

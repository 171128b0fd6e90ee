//! The parts of a value that are not filled.
ghost use Rattle.std.specs.Prelude.{◌≡◌, ℕ, List, [], ◌∷◌, ◌++◌, IfOk, OnOk, IfSome, true, false};
ghost use Rattle.xdr_types.specs.Kinds.{KindView, kind_at};
ghost use Rattle.xdr_stream.specs.Frames.{left_of, rest_of, Begins};
ghost use Rattle.xdr_writer.specs.Items.{ItemView, item_view};
ghost use Rattle.xdr_filling.specs.Filled.{HasFilled, IsValue, spelled_bytes, holes_of, onto};
ghost use Rattle.xdr_filling.specs.Holes.{Goes, Hole, hole};
ghost use Rattle.xdr_filling.specs.Private.Makes.{Moves, IsNode, inside_of};

use crate::gap::Gap;
use crate::made::made_of;
use crate::spelled::Spelled;
use std::alloc::{AllocError, Global};
use xdr_stack::Stack;
use xdr_stream::machine::frame::{Frame, after, next};
use xdr_types::{KindId, Limits, Schema};
use xdr_writer::Item;

/// The parts of a value that its items have not filled, the next first.
#[derive(Drop)]
pub struct Filling<'s> {
    pub(crate) schema: &'s Schema,
    /// Those of the innermost node.
    pub(crate) work: Gap<'s>,
    /// Those of the nodes around it that have some, the root first.
    pub(crate) around: Stack<Gap<'s>>,
}

impl<'s> Filling<'s> {
    /// A value of the kind with at most so many levels as the limits say, of which no part is filled. It takes no
    /// memory.
    pub fn start(alloc: Global, schema: &'s Schema, kind: KindId, limits: Limits) -> Filling<'s>
        // It has no items and no bytes.
        ensures filled { HasFilled result kind.place limits.depth [] [] }
        ensures schema { result.schema.now ≡ schema.now }
    {
        Filling {
            schema,
            work: Gap {
                frame: Frame::Items {
                    item: kind,
                    left: 1,
                },
                room: limits.depth(),
            },
            around: Stack::new(alloc),
        }
    }

    /// Takes the next item, and tells its bytes (RFC 4506 section 4). `None` says nothing: the item may be one that no
    /// value has there. After it, and where memory is refused, no item is to be taken any more. Memory is taken for
    /// frames, where a node opens.
    #[inline(always)]
    pub fn take<'a>(&mut self, item: Item<'a>) -> Result<Option<Spelled<'a>>, AllocError>
        // The item stands behind those so far, and its bytes behind theirs.
        ensures filled { IfOk result (λ o. IfSome o (λ s. (place depth : ℕ) (is : List ItemView) (bytes : List ℕ)
            → HasFilled self.old place depth is bytes
            → HasFilled self.new place depth (is ++ item_view item.entry ∷ []) (bytes ++ spelled_bytes s))) }
        ensures schema { self.new.schema.now ≡ self.old.schema.now }
    {
        let Some((id, kind)) = self.due()? else {
            return Ok(None);
        };
        let Some(made) = made_of(self.schema, id, kind, item) else {
            return Ok(None);
        };
        if self.fill(id, made.inside)? {
            Ok(Some(made.bytes))
        } else {
            Ok(None)
        }
    }

    /// Whether all parts are filled, save voids. It may answer `false` of one where more than 64 voids are left.
    pub fn is_whole(&mut self) -> Result<bool, AllocError>
        // The items so far are those of a value, and their bytes its encoding.
        ensures whole { IfOk result (λ b. b ≡ true → (place depth : ℕ) (is : List ItemView) (bytes : List ℕ)
            → HasFilled self.old place depth is bytes → IsValue self.old.schema.now.kinds place depth is bytes) }
    {
        match self.due()? {
            Some(_) => Ok(false),
            None => Ok(!self.settle()),
        }
    }

    // Ends the nodes that have all their parts; whether a part comes next.
    #[inline(always)]
    pub(crate) fn settle(&mut self) -> bool
        ensures moves { (kinds : List KindView) → Moves self.old self.new kinds [] [] }
        ensures whole { result ≡ false → (kinds : List KindView) → Goes kinds (holes_of self.new) [] [] [] }
        ensures schema { self.new.schema ≡ self.old.schema }
    {
        while next(&self.work.frame).is_none() {
            let Some(outer) = self.around.pop() else {
                return false;
            };
            self.work = outer;
        }
        true
    }

    // Fills the part that comes next by a node without parts, or opens one with these; whether its level is allowed.
    #[inline(always)]
    pub(crate) fn fill(&mut self, id: KindId, inside: Option<Frame<'s>>) -> Result<bool, AllocError>
        requires { Begins (left_of self.old.work.frame) id.place }
        ensures moves { IfOk result (λ b. b ≡ true → (kinds : List KindView) (is : List ItemView) (bytes : List ℕ)
            → IsNode kinds (kind_at kinds id.place) is bytes (inside_of inside.entry)
            → Moves self.old self.new kinds is bytes) }
        ensures same { IfOk result (λ b. b ≡ false → self.new ≡ self.old) }
        ensures schema { self.new.schema ≡ self.old.schema }
    {
        let room = self.work.room;
        if room == 0 {
            return Ok(false);
        }
        match inside {
            None => self.work.frame = after(self.work.frame),
            Some(frame) => {
                self.put_rest()?;
                self.work = Gap {
                    frame,
                    room: room - 1,
                };
            }
        }
        Ok(true)
    }

    // Puts the parts behind the next onto those of the nodes around, where there are some.
    #[inline(always)]
    fn put_rest(&mut self) -> Result<(), AllocError>
        ensures rest { OnOk result ((kinds : List KindView) (h : Hole) → Goes kinds
            (h ∷ hole (rest_of (left_of self.old.work.frame)) self.old.work.room ∷ onto [] self.old.around.items)
            (h ∷ onto [] self.new.around.items) [] []) }
        ensures schema { self.new.schema ≡ self.old.schema }
    {
        let rest = Gap {
            frame: after(self.work.frame),
            room: self.work.room,
        };
        if next(&rest.frame).is_some() {
            self.around.push(rest)?;
        }
        Ok(())
    }
}

//! The part that comes next.
ghost use Rattle.std.specs.Prelude.{◌≡◌, List, [], IfOk, IfSome};
ghost use Rattle.xdr_types.specs.Kinds.{KindView};
ghost use Rattle.xdr_types.specs.KindViews.{kind_view};
ghost use Rattle.xdr_filling.specs.Private.Makes.{Moves, IsNode, IsDue, inside_of};

use crate::filling::Filling;
use std::alloc::AllocError;
use xdr_stream::machine::frame::{Frame, next};
use xdr_types::{Kind, KindId};

/// How many nodes without bytes of their own are opened or passed for one item, at most.
const MOST: u32 = 64;

// What a node of the kind opens where it has no bytes of its own: its parts, or nothing as a void; none, where it has.
#[inline(always)]
fn silent<'s>(kind: &'s Kind) -> Option<Option<Frame<'s>>>
    ensures { IfSome result (λ f. (kinds : List KindView) → IsNode kinds (kind_view kind.now) [] [] (inside_of f)) }
{
    match kind {
        Kind::Structure { fields } => Some(Some(Frame::Fields { fields })),
        Kind::Fixed { item, size } => Some(Some(Frame::Items {
            item: *item,
            left: *size,
        })),
        Kind::Nothing => Some(None),
        _ => None,
    }
}

impl<'s> Filling<'s> {
    /// Ends and opens nodes until a part comes next that an item fills, and tells its kind. None: there is none, or its
    /// level is not allowed, or there are too many nodes before it.
    #[inline(always)]
    pub(crate) fn due(&mut self) -> Result<Option<(KindId, &'s Kind)>, AllocError>
        ensures moves { IfOk result (λ _. Moves self.old self.new self.old.schema.now.kinds [] []) }
        ensures due { IfOk result (λ o. IfSome o (λ d. IsDue self.new d.0 d.1.now)) }
        ensures schema { self.new.schema ≡ self.old.schema }
    {
        let mut left = MOST;
        while left > 0 {
            if !self.settle() {
                return Ok(None);
            }
            let Some(id) = next(&self.work.frame) else {
                return Ok(None);
            };
            if !self.schema.has(id) {
                return Ok(None);
            }
            let kind = self.schema.kind(id);
            let Some(inside) = silent(kind) else {
                return Ok(Some((id, kind)));
            };
            if !self.fill(id, inside)? {
                return Ok(None);
            }
            left -= 1;
        }
        Ok(None)
    }
}

//! The parts of a value whose bytes are known to be its encoding, a few at a time.
ghost use Rattle.std.specs.Prelude.{◌≡◌, ◌<◌, ℕ, List, [], IfOk, false, true};
ghost use Rattle.xdr_types.specs.Tree.{Tree};
ghost use Rattle.xdr_types.specs.Layout.{Entry, entries};
ghost use Rattle.xdr_parts.specs.Coming.{Awaits, HandsOut, IsOneValue};

use crate::part::Lent;
use crate::walk::Walk;
use std::alloc::Global;
use xdr_types::{KindId, Limits, NoMemory, Schema};

/// How many parts are handed out at once, at most one more.
const MOST_AT_ONCE: usize = 255;

/// Hands out the parts of a value, a few at a time, in the order of `parts`.
///
/// Memory is that of some 256 parts, and a frame for each open node.
#[derive(Drop)]
pub struct PartWalk<'a> {
    /// Where it stands, with the parts that were handed out last.
    walk: Walk<'a>,
    /// How many parts were handed out.
    handed: usize,
}

impl<'a> PartWalk<'a> {
    /// Before the first part of the value whose encoding these bytes are, all of them. They are not judged again. It
    /// takes no memory.
    pub fn start(
        alloc: Global,
        schema: &'a Schema,
        kind: KindId,
        limits: Limits,
        bytes: &'a [u8],
    ) -> PartWalk<'a>
        requires { (v : Tree) × IsOneValue schema.now.kinds kind.place limits bytes.now v }
        // All parts of the value's layout are still to come.
        ensures { (v : Tree) → IsOneValue schema.now.kinds kind.place limits bytes.now v
            → Awaits result bytes.now (entries schema.now.kinds kind.place v) }
    {
        let _in_range = limits.depth();
        let _known = schema.len();
        PartWalk {
            walk: Walk::start(alloc, schema, kind, bytes, true),
            handed: 0,
        }
    }

    /// Goes on to the next few parts, which `list` has then, and tells whether there are any. After an error, which is
    /// an allocation failure, the walk stands nowhere and is only let go.
    pub fn advance(&mut self) -> Result<bool, NoMemory>
        requires { (bytes : List ℕ) × (es : List Entry) × Awaits self.old bytes es }
        // The list has the first of the parts that were still to come, and the others come after it.
        ensures parts { IfOk result (λ more. (bytes : List ℕ) (es : List Entry) → Awaits self.old bytes es
            → HandsOut self.new bytes es) }
        // There are none exactly where none was still to come.
        ensures none { IfOk result (λ more. more ≡ false → (bytes : List ℕ) (es : List Entry)
            → Awaits self.old bytes es → es ≡ []) }
        // More have been handed out, so that a loop over them ends.
        ensures more { IfOk result (λ more. more ≡ true → self.old.handed < self.new.handed) }
    {
        self.walk.taken.clear();
        self.walk.take_up_to(MOST_AT_ONCE)?;
        self.handed += self.walk.taken.parts;
        Ok(self.walk.taken.parts != 0)
    }

    /// The parts that were handed out last.
    pub fn list(&self) -> &[Lent<'a>]
        ensures { result.now ≡ self.now.walk.taken.list.items }
    {
        &self.walk.taken.list
    }
}

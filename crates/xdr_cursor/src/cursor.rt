//! Where a cursor stands in the parts of a value, and the next part.
ghost use Rattle.std.specs.Prelude.{◌≡◌, ◌<◌, ℕ, List, [], ◌∷◌, true, length, Err, IfOk, IfErr, IfSome, MatchOption};
ghost use Rattle.xdr_types.specs.Layout.{Entry, entries};
ghost use Rattle.xdr_types.specs.Outcome.{Outcome, Whole};
ghost use Rattle.xdr_types.specs.Tree.{Tree};
ghost use Rattle.xdr_stream.specs.Finish.{EndsWith};
ghost use Rattle.xdr_cursor.specs.Frames.{left_in};
ghost use Rattle.xdr_cursor.specs.Coming.{Awaits, HandsOut, IsStep, BeginsNamed};
ghost use Rattle.xdr_cursor.specs.Standing.{Stands};
ghost use Rattle.xdr_cursor.specs.Private.Showing.{part_of};
ghost use Rattle.xdr_cursor.specs.Private.Stepping.{IsSameValue};

use crate::fault::CursorFault;
use crate::frame::{Frame, Next, next_in};
use std::alloc::Global;
use xdr_parts::Lent;
use xdr_parts::judge::judge;
use xdr_stream::DecodeFault;
use xdr_types::{KindId, Limits, Schema};

/// Goes over the parts of a value, in the order of `xdr_parts::parts`. It borrows nothing: each call is lent the schema
/// and the input of the start.
///
/// Its memory is a frame for each open node. A call with another schema or another input is safe, and hands out
/// anything, or `Astray`.
#[derive(Drop)]
pub struct Cursor {
    /// How many bytes the value has.
    pub(crate) used: usize,
    /// How many of them belong to the parts so far.
    pub(crate) at: usize,
    /// The node at work.
    pub(crate) work: Frame,
    /// The nodes around it, the root first.
    pub(crate) parents: Vec<Frame>,
    /// How many bytes of content come next, where their length was handed out last.
    pub(crate) content: Option<u32>,
    /// How many steps it has gone, each over a part or more.
    pub(crate) steps: usize,
    /// Whether it has lost its place.
    pub(crate) lost: bool,
}

impl Cursor {
    /// Before the first part of the value whose encoding begins the input (RFC 4506 section 4). The input is judged
    /// here, and never again. Behind the value it may have more bytes.
    ///
    /// A fault is that of `decode`: where no value within the limits begins the input, `why` and `at` say it,
    /// `Truncated` at the count of bytes where the input ends inside one. For `NoMemory` `at` is at most the count of
    /// bytes.
    pub fn start(
        alloc: Global,
        schema: &Schema,
        kind: KindId,
        limits: Limits,
        input: &[u8],
    ) -> Result<Cursor, DecodeFault>
        requires { kind.place < length schema.now.kinds }
        // The outcome of the input is a value, and all parts of its layout are still to come.
        ensures begun { IfOk result (λ c. (v : Tree)
            × Outcome schema.now.kinds kind.place limits input.now (Whole v c.used)
            × Awaits c schema.now.kinds input.now (entries schema.now.kinds kind.place v)) }
        // The outcome is this reason at this place, unless memory was refused; `Truncated` stands for a pending one.
        ensures fault { IfErr result (λ f. EndsWith schema.now.kinds kind.place limits input.now f) }
    {
        let _in_range = limits.depth();
        let _known = schema.len();
        let used = judge(alloc, schema, kind, limits, input)?;
        Ok(Cursor {
            used,
            at: 0,
            work: Frame::Items {
                item: kind,
                left: 1,
            },
            parents: Vec::new(alloc),
            content: None,
            steps: 0,
            lost: false,
        })
    }

    /// How many bytes the value has.
    pub fn used(&self) -> usize
        ensures { result ≡ self.now.used }
    {
        self.used
    }

    /// Whether it has lost its place. Then `next` and `skip` answer `Astray`.
    pub fn is_lost(&self) -> bool
        ensures { result ≡ self.now.lost }
    {
        self.lost
    }

    /// The next part; none where the value has ended. The part borrows from the schema and the input, and the cursor
    /// does not.
    pub fn next<'a>(
        &mut self,
        schema: &'a Schema,
        input: &'a [u8],
    ) -> Result<Option<Lent<'a>>, CursorFault>
        // The first of the parts that were still to come, and the others come after it; none where none was.
        ensures part { IfOk result (λ found. (es : List Entry) → Awaits self.old schema.now.kinds input.now es
            → HandsOut self.new schema.now.kinds input.now es found) }
        // With the schema and the input of the start only memory is wanting, and the parts are still to come.
        ensures fault { IfErr result (λ f. (es : List Entry) → Awaits self.old schema.now.kinds input.now es
            → (f ≡ CursorFault.NoMemory) × Awaits self.new schema.now.kinds input.now es) }
        // What has lost its place stays astray.
        ensures lost { (result ≡ Err CursorFault.Astray → self.new.lost ≡ true)
            × (self.old.lost ≡ true → result ≡ Err CursorFault.Astray) }
        // A part is lent from the input, whatever it is. It is a step, so that a loop over parts ends.
        ensures step { IfOk result (λ found. IfSome found (IsStep self.old self.new input.now)) }
    {
        if self.lost {
            return Err(CursorFault::Astray);
        }
        match self.find(schema, input) {
            Ok(found) => Ok(found),
            Err(CursorFault::NoMemory) => Err(CursorFault::NoMemory),
            Err(CursorFault::Astray) => {
                self.lost = true;
                Err(CursorFault::Astray)
            }
        }
    }

    /// The name of the next part: that of the field or the arm that its node stands for, empty at the root and for
    /// items. None where the value has ended. The part still comes next. It takes no memory.
    pub fn next_name<'a>(&mut self, schema: &'a Schema) -> Option<&'a str>
        // With the schema of the start it is that of the first part that is still to come; none where none is.
        ensures name { (input : List ℕ) (es : List Entry) → Awaits self.old schema.now.kinds input es
            → MatchOption result (es ≡ []) (λ name. BeginsNamed name.now es) }
        // They are still to come.
        ensures stay { (input : List ℕ) (es : List Entry) → Awaits self.old schema.now.kinds input es
            → Awaits self.new schema.now.kinds input es }
    {
        let (next, _) = self.due(schema)?;
        Some(next.name)
    }

    // The next part, where the cursor has not lost its place.
    fn find<'a>(
        &mut self,
        schema: &'a Schema,
        input: &'a [u8],
    ) -> Result<Option<Lent<'a>>, CursorFault>
        ensures part { IfOk result (λ found. (es : List Entry) → Awaits self.old schema.now.kinds input.now es
            → HandsOut self.new schema.now.kinds input.now es found) }
        ensures fault { IfErr result (λ f. (es : List Entry) → Awaits self.old schema.now.kinds input.now es
            → (f ≡ CursorFault.NoMemory) × Awaits self.new schema.now.kinds input.now es) }
        ensures same { IsSameValue self.old self.new }
        ensures step { IfOk result (λ found. IfSome found (IsStep self.old self.new input.now)) }
    {
        if self.used > input.len() {
            return Err(CursorFault::Astray);
        }
        let Some((next, rest)) = self.due(schema) else {
            return Ok(None);
        };
        let part = self.step(schema, &input[..self.used], next, rest)?;
        Ok(Some(part))
    }

    // Ends the nodes that have all their parts, and tells which part comes next, and the node at work after it. There
    // is none where the value has ended.
    pub(crate) fn due<'a>(&mut self, schema: &'a Schema) -> Option<(Next<'a>, Frame)>
        ensures stands { (bytes : List ℕ) (es : List Entry) → Stands self.old schema.now.kinds bytes es
            → Stands self.new schema.now.kinds bytes es }
        ensures next { MatchOption result
            ((bytes : List ℕ) (es : List Entry) → Stands self.old schema.now.kinds bytes es → es ≡ [])
            (λ r. left_in schema.now.kinds self.new.work ≡ part_of r.0 ∷ left_in schema.now.kinds r.1) }
        ensures same { IsSameValue self.old self.new }
        ensures steps { self.new.steps ≡ self.old.steps }
    {
        loop {
            if let Some(next) = next_in(schema, self.work) {
                return Some(next);
            }
            let Some(parent) = self.parents.pop() else {
                return None;
            };
            self.work = parent;
        }
    }
}

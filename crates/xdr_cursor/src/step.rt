//! One part that a cursor hands out.
ghost use Rattle.std.specs.Prelude.{◌≡◌, ◌+◌, ◌≤◌, List, [], ◌∷◌, None, Some, length, IfOk, IfErr, OnOk};
ghost use Rattle.std.specs.Prelude.{◌↔◌, IsTrue, MatchBool};
ghost use Rattle.xdr_types.specs.Kinds.{KindView};
ghost use Rattle.xdr_types.specs.Layout.{Entry};
ghost use Rattle.xdr_units.specs.Numbers.{gap};
ghost use Rattle.xdr_cursor.specs.Frames.{left_in, onto, stack_in};
ghost use Rattle.xdr_cursor.specs.Standing.{Stands};
ghost use Rattle.xdr_cursor.specs.Private.Showing.{part_of};
ghost use Rattle.xdr_cursor.specs.Private.Stepping.{Gives, IsSameValue, IsStepped, IsRoomy};
ghost use Rattle.xdr_cursor.specs.Private.Stepping.{IsPartAt, Went, IsUnmoved};
ghost use Rattle.xdr_cursor.specs.Private.Stepping.{IsDueContent, IsDuePart};

use crate::cursor::Cursor;
use crate::fault::CursorFault;
use crate::frame::{Frame, Next};
use crate::shown::{Shown, shown_at};
use xdr_parts::part::whole_units;
use xdr_parts::{Lent, Role};
use xdr_types::Schema;

/// Whether there are so many bytes behind a place.
#[inline(always)]
pub(crate) fn has_room(bytes: &[u8], at: usize, size: usize) -> bool
    ensures { IsTrue result ↔ (at + size ≤ length bytes.now) }
{
    at <= bytes.len() && size <= bytes.len() - at
}

impl Cursor {
    /// Hands out the part that comes next; then comes the rest.
    pub(crate) fn step<'a>(
        &mut self,
        schema: &'a Schema,
        bytes: &'a [u8],
        next: Next<'a>,
        rest: Frame,
    ) -> Result<Lent<'a>, CursorFault>
        requires { left_in schema.now.kinds self.old.work ≡ part_of next ∷ left_in schema.now.kinds rest }
        ensures given { IfOk result (λ l. (es : List Entry) → Stands self.old schema.now.kinds bytes.now es
            → Gives self.new schema.now.kinds bytes.now es l) }
        ensures fault { IfErr result (λ f. (es : List Entry) → Stands self.old schema.now.kinds bytes.now es
            → (f ≡ CursorFault.NoMemory) × Stands self.new schema.now.kinds bytes.now es) }
        ensures same { IsSameValue self.old self.new }
        ensures step { IfOk result (IsStepped self.old self.new bytes.now) }
    {
        if !self.is_roomy() {
            return Err(CursorFault::Astray);
        }
        match self.content {
            Some(size) => self.step_content(bytes, next, rest, size),
            None => self.step_shown(schema, bytes, next, rest),
        }
    }

    // Hands out content that comes next.
    fn step_content<'a>(
        &mut self,
        bytes: &'a [u8],
        next: Next<'a>,
        rest: Frame,
        size: u32,
    ) -> Result<Lent<'a>, CursorFault>
        requires room { IsRoomy self.old }
        ensures given { IfOk result (λ l. (kinds : List KindView) (es : List Entry)
            → IsDueContent kinds self.old next.entry rest size → Stands self.old kinds bytes.now es
            → Gives self.new kinds bytes.now es l) }
        ensures fault { IfErr result (λ f. (kinds : List KindView) (es : List Entry)
            → IsDueContent kinds self.old next.entry rest size → Stands self.old kinds bytes.now es → ⊥) }
        ensures same { IsSameValue self.old self.new }
        ensures step { IfOk result (IsStepped self.old self.new bytes.now) }
    {
        if !has_room(bytes, self.at, whole_units(size)) {
            return Err(CursorFault::Astray);
        }
        Ok(self.leaf(bytes, next, rest, Role::Content, size))
    }

    // Hands out what the node shows that comes next.
    fn step_shown<'a>(
        &mut self,
        schema: &'a Schema,
        bytes: &'a [u8],
        next: Next<'a>,
        rest: Frame,
    ) -> Result<Lent<'a>, CursorFault>
        requires room { IsRoomy self.old }
        ensures given { IfOk result (λ l. (es : List Entry)
            → IsDuePart schema.now.kinds self.old next.entry rest → Stands self.old schema.now.kinds bytes.now es
            → Gives self.new schema.now.kinds bytes.now es l) }
        ensures fault { IfErr result (λ f. (es : List Entry)
            → IsDuePart schema.now.kinds self.old next.entry rest → Stands self.old schema.now.kinds bytes.now es
            → (f ≡ CursorFault.NoMemory) × Stands self.new schema.now.kinds bytes.now es) }
        ensures same { IsSameValue self.old self.new }
        ensures step { IfOk result (IsStepped self.old self.new bytes.now) }
    {
        let Some(shown) = shown_at(schema, next.kind, bytes, self.at) else {
            return Err(CursorFault::Astray);
        };
        match shown {
            Shown::Leaf(role, size) => Ok(self.leaf(bytes, next, rest, role, size)),
            Shown::Open(role, size, inside) => {
                let part = self.open(bytes, next, rest, role, size, inside)?;
                Ok(part)
            }
            Shown::Counted(size) => Ok(self.counted(bytes, next, size)),
        }
    }

    // Whether a part is not too deep, and a step can be counted.
    fn is_roomy(&self) -> bool
        ensures { MatchBool result (IsRoomy self.now) (IsRoomy self.now → ⊥) }
    {
        self.parents.len() < 4096 && self.steps < usize::MAX
    }

    // Goes over a part of so many bytes, and those that fill its last unit; then comes the rest.
    fn leaf<'a>(
        &mut self,
        bytes: &'a [u8],
        next: Next<'a>,
        rest: Frame,
        role: Role,
        size: u32,
    ) -> Lent<'a>
        requires there { self.old.at + (size + gap size) ≤ length bytes.now }
        requires room { IsRoomy self.old }
        ensures part { IsPartAt self.old bytes.now next.entry role size result }
        ensures went { (kinds : List KindView)
            → Went kinds self.old self.new (size + gap size) (stack_in kinds rest self.old.parents.items) None }
    {
        let part = self.lent(bytes, next, role, size);
        self.at += whole_units(size);
        self.work = rest;
        self.content = None;
        self.steps += 1;
        part
    }

    // Goes over a part of so many bytes, inside which the parts of a frame come; then comes the rest.
    fn open<'a>(
        &mut self,
        bytes: &'a [u8],
        next: Next<'a>,
        rest: Frame,
        role: Role,
        size: u32,
        inside: Frame,
    ) -> Result<Lent<'a>, CursorFault>
        requires there { self.old.at + size ≤ length bytes.now }
        requires room { IsRoomy self.old }
        ensures part { IfOk result (IsPartAt self.old bytes.now next.entry role size) }
        ensures went { OnOk result ((kinds : List KindView) → Went kinds self.old self.new size
            (left_in kinds inside ∷ left_in kinds rest ∷ onto kinds [] self.old.parents.items) self.old.content) }
        ensures fault { IfErr result (λ f. (f ≡ CursorFault.NoMemory) × IsUnmoved self.old self.new) }
    {
        let part = self.lent(bytes, next, role, size);
        self.parents.push(rest)?;
        self.at += size as usize;
        self.work = inside;
        self.steps += 1;
        Ok(part)
    }

    // Goes over the length of so many bytes of content, which come then.
    fn counted<'a>(&mut self, bytes: &'a [u8], next: Next<'a>, size: u32) -> Lent<'a>
        requires there { self.old.at + 4 ≤ length bytes.now }
        requires room { IsRoomy self.old }
        ensures part { IsPartAt self.old bytes.now next.entry Role.Length 4 result }
        ensures went { (kinds : List KindView)
            → Went kinds self.old self.new 4 (stack_in kinds self.old.work self.old.parents.items) (Some size) }
    {
        let part = self.lent(bytes, next, Role::Length, 4);
        self.at += 4;
        self.content = Some(size);
        self.steps += 1;
        part
    }

    // The part of so many bytes where it stands.
    fn lent<'a>(&self, bytes: &'a [u8], next: Next<'a>, role: Role, size: u32) -> Lent<'a>
        requires there { self.now.at + size ≤ length bytes.now }
        requires room { IsRoomy self.now }
        ensures { IsPartAt self.now bytes.now next.entry role size result }
    {
        Lent {
            at: self.at,
            depth: self.parents.len() as u32 + 1,
            kind: next.kind,
            name: next.name,
            role,
            bytes: &bytes[self.at..self.at + size as usize],
        }
    }
}

//! The steps of a direction.
ghost use Rattle.std.specs.Prelude.{◌≡◌, ◌+◌, ◌-◌, ◌^◌, ◌<◌, ◌≤◌, length, take, drop, None, OnOk, OnErr, IfErr};
ghost use Rattle.capture_streams.specs.Held.{HoldsAt, IsHeld};
ghost use Rattle.capture_streams.specs.Represents.{IsAtHole, IsOfSame};
ghost use Rattle.capture_streams.specs.Taking.{taken_part};
ghost use Rattle.capture_streams.specs.Private.Pieces.{EachPlace};
ghost use Rattle.capture_streams.specs.Private.Steps.{IsSide, Appends, Pops, PopsAll, Steps, RefusedAhead};
ghost use Rattle.capture_streams.specs.Private.Steps.{RefusedAtDue};

use super::Direction;
use crate::refusal::Refusal;
use crate::side::Side;
use crate::stretch::Stretch;
use std::alloc::AllocError;

impl Direction {
    /// Where a sequence number stands beside the due place.
    pub(super) fn side_of(&self, sequence: u32) -> Side
        ensures { IsSide self.now.first self.now.due sequence result }
    {
        let due = self.first.wrapping_add((self.due % (1 << 32)) as u32);
        let lead = sequence.wrapping_sub(due).wrapping_add(1 << 31);
        if lead > 1 << 31 {
            Side::Ahead(lead - (1 << 31))
        } else {
            Side::Behind((1 << 31) - lead)
        }
    }

    /// Takes a segment that begins so many places ahead.
    pub(super) fn take_ahead(
        &mut self,
        distance: u32,
        bytes: &[u8],
        out: &mut Vec<u8>,
    ) -> Result<(), Refusal>
        requires low { self.old.due ≤ 2 ^ 62 }
        ensures same { IsOfSame self.old self.new }
        ensures steps { Steps self.old self.new (self.old.due + distance) (taken_part result bytes.now)
            out.old.items out.new.items }
        ensures whole { OnOk result (IsAtHole self.new) }
        ensures refused { IfErr result (RefusedAhead self.new.pieces (self.old.due + distance) bytes.now) }
    {
        self.pieces.fill(self.due + u64::from(distance), bytes)?;
        match self.pop_all(out) {
            Ok(()) => Ok(()),
            Err(_) => Err(Refusal::NoMemory { taken: bytes.len() }),
        }
    }

    /// Takes a segment that begins so many places behind, or at the due place. None of its bytes is held: each is due
    /// when its turn comes, or was handed on before.
    pub(super) fn take_behind(
        &mut self,
        distance: u32,
        bytes: &[u8],
        out: &mut Vec<u8>,
    ) -> Result<(), Refusal>
        requires low { self.old.due ≤ 2 ^ 62 }
        ensures same { IsOfSame self.old self.new }
        ensures steps { Steps self.old self.new self.old.due (drop distance (taken_part result bytes.now))
            out.old.items out.new.items }
        ensures whole { OnOk result (IsAtHole self.new) }
        ensures refused { IfErr result (RefusedAtDue bytes.now) }
    {
        let passed = bytes.len().min(distance as usize);
        match self.deliver(&bytes[passed..], out) {
            Ok(()) => Ok(()),
            Err(count) => Err(Refusal::NoMemory {
                taken: passed + count,
            }),
        }
    }

    /// Takes bytes at the due place. Where memory is refused, says how many were taken.
    fn deliver(&mut self, bytes: &[u8], out: &mut Vec<u8>) -> Result<(), usize>
        requires fits { self.old.due + length bytes.now + 1 < 2 ^ 64 }
        ensures same { IsOfSame self.old self.new }
        ensures ok { OnOk result (Steps self.old self.new self.old.due bytes.now out.old.items out.new.items) }
        ensures cut { IfErr result (λ n. (n ≤ length bytes.now)
            × Steps self.old self.new self.old.due (take n bytes.now) out.old.items out.new.items) }
        ensures whole { OnOk result (IsAtHole self.new) }
    {
        let from = self.due;
        while self.due - from < bytes.len() as u64 {
            let done = (self.due - from) as usize;
            if self.deliver_next(&bytes[done..], out).is_err() {
                return Err(done);
            }
        }
        match self.pop_all(out) {
            Ok(()) => Ok(()),
            Err(_) => Err(bytes.len()),
        }
    }

    /// Takes the next of the bytes at the due place: those before the first that is held, or hands on what is held.
    fn deliver_next(&mut self, bytes: &[u8], out: &mut Vec<u8>) -> Result<(), AllocError>
        requires some { 0 < length bytes.now }
        requires fits { self.old.due + length bytes.now + 1 < 2 ^ 64 }
        ensures same { IsOfSame self.old self.new }
        ensures ok { OnOk result (Steps self.old self.new self.old.due (take (self.new.due - self.old.due) bytes.now)
            out.old.items out.new.items) }
        ensures further { OnOk result (self.old.due < self.new.due) }
        ensures stays { OnErr result ((self.new ≡ self.old) × (out.new.items ≡ out.old.items)) }
    {
        match self.pieces.stretch_at(self.due, bytes.len()) {
            Stretch::Gap(n) => self.append(&bytes[..n], out),
            Stretch::Held(_) => self.pop(out),
        }
    }

    /// Hands on bytes at the due place, where none is held.
    fn append(&mut self, bytes: &[u8], out: &mut Vec<u8>) -> Result<(), AllocError>
        requires fits { self.old.due + length bytes.now + 1 < 2 ^ 64 }
        requires gap { EachPlace self.old.due (length bytes.now) (λ p. HoldsAt self.old.pieces.by_last p None) }
        ensures same { IsOfSame self.old self.new }
        ensures ok { OnOk result (Appends self.old self.new bytes.now out.old.items out.new.items) }
        ensures stays { OnErr result ((self.new ≡ self.old) × (out.new.items ≡ out.old.items)) }
    {
        out.extend_from_slice(bytes)?;
        self.due += bytes.len() as u64;
        Ok(())
    }

    /// Hands on the piece that stands at the due place.
    fn pop(&mut self, out: &mut Vec<u8>) -> Result<(), AllocError>
        requires { IsHeld self.old.pieces.by_last self.old.due }
        ensures same { IsOfSame self.old self.new }
        ensures ok { OnOk result (Pops self.old self.new out.old.items out.new.items) }
        ensures stays { OnErr result ((self.new ≡ self.old) × (out.new.items ≡ out.old.items)) }
    {
        let Some(piece) = self.pieces.first() else {
            unreachable!();
        };
        out.extend_from_slice(&piece.bytes)?;
        let end = piece.at + piece.bytes.len() as u64;
        self.pieces.drop_first();
        self.due = end;
        Ok(())
    }

    /// Hands on the pieces that are due.
    pub(super) fn pop_all(&mut self, out: &mut Vec<u8>) -> Result<(), AllocError>
        ensures same { IsOfSame self.old self.new }
        ensures pops { PopsAll self.old self.new out.old.items out.new.items }
        ensures whole { OnOk result (IsAtHole self.new) }
    {
        while let Stretch::Held(_) = self.pieces.stretch_at(self.due, 1) {
            self.pop(out)?;
        }
        Ok(())
    }
}

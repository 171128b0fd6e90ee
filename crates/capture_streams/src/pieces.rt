//! The bytes behind a hole, as pieces.
ghost use Rattle.std.proofs.Props.{props};
ghost use Rattle.std.specs.BTreeMap.{IsOrdered};
ghost use Rattle.std.specs.Ordering.{nat_cmp};
ghost use Rattle.std.specs.Prelude.{◌≡◌, ◌≤◌};
ghost use Rattle.capture_streams.specs.Held.{AreApart, cost_of};

use crate::piece::Piece;
use crate::refusal::{Refusal, Want};
use crate::stretch::Stretch;
use std::alloc::Global;
use std::collections::BTreeMap;

/// What a piece counts against the limit beside its bytes: about what it takes beside them.
const PIECE: usize = 128;

/// Bytes that are held, as pieces that share no place.
#[derive(Drop)]
pub(crate) struct Pieces {
    alloc: Global,
    /// How much the pieces may count together.
    pub(crate) limit: usize,
    /// Each piece under the place of its last byte.
    pub(crate) by_last: BTreeMap<u64, Piece>,
    /// What they count together.
    pub(crate) held: usize,
    ghost apart: { AreApart by_last },
    ghost counted: { held ≡ cost_of by_last },
    ghost within: { held ≤ limit },
    ghost ordered: { IsOrdered nat_cmp by_last } by { Prim.hlevel props },
}

impl Pieces {
    ghost use Rattle.std.specs.Prelude.{◌≡◌, ℕ, ◌+◌, ◌^◌, ◌<◌, ◌≤◌, length, None, OnOk, IfOk, IfErr, IfSome, IfNone};
    ghost use Rattle.std.specs.BTreeMap.{get};
    ghost use Rattle.std.specs.Ordering.{nat_cmp};
    ghost use Rattle.capture_streams.specs.Held.{HoldsAt, StandFrom, cost_of};
    ghost use Rattle.capture_streams.specs.Private.Pieces.{IsStretch, Puts, Fills, FillsNext, FillsSome};
    ghost use Rattle.capture_streams.specs.Private.Pieces.{IsFirst, HasFirst, Drops, WantedFor, WantedNext};

    /// No pieces.
    pub(crate) fn new(alloc: Global, limit: usize) -> Pieces
        ensures limit { result.limit ≡ limit }
        ensures empty { (place : ℕ) → HoldsAt result.by_last place None }
        ensures from { (due : ℕ) → StandFrom due result.by_last }
    {
        Pieces {
            alloc,
            limit,
            by_last: BTreeMap::new(alloc),
            held: 0,
        }
    }

    /// What comes at this place, of at most so many places.
    pub(crate) fn stretch_at(&self, at: u64, most: usize) -> Stretch
        requires some { 0 < most }
        requires fits { at + most < 2 ^ 64 }
        ensures { IsStretch self.now.by_last at most result }
    {
        match self.by_last.range(at..).next() {
            None => Stretch::Gap(most),
            Some((last, piece)) => {
                if piece.at <= at {
                    let beyond = (*last - at) as usize;
                    Stretch::Held(beyond.min(most - 1) + 1)
                } else {
                    let before = (piece.at - at) as usize;
                    Stretch::Gap(before.min(most))
                }
            }
        }
    }

    /// Holds a copy of bytes at places that have none. What is refused changes nothing.
    fn put(&mut self, at: u64, bytes: &[u8]) -> Result<(), Want>
        requires some { 0 < length bytes.now }
        requires fits { at + length bytes.now + 1 < 2 ^ 64 }
        requires gap { (place : ℕ) → at ≤ place → place < at + length bytes.now → HoldsAt self.old.by_last place None }
        ensures ok { OnOk result (Puts self.old.by_last self.new.by_last at bytes.now) }
        ensures refused { IfErr result (WantedFor self.old self.new (length bytes.now)) }
        ensures limit { self.new.limit ≡ self.old.limit }
    {
        let cost = bytes.len() + PIECE;
        if cost > self.limit - self.held {
            return Err(Want::Space);
        }
        let last = at + (bytes.len() as u64 - 1);
        let Ok(copy) = Vec::from_slice(self.alloc, bytes) else {
            return Err(Want::Memory);
        };
        match self.by_last.insert(last, Piece { at, bytes: copy }) {
            Ok(_) => {
                self.held += cost;
                Ok(())
            }
            Err(_) => Err(Want::Memory),
        }
    }

    /// Holds the next of the bytes, from this place on, up to where what is held begins or ends. Says how many.
    fn fill_next(&mut self, at: u64, bytes: &[u8]) -> Result<usize, Want>
        requires some { 0 < length bytes.now }
        requires fits { at + length bytes.now + 1 < 2 ^ 64 }
        ensures ok { IfOk result (λ n. FillsNext self.old.by_last self.new.by_last at n bytes.now) }
        ensures refused { IfErr result (WantedNext self.old self.new at (length bytes.now)) }
        ensures limit { self.new.limit ≡ self.old.limit }
    {
        match self.stretch_at(at, bytes.len()) {
            Stretch::Held(n) => Ok(n),
            Stretch::Gap(n) => {
                self.put(at, &bytes[..n])?;
                Ok(n)
            }
        }
    }

    /// Holds those of the bytes, from this place on, that stand where none is held. Where they are refused from one on,
    /// those before it are held.
    pub(crate) fn fill(&mut self, at: u64, bytes: &[u8]) -> Result<(), Refusal>
        requires fits { at + length bytes.now + 1 < 2 ^ 64 }
        ensures ok { OnOk result (Fills self.old.by_last self.new.by_last at bytes.now) }
        ensures refused { IfErr result (FillsSome self.old self.new at bytes.now) }
        ensures limit { self.new.limit ≡ self.old.limit }
        ensures from { (due : ℕ) → due ≤ at → StandFrom due self.old.by_last → StandFrom due self.new.by_last }
    {
        let mut done = 0;
        while done < bytes.len() {
            match self.fill_next(at + done as u64, &bytes[done..]) {
                Ok(n) => done += n,
                Err(Want::Space) => return Err(Refusal::Full { taken: done }),
                Err(Want::Memory) => return Err(Refusal::NoMemory { taken: done }),
            }
        }
        Ok(())
    }

    /// What the pieces count together.
    pub(crate) fn held(&self) -> usize
        ensures count { result ≡ self.now.held }
        ensures cost { result ≡ cost_of self.now.by_last }
        ensures within { result ≤ self.now.limit }
    {
        self.held
    }

    /// The first piece.
    pub(crate) fn first(&self) -> Option<&Piece>
        ensures some { IfSome result (λ piece. HasFirst self.now.by_last piece.now) }
        ensures none { IfNone result ((last : ℕ) → get nat_cmp self.now.by_last last ≡ None) }
    {
        match self.by_last.first_key_value() {
            Some((_, piece)) => Some(piece),
            None => None,
        }
    }

    /// Lets go of the first piece, if there is one.
    pub(crate) fn drop_first(&mut self)
        ensures limit { self.new.limit ≡ self.old.limit }
        ensures drops { (last : ℕ) (piece : Piece) → IsFirst self.old.by_last last piece
            → Drops self.old.by_last self.new.by_last last }
    {
        if let Some((_, piece)) = self.by_last.pop_first() {
            self.held -= piece.bytes.len() + PIECE;
        }
    }
}

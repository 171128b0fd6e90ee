//! One direction of a connection.
ghost use Rattle.std.specs.Prelude.{◌≡◌, ◌+◌, ◌^◌, ◌<◌, ◌≤◌};
ghost use Rattle.capture_streams.specs.Held.{StandFrom};

use crate::pieces::Pieces;
use crate::refusal::Refusal;
use crate::side::{Ending, Side};
use crate::stretch::Stretch;
use std::alloc::{AllocError, Global};

mod steps;

/// The last place at which a segment is taken.
const MOST_PLACE: u64 = 1 << 62;

/// One direction of a TCP connection: the bytes of its segments, put together by sequence number.
///
/// The place of a byte is how many come before it. Of two segments that have a byte for one place the first that came
/// wins. What stands behind a hole is held, up to a limit, until the hole is filled or skipped.
#[derive(Drop)]
pub struct Direction {
    /// The sequence number of place 0.
    first: u32,
    /// The place of the next byte to be handed on.
    due: u64,
    pieces: Pieces,
    ghost behind: { StandFrom due pieces.by_last },
    ghost low: { due + 1 < 2 ^ 64 },
}

impl Direction {
    ghost use Rattle.std.specs.Prelude.{◌≡◌, ℕ, ◌+◌, ◌-◌, ◌^◌, ◌<◌, ◌≤◌, ◌↔◌, [], Some, None, length, Err, OnOk};
    ghost use Rattle.std.specs.Prelude.{OnErr, IfErr, IsTrue};
    ghost use Rattle.capture_streams.specs.Represents.{Stands, IsAtHole, IsOfSame, first_of, due_of, limit_of};
    ghost use Rattle.capture_streams.specs.Represents.{held_of, cost_in, HoldsWhatCame};
    ghost use Rattle.capture_streams.specs.Taking.{Takes, HandsOn, Skips, RefusedFor, taken_part, IsEnding};
    ghost use Rattle.capture_streams.specs.Private.Steps.{IsSide};

    /// A direction before its first segment. `first` is the sequence number of its first byte: one more than that of
    /// the SYN, or that of the first segment seen where the capture began in the midst (RFC 9293, section 3.4). At most
    /// `limit` bytes of memory are held behind holes, of which each piece counts as its bytes and 128 more.
    pub fn start(alloc: Global, first: u32, limit: usize) -> Direction
        ensures first { first_of result ≡ first }
        ensures limit { limit_of result ≡ limit }
        ensures stands { Stands result [] 0 [] }
    {
        Direction {
            first,
            due: 0,
            pieces: Pieces::new(alloc, limit),
        }
    }

    /// The place of the next byte to be handed on: how many bytes were handed on or skipped.
    pub fn due(&self) -> u64
        ensures { result ≡ due_of self.now }
    {
        self.due
    }

    /// How much is held behind holes: each piece counts as its bytes and 128 more. It never passes the limit, and is 0
    /// exactly where nothing is held.
    pub fn held(&self) -> usize
        ensures count { result ≡ held_of self.now }
        // That is what the bytes held count, and 128 for each piece of them.
        ensures cost { result ≡ cost_in self.now }
        ensures within { result ≤ limit_of self.now }
        // Those are the bytes that came and were not handed on.
        ensures given { HoldsWhatCame self.now result }
    {
        self.pieces.held()
    }

    /// Takes a segment, and appends all bytes that are due by then to `out`: they are handed on. Bytes at places that
    /// have one already are passed over, and those behind a hole are held. On `Ok` the bytes handed on are the stream
    /// up to its first hole. On `Err` the first `taken` bytes of the segment count as taken, the others as though they
    /// had not come, and what was handed on is a beginning of the stream.
    pub fn take(&mut self, sequence: u32, bytes: &[u8], out: &mut Vec<u8>) -> Result<(), Refusal>
        ensures same { IsOfSame self.old self.new }
        // What was handed on, and what the direction stands for then.
        ensures takes { Takes self.old self.new sequence (taken_part result bytes.now) out.old.items out.new.items }
        // All that is due was handed on.
        ensures whole { OnOk result (IsAtHole self.new) }
        // When each refusal comes.
        ensures refused { IfErr result (RefusedFor self.old self.new sequence bytes.now) }
    {
        if self.due > MOST_PLACE {
            return Err(Refusal::PlacesEnd);
        }
        match self.side_of(sequence) {
            Side::Ahead(distance) => self.take_ahead(distance, bytes, out),
            Side::Behind(distance) => self.take_behind(distance, bytes, out),
        }
    }

    /// Appends the bytes that are due to `out`, after a hole was skipped or memory was refused. On `Ok` none is due.
    pub fn hand_on(&mut self, out: &mut Vec<u8>) -> Result<(), AllocError>
        ensures same { IsOfSame self.old self.new }
        // What was handed on: on `Err` a beginning of it.
        ensures hands { HandsOn self.old self.new out.old.items out.new.items }
        // All that is due was handed on.
        ensures whole { OnOk result (IsAtHole self.new) }
    {
        self.pop_all(out)
    }

    /// Goes on with the first byte that is held: says how many bytes are missing before it, and makes its place the due
    /// one. None where nothing is held, which changes nothing. `Some(0)` where that byte is due already.
    pub fn skip_hole(&mut self) -> Option<u64>
        ensures same { IsOfSame self.old self.new }
        ensures skips { Skips self.old self.new result }
    {
        let at = self.pieces.first()?.at;
        let missing = at - self.due;
        self.due = at;
        Some(missing)
    }

    /// How the direction ends where its last byte comes right before this sequence number: that of a FIN behind the
    /// bytes of its segment, or of a RST (RFC 9293, section 3.4).
    pub fn end(&self, sequence: u32) -> Ending
        ensures { IsEnding self.now sequence result }
    {
        match self.side_of(sequence) {
            Side::Ahead(missing) => Ending::Cut { missing },
            Side::Behind(0) => Ending::Whole,
            Side::Behind(beyond) => Ending::Past { beyond },
        }
    }
}

//! Bytes in pieces, judged without a value: a checker, and what it is asked: the next piece, how much is held, the
//! count of the value's bytes.
ghost use Rattle.std.specs.Prelude.{ℕ, List};
ghost use Rattle.xdr_stream.specs.Finish.{Checks};

use std::alloc::Global;
use xdr_due::{Due, due_of};
use xdr_stream::checker::{check, finish_check};
use xdr_stream::{DecodeFault, Held, Nothing, Progress, Reader, holding};
use xdr_types::{KindId, Limits, Schema};

/// Judges bytes that come in pieces as a `Decoder` does, and makes no value. It keeps a frame for each open node, at
/// most one more than the limit on depth, and at most three bytes of input.
#[derive(Drop)]
pub struct Checker<'s> {
    pub(crate) reader: Reader<'s, Nothing>,
    ghost given: { ∥ ((b : List ℕ) × Checks reader b) ∥₁ },
}

impl<'s> Checker<'s> {
    ghost use Rattle.std.specs.Prelude.{◌≡◌, ◌<◌, ◌%◌, ℕ, List, [], ◌++◌, length, IfErr, IsOk, Err};
    ghost use Rattle.xdr_stream.specs.Represents.{taken};
    ghost use Rattle.xdr_stream.specs.declared.fault.Reason.TheVariants.{NoMemory};
    ghost use Rattle.xdr_types.specs.Kinds.{kind_at};
    ghost use Rattle.xdr_stream.specs.Spared.{HasNoParts};
    ghost use Rattle.xdr_codec.specs.Checks.{kinds_of, kind_of};
    ghost use Rattle.xdr_codec.specs.Checks.{RepresentsBytes, HasOutcome, CountsIn, IsSame, IsStarted, IsDone};
    ghost use Rattle.xdr_codec.specs.Checks.{HasFailed};
    ghost use Rattle.xdr_codec.specs.Checks.{GoesOn, CountsFields, IsHeldWithin, Leaves, Stays};
    ghost use Rattle.xdr_codec.specs.Checks.{IsWaiting, HasDue};
    ghost use Rattle.xdr_due.specs.Due.{IsNothing};

    /// A checker that has been given no byte. It takes no memory.
    pub fn start(alloc: Global, schema: &'s Schema, kind: KindId, limits: Limits) -> Checker<'s>
        requires { kind.place < length schema.now.kinds }
        // The fields represent no byte.
        ensures represents { RepresentsBytes result [] }
        // The schema, the kind and the limits are those that were given.
        ensures settings { IsStarted result schema.now kind limits }
        // No fault came, and the value is not whole.
        ensures open { GoesOn result }
    {
        Checker {
            reader: check(alloc, schema, kind, limits),
        }
    }

    /// Takes the next piece, which may be empty. What it answers is the outcome of all bytes that came (RFC 4506), as
    /// `Decoder::feed` answers it. It takes memory for frames alone, and none where the kind has no parts.
    pub fn feed(&mut self, piece: &[u8]) -> Result<Progress, DecodeFault>
        // With the bytes that were taken of the piece, the fields represent all bytes so far.
        ensures represents { (b : List ℕ) → RepresentsBytes self.old b
            → RepresentsBytes self.new (b ++ taken piece.now result) }
        // The answer is the outcome of all bytes so far, unless memory was refused.
        ensures outcome { (b : List ℕ) → RepresentsBytes self.old b → HasOutcome self.old b piece.now result }
        // The state is what was answered, and no more was used than the piece has.
        ensures leaves { Leaves self.new piece.now result }
        // After `Done` nothing of a piece is used, and a fault comes again.
        ensures stays { Stays self.old result }
        // An allocation failure is not answered where the kind has no parts.
        ensures granted { HasNoParts (kind_at (kinds_of self.old) (kind_of self.old).place)
            → IfErr result (λ f. f.why ≡ NoMemory → ⊥) }
        // The schema, the kind and the limits stay.
        ensures same { IsSame self.old self.new }
    {
        self.reader.feed(piece)
    }

    /// What comes next after the bytes that were given: the part in which the next unit stands, in each value that
    /// begins with them (RFC 4506 section 4). Before any `feed`, within a unit, after the value and after a fault it is
    /// nothing. It takes no memory.
    pub fn due(&self) -> Due
        // The next unit stands there.
        ensures due { (b : List ℕ) → RepresentsBytes self.now b → HasDue self.now b result }
        // Where a unit is needed and whole units came, it is something.
        ensures some { (b : List ℕ) → RepresentsBytes self.now b → IsWaiting self.now → length b % 4 ≡ 0
            → IsNothing result → ⊥ }
    {
        due_of(&self.reader)
    }

    /// How much is held, as `Decoder::held` counts it: no node and no byte of content. After a fault nothing is. It
    /// takes no memory.
    pub fn held(&self) -> Held
        // The counts are those of the checker's own fields.
        ensures counts { CountsFields self.now result }
        // There is a frame more than the limit on depth at most, and less than a unit.
        ensures bounds { (b : List ℕ) → RepresentsBytes self.now b → IsHeldWithin self.now b result }
        // Until the value is whole, the bytes of the unfinished unit are pending.
        ensures pending { (b : List ℕ) → RepresentsBytes self.now b → GoesOn self.now → result.pending ≡ length b % 4 }
    {
        holding::held_by_checker(&self.reader)
    }

    /// The count of the value's bytes. A fault of an earlier call comes again; where the value is not whole, it is
    /// `Truncated` at the count of bytes given. Before any `feed` it answers as after an empty piece. It takes no
    /// memory: after `Done` it gives the count, and it answers `NoMemory` only where an earlier call did.
    pub fn finish(self) -> Result<u32, DecodeFault>
        // The answer is the outcome of the bytes, and `Truncated` where that is pending.
        ensures outcome { (b : List ℕ) → RepresentsBytes self.entry b → CountsIn self.entry b result }
        // A fault that was answered comes again.
        ensures for_ever { (f : DecodeFault) → HasFailed self.entry f → result ≡ Err f }
        // After `Done` the count comes.
        ensures whole { IsDone self.entry → IsOk result }
        // An allocation failure is answered only where an earlier call answered it.
        ensures granted { IfErr result (λ f. f.why ≡ NoMemory → HasFailed self.entry f) }
    {
        finish_check(self.reader)
    }
}

//! Bytes in pieces as a value: a decoder, and what it is asked: the next piece, how much is held, the value.
ghost use Rattle.std.specs.Prelude.{ℕ, List};
ghost use Rattle.xdr_stream.specs.Finish.{Represents};

use std::alloc::Global;
use xdr_stream::{DecodeFault, Held, Progress, Reader, Values, decoder, holding};
use xdr_types::{KindId, Limits, Schema, Value};

/// Decodes a value from bytes that come in pieces. It keeps the part of the value that has come and at most three
/// bytes of input.
#[derive(Drop)]
pub struct Decoder<'s> {
    pub(crate) reader: Reader<'s, Values>,
    ghost given: { ∥ ((b : List ℕ) × Represents reader b) ∥₁ },
}

impl<'s> Decoder<'s> {
    ghost use Rattle.std.specs.Prelude.{◌≡◌, ◌<◌, ◌%◌, ℕ, List, [], ◌++◌, length, IfErr, IsOk, Err};
    ghost use Rattle.xdr_stream.specs.Represents.{taken};
    ghost use Rattle.xdr_stream.specs.declared.fault.Reason.TheVariants.{NoMemory};
    ghost use Rattle.xdr_types.specs.Kinds.{kind_at};
    ghost use Rattle.xdr_stream.specs.Spared.{IsFlat};
    ghost use Rattle.xdr_codec.specs.Settings.{kinds_of, kind_of};
    ghost use Rattle.xdr_codec.specs.Represents.{RepresentsBytes, Answers, Finishes, IsSame, IsStarted, IsDone};
    ghost use Rattle.xdr_codec.specs.Represents.{HasFailed};
    ghost use Rattle.xdr_codec.specs.Represents.{Leaves, Stays};
    ghost use Rattle.xdr_codec.specs.Outcomes.{HasOutcome, EndsIn};
    ghost use Rattle.xdr_codec.specs.Held.{GoesOn, IsWaiting, CountsFields, IsHeldWithin, IsHeldDue, IsHeldWhole};

    /// A decoder that has been given no byte. It takes no memory.
    pub fn start(alloc: Global, schema: &'s Schema, kind: KindId, limits: Limits) -> Decoder<'s>
        requires { kind.place < length schema.now.kinds }
        // The fields represent no byte.
        ensures represents { RepresentsBytes result [] }
        // The schema, the kind and the limits are those that were given.
        ensures settings { IsStarted result schema.now kind limits }
        // No fault came, and the value is not whole.
        ensures open { GoesOn result }
    {
        Decoder {
            reader: decoder::start(alloc, schema, kind, limits),
        }
    }

    /// Takes the next piece, which may be empty. What it answers is the outcome of all bytes that came (RFC 4506):
    /// `More` where it is pending, `Done` where a value is whole. Then `used` counts that value's bytes of this piece,
    /// and later pieces are not looked at. A fault comes at the first unit after which no value goes on, at the node
    /// that lies too deep, and at the limit on bytes, each with its reason and place. It comes too where memory was
    /// refused. Whichever it is, the whole piece is taken, and it comes again at each later call. That bytes have one
    /// outcome alone is `xdr_laws::one_outcome`.
    ///
    /// What it holds is the value so far, a frame for each of its open nodes, and at most three bytes of input. It
    /// takes no memory where the kind is a number, a boolean, an enumeration or void. Reading does not recurse;
    /// the drop of a value does, one level a call.
    pub fn feed(&mut self, piece: &[u8]) -> Result<Progress, DecodeFault>
        // With the bytes that were taken of the piece, the fields represent all bytes so far.
        ensures represents { (b : List ℕ) → RepresentsBytes self.old b
            → RepresentsBytes self.new (b ++ taken piece.now result) }
        // The answer is the outcome of all bytes so far, unless memory was refused.
        ensures outcome { (b : List ℕ) → RepresentsBytes self.old b → HasOutcome self.old b piece.now result }
        // So they begin with no value, encode one, or none begins them however they go on.
        ensures answer { (b : List ℕ) → RepresentsBytes self.old b
            → Answers self.old (b ++ taken piece.now result) result }
        // The state is what was answered, and no more was used than the piece has.
        ensures leaves { Leaves self.new piece.now result }
        // After `Done` nothing of a piece is used, and a fault comes again.
        ensures stays { Stays self.old result }
        // An allocation failure is not answered where the kind is a number, a boolean, an enumeration or void.
        ensures granted { IsFlat (kind_at (kinds_of self.old) (kind_of self.old).place)
            → IfErr result (λ f. f.why ≡ NoMemory → ⊥) }
        // The schema, the kind and the limits stay.
        ensures same { IsSame self.old self.new }
    {
        let _in_range = self.reader.limits.depth();
        self.reader.feed(piece)
    }

    /// How much is held, before any `feed` too. It takes no memory.
    ///
    /// `frames` counts the nodes that stand open, the one at work and its parents. `nodes` counts those of the value so
    /// far, each as soon as it is due, so that a decoder that was given no byte has one. `bytes` counts those of
    /// content, and `pending` those of an unfinished unit. Whatever lengths the bytes declare, `frames` is at most one
    /// more than the limit on depth, and `nodes` at most (kinds + 1) times (u + 1) after u whole units. `bytes` is at
    /// most the bytes given, and `pending` at most 3 (RFC 4506 section 3). After `Done` `nodes` and `bytes` are the
    /// value's, `frames` and `pending` 0. After a fault nothing is held.
    pub fn held(&self) -> Held
        // The counts are those of the decoder's own fields.
        ensures counts { CountsFields self.now result }
        // They are within the bounds above, whatever bytes came.
        ensures bounds { (b : List ℕ) → RepresentsBytes self.now b → IsHeldWithin self.now b result }
        // Until the value is whole, the bytes of the unfinished unit are pending.
        ensures pending { (b : List ℕ) → RepresentsBytes self.now b → GoesOn self.now → result.pending ≡ length b % 4 }
        // Where a unit is needed, the nodes are those that the whole units begin.
        ensures due { (b : List ℕ) → RepresentsBytes self.now b → IsWaiting self.now → IsHeldDue self.now b result }
        // After `Done` the value's nodes and its content are held, and nothing else.
        ensures whole { (b : List ℕ) → RepresentsBytes self.now b → IsDone self.now → IsHeldWhole self.now b result }
    {
        holding::held_by_decoder(&self.reader)
    }

    /// The value that the bytes encode. A fault of an earlier call comes again; where the value is not whole, it is
    /// `Truncated` at the count of bytes given. Before any `feed` it answers as after an empty piece. It takes no
    /// memory: after `Done` it gives the value, and it answers `NoMemory` only where an earlier call did.
    pub fn finish(self) -> Result<Value, DecodeFault>
        // The answer is the outcome of the bytes, and `Truncated` where that is pending.
        ensures outcome { (b : List ℕ) → RepresentsBytes self.entry b → EndsIn self.entry b result }
        // So the bytes encode the value, or no value begins them.
        ensures answer { (b : List ℕ) → RepresentsBytes self.entry b → Finishes self.entry b result }
        // A fault that was answered comes again.
        ensures for_ever { (f : DecodeFault) → HasFailed self.entry f → result ≡ Err f }
        // After `Done` the value comes.
        ensures whole { IsDone self.entry → IsOk result }
        // An allocation failure is answered only where an earlier call answered it.
        ensures granted { IfErr result (λ f. f.why ≡ NoMemory → HasFailed self.entry f) }
    {
        let reader = self.reader;
        let _in_range = reader.limits.depth();
        decoder::finish(reader)
    }
}

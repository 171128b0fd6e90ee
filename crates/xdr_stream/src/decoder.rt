//! Bytes in pieces as a value, with no input kept but an unfinished unit.
ghost use Rattle.std.specs.Prelude.{◌≡◌, ◌<◌, ◌≤◌, ℕ, List, [], ◌∷◌, length, take, Err, IfErr, IsOk, MatchOption};
ghost use Rattle.xdr_types.specs.Tree.{Tree, nothing};
ghost use Rattle.xdr_types.specs.View.{tree};
ghost use Rattle.xdr_stream.specs.Trace.{level};
ghost use Rattle.xdr_stream.specs.Values.{level_of};
ghost use Rattle.xdr_stream.specs.Held.{GoesOn};
ghost use Rattle.xdr_stream.specs.Finish.{Represents, Finishes, IsStarted};
ghost use Rattle.xdr_stream.specs.declared.fault.Reason.TheVariants.{Truncated, NoMemory};
ghost use Rattle.xdr_stream.specs.declared.reader.State.TheVariants.{Failed, Finished};

use crate::builder::level::root_of;
use crate::builder::values::Values;
use crate::fault::{DecodeFault, Reason};
use crate::reader::due::is_deep;
use crate::reader::start::fresh;
use crate::reader::{Reader, State};
use std::alloc::Global;
use xdr_types::{Kind, KindId, Limits, Schema, Value};

/// A decoder that has been given no byte.
pub fn start<'s>(
    alloc: Global,
    schema: &'s Schema,
    kind: KindId,
    limits: Limits,
) -> Reader<'s, Values>
    requires { kind.place < length schema.now.kinds }
    // It was given nothing,
    ensures represents { Represents result [] }
    // is one of this schema, kind and limits,
    ensures settings { IsStarted result schema.now kind limits }
    // and takes bytes.
    ensures open { GoesOn result.state }
{
    fresh(alloc, schema, kind, limits, Values::new(alloc))
}

/// The value that the bytes encode. A fault of an earlier call comes again; where the value is not whole, it is
/// `Truncated` at the count of bytes given. Before any `feed` it answers as after an empty piece. It takes no memory.
/// The reader's fields stand for the bytes that it was given.
pub fn finish<'s>(reader: Reader<'s, Values>) -> Result<Value, DecodeFault>
    requires given { ∥ ((b : List ℕ) × Represents reader b) ∥₁ }
    // It answers the outcome of all bytes given.
    ensures answer { (b : List ℕ) → Represents reader.entry b
        → Finishes reader.entry.schema.now.kinds reader.entry.kind.place reader.entry.limits b result }
    // A fault of an earlier call comes again.
    ensures for_ever { (f : DecodeFault) → reader.entry.state ≡ Failed f → result ≡ Err f }
    // A value that is whole is handed out.
    ensures whole { reader.entry.state ≡ Finished → IsOk result }
    // It takes no memory: only an earlier call's allocation failure comes again.
    ensures granted { IfErr result (λ f. f.why ≡ NoMemory → reader.entry.state ≡ Failed f) }
{
    if let State::Finished = reader.state {
        return match root_in(reader) {
            Some(value) => Ok(value),
            None => unreachable!(),
        };
    }
    finish_early(&reader)
}

// The value of the root that a reader has made, where it has one.
#[inline(always)]
fn root_in(reader: Reader<'_, Values>) -> Option<Value>
    ensures { MatchOption result ((v : Tree) → level_of reader.entry.built.work ≡ level nothing (v ∷ []) → ⊥)
        (λ x. level_of reader.entry.built.work ≡ level nothing (tree x ∷ [])) }
{
    let built = reader.built;
    root_of(built.work)
}

// What the end of the bytes answers where the value is not whole.
fn finish_early(reader: &Reader<'_, Values>) -> Result<Value, DecodeFault>
    requires given { ∥ ((b : List ℕ) × Represents reader.now b) ∥₁ }
    requires early { reader.now.state ≡ Finished → ⊥ }
    ensures answer { (b : List ℕ) → Represents reader.now b
        → Finishes reader.now.schema.now.kinds reader.now.kind.place reader.now.limits b result }
    ensures for_ever { (f : DecodeFault) → reader.now.state ≡ Failed f → result ≡ Err f }
    ensures granted { IfErr result (λ f. f.why ≡ NoMemory → reader.now.state ≡ Failed f) }
{
    let limits = reader.limits;
    let _in_range = limits.depth();
    let at = reader
        .read
        .saturating_add(unfinished(&reader.unit, reader.pending));
    match reader.state {
        State::Failed(fault) => Err(fault),
        State::Finished => unreachable!(),
        State::Reading(_) => Err(truncated(at)),
        State::Fresh => finish_empty(reader.schema, reader.kind, limits),
    }
}

// How many bytes came after the whole units.
pub(crate) fn unfinished(unit: &[u8; 4], pending: usize) -> usize
    ensures count { result ≡ length (take pending unit.now) }
    ensures few { result ≤ 4 }
{
    pending.min(4)
}

// The bytes end inside the value.
pub(crate) fn truncated(at: usize) -> DecodeFault
    ensures { result ≡ record { why = Truncated; at = at } }
{
    DecodeFault {
        why: Reason::Truncated,
        at,
    }
}

// What no bytes are, of a kind that the schema has.
pub(crate) fn finish_empty(
    schema: &Schema,
    kind: KindId,
    limits: Limits,
) -> Result<Value, DecodeFault>
    requires { kind.place < length schema.now.kinds }
    // It answers the outcome of all bytes given.
    ensures answer { Finishes schema.now.kinds kind.place limits [] result }
    // It takes no memory: only an earlier call's allocation failure comes again.
    ensures granted { IfErr result (λ f. f.why ≡ NoMemory → ⊥) }
{
    let _known = schema.len();
    let _in_range = limits.depth();
    if let Kind::Nothing = schema.kind(kind) {
        return Ok(Value::Nothing);
    }
    if is_deep(schema, kind, limits) {
        return Err(DecodeFault {
            why: Reason::TooDeep,
            at: 0,
        });
    }
    Err(truncated(0))
}

//! Bytes in pieces, judged without a value.
ghost use Rattle.std.specs.Prelude.{◌≡◌, ◌<◌, ℕ, List, [], length, Err, IfErr, IsOk};
ghost use Rattle.xdr_stream.specs.declared.fault.Reason.TheVariants.{NoMemory};
ghost use Rattle.xdr_stream.specs.Finish.{Checks, IsStarted};
ghost use Rattle.xdr_stream.specs.Held.{GoesOn};
ghost use Rattle.xdr_stream.specs.Checked.{Counts};
ghost use Rattle.xdr_stream.specs.declared.reader.State.TheVariants.{Failed, Finished};

use crate::builder::nothing::Nothing;
use crate::decoder::{finish_empty, truncated, unfinished};
use crate::fault::DecodeFault;
use crate::reader::start::fresh;
use crate::reader::{Reader, State};
use std::alloc::Global;
use xdr_types::{KindId, Limits, Schema};

/// A checker that has been given no byte.
pub fn check<'s>(
    alloc: Global,
    schema: &'s Schema,
    kind: KindId,
    limits: Limits,
) -> Reader<'s, Nothing>
    requires { kind.place < length schema.now.kinds }
    // It was given nothing,
    ensures represents { Checks result [] }
    // is one of this schema, kind and limits,
    ensures settings { IsStarted result schema.now kind limits }
    // and takes bytes.
    ensures open { GoesOn result.state }
{
    fresh(alloc, schema, kind, limits, Nothing)
}

/// How many bytes the value has that they encode. A fault of an earlier call comes again; where the value is not whole,
/// it is `Truncated` at the count of bytes given. Before any `feed` it answers as after an empty piece. It takes no
/// memory.
/// The reader's fields stand for the bytes that it was given.
pub fn finish_check<'s>(reader: Reader<'s, Nothing>) -> Result<u32, DecodeFault>
    requires given { ∥ ((b : List ℕ) × Checks reader b) ∥₁ }
    // It answers the outcome of all bytes given.
    ensures answer { (b : List ℕ) → Checks reader.entry b
        → Counts reader.entry.schema.now.kinds reader.entry.kind.place reader.entry.limits b result }
    // A fault of an earlier call comes again.
    ensures for_ever { (f : DecodeFault) → reader.entry.state ≡ Failed f → result ≡ Err f }
    // A value that is whole is accepted.
    ensures whole { reader.entry.state ≡ Finished → IsOk result }
    // It takes no memory: only an earlier call's allocation failure comes again.
    ensures granted { IfErr result (λ f. f.why ≡ NoMemory → reader.entry.state ≡ Failed f) }
{
    let limits = reader.limits;
    let _in_range = limits.depth();
    let at = reader
        .read
        .saturating_add(unfinished(&reader.unit, reader.pending));
    match reader.state {
        State::Failed(fault) => Err(fault),
        State::Finished => Ok(reader.read as u32),
        State::Reading(_) => Err(truncated(at)),
        State::Fresh => count_empty(reader.schema, reader.kind, limits),
    }
}

// How many bytes the value has that no bytes are, of a kind that the schema has.
fn count_empty(schema: &Schema, kind: KindId, limits: Limits) -> Result<u32, DecodeFault>
    requires { kind.place < length schema.now.kinds }
    ensures answer { Counts schema.now.kinds kind.place limits [] result }
    ensures granted { IfErr result (λ f. f.why ≡ NoMemory → ⊥) }
{
    match finish_empty(schema, kind, limits) {
        Ok(_) => Ok(0),
        Err(fault) => Err(fault),
    }
}

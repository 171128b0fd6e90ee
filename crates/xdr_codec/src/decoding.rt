//! Bytes as a value.
ghost use Rattle.std.specs.Prelude.{◌≡◌, ℕ, ◌≤◌, ◌<◌, length, take, IfOk, IfErr};
ghost use Rattle.xdr_types.specs.Kinds.{kind_at};
ghost use Rattle.xdr_types.specs.Outcome.{Outcome, Whole};
ghost use Rattle.xdr_types.specs.Spelling.{bytes_of};
ghost use Rattle.xdr_types.specs.Tree.{Tree};
ghost use Rattle.xdr_types.specs.View.{tree};
ghost use Rattle.xdr_types.specs.Within.{FitsWithin};
ghost use Rattle.xdr_stream.specs.Finish.{EndsWith};
ghost use Rattle.xdr_stream.specs.Spared.{IsFlat};
ghost use Rattle.xdr_stream.specs.declared.fault.Reason.TheVariants.{NoMemory};
ghost use Rattle.xdr_codec.specs.Refused.{Refuses};

use crate::decoder::Decoder;
use std::alloc::Global;
use xdr_stream::{DecodeFault, Progress, Reason};
use xdr_types::{KindId, Limits, Schema, Value};

/// The value whose encoding begins the input, and the count of its bytes (RFC 4506). There is at most one such pair.
/// What it answers is the outcome of the input, with `Truncated` where that is pending, memory aside; that bytes have
/// one outcome alone is `xdr_laws::one_outcome`.
///
/// A fault other than `NoMemory` says that there is no such pair; unless it is `Truncated`, there is none in any longer
/// input either. `at` is the count of bytes before the unit that is refused. For `TooDeep` it counts those before the
/// node that lies too deep; for `TooLarge` it is the limit on bytes, for `Truncated` the count of all bytes. For
/// `NoMemory` it is at most that count and says no more.
///
/// Memory is what the value needs, and a frame for each of its open nodes; none where the kind is a number, a boolean,
/// an enumeration or void. Reading does not recurse; the drop of the value does, one level a call.
pub fn decode(
    alloc: Global,
    schema: &Schema,
    kind: KindId,
    limits: Limits,
    input: &[u8],
) -> Result<(Value, usize), DecodeFault>
    requires { kind.place < length schema.now.kinds }
    // The outcome of the input is this value with this count of bytes.
    ensures outcome { IfOk result (λ r. Outcome schema.now.kinds kind.place limits input.now (Whole (tree r.0) r.1)) }
    // The outcome is this reason at this place, unless memory was refused; `Truncated` stands for a pending one.
    ensures fault { IfErr result (λ f. EndsWith schema.now.kinds kind.place limits input.now f) }
    // The value fits the kind within the limits, and its encoding is the bytes that are counted.
    ensures value { IfOk result (λ r. FitsWithin schema.now.kinds kind.place limits (tree r.0)
        × (r.1 ≤ length input.now) × (bytes_of schema.now.kinds kind.place (tree r.0) ≡ take r.1 input.now)) }
    // No other value within the limits begins the input.
    ensures only { IfOk result (λ r. (t : Tree) (n : ℕ) → FitsWithin schema.now.kinds kind.place limits t
        → n ≤ length input.now
        → bytes_of schema.now.kinds kind.place t ≡ take n input.now → (t ≡ tree r.0) × (n ≡ r.1)) }
    // A fault says that there is no such value, and its place lies within the input.
    ensures refusal { Refuses schema.now.kinds kind.place limits input.now result }
    // An allocation failure is not answered where the kind is a number, a boolean, an enumeration or void.
    ensures granted { IsFlat (kind_at schema.now.kinds kind.place) → IfErr result (λ f. f.why ≡ NoMemory → ⊥) }
{
    let _in_range = limits.depth();
    let mut decoder = Decoder::start(alloc, schema, kind, limits);
    match decoder.feed(input) {
        Ok(Progress::Done { used }) => match decoder.finish() {
            Ok(value) => Ok((value, used)),
            Err(_) => unreachable!(),
        },
        Ok(Progress::More) => Err(DecodeFault {
            why: Reason::Truncated,
            at: input.len(),
        }),
        Err(fault) => Err(fault),
    }
}

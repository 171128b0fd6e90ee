//! A value as bytes.
ghost use Rattle.std.specs.Prelude.{◌≡◌, ◌++◌, ◌<◌, ◌^◌, length, map, pos, negsuc, ◌≤ℤ◌, replicate, IsTrue, IfOk, OnOk};
ghost use Rattle.std.specs.Prelude.{true};
ghost use Rattle.xdr_types.specs.Kinds.{kind_at};
ghost use Rattle.xdr_types.specs.KindViews.{kind_view, part_of_member};
ghost use Rattle.xdr_types.specs.Fits.{Fits, fits, fit, is_legal, item_part, parts};
ghost use Rattle.xdr_units.specs.Numbers.{num4, num8, number_of, pad, padded};
ghost use Rattle.xdr_types.specs.Spelling.{spelling, own, bytes_of};
ghost use Rattle.xdr_types.specs.Tree.{Tree};
ghost use Rattle.xdr_types.specs.View.{tree, values};
ghost use Rattle.xdr_types.specs.Within.{FitsWithin};

use crate::pushing::push_value;
use std::alloc::Global;
use xdr_types::{KindId, Limits, NoMemory, Schema, Value, size};

/// The encoding of a value (RFC 4506): exactly its bytes, and no other value of the kind has them. The value fits the
/// kind within the limits, as `fits` tells. That no error comes while memory is granted is no clause, tests show it.
/// The bytes are asked for in one growth of their count.
///
/// Each level of the value takes stack: up to 0.5 MiB at depth 4096 on x86-64.
pub fn encode(
    alloc: Global,
    schema: &Schema,
    kind: KindId,
    value: &Value,
    limits: Limits,
) -> Result<Vec<u8>, NoMemory>
    requires { FitsWithin schema.now.kinds kind.place limits (tree value.now) }
    // The bytes are the encoding of the value.
    ensures bytes { IfOk result (λ b. b.items ≡ bytes_of schema.now.kinds kind.place (tree value.now)) }
    // No other value of the kind has them.
    ensures only { IfOk result (λ b. (t : Tree) → Fits schema.now.kinds kind.place t
        → bytes_of schema.now.kinds kind.place t ≡ b.items → t ≡ tree value.now) }
{
    let mut out = Vec::with_capacity(alloc, size(schema, kind, value, limits) as usize)?;
    match push_value(&mut out, schema, kind, value) {
        Ok(()) => Ok(out),
        Err(_) => Err(NoMemory),
    }
}

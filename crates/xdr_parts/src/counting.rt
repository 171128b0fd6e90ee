//! How many parts the value that begins an input has.
ghost use Rattle.std.specs.Prelude.{◌<◌, length, IfOk, IfErr};
ghost use Rattle.xdr_stream.specs.Finish.{EndsWith};
ghost use Rattle.xdr_parts.specs.Counted.{AreCounted};

use crate::whole::whole_parts;
use std::alloc::Global;
use xdr_stream::DecodeFault;
use xdr_types::{KindId, Limits, Schema};

/// How large a value and the list of its parts are.
#[derive(Clone, Copy, Debug, PartialEq, Eq)]
pub struct PartCounts {
    /// How many bytes the value has.
    pub used: usize,
    /// How many parts there are.
    pub parts: usize,
    /// How many bytes their names have, `usize::MAX` where they have more.
    pub names: usize,
}

/// How many parts `parts` lists of the value that begins the input, and how many bytes their names have. Faults are
/// those of `parts`.
///
/// Memory is that of a frame for each open node: no list is made.
pub fn count_parts(
    alloc: Global,
    schema: &Schema,
    kind: KindId,
    limits: Limits,
    input: &[u8],
) -> Result<PartCounts, DecodeFault>
    requires { kind.place < length schema.now.kinds }
    // The outcome of the input is a value, and the counts are those of its layout.
    ensures outcome { IfOk result (λ c. AreCounted schema.now.kinds kind.place limits input.now c) }
    // The outcome is this reason at this place, unless memory was refused; `Truncated` stands for a pending one.
    ensures fault { IfErr result (λ f. EndsWith schema.now.kinds kind.place limits input.now f) }
{
    let whole = whole_parts(alloc, schema, kind, limits, input, false)?;
    Ok(PartCounts {
        used: whole.0,
        parts: whole.1.parts,
        names: whole.1.names,
    })
}

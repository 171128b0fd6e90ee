//! The parts of the value that begins an input, listed or only counted.
ghost use Rattle.std.specs.Prelude.{◌≡◌, ◌<◌, length, IfOk, IfErr};
ghost use Rattle.xdr_types.specs.Layout.{entries};
ghost use Rattle.xdr_types.specs.Outcome.{Outcome, Whole};
ghost use Rattle.xdr_types.specs.Tree.{Tree};
ghost use Rattle.xdr_stream.specs.Finish.{EndsWith};
ghost use Rattle.xdr_parts.specs.Private.Taking.{HasAll};
ghost use Rattle.xdr_parts.specs.Private.Walking.{IsSpelled};

use crate::judge::judge;
use crate::taken::Taken;
use crate::walk::Walk;
use std::alloc::{AllocError, Global};
use xdr_stream::{DecodeFault, Reason};
use xdr_types::{KindId, Limits, Schema};

/// The count of bytes of the value that begins the input, and its parts; or why there is none.
pub fn whole_parts<'a>(
    alloc: Global,
    schema: &'a Schema,
    kind: KindId,
    limits: Limits,
    input: &'a [u8],
    lists: bool,
) -> Result<(usize, Taken<'a>), DecodeFault>
    requires { kind.place < length schema.now.kinds }
    // The bytes begin with a value, and these are all its parts.
    ensures whole { IfOk result (λ r. (v : Tree) × Outcome schema.now.kinds kind.place limits input.now (Whole v r.0)
        × HasAll input.now (entries schema.now.kinds kind.place v) r.1) }
    // The parts are listed, or only counted, as was asked.
    ensures lists { IfOk result (λ r. r.1.lists ≡ lists) }
    // The fault is the outcome of the bytes, or memory was refused.
    ensures fault { IfErr result (λ f. EndsWith schema.now.kinds kind.place limits input.now f) }
{
    let _in_range = limits.depth();
    let _known = schema.len();
    let used = judge(alloc, schema, kind, limits, input)?;
    match spelled_parts(alloc, schema, kind, &input[..used], lists) {
        Ok(taken) => Ok((used, taken)),
        Err(_) => Err(DecodeFault {
            why: Reason::NoMemory,
            at: used,
        }),
    }
}

// The parts of the value that these bytes spell, listed or only counted.
fn spelled_parts<'a>(
    alloc: Global,
    schema: &'a Schema,
    kind: KindId,
    bytes: &'a [u8],
    lists: bool,
) -> Result<Taken<'a>, AllocError>
    requires { (v : Tree) × IsSpelled schema.now.kinds kind.place bytes.now v }
    ensures parts { IfOk result (λ t. (v : Tree) → IsSpelled schema.now.kinds kind.place bytes.now v
        → HasAll bytes.now (entries schema.now.kinds kind.place v) t) }
    ensures lists { IfOk result (λ t. t.lists ≡ lists) }
{
    let mut walk = Walk::start(alloc, schema, kind, bytes, lists);
    walk.take_up_to(usize::MAX)?;
    Ok(walk.taken)
}

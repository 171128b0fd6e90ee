//! The arguments of a call, judged before they are sent.
ghost use Rattle.std.specs.Prelude.{IfErr, OnOk};
ghost use Rattle.xdr_lang.specs.Views.{places};
ghost use Rattle.oncrpc_call.specs.Asking.{AreArguments, AreRefused};

use crate::unasked::Unasked;
use std::alloc::Global;
use xdr_codec::{Reason, decode};
use xdr_types::{KindId, Limits, Schema};

/// Judges bytes as arguments of these kinds: a value of each within the limits, one behind another, and nothing after
/// (RFC 4506 section 4, RFC 5531 section 12.2). The first argument that is none is told, as `Argument` or `Kind`, and
/// `Follows` only where all are values. Memory is taken for an argument alone that is none of a number, a boolean, an
/// enumeration and void: where each is one of these, `NoMemory` does not come.
pub fn judge_arguments(
    alloc: Global,
    schema: &Schema,
    kinds: &[KindId],
    limits: Limits,
    bytes: &[u8],
) -> Result<(), Unasked>
    // They are arguments,
    ensures judged { OnOk result (AreArguments schema.now.kinds (places kinds.now) limits bytes.now) }
    // or a refusal says what is wrong with them, or at which argument memory was refused.
    ensures refused { IfErr result (λ why.
        AreRefused schema.now.kinds (places kinds.now) limits bytes.now why) }
{
    let mut rest = bytes;
    'arguments: for (at, kind) in kinds.iter().enumerate() {
        if !schema.has(*kind) {
            return Err(Unasked::Kind);
        }
        match decode(alloc, schema, *kind, limits, rest) {
            Ok((_value, used)) => rest = &rest[used..],
            Err(fault) if fault.why == Reason::NoMemory => return Err(Unasked::NoMemory),
            Err(fault) => return Err(Unasked::Argument { at, fault }),
        }
    }
    if rest.is_empty() {
        Ok(())
    } else {
        Err(Unasked::Follows { count: rest.len() })
    }
}

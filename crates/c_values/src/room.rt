//! Whether the parts of a value go into the buffers.
ghost use Rattle.std.specs.Prelude.{◌<◌, length, IfSome};
ghost use Rattle.c_values.specs.Parted.{IsParted};

use super::listed::{Listed, unlisted};
use super::part::ValuePart;
use std::alloc::Global;
use xdr_codec::count_parts;
use xdr_types::{KindId, Limits, Schema};

/// The answer that calls for no list: buffers that are too small for the parts of the value that begins the input, or
/// no such value. The parts are counted while the input is judged.
pub fn lacking(
    alloc: Global,
    schema: &Schema,
    kind: KindId,
    limits: Limits,
    input: &[u8],
    parts: &[ValuePart],
    names: &[u8],
) -> Option<Listed>
    requires { kind.place < length schema.now.kinds }
    ensures { IfSome result (IsParted
        (record { kinds = schema.now.kinds; place = kind.place; limits = limits }) input.now
        (record { parts = parts.now; names = names.now }) (record { parts = parts.now; names = names.now })) }
{
    let _in_range = limits.depth();
    let counts = match count_parts(alloc, schema, kind, limits, input) {
        Ok(counts) => counts,
        Err(fault) => return Some(unlisted(fault)),
    };
    // Names of more bytes than can be counted go into no memory: the list is left to say so.
    if counts.names == usize::MAX {
        return None;
    }
    if counts.parts <= parts.len() && counts.names <= names.len() {
        return None;
    }
    Some(Listed::NoRoom(counts))
}

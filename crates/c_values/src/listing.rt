//! The parts of a value, listed for C.
ghost use Rattle.std.specs.Prelude.{◌≡◌, ◌<◌, ◌⊎◌, ◌++◌, IfErr, IfOk, drop, false, length, map, true};
ghost use Rattle.xdr_parts.specs.Counted.{names_of};
ghost use Rattle.xdr_parts.specs.Lent.{entry_of};
ghost use Rattle.c_values.specs.Parted.{Buffers, AreParts, IsParted};
ghost use Rattle.c_values.specs.Private.Parting.{parts_from, AreKnown};

use super::listed::{Listed, unlisted};
use super::part::{ValuePart, part_of};
use std::alloc::Global;
use xdr_codec::{Lent, PartCounts, sized_parts};
use xdr_types::{KindId, Limits, NoMemory, Schema};

/// How many bytes a value has, its parts, and their names joined.
#[derive(Drop)]
pub struct PartList {
    pub used: usize,
    pub parts: Vec<ValuePart>,
    pub names: Vec<u8>,
}

/// The list of lent parts for C, which have these counts.
fn listing_of(
    alloc: Global,
    schema: &Schema,
    lent: &[Lent],
    counts: PartCounts,
) -> Result<PartList, NoMemory>
    requires { AreKnown schema.now.kinds lent.now }
    ensures used { IfOk result (λ r. r.used ≡ counts.used) }
    ensures parts { IfOk result (λ r. r.parts.items ≡ parts_from schema.now.kinds 0 (map entry_of lent.now)) }
    ensures names { IfOk result (λ r. r.names.items ≡ names_of (map entry_of lent.now)) }
{
    let mut parts = Vec::with_capacity(alloc, counts.parts)?;
    let mut names = Vec::with_capacity(alloc, counts.names)?;
    for part in lent {
        parts.push(part_of(schema, part, names.len()))?;
        names.extend_from_slice(part.name.as_bytes())?;
    }
    Ok(PartList {
        used: counts.used,
        parts,
        names,
    })
}

/// The list of the parts of the value that begins the input, or the answer where there is none.
pub fn list_parts(
    alloc: Global,
    schema: &Schema,
    kind: KindId,
    limits: Limits,
    input: &[u8],
) -> Result<PartList, Listed>
    requires { kind.place < length schema.now.kinds }
    ensures list { IfOk result (λ r. AreParts
        (record { kinds = schema.now.kinds; place = kind.place; limits = limits }) input.now r.parts.items r.names.items
        (record { used = r.used; parts = length r.parts.items; names = length r.names.items })) }
    ensures none { IfErr result (λ a. (bs : Buffers)
        → IsParted (record { kinds = schema.now.kinds; place = kind.place; limits = limits }) input.now bs bs a) }
{
    let _in_range = limits.depth();
    let sized = match sized_parts(alloc, schema, kind, limits, input) {
        Ok(sized) => sized,
        Err(fault) => return Err(unlisted(fault)),
    };
    match listing_of(alloc, schema, &sized.list, sized.counts) {
        Ok(list) => Ok(list),
        Err(_) => Err(Listed::NoMemory),
    }
}

impl PartList {
    /// Puts the lists at the front of the buffers. Where one does not go into its buffer both stay as they are.
    pub fn put(&self, parts: &mut [ValuePart], names: &mut [u8]) -> bool
        // True: both lists stand at the front of their buffers.
        ensures parts { result ≡ true → parts.new ≡ self.now.parts.items
            ++ drop (length self.now.parts.items) parts.old }
        ensures names { result ≡ true → names.new ≡ self.now.names.items
            ++ drop (length self.now.names.items) names.old }
        // False: neither buffer is changed,
        ensures parts_stay { result ≡ false → parts.new ≡ parts.old }
        ensures names_stay { result ≡ false → names.new ≡ names.old }
        // since one of them is too small.
        ensures small { result ≡ false → (length parts.old < length self.now.parts.items)
            ⊎ (length names.old < length self.now.names.items) }
    {
        if parts.len() < self.parts.len() || names.len() < self.names.len() {
            return false;
        }
        parts[..self.parts.len()].copy_from_slice(&self.parts);
        names[..self.names.len()].copy_from_slice(&self.names);
        true
    }
}

//! The parts of values, lent from their bytes.
ghost use Rattle.std.specs.Prelude.{◌≡◌, ◌≤◌, [], ◌∷◌, map, IfOk, IfErr};
ghost use Rattle.xdr_types.specs.Kinds.{kind_at, opaque_up_to};
ghost use Rattle.xdr_types.specs.Layout.{entry, of_content, of_length};
ghost use Rattle.xdr_stream.specs.declared.fault.Reason.TheVariants.{NoMemory};
ghost use Rattle.xdr_parts.specs.Lent.{entry_of};
ghost use Rattle.example_xdr.specs.Rfc.{file_kinds, part, sillyprog_bytes};
ghost use Rattle.example_xdr.specs.Lent.{bytes_of_each, sillyprog_entries, sillyprog_lent};

use std::alloc::Global;
use xdr_codec::{DecodeFault, Lent, PartCounts, SizedParts, count_parts, parts, sized_parts};
use xdr_types::{KindId, Limits, Schema};

/// The 48 bytes of RFC 4506 section 7 have ten parts, and the content of each string is lent without the zeros after
/// it.
pub fn lends_the_file<'a>(
    alloc: Global,
    schema: &'a Schema,
    limits: Limits,
    input: &'a [u8],
) -> Result<Vec<Lent<'a>>, DecodeFault>
    requires kinds { schema.now.kinds ≡ file_kinds }
    requires deep { 3 ≤ limits.depth }
    requires buffer { 48 ≤ limits.bytes }
    requires input { input.now ≡ sillyprog_bytes }
    ensures parts { IfOk result (λ ls. map entry_of ls.items ≡ sillyprog_entries) }
    ensures bytes { IfOk result (λ ls. bytes_of_each ls.items ≡ sillyprog_lent) }
    ensures taken { IfErr result (λ f. f.why ≡ NoMemory) }
{
    let _in_range = limits.depth();
    parts(alloc, schema, KindId { place: 6 }, limits, input)
}

/// They are counted alike: 48 bytes, ten parts, and 60 bytes of their names.
pub fn counts_the_file(
    alloc: Global,
    schema: &Schema,
    limits: Limits,
    input: &[u8],
) -> Result<PartCounts, DecodeFault>
    requires kinds { schema.now.kinds ≡ file_kinds }
    requires deep { 3 ≤ limits.depth }
    requires buffer { 48 ≤ limits.bytes }
    requires input { input.now ≡ sillyprog_bytes }
    ensures counts { IfOk result (λ c. (c.used ≡ 48) × (c.parts ≡ 10) × (c.names ≡ 60)) }
    ensures taken { IfErr result (λ f. f.why ≡ NoMemory) }
{
    let _in_range = limits.depth();
    count_parts(alloc, schema, KindId { place: 6 }, limits, input)
}

/// `sized_parts` reports both of one look at the bytes: the ten parts, and the counts.
pub fn sizes_the_file<'a>(
    alloc: Global,
    schema: &'a Schema,
    limits: Limits,
    input: &'a [u8],
) -> Result<SizedParts<'a>, DecodeFault>
    requires kinds { schema.now.kinds ≡ file_kinds }
    requires deep { 3 ≤ limits.depth }
    requires buffer { 48 ≤ limits.bytes }
    requires input { input.now ≡ sillyprog_bytes }
    ensures counts { IfOk result (λ s. (s.counts.used ≡ 48) × (s.counts.parts ≡ 10) × (s.counts.names ≡ 60)) }
    ensures parts { IfOk result (λ s. map entry_of s.list.items ≡ sillyprog_entries) }
    ensures taken { IfErr result (λ f. f.why ≡ NoMemory) }
{
    let _in_range = limits.depth();
    sized_parts(alloc, schema, KindId { place: 6 }, limits, input)
}

/// An empty string has a length and content of no bytes, and what follows it is no part.
pub fn lends_an_empty_opaque<'a>(
    alloc: Global,
    schema: &'a Schema,
    kind: KindId,
    limits: Limits,
    input: &'a [u8],
) -> Result<Vec<Lent<'a>>, DecodeFault>
    requires kind { kind_at schema.now.kinds kind.place ≡ opaque_up_to 4294967295 }
    requires input { input.now ≡ 0 ∷ 0 ∷ 0 ∷ 0 ∷ 0 ∷ 0 ∷ 0 ∷ 42 ∷ [] }
    ensures parts { IfOk result (λ ls. map entry_of ls.items
        ≡ entry 0 4 1 (part [] kind.place) of_length ∷ entry 4 0 1 (part [] kind.place) (of_content 0) ∷ []) }
    ensures bytes { IfOk result (λ ls. bytes_of_each ls.items ≡ (0 ∷ 0 ∷ 0 ∷ 0 ∷ []) ∷ [] ∷ []) }
    ensures taken { IfErr result (λ f. f.why ≡ NoMemory) }
{
    let _in_range = limits.depth();
    parts(alloc, schema, kind, limits, input)
}

//! The reason of a discriminant that is refused, by its kind, and which of two reasons at one place is told. Each
//! function gives bytes to the calls of `reasons`, and its `ensures` is the fault of each.
ghost use Rattle.std.specs.Prelude.{◌≡◌, ◌≤◌, ◌<◌, [], ◌∷◌, None, length, take};
ghost use Rattle.xdr_types.specs.Kinds.{kind_at, boolean, unsigned, numbered, up_to, choice};
ghost use Rattle.xdr_stream.specs.declared.fault.Reason.TheVariants as reason;
ghost use Rattle.example_xdr.specs.Rfc.{file_kinds, arm, part, two_members};
ghost use Rattle.example_xdr.specs.Reported.{EachSays};

use crate::reasons::{Faults, laws, reported};
use std::alloc::Global;
use xdr_types::{KindId, Limits, Schema};

/// A discriminant that no member has, here 3 of the file's kinds: `BadNumbered` at its unit (RFC 4506 section 4.15).
pub fn reports_a_discriminant_of_no_member(
    alloc: Global,
    schema: &Schema,
    limits: Limits,
    input: &[u8],
) -> Faults
    requires kinds { schema.now.kinds ≡ file_kinds }
    requires depth { 2 ≤ limits.depth }
    requires input { take 4 input.now ≡ 0 ∷ 0 ∷ 0 ∷ 3 ∷ [] }
    ensures { EachSays (record { why = reason.BadNumbered; at = 0 }) result }
{
    laws(schema, limits);
    reported(alloc, schema, KindId { place: 4 }, limits, input)
}

/// A member's number under which no arm stands, here 1 beside `case 0`: `BadCase` at its unit (RFC 4506 section 4.15).
pub fn reports_a_member_without_an_arm(
    alloc: Global,
    schema: &Schema,
    kind: KindId,
    tag: KindId,
    limits: Limits,
    input: &[u8],
) -> Faults
    requires has { kind.place < length schema.now.kinds }
    requires kind { kind_at schema.now.kinds kind.place ≡ choice tag.place (arm 0 (part [] tag.place) ∷ []) None }
    requires tag { kind_at schema.now.kinds tag.place ≡ numbered two_members }
    requires depth { 2 ≤ limits.depth }
    requires input { take 4 input.now ≡ 0 ∷ 0 ∷ 0 ∷ 1 ∷ [] }
    ensures { EachSays (record { why = reason.BadCase; at = 0 }) result }
{
    laws(schema, limits);
    reported(alloc, schema, kind, limits, input)
}

/// A boolean under which no arm stands, here FALSE beside `case TRUE`: `BadCase` too (RFC 4506 section 4.15).
pub fn reports_a_boolean_without_an_arm(
    alloc: Global,
    schema: &Schema,
    kind: KindId,
    tag: KindId,
    limits: Limits,
    input: &[u8],
) -> Faults
    requires has { kind.place < length schema.now.kinds }
    requires kind { kind_at schema.now.kinds kind.place ≡ choice tag.place (arm 1 (part [] tag.place) ∷ []) None }
    requires tag { kind_at schema.now.kinds tag.place ≡ boolean }
    requires depth { 2 ≤ limits.depth }
    requires input { take 4 input.now ≡ 0 ∷ 0 ∷ 0 ∷ 0 ∷ [] }
    ensures { EachSays (record { why = reason.BadCase; at = 0 }) result }
{
    laws(schema, limits);
    reported(alloc, schema, kind, limits, input)
}

/// So of an unsigned discriminant, here 2 beside `case 1` (RFC 4506 section 4.15).
pub fn reports_an_unsigned_discriminant_without_an_arm(
    alloc: Global,
    schema: &Schema,
    kind: KindId,
    tag: KindId,
    limits: Limits,
    input: &[u8],
) -> Faults
    requires has { kind.place < length schema.now.kinds }
    requires kind { kind_at schema.now.kinds kind.place ≡ choice tag.place (arm 1 (part [] tag.place) ∷ []) None }
    requires tag { kind_at schema.now.kinds tag.place ≡ unsigned }
    requires depth { 2 ≤ limits.depth }
    requires input { take 4 input.now ≡ 0 ∷ 0 ∷ 0 ∷ 2 ∷ [] }
    ensures { EachSays (record { why = reason.BadCase; at = 0 }) result }
{
    laws(schema, limits);
    reported(alloc, schema, kind, limits, input)
}

/// At the limit on bytes the next unit is not looked at: `TooLarge`, be the first of these booleans none or not.
pub fn reports_the_limit_before_the_unit(
    alloc: Global,
    schema: &Schema,
    kind: KindId,
    item: KindId,
    limits: Limits,
    input: &[u8],
) -> Faults
    requires has { kind.place < length schema.now.kinds }
    requires kind { kind_at schema.now.kinds kind.place ≡ up_to item.place 2 }
    requires item { kind_at schema.now.kinds item.place ≡ boolean }
    requires depth { 2 ≤ limits.depth }
    requires limit { limits.bytes ≡ 4 }
    requires input { take 4 input.now ≡ 0 ∷ 0 ∷ 0 ∷ 1 ∷ [] }
    ensures { EachSays (record { why = reason.TooLarge; at = 4 }) result }
{
    laws(schema, limits);
    reported(alloc, schema, kind, limits, input)
}

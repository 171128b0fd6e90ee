//! The reason and the place of a refusal, which `decode`, a decoder and `parts` say alike. Each function gives bytes to
//! all three, and its `ensures` is the fault of each, save that memory may be refused.
ghost use Rattle.std.specs.Prelude.{◌≡◌, ◌≤◌, ◌<◌, [], ◌∷◌, None, length, take};
ghost use Rattle.xdr_types.specs.Kinds.{kind_at, boolean, int, opaque_up_to, text, up_to, maybe, choice};
ghost use Rattle.xdr_types.specs.Within.{AreBounds};
ghost use Rattle.xdr_types.specs.Outcome.{Outcome, Ending};
ghost use Rattle.xdr_types.specs.Laws.{EachSpellingIsOneValue};
ghost use Rattle.xdr_laws.specs.Laws.{OneOutcome, SameParts, GoesOn};
ghost use Rattle.xdr_stream.specs.declared.fault.Reason.TheVariants as reason;
ghost use Rattle.example_xdr.specs.Rfc.{file_kinds, arm, part};
ghost use Rattle.example_xdr.specs.Reported.{fault_of, IsNone, Says, EachSays};

use std::alloc::Global;
use xdr_codec::laws::{each_spelling_is_one_value, goes_on, one_outcome, same_parts};
use xdr_codec::{DecodeFault, Decoder, decode, parts};
use xdr_types::{KindId, Limits, Schema};

/// The faults of three calls on the same bytes.
#[derive(Clone, Copy)]
pub struct Faults {
    /// `decode`'s.
    pub decoded: Option<DecodeFault>,
    /// A decoder's that was given them as one piece and then asked for the value.
    pub fed: Option<DecodeFault>,
    /// `parts`'.
    pub lent: Option<DecodeFault>,
}

// What a decoder says of one piece and the end after it.
fn fed(
    alloc: Global,
    schema: &Schema,
    kind: KindId,
    limits: Limits,
    input: &[u8],
) -> Option<DecodeFault>
    requires { kind.place < length schema.now.kinds }
    ensures { (e : Ending) → IsNone e → Outcome schema.now.kinds kind.place limits input.now e
        → Says (fault_of (length input.now) e) result }
{
    // Bytes have one outcome alone: a law.
    one_outcome();
    let mut decoder = Decoder::start(alloc, schema, kind, limits);
    match decoder.feed(input) {
        Ok(_) => decoder.finish().err(),
        Err(fault) => Some(fault),
    }
}

// The faults of all three calls. Where decoding ends without a value, each says how.
pub(crate) fn reported(
    alloc: Global,
    schema: &Schema,
    kind: KindId,
    limits: Limits,
    input: &[u8],
) -> Faults
    requires { kind.place < length schema.now.kinds }
    ensures { (e : Ending) → IsNone e → Outcome schema.now.kinds kind.place limits input.now e
        → EachSays (fault_of (length input.now) e) result }
{
    // Bytes have one outcome alone: a law.
    one_outcome();
    Faults {
        decoded: decode(alloc, schema, kind, limits, input).err(),
        fed: fed(alloc, schema, kind, limits, input),
        lent: parts(alloc, schema, kind, limits, input).err(),
    }
}

// The laws by which some bytes have the outcome that they have, and what limits and a schema are.
pub(crate) fn laws(schema: &Schema, limits: Limits)
    ensures same { SameParts schema.now.kinds }
    ensures unique { EachSpellingIsOneValue schema.now.kinds }
    ensures goes { GoesOn schema.now.kinds }
    ensures range { AreBounds limits.depth limits.bytes }
{
    let _known = schema.len();
    let _in_range = limits.depth();
    same_parts();
    each_spelling_is_one_value();
    goes_on();
}

/// Two is no boolean: `BadBool` at its unit (RFC 4506 section 4.4).
pub fn reports_a_bad_boolean(
    alloc: Global,
    schema: &Schema,
    kind: KindId,
    limits: Limits,
    input: &[u8],
) -> Faults
    requires has { kind.place < length schema.now.kinds }
    requires kind { kind_at schema.now.kinds kind.place ≡ boolean }
    requires input { take 4 input.now ≡ 0 ∷ 0 ∷ 0 ∷ 2 ∷ [] }
    ensures { EachSays (record { why = reason.BadBool; at = 0 }) result }
{
    laws(schema, limits);
    reported(alloc, schema, kind, limits, input)
}

/// Nor a flag of an optional (RFC 4506 section 4.19).
pub fn reports_a_bad_flag(
    alloc: Global,
    schema: &Schema,
    kind: KindId,
    item: KindId,
    limits: Limits,
    input: &[u8],
) -> Faults
    requires has { kind.place < length schema.now.kinds }
    requires kind { kind_at schema.now.kinds kind.place ≡ maybe item.place }
    requires input { take 4 input.now ≡ 0 ∷ 0 ∷ 0 ∷ 2 ∷ [] }
    ensures { EachSays (record { why = reason.BadBool; at = 0 }) result }
{
    laws(schema, limits);
    reported(alloc, schema, kind, limits, input)
}

/// A number that no member has, here 3 of the file's kinds: `BadNumbered` at its unit (RFC 4506 section 4.3).
pub fn reports_a_number_without_a_name(
    alloc: Global,
    schema: &Schema,
    limits: Limits,
    input: &[u8],
) -> Faults
    requires kinds { schema.now.kinds ≡ file_kinds }
    requires input { take 4 input.now ≡ 0 ∷ 0 ∷ 0 ∷ 3 ∷ [] }
    ensures { EachSays (record { why = reason.BadNumbered; at = 0 }) result }
{
    laws(schema, limits);
    reported(alloc, schema, KindId { place: 0 }, limits, input)
}

/// A discriminant without an arm, here 2 beside `case 1`: `BadCase` at its unit (RFC 4506 section 4.15).
pub fn reports_a_discriminant_without_an_arm(
    alloc: Global,
    schema: &Schema,
    kind: KindId,
    tag: KindId,
    limits: Limits,
    input: &[u8],
) -> Faults
    requires has { kind.place < length schema.now.kinds }
    requires kind { kind_at schema.now.kinds kind.place ≡ choice tag.place (arm 1 (part [] tag.place) ∷ []) None }
    requires tag { kind_at schema.now.kinds tag.place ≡ int }
    requires depth { 2 ≤ limits.depth }
    requires input { take 4 input.now ≡ 0 ∷ 0 ∷ 0 ∷ 2 ∷ [] }
    ensures { EachSays (record { why = reason.BadCase; at = 0 }) result }
{
    laws(schema, limits);
    reported(alloc, schema, kind, limits, input)
}

/// A discriminant that is no boolean, where the union asks for one: `BadBool` at its unit (RFC 4506 section 4.15).
pub fn reports_a_bad_boolean_discriminant(
    alloc: Global,
    schema: &Schema,
    kind: KindId,
    tag: KindId,
    limits: Limits,
    input: &[u8],
) -> Faults
    requires has { kind.place < length schema.now.kinds }
    requires kind { kind_at schema.now.kinds kind.place
        ≡ choice tag.place (arm 0 (part [] tag.place) ∷ arm 1 (part [] tag.place) ∷ []) None }
    requires tag { kind_at schema.now.kinds tag.place ≡ boolean }
    requires depth { 2 ≤ limits.depth }
    requires input { take 4 input.now ≡ 0 ∷ 0 ∷ 0 ∷ 2 ∷ [] }
    ensures { EachSays (record { why = reason.BadBool; at = 0 }) result }
{
    laws(schema, limits);
    reported(alloc, schema, kind, limits, input)
}

/// A length above its maximum: `TooLong` at its unit, from its fourth byte on (RFC 4506 section 4.10).
pub fn reports_a_length_above_the_maximum(
    alloc: Global,
    schema: &Schema,
    kind: KindId,
    limits: Limits,
    input: &[u8],
) -> Faults
    requires has { kind.place < length schema.now.kinds }
    requires kind { kind_at schema.now.kinds kind.place ≡ opaque_up_to 5 }
    requires input { take 4 input.now ≡ 0 ∷ 0 ∷ 0 ∷ 6 ∷ [] }
    ensures { EachSays (record { why = reason.TooLong; at = 0 }) result }
{
    laws(schema, limits);
    reported(alloc, schema, kind, limits, input)
}

/// A count above its maximum: the same (RFC 4506 section 4.13).
pub fn reports_a_count_above_the_maximum(
    alloc: Global,
    schema: &Schema,
    kind: KindId,
    item: KindId,
    limits: Limits,
    input: &[u8],
) -> Faults
    requires has { kind.place < length schema.now.kinds }
    requires kind { kind_at schema.now.kinds kind.place ≡ up_to item.place 2 }
    requires input { take 4 input.now ≡ 0 ∷ 0 ∷ 0 ∷ 3 ∷ [] }
    ensures { EachSays (record { why = reason.TooLong; at = 0 }) result }
{
    laws(schema, limits);
    reported(alloc, schema, kind, limits, input)
}

/// Padding that is not zero: `BadPadding` at the unit in which it stands, here that of `abc` (RFC 4506 section 3).
pub fn reports_other_padding(
    alloc: Global,
    schema: &Schema,
    kind: KindId,
    limits: Limits,
    input: &[u8],
) -> Faults
    requires has { kind.place < length schema.now.kinds }
    requires kind { kind_at schema.now.kinds kind.place ≡ opaque_up_to 5 }
    requires limit { 8 ≤ limits.bytes }
    requires input { take 8 input.now ≡ 0 ∷ 0 ∷ 0 ∷ 3 ∷ 97 ∷ 98 ∷ 99 ∷ 1 ∷ [] }
    ensures { EachSays (record { why = reason.BadPadding; at = 4 }) result }
{
    laws(schema, limits);
    reported(alloc, schema, kind, limits, input)
}

/// A field below the limit on depth: `TooDeep` at the place where it is due, before any byte here.
pub fn reports_a_field_below_the_limit(
    alloc: Global,
    schema: &Schema,
    limits: Limits,
    input: &[u8],
) -> Faults
    requires kinds { schema.now.kinds ≡ file_kinds }
    requires depth { limits.depth ≡ 1 }
    ensures { EachSays (record { why = reason.TooDeep; at = 0 }) result }
{
    reported(alloc, schema, KindId { place: 6 }, limits, input)
}

/// An optional's number below the limit on depth: `TooDeep` at the place where it is due, here behind its flag.
pub fn reports_an_item_below_the_limit(
    alloc: Global,
    schema: &Schema,
    kind: KindId,
    item: KindId,
    limits: Limits,
    input: &[u8],
) -> Faults
    requires has { kind.place < length schema.now.kinds }
    requires kind { kind_at schema.now.kinds kind.place ≡ maybe item.place }
    requires item { kind_at schema.now.kinds item.place ≡ int }
    requires depth { limits.depth ≡ 1 }
    requires input { take 4 input.now ≡ 0 ∷ 0 ∷ 0 ∷ 1 ∷ [] }
    ensures { EachSays (record { why = reason.TooDeep; at = 4 }) result }
{
    laws(schema, limits);
    reported(alloc, schema, kind, limits, input)
}

/// A value that is not whole at the limit on bytes: `TooLarge` at the limit, here with four of eight bytes missing.
pub fn reports_more_than_the_limit(
    alloc: Global,
    schema: &Schema,
    kind: KindId,
    limits: Limits,
    input: &[u8],
) -> Faults
    requires has { kind.place < length schema.now.kinds }
    requires kind { kind_at schema.now.kinds kind.place ≡ opaque_up_to 4294967295 }
    requires limit { limits.bytes ≡ 8 }
    requires input { take 8 input.now ≡ 0 ∷ 0 ∷ 0 ∷ 8 ∷ 97 ∷ 97 ∷ 97 ∷ 97 ∷ [] }
    ensures { EachSays (record { why = reason.TooLarge; at = 8 }) result }
{
    laws(schema, limits);
    reported(alloc, schema, kind, limits, input)
}

/// Bytes that end inside the value: `Truncated` at their count, here with four of nine characters missing.
pub fn reports_a_cut_string(
    alloc: Global,
    schema: &Schema,
    kind: KindId,
    limits: Limits,
    input: &[u8],
) -> Faults
    requires has { kind.place < length schema.now.kinds }
    requires kind { kind_at schema.now.kinds kind.place ≡ text 255 }
    requires limit { 12 ≤ limits.bytes }
    requires input { input.now ≡ 0 ∷ 0 ∷ 0 ∷ 9 ∷ 115 ∷ 105 ∷ 108 ∷ 108 ∷ 121 ∷ [] }
    ensures { EachSays (record { why = reason.Truncated; at = 9 }) result }
{
    laws(schema, limits);
    reported(alloc, schema, kind, limits, input)
}

//! What bytes are values, and what a refusal rules out.
ghost use Rattle.std.specs.Prelude.{◌≡◌, ◌≤◌, ◌<◌, ℕ, List, [], ◌∷◌, ◌++◌, None, length, IfOk, IfErr, IfSome, IsErr};
ghost use Rattle.std.specs.Prelude.{IsTrue};
ghost use Rattle.xdr_types.specs.Kinds.{kind_at, boolean, int, fixed, opaque_up_to, text, up_to, choice};
ghost use Rattle.xdr_types.specs.View.{tree};
ghost use Rattle.xdr_stream.specs.declared.fault.Reason.TheVariants.{NoMemory, Truncated};
ghost use Rattle.example_xdr.specs.Rfc.{content, file_kinds, sillyprog, sillyprog_bytes, arm, part};

use std::alloc::Global;
use xdr_codec::{DecodeFault, Reason, decode, encode};
use xdr_types::{KindId, Limits, Schema, Value};

/// The 48 bytes of RFC 4506 section 7 are the file, and all of them are used.
pub fn decodes_the_file(
    alloc: Global,
    schema: &Schema,
    limits: Limits,
    input: &[u8],
) -> Result<(Value, usize), DecodeFault>
    requires kinds { schema.now.kinds ≡ file_kinds }
    requires deep { 3 ≤ limits.depth }
    requires buffer { 48 ≤ limits.bytes }
    requires input { input.now ≡ sillyprog_bytes }
    ensures value { IfOk result (λ r. (tree r.0 ≡ sillyprog) × (r.1 ≡ 48)) }
    ensures taken { IfErr result (λ f. f.why ≡ NoMemory) }
{
    decode(alloc, schema, KindId { place: 6 }, limits, input)
}

/// A value that has exactly as many bytes as the limit allows is accepted, and what follows it is left.
pub fn accepts_the_whole_limit(
    alloc: Global,
    schema: &Schema,
    kind: KindId,
    limits: Limits,
    input: &[u8],
) -> Result<(Value, usize), DecodeFault>
    requires has { kind.place < length schema.now.kinds }
    requires kind { kind_at schema.now.kinds kind.place ≡ opaque_up_to 5 }
    requires limit { limits.bytes ≡ 8 }
    requires depth { 1 ≤ limits.depth }
    requires input { input.now ≡ 0 ∷ 0 ∷ 0 ∷ 3 ∷ 97 ∷ 98 ∷ 99 ∷ 0 ∷ 42 ∷ [] }
    ensures value { IfOk result (λ r. (tree r.0 ≡ content (97 ∷ 98 ∷ 99 ∷ [])) × (r.1 ≡ 8)) }
    ensures taken { IfErr result (λ f. f.why ≡ NoMemory) }
{
    decode(alloc, schema, kind, limits, input)
}

/// An empty string is its length alone: four of these eight bytes are used.
pub fn leaves_what_follows(
    alloc: Global,
    schema: &Schema,
    kind: KindId,
    limits: Limits,
) -> Result<(Value, usize), DecodeFault>
    requires has { kind.place < length schema.now.kinds }
    requires kind { kind_at schema.now.kinds kind.place ≡ opaque_up_to 4294967295 }
    requires limit { 4 ≤ limits.bytes }
    requires depth { 1 ≤ limits.depth }
    ensures value { IfOk result (λ r. (tree r.0 ≡ content []) × (r.1 ≡ 4)) }
    ensures taken { IfErr result (λ f. f.why ≡ NoMemory) }
{
    decode(alloc, schema, kind, limits, &[0, 0, 0, 0, 0, 0, 0, 42])
}

/// An array of two has two items, and both are read (RFC 4506 section 4.12).
pub fn reads_each_item(
    alloc: Global,
    schema: &Schema,
    kind: KindId,
    item: KindId,
    limits: Limits,
) -> Result<(Value, usize), DecodeFault>
    requires has { kind.place < length schema.now.kinds }
    requires kind { kind_at schema.now.kinds kind.place ≡ fixed item.place 2 }
    requires item { kind_at schema.now.kinds item.place ≡ int }
    requires limit { 8 ≤ limits.bytes }
    requires depth { 2 ≤ limits.depth }
    ensures value { IfOk result (λ r. r.1 ≡ 8) }
    ensures taken { IfErr result (λ f. f.why ≡ NoMemory) }
{
    decode(
        alloc,
        schema,
        kind,
        limits,
        &[0, 0, 0, 7, 0, 0, 0, 8, 0, 0, 0, 9],
    )
}

/// What `decode` gives has exactly the bytes that it was read from, by `encode`.
pub fn encodes_what_was_decoded(
    alloc: Global,
    schema: &Schema,
    kind: KindId,
    limits: Limits,
    input: &[u8],
) -> Option<bool>
    requires { kind.place < length schema.now.kinds }
    ensures { IfSome result (λ same. IsTrue same) }
{
    let (value, used) = decode(alloc, schema, kind, limits, input).ok()?;
    let bytes = encode(alloc, schema, kind, &value, limits).ok()?;
    Some(bytes.as_slice() == &input[..used])
}

/// A byte of padding that is not zero is never accepted, whatever follows (RFC 4506 section 3).
pub fn refuses_other_padding(
    alloc: Global,
    schema: &Schema,
    kind: KindId,
    limits: Limits,
    input: &[u8],
) -> Result<(Value, usize), DecodeFault>
    ghost rest: { List ℕ }
    requires has { kind.place < length schema.now.kinds }
    requires kind { kind_at schema.now.kinds kind.place ≡ opaque_up_to 5 }
    requires input { input.now ≡ (0 ∷ 0 ∷ 0 ∷ 3 ∷ 97 ∷ 98 ∷ 99 ∷ 1 ∷ []) ++ rest }
    ensures { IsErr result }
{
    decode(alloc, schema, kind, limits, input)
}

/// A length above the maximum is never accepted, whatever follows (RFC 4506 section 4.10).
pub fn refuses_a_length_above_the_maximum(
    alloc: Global,
    schema: &Schema,
    kind: KindId,
    limits: Limits,
    input: &[u8],
) -> Result<(Value, usize), DecodeFault>
    ghost rest: { List ℕ }
    requires has { kind.place < length schema.now.kinds }
    requires kind { kind_at schema.now.kinds kind.place ≡ opaque_up_to 5 }
    requires input { input.now ≡ (0 ∷ 0 ∷ 0 ∷ 6 ∷ []) ++ rest }
    ensures { IsErr result }
{
    decode(alloc, schema, kind, limits, input)
}

/// A count above the maximum is never accepted, whatever follows (RFC 4506 section 4.13).
pub fn refuses_a_count_above_the_maximum(
    alloc: Global,
    schema: &Schema,
    kind: KindId,
    item: KindId,
    limits: Limits,
    input: &[u8],
) -> Result<(Value, usize), DecodeFault>
    ghost rest: { List ℕ }
    requires has { kind.place < length schema.now.kinds }
    requires kind { kind_at schema.now.kinds kind.place ≡ up_to item.place 2 }
    requires input { input.now ≡ (0 ∷ 0 ∷ 0 ∷ 3 ∷ []) ++ rest }
    ensures { IsErr result }
{
    decode(alloc, schema, kind, limits, input)
}

/// Two is no boolean (RFC 4506 section 4.4).
pub fn refuses_two_as_a_boolean(
    alloc: Global,
    schema: &Schema,
    kind: KindId,
    limits: Limits,
    input: &[u8],
) -> Result<(Value, usize), DecodeFault>
    ghost rest: { List ℕ }
    requires has { kind.place < length schema.now.kinds }
    requires kind { kind_at schema.now.kinds kind.place ≡ boolean }
    requires input { input.now ≡ (0 ∷ 0 ∷ 0 ∷ 2 ∷ []) ++ rest }
    ensures { IsErr result }
{
    decode(alloc, schema, kind, limits, input)
}

/// A number that no member has is no value of the enumeration, here 3 of the file's kinds (RFC 4506 section 4.3).
pub fn refuses_a_number_without_a_name(
    alloc: Global,
    schema: &Schema,
    limits: Limits,
    input: &[u8],
) -> Result<(Value, usize), DecodeFault>
    ghost rest: { List ℕ }
    requires kinds { schema.now.kinds ≡ file_kinds }
    requires input { input.now ≡ (0 ∷ 0 ∷ 0 ∷ 3 ∷ []) ++ rest }
    ensures { IsErr result }
{
    decode(alloc, schema, KindId { place: 0 }, limits, input)
}

/// A discriminant without an arm is no value where the union has no default, here 2 beside `case 1`
/// (RFC 4506 section 4.15).
pub fn refuses_a_discriminant_without_an_arm(
    alloc: Global,
    schema: &Schema,
    kind: KindId,
    tag: KindId,
    limits: Limits,
    input: &[u8],
) -> Result<(Value, usize), DecodeFault>
    ghost rest: { List ℕ }
    requires has { kind.place < length schema.now.kinds }
    requires kind { kind_at schema.now.kinds kind.place ≡ choice tag.place (arm 1 (part [] tag.place) ∷ []) None }
    requires tag { kind_at schema.now.kinds tag.place ≡ int }
    requires input { input.now ≡ (0 ∷ 0 ∷ 0 ∷ 2 ∷ []) ++ rest }
    ensures { IsErr result }
{
    decode(alloc, schema, kind, limits, input)
}

/// Two is no boolean discriminant, also where the union has an arm for each boolean (RFC 4506 section 4.15).
pub fn refuses_two_as_a_boolean_discriminant(
    alloc: Global,
    schema: &Schema,
    kind: KindId,
    tag: KindId,
    limits: Limits,
    input: &[u8],
) -> Result<(Value, usize), DecodeFault>
    ghost rest: { List ℕ }
    requires has { kind.place < length schema.now.kinds }
    requires kind { kind_at schema.now.kinds kind.place
        ≡ choice tag.place (arm 0 (part [] tag.place) ∷ arm 1 (part [] tag.place) ∷ []) None }
    requires tag { kind_at schema.now.kinds tag.place ≡ boolean }
    requires input { input.now ≡ (0 ∷ 0 ∷ 0 ∷ 2 ∷ []) ++ rest }
    ensures { IsErr result }
{
    decode(alloc, schema, kind, limits, input)
}

/// A field lies one deeper than its structure: none fits within depth 1, whatever the bytes.
pub fn refuses_a_field_below_the_limit(
    alloc: Global,
    schema: &Schema,
    limits: Limits,
    input: &[u8],
) -> Result<(Value, usize), DecodeFault>
    requires kinds { schema.now.kinds ≡ file_kinds }
    requires depth { limits.depth ≡ 1 }
    ensures { IsErr result }
{
    decode(alloc, schema, KindId { place: 6 }, limits, input)
}

/// A value that is cut short is never accepted, and the place of `Truncated` is the count of all bytes: here four of
/// nine characters are missing.
pub fn refuses_a_cut_string(
    alloc: Global,
    schema: &Schema,
    kind: KindId,
    limits: Limits,
) -> Result<(Value, usize), DecodeFault>
    requires has { kind.place < length schema.now.kinds }
    requires kind { kind_at schema.now.kinds kind.place ≡ text 255 }
    ensures refused { IsErr result }
    ensures place { IfErr result (λ f. f.why ≡ Truncated → f.at ≡ 9) }
{
    decode(alloc, schema, kind, limits, b"\0\0\0\x09silly")
}

/// Each reason has a number.
pub fn numbers_the_reasons() -> [u8; 9]
    ensures { result ≡ 1 ∷ 2 ∷ 3 ∷ 4 ∷ 5 ∷ 6 ∷ 7 ∷ 8 ∷ 9 ∷ [] }
{
    [
        Reason::BadBool.number(),
        Reason::BadNumbered.number(),
        Reason::BadCase.number(),
        Reason::TooLong.number(),
        Reason::BadPadding.number(),
        Reason::TooDeep.number(),
        Reason::TooLarge.number(),
        Reason::Truncated.number(),
        Reason::NoMemory.number(),
    ]
}

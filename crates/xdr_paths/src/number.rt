//! The number that a part has.
ghost use Rattle.std.specs.Prelude.{◌≡◌, ◌<◌, ◌^◌, ℕ, ℤ, pos, length, IfSome, IfNone, MatchOption, FitsSigned};
ghost use Rattle.std.specs.Int.{w32, w64};
ghost use Rattle.xdr_types.specs.Kinds.{kind_at};
ghost use Rattle.xdr_units.specs.Numbers.{num4, num8, word, long_word};
ghost use Rattle.xdr_paths.specs.Numbers.{IsNumberOf, numbers_of};

use xdr_parts::{Lent, Role};
use xdr_types::{Kind, KindId, Schema};
use xdr_units::{first_long_word, first_word};

/// The number that the bytes of a part are: of an integer, a boolean, an enumeration, a discriminant, a flag or a
/// length (RFC 4506 sections 4.1 to 4.5, 4.10 to 4.15, 4.19). None of content and of what has no bytes, and where the
/// bytes are not those of a number of the part's kind, as they are where the part is one of a value. It takes no
/// memory.
pub fn part_number(schema: &Schema, part: &Lent) -> Option<i128>
    // The bytes are those of the number, in the kind of the part,
    ensures found { IfSome result (IsNumberOf schema.now.kinds part.now) }
    // and where there is none, they are those of no number.
    ensures none { IfNone result ((z : ℤ) → IsNumberOf schema.now.kinds part.now z → ⊥) }
{
    if let Role::Content | Role::Group = part.role {
        return None;
    }
    let kind = counted_in(schema, part.kind);
    if !schema.has(kind) {
        return unsigned_unit(part.bytes);
    }
    match schema.kind(kind) {
        Kind::Int | Kind::Numbered { .. } => signed_unit(part.bytes),
        Kind::Hyper => signed_units(part.bytes),
        Kind::UnsignedHyper => unsigned_units(part.bytes),
        _ => unsigned_unit(part.bytes),
    }
}

// The kind whose numbers a part of the kind has.
fn counted_in(schema: &Schema, kind: KindId) -> KindId
    ensures { kind_at schema.now.kinds result.place
        ≡ numbers_of schema.now.kinds (kind_at schema.now.kinds kind.place) }
{
    if !schema.has(kind) {
        return kind;
    }
    match schema.kind(kind) {
        Kind::Choice { tag, .. } => *tag,
        _ => kind,
    }
}

// A signed number of one unit.
fn signed_unit(bytes: &[u8]) -> Option<i128>
    ensures found { IfSome result (λ z. FitsSigned w32 z × (bytes.now ≡ num4 z)) }
    ensures none { IfNone result (length bytes.now ≡ 4 → ⊥) }
{
    Some(i128::from(whole_word(bytes)?.cast_signed()))
}

// An unsigned number of one unit.
fn unsigned_unit(bytes: &[u8]) -> Option<i128>
    ensures found { IfSome result (λ z. (n : ℕ) × (n < 2 ^ 32) × (z ≡ pos n) × (bytes.now ≡ word n)) }
    ensures none { IfNone result (length bytes.now ≡ 4 → ⊥) }
{
    Some(i128::from(whole_word(bytes)?))
}

// A signed number of two units.
fn signed_units(bytes: &[u8]) -> Option<i128>
    ensures found { IfSome result (λ z. FitsSigned w64 z × (bytes.now ≡ num8 z)) }
    ensures none { IfNone result (length bytes.now ≡ 8 → ⊥) }
{
    Some(i128::from(whole_long_word(bytes)?.cast_signed()))
}

// An unsigned number of two units.
fn unsigned_units(bytes: &[u8]) -> Option<i128>
    ensures found { IfSome result (λ z. (n : ℕ) × (n < 2 ^ 64) × (z ≡ pos n) × (bytes.now ≡ long_word n)) }
    ensures none { IfNone result (length bytes.now ≡ 8 → ⊥) }
{
    Some(i128::from(whole_long_word(bytes)?))
}

// The number of one unit, all of the bytes.
fn whole_word(bytes: &[u8]) -> Option<u32>
    ensures { MatchOption result (length bytes.now ≡ 4 → ⊥) (λ n. bytes.now ≡ word n) }
{
    let (number, rest) = first_word(bytes)?;
    if rest.is_empty() { Some(number) } else { None }
}

// The number of two units, all of the bytes.
fn whole_long_word(bytes: &[u8]) -> Option<u64>
    ensures { MatchOption result (length bytes.now ≡ 8 → ⊥) (λ n. bytes.now ≡ long_word n) }
{
    let (number, rest) = first_long_word(bytes)?;
    if rest.is_empty() { Some(number) } else { None }
}

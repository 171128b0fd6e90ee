//! What stands at the front of bytes that are known.
ghost use Rattle.std.specs.Prelude.{◌≡◌, ℕ, ◌<◌, ◌^◌, List, ◌++◌, length};
ghost use Rattle.xdr_types.specs.KindViews.{kind_view};
ghost use Rattle.xdr_types.specs.Outcome.{number_in};
ghost use Rattle.xdr_units.specs.Numbers.{word, long_word, padded};

use xdr_types::Kind;
use xdr_units::{first_content, first_long_word, first_word};

/// The number of the unit at the front, and what follows it. Nothing is said of bytes that begin with none.
pub fn unit_of(bytes: &[u8]) -> (u32, &[u8])
    ensures { (n : ℕ) (rest : List ℕ) → n < 2 ^ 32 → bytes.now ≡ word n ++ rest
        → (result.0 ≡ n) × (result.1.now ≡ rest) }
{
    match first_word(bytes) {
        Some(found) => found,
        None => (0, bytes),
    }
}

/// The same of two units.
pub fn units_of(bytes: &[u8]) -> (u64, &[u8])
    ensures { (n : ℕ) (rest : List ℕ) → n < 2 ^ 64 → bytes.now ≡ long_word n ++ rest
        → (result.0 ≡ n) × (result.1.now ≡ rest) }
{
    match first_long_word(bytes) {
        Some(found) => found,
        None => (0, bytes),
    }
}

/// So many bytes at the front, and what follows their padding. Nothing is said of bytes that do not begin so.
pub fn content_of(bytes: &[u8], size: u32) -> (&[u8], &[u8])
    ensures { (content rest : List ℕ) → length content ≡ size → bytes.now ≡ padded content ++ rest
        → (result.0.now ≡ content) × (result.1.now ≡ rest) }
{
    match first_content(bytes, size) {
        Ok(found) => found,
        Err(_) => (bytes, bytes),
    }
}

/// The number that a unit stands for in a kind of discriminants (RFC 4506 section 4.15).
pub fn number_under(kind: &Kind, unit: u32) -> i64
    ensures { result ≡ number_in (kind_view kind.now) unit }
{
    match kind {
        Kind::Int | Kind::Numbered { .. } => i64::from(unit.cast_signed()),
        _ => i64::from(unit),
    }
}

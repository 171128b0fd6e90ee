//! Numbers that JSON spells: as a number, or as a string (RFC 4506 sections 4.1, 4.2, 4.5).
ghost use Rattle.std.specs.Prelude.{◌≡◌, ◌<◌, ℕ, ℤ, pos, ◌^◌, true, false, Some, Ok, IfSome, IfOk, IfErr};
ghost use Rattle.std.specs.Prelude.{MatchOption};
ghost use Rattle.std.specs.List.{list_any};
ghost use Rattle.xdr_types.specs.Fits.{is_signed};
ghost use Rattle.xdr_json.specs.Spelled.{is_decimal_of, is_number};
ghost use Rattle.xdr_json_reader.specs.Reasons.{is_mark, numeral_reason, number_reason};
ghost use Rattle.xdr_json_reader.specs.Private.Look.{seen};

use crate::fault::JsonReason;
use crate::reading_look::Shape;
use itoa::Buffer;

// The number of a decimal text, or 0 of `-0`.
fn signed_text(text: &str) -> Option<i64>
    ensures found { IfSome result (λ z. is_decimal_of z text.now ≡ true) }
    ensures only { (z : ℤ) → is_signed (2 ^ 63) z ≡ true → is_decimal_of z text.now ≡ true → result ≡ Some z }
{
    if text == "-0" {
        return Some(0);
    }
    let number: i64 = text.parse().ok()?;
    let mut buffer = Buffer::new();
    (buffer.format(number) == text).then_some(number)
}

// The same below 2^64.
fn unsigned_text(text: &str) -> Option<u64>
    ensures found { IfSome result (λ n. is_decimal_of (pos n) text.now ≡ true) }
    ensures only { (n : ℕ) → n < 2 ^ 64 → is_decimal_of (pos n) text.now ≡ true → result ≡ Some n }
{
    if text == "-0" {
        return Some(0);
    }
    let number: u64 = text.parse().ok()?;
    let mut buffer = Buffer::new();
    (buffer.format(number) == text).then_some(number)
}

// Whether a byte begins a fraction or an exponent.
fn is_fraction_or_exponent(byte: u8) -> bool
    ensures { result ≡ is_mark byte }
{
    byte == b'.' || byte == b'e' || byte == b'E'
}

// Whether one of them does.
fn has_fraction_or_exponent(bytes: &[u8]) -> bool
    ensures { result ≡ list_any is_mark bytes.now }
{
    for byte in bytes {
        if is_fraction_or_exponent(*byte) {
            return true;
        }
    }
    false
}

// Why a text is no number of the kind.
fn text_fault(text: &str) -> JsonReason
    ensures { result ≡ numeral_reason text.now }
{
    if has_fraction_or_exponent(text.as_bytes()) {
        JsonReason::NotWhole
    } else {
        JsonReason::OutOfRange
    }
}

/// Why JSON is no number of a kind of numbers.
pub fn number_fault(json: Shape<'_, '_>) -> JsonReason
    ensures { result ≡ number_reason (seen json.entry) }
{
    match json {
        Shape::Number(text) => text_fault(text),
        Shape::Text(text) => text_fault(text),
        _ => JsonReason::WrongType,
    }
}

/// The number from -2^63 to 2^63 - 1.
pub fn hyper_number(json: Shape<'_, '_>) -> Result<i64, JsonReason>
    ensures found { IfOk result (λ z. is_number z (seen json.entry) ≡ true) }
    ensures only { (z : ℤ) → is_signed (2 ^ 63) z ≡ true → is_number z (seen json.entry) ≡ true → result ≡ Ok z }
    ensures why { IfErr result (λ w. w ≡ number_reason (seen json.entry)) }
{
    match json {
        Shape::Number(text) => match signed_text(text) {
            Some(number) => Ok(number),
            None => Err(text_fault(text)),
        },
        Shape::Text(text) => match signed_text(text) {
            Some(number) => Ok(number),
            None => Err(text_fault(text)),
        },
        _ => Err(JsonReason::WrongType),
    }
}

/// The number from 0 to 2^64 - 1.
pub fn unsigned_hyper_number(json: Shape<'_, '_>) -> Result<u64, JsonReason>
    ensures found { IfOk result (λ n. is_number (pos n) (seen json.entry) ≡ true) }
    ensures only { (n : ℕ) → n < 2 ^ 64 → is_number (pos n) (seen json.entry) ≡ true → result ≡ Ok n }
    ensures why { IfErr result (λ w. w ≡ number_reason (seen json.entry)) }
{
    match json {
        Shape::Number(text) => match unsigned_text(text) {
            Some(number) => Ok(number),
            None => Err(text_fault(text)),
        },
        Shape::Text(text) => match unsigned_text(text) {
            Some(number) => Ok(number),
            None => Err(text_fault(text)),
        },
        _ => Err(JsonReason::WrongType),
    }
}

// A number of 32 bits with a sign.
fn narrow(number: i64) -> Option<i32>
    ensures { MatchOption result (is_signed (2 ^ 31) number ≡ false)
        (λ n. (n ≡ number) × (is_signed (2 ^ 31) n ≡ true)) }
{
    if number < -2147483648 || number > 2147483647 {
        return None;
    }
    Some(number as i32)
}

/// The number from -2^31 to 2^31 - 1.
pub fn int_number(json: Shape<'_, '_>) -> Result<i32, JsonReason>
    ensures found { IfOk result (λ z. is_number z (seen json.entry) ≡ true) }
    ensures legal { IfOk result (λ z. is_signed (2 ^ 31) z ≡ true) }
    ensures none { IfErr result (λ _. (z : ℤ) → is_signed (2 ^ 31) z ≡ true → is_number z (seen json.entry) ≡ true
        → ⊥) }
    ensures why { IfErr result (λ w. w ≡ number_reason (seen json.entry)) }
{
    match hyper_number(json) {
        Ok(number) => match narrow(number) {
            Some(number) => Ok(number),
            None => Err(number_fault(json)),
        },
        Err(why) => Err(why),
    }
}

/// The number from 0 to 2^32 - 1.
pub fn unsigned_number(json: Shape<'_, '_>) -> Result<u32, JsonReason>
    ensures found { IfOk result (λ n. is_number (pos n) (seen json.entry) ≡ true) }
    ensures legal { IfOk result (λ n. n < 2 ^ 32) }
    ensures none { IfErr result (λ _. (n : ℕ) → n < 2 ^ 32 → is_number (pos n) (seen json.entry) ≡ true → ⊥) }
    ensures why { IfErr result (λ w. w ≡ number_reason (seen json.entry)) }
{
    match unsigned_hyper_number(json) {
        Ok(number) => {
            if number > 4294967295 {
                return Err(number_fault(json));
            }
            Ok(number as u32)
        }
        Err(why) => Err(why),
    }
}

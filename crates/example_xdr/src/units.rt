//! Numbers and padded content as bytes, and numbers as decimal texts.
ghost use Rattle.std.specs.Prelude.{◌≡◌, ◌<◌, ◌^◌, ◌++◌, [], ◌∷◌, codes, decimal, length, true, false, IfOk, IfSome};
ghost use Rattle.xdr_units.specs.Numbers.{long_word, padded, word};

use std::alloc::Global;
use xdr_units::{
    NoMemory, are_zeros, before_dot, decimal_number, first_content, first_long_word, first_word,
    push_decimal, push_padded, push_word,
};

/// A number is four bytes, the most significant first (RFC 4506 section 4.2).
pub fn writes_a_number(alloc: Global) -> Result<Vec<u8>, NoMemory>
    ensures { IfOk result (λ b. b.items ≡ 0 ∷ 0 ∷ 1 ∷ 2 ∷ []) }
{
    let mut out = Vec::new(alloc);
    push_word(&mut out, 258)?;
    Ok(out)
}

/// It is read where it stands at the front, and what follows it is left.
pub fn reads_a_number(bytes: &[u8], number: u32, behind: &[u8]) -> bool
    requires { bytes.now ≡ word number ++ behind.now }
    ensures { result ≡ true }
{
    match first_word(bytes) {
        Some((read, rest)) => read == number && rest == behind,
        None => false,
    }
}

/// Three bytes are no number.
pub fn reads_no_cut_number(bytes: &[u8]) -> bool
    requires { length bytes.now ≡ 3 }
    ensures { result ≡ false }
{
    first_word(bytes).is_some()
}

/// A long number is eight bytes (RFC 4506 section 4.5).
pub fn reads_a_long_number(bytes: &[u8], number: u64, behind: &[u8]) -> bool
    requires { bytes.now ≡ long_word number ++ behind.now }
    ensures { result ≡ true }
{
    match first_long_word(bytes) {
        Some((read, rest)) => read == number && rest == behind,
        None => false,
    }
}

/// Zeros fill up the last four bytes of content (RFC 4506 section 3).
pub fn pads_to_four_bytes(alloc: Global) -> Result<Vec<u8>, NoMemory>
    ensures { IfOk result (λ b. b.items ≡ 97 ∷ 98 ∷ 99 ∷ 100 ∷ 101 ∷ 0 ∷ 0 ∷ 0 ∷ []) }
{
    let mut out = Vec::new(alloc);
    push_padded(&mut out, b"abcde")?;
    Ok(out)
}

/// Four bytes need none.
pub fn pads_no_whole_unit(alloc: Global) -> Result<Vec<u8>, NoMemory>
    ensures { IfOk result (λ b. b.items ≡ 97 ∷ 98 ∷ 99 ∷ 100 ∷ []) }
{
    let mut out = Vec::new(alloc);
    push_padded(&mut out, b"abcd")?;
    Ok(out)
}

/// Content is read without its padding, and what follows the padding is left.
pub fn reads_content(bytes: &[u8], content: &[u8], behind: &[u8]) -> bool
    requires short { length content.now < 2 ^ 32 }
    requires bytes { bytes.now ≡ padded content.now ++ behind.now }
    ensures { result ≡ true }
{
    match first_content(bytes, content.len() as u32) {
        Ok((read, rest)) => read == content && rest == behind,
        Err(_) => false,
    }
}

/// Only zeros are padding: content that was read comes from exactly the bytes that it is written to.
pub fn reads_padding_of_zeros_only(alloc: Global, bytes: &[u8], size: u32) -> Option<bool>
    ensures { IfSome result (λ same. same ≡ true) }
{
    let (content, rest) = first_content(bytes, size).ok()?;
    let mut out = Vec::new(alloc);
    push_padded(&mut out, content).ok()?;
    out.extend_from_slice(rest).ok()?;
    Some(out.as_slice() == bytes)
}

/// One is no zero.
pub fn reports_zeros() -> (bool, bool)
    ensures { result ≡ (true, false) }
{
    (are_zeros(&[0, 0]), are_zeros(&[0, 1]))
}

/// A number is written as its decimal text.
pub fn writes_a_decimal(alloc: Global) -> Result<Vec<u8>, NoMemory>
    ensures { IfOk result (λ b. b.items ≡ codes "4095") }
{
    let mut out = Vec::new(alloc);
    push_decimal(&mut out, 4095)?;
    Ok(out)
}

/// The decimal text of a number is read as it.
pub fn reads_a_decimal(text: &[u8], number: u32) -> bool
    requires { text.now ≡ decimal number }
    ensures { result ≡ true }
{
    decimal_number(text) == Some(number)
}

/// No other text is, so one with a leading zero is not: what was read is written to the same text.
pub fn reads_decimals_only(alloc: Global, text: &[u8]) -> Option<bool>
    ensures { IfSome result (λ same. same ≡ true) }
{
    let number = decimal_number(text)?;
    let mut out = Vec::new(alloc);
    push_decimal(&mut out, number).ok()?;
    Some(out.as_slice() == text)
}

/// The parts before and after a dot, and the dot, are the whole text.
pub fn parts_at_a_dot(alloc: Global, text: &[u8]) -> Option<bool>
    ensures { IfSome result (λ same. same ≡ true) }
{
    let (before, after) = before_dot(text)?;
    let mut tail = vec![in alloc; b'.'].ok()?;
    tail.extend_from_slice(after).ok()?;
    let mut out = Vec::from_slice(alloc, before).ok()?;
    out.extend_from_slice(&tail).ok()?;
    Some(out.as_slice() == text)
}

//! Bytes written as hexadecimal text.
ghost use Rattle.std.specs.Prelude.{◌≡◌, ◌+◌, ◌<◌, ◌≤◌, [], ◌∷◌, IfOk, IfSome, MatchOption, length};
ghost use Rattle.std.specs.Option.{unwrap_or};
ghost use Rattle.hex.specs.Hex.{decode_of, hex_digit_value};
ghost use Rattle.oncrpc_tasks.specs.Private.Hexed.{byte_of, pairs, joined};
ghost use Rattle.oncrpc_tasks.specs.Hexadecimal.{is_space, digits, IsBadHex};

use std::alloc::{AllocError, Global};

/// How long a text of hexadecimal may be, white space counted.
pub const MOST_TEXT: usize = 1048576;

/// Space, tab, line feed, vertical tab, form feed and carriage return.
#[inline(always)]
fn is_space(byte: u8) -> bool
    ensures { result ≡ is_space byte }
{
    byte == b' ' || (9 <= byte && byte <= 13)
}

/// How many of at most 255 bytes are no white space: as the count is a byte, the compiler looks at sixteen at once.
#[inline(always)]
fn count_of_few(text: &[u8]) -> u8
    requires { length text.now ≤ 255 }
    ensures { result ≡ length (digits text.now) }
{
    let mut count = 0;
    for byte in text {
        if !is_space(*byte) {
            count += 1;
        }
    }
    count
}

/// How many bytes are no white space.
#[tactic(auto, using(crate::proofs::Hexed::no_more))]
fn count_of_digits(text: &[u8]) -> usize
    ensures { result ≡ length (digits text.now) }
{
    let mut count = 0;
    let mut rest = text;
    while rest.len() > 240 {
        let (front, behind) = rest.split_at(240);
        count += usize::from(count_of_few(front));
        rest = behind;
    }
    count + usize::from(count_of_few(rest))
}

/// The value of each byte that is a digit of either case, and else 255.
const VALUES: [u8; 256] = [
    255, 255, 255, 255, 255, 255, 255, 255, 255, 255, 255, 255, 255, 255, 255, 255, 255, 255, 255,
    255, 255, 255, 255, 255, 255, 255, 255, 255, 255, 255, 255, 255, 255, 255, 255, 255, 255, 255,
    255, 255, 255, 255, 255, 255, 255, 255, 255, 255, 0, 1, 2, 3, 4, 5, 6, 7, 8, 9, 255, 255, 255,
    255, 255, 255, 255, 10, 11, 12, 13, 14, 15, 255, 255, 255, 255, 255, 255, 255, 255, 255, 255,
    255, 255, 255, 255, 255, 255, 255, 255, 255, 255, 255, 255, 255, 255, 255, 255, 10, 11, 12, 13,
    14, 15, 255, 255, 255, 255, 255, 255, 255, 255, 255, 255, 255, 255, 255, 255, 255, 255, 255,
    255, 255, 255, 255, 255, 255, 255, 255, 255, 255, 255, 255, 255, 255, 255, 255, 255, 255, 255,
    255, 255, 255, 255, 255, 255, 255, 255, 255, 255, 255, 255, 255, 255, 255, 255, 255, 255, 255,
    255, 255, 255, 255, 255, 255, 255, 255, 255, 255, 255, 255, 255, 255, 255, 255, 255, 255, 255,
    255, 255, 255, 255, 255, 255, 255, 255, 255, 255, 255, 255, 255, 255, 255, 255, 255, 255, 255,
    255, 255, 255, 255, 255, 255, 255, 255, 255, 255, 255, 255, 255, 255, 255, 255, 255, 255, 255,
    255, 255, 255, 255, 255, 255, 255, 255, 255, 255, 255, 255, 255, 255, 255, 255, 255, 255, 255,
    255, 255, 255, 255, 255, 255, 255, 255, 255, 255, 255, 255, 255, 255, 255, 255, 255, 255, 255,
    255, 255, 255,
];

/// The value of a digit of either case; 255 where it is none.
#[inline(always)]
#[tactic(auto, using(crate::proofs::Hexed::values_are))]
fn value_or_255(digit: u8) -> u8
    ensures { result ≡ unwrap_or (hex_digit_value digit) 255 }
{
    VALUES[usize::from(digit)]
}

/// The value of a digit of either case, without a branch for its case.
#[inline(always)]
#[tactic(auto, using(crate::proofs::Hexed::digits_are))]
fn digit_value(digit: u8) -> Option<u8>
    ensures value { result ≡ hex_digit_value digit }
    ensures few { IfSome result (λ v. v < 16) }
{
    let value = value_or_255(digit);
    if value < 16 { Some(value) } else { None }
}

/// The first byte that is no white space, and what follows it.
fn first_digit(text: &[u8]) -> Option<(u8, &[u8])>
    ensures { MatchOption result (digits text.now ≡ []) (λ r. digits text.now ≡ r.0 ∷ digits r.1.now) }
{
    for (i, byte) in text.iter().enumerate() {
        if !is_space(*byte) {
            return Some((*byte, &text[i + 1..]));
        }
    }
    None
}

/// The byte that two digits spell.
#[inline(always)]
fn byte_of(high: u8, low: u8) -> Option<u8>
    ensures { result ≡ byte_of (hex_digit_value high) (hex_digit_value low) }
{
    match (digit_value(high), digit_value(low)) {
        (Some(high), Some(low)) => Some(high * 16 + low),
        _ => None,
    }
}

/// The byte that the first two digits spell, and what follows them; None where they spell none.
#[tactic(auto, unfolding(crate::specs::Private::Hexed::pairs))]
fn byte_past_space(text: &[u8]) -> Option<(u8, &[u8])>
    requires { 0 < length (digits text.now) }
    ensures pairs { MatchOption result (pairs (digits text.now) ≡ None)
        (λ r. pairs (digits text.now) ≡ joined (r.0 ∷ []) (pairs (digits r.1.now))) }
    ensures fewer { IfSome result (λ r. length (digits r.1.now) + 2 ≡ length (digits text.now)) }
{
    let (high, behind) = first_digit(text)?;
    let (low, rest) = first_digit(behind)?;
    Some((byte_of(high, low)?, rest))
}

/// The same; two digits at the front are told by their values alone.
#[inline(always)]
#[tactic(auto, using(crate::proofs::Hexed::pair_first), unfolding(crate::specs::Private::Hexed::pairs))]
fn first_byte(text: &[u8]) -> Option<(u8, &[u8])>
    requires { 0 < length (digits text.now) }
    ensures pairs { MatchOption result (pairs (digits text.now) ≡ None)
        (λ r. pairs (digits text.now) ≡ joined (r.0 ∷ []) (pairs (digits r.1.now))) }
    ensures fewer { IfSome result (λ r. length (digits r.1.now) + 2 ≡ length (digits text.now)) }
{
    if let [high, low, rest @ ..] = text {
        if let Some(byte) = byte_of(*high, *low) {
            return Some((byte, rest));
        }
    }
    byte_past_space(text)
}

/// The bytes that a text of hexadecimal spells, its white space dropped; None where it spells none. It asks for memory
/// once, for as many bytes as there are pairs of digits, and not where the digits are of an odd count.
#[tactic(auto, using(crate::proofs::Hexed::decoding))]
pub fn bytes_of_text(alloc: Global, text: &[u8]) -> Result<Option<Vec<u8>>, AllocError>
    ensures { IfOk result (λ spelled.
        MatchOption spelled (IsBadHex text.now) (λ v. decode_of (digits text.now) ≡ Ok v.items)) }
{
    let count = count_of_digits(text);
    if count % 2 == 1 {
        return Ok(None);
    }
    let mut found = Vec::with_capacity(alloc, count / 2)?;
    let mut rest = text;
    'pairs: for i in 0..count / 2 {
        let Some((byte, behind)) = first_byte(rest) else {
            return Ok(None);
        };
        found.push(byte)?;
        rest = behind;
    }
    Ok(Some(found))
}

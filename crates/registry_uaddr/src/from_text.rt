//! Universal addresses out of texts. Nothing here takes memory.
ghost use Rattle.std.specs.Prelude.{◌≡◌, ◌≤◌, ◌∷◌, [], ℕ, List, Option, Some, IfSome, IfNone, length, slice_index};
ghost use Rattle.std.specs.Int.{IsInRange};
ghost use Rattle.registry_uaddr.specs.declared.address.Uaddr.{Uaddr as PlainUaddr};
ghost use Rattle.registry_uaddr.specs.Uaddrs.{uaddr_of, uaddr_text, IsUaddr, octet, octets};

use crate::address::Uaddr;
use xdr_units::{before_dot, decimal_number};

/// The address whose universal address this text is: six decimal numbers 0 to 255 without leading zeros and with dots
/// between them, the last two the port's high and low octet (RFC 5665 section 5.2.3.3). `None` for every other text.
/// It takes no memory.
pub fn read_uaddr(text: &[u8]) -> Option<Uaddr>
    // What is read is what the definition reads:
    ensures value { result ≡ uaddr_of text.now }
    // the text is that of the address,
    ensures some { IfSome result (λ a. text.now ≡ uaddr_text a) }
    // and a text that is refused is that of no address.
    ensures none { IfNone result ((a : PlainUaddr) → IsUaddr a → text.now ≡ uaddr_text a → ⊥) }
{
    read_numbers(text)
}

/// The six numbers, one after another.
fn read_numbers(text: &[u8]) -> Option<Uaddr>
    ensures { result ≡ uaddr_of text.now }
{
    let (first, rest) = first_octet(text)?;
    let (second, rest) = first_octet(rest)?;
    let (third, rest) = first_octet(rest)?;
    let (fourth, rest) = first_octet(rest)?;
    let (high, rest) = first_octet(rest)?;
    let low = only_octet(rest)?;
    Some(Uaddr {
        host: [first, second, third, fourth],
        port: u16::from(high) * 256 + u16::from(low),
    })
}

/// The number before the first dot, and the text after that dot.
#[inline(always)]
fn first_octet(text: &[u8]) -> Option<(u8, &[u8])>
    ensures found { IfSome result (λ r. octets text.now ≡ Some r.0 ∷ octets r.1.now) }
    ensures none { IfNone result
        ((n : ℕ) (m : Option ℕ) (ns : List (Option ℕ)) → octets text.now ≡ Some n ∷ m ∷ ns → ⊥) }
{
    match short_front(text) {
        Some(front) => Some(front),
        None => any_front(text),
    }
}

/// The same for a number of one to three digits without a leading zero and the dot behind it, where these are read.
#[inline(always)]
#[tactic(auto, using(crate::proofs::Fronts::one_front, crate::proofs::Fronts::two_front))]
fn short_front(text: &[u8]) -> Option<(u8, &[u8])>
    ensures { IfSome result (λ r. octets text.now ≡ Some r.0 ∷ octets r.1.now) }
{
    match text {
        [a @ b'0'..=b'9', b'.', rest @ ..] => Some((*a - 48, rest)),
        [a @ b'1'..=b'9', b @ b'0'..=b'9', b'.', rest @ ..] => {
            Some(((*a - 48) * 10 + (*b - 48), rest))
        }
        [b'1'..=b'2', b'0'..=b'9', b'0'..=b'9', b'.', ..] => long_front(text),
        _ => None,
    }
}

/// The same for three digits, the first 1 or 2.
#[inline(always)]
#[tactic(auto, using(crate::proofs::Fronts::three_front))]
fn long_front(text: &[u8]) -> Option<(u8, &[u8])>
    requires four { 4 ≤ length text.now }
    requires first { IsInRange 49 50 (slice_index text.now 0) }
    requires second { IsInRange 48 57 (slice_index text.now 1) }
    requires third { IsInRange 48 57 (slice_index text.now 2) }
    requires dot { slice_index text.now 3 ≡ 46 }
    ensures { IfSome result (λ r. octets text.now ≡ Some r.0 ∷ octets r.1.now) }
{
    let (high, middle, low) = (text[0] - 48, text[1] - 48, text[2] - 48);
    let number = u16::from(high) * 100 + u16::from(middle) * 10 + u16::from(low);
    if number < 256 {
        Some((number as u8, &text[4..]))
    } else {
        None
    }
}

/// The same for any text.
#[inline(never)]
fn any_front(text: &[u8]) -> Option<(u8, &[u8])>
    ensures found { IfSome result (λ r. octets text.now ≡ Some r.0 ∷ octets r.1.now) }
    ensures none { IfNone result
        ((n : ℕ) (m : Option ℕ) (ns : List (Option ℕ)) → octets text.now ≡ Some n ∷ m ∷ ns → ⊥) }
{
    let (part, rest) = before_dot(text)?;
    Some((octet(part)?, rest))
}

/// The number that is the whole text.
fn only_octet(text: &[u8]) -> Option<u8>
    ensures found { IfSome result (λ n. octets text.now ≡ Some n ∷ []) }
    ensures none { IfNone result ((n : ℕ) → octets text.now ≡ Some n ∷ [] → ⊥) }
{
    match before_dot(text) {
        Some(_) => None,
        None => octet(text),
    }
}

/// The number below 256 whose decimal text this is.
fn octet(text: &[u8]) -> Option<u8>
    ensures { result ≡ octet text.now }
{
    match short_octet(text) {
        Some(number) => Some(number),
        None => any_octet(text),
    }
}

/// The same for a text of one to three digits without a leading zero, where that is read.
#[inline(always)]
#[tactic(auto, using(crate::proofs::Digits::one_digit, crate::proofs::Digits::two_digits))]
fn short_octet(text: &[u8]) -> Option<u8>
    ensures { IfSome result (λ n. octet text.now ≡ Some n) }
{
    match text {
        [a @ b'0'..=b'9'] => Some(*a - 48),
        [a @ b'1'..=b'9', b @ b'0'..=b'9'] => Some((*a - 48) * 10 + (*b - 48)),
        [b'1'..=b'2', b'0'..=b'9', b'0'..=b'9'] => long_octet(text),
        _ => None,
    }
}

/// The same for three digits, the first 1 or 2.
#[inline(always)]
#[tactic(auto, using(crate::proofs::Digits::three_digits))]
fn long_octet(text: &[u8]) -> Option<u8>
    requires three { length text.now ≡ 3 }
    requires first { IsInRange 49 50 (slice_index text.now 0) }
    requires second { IsInRange 48 57 (slice_index text.now 1) }
    requires third { IsInRange 48 57 (slice_index text.now 2) }
    ensures { IfSome result (λ n. octet text.now ≡ Some n) }
{
    let (high, middle, low) = (text[0] - 48, text[1] - 48, text[2] - 48);
    let number = u16::from(high) * 100 + u16::from(middle) * 10 + u16::from(low);
    if number < 256 {
        Some(number as u8)
    } else {
        None
    }
}

/// The same for any text.
#[inline(never)]
fn any_octet(text: &[u8]) -> Option<u8>
    ensures { result ≡ octet text.now }
{
    u8::try_from(decimal_number(text)?).ok()
}

//! What a constant stands for.
ghost use Rattle.std.specs.Prelude.{◌≡◌, ◌≤◌, ◌<◌, ◌^◌};
ghost use Rattle.xdr_tokens.specs.Bytes.{digit_of, value_from, magnitude, decimal, after_zero, unsigned_number};
ghost use Rattle.xdr_tokens.specs.Bytes.{number_of};

/// The value of a digit in the base.
fn digit_value(base: u8, byte: u8) -> Option<u8>
    requires { base ≤ 16 }
    ensures { result ≡ digit_of base byte }
{
    let value = match byte {
        b'0'..=b'9' => byte - b'0',
        b'a'..=b'f' => byte - b'a' + 10,
        b'A'..=b'F' => byte - b'A' + 10,
        _ => return None,
    };
    if value < base { Some(value) } else { None }
}

/// The number that the digits spell, where it is below 2^64.
#[tactic(auto, unfolding(crate::specs::Bytes::value_from))]
fn digits(base: u8, text: &[u8]) -> Option<u64>
    requires low { 1 ≤ base }
    requires high { base ≤ 16 }
    ensures { result ≡ magnitude base text.now }
{
    let mut value: u64 = 0;
    for byte in text {
        let digit = digit_value(base, *byte)?;
        let next = (value as u128) * (base as u128) + (digit as u128);
        if next >= 1 << 64 {
            return None;
        }
        value = next as u64;
    }
    Some(value)
}

/// A first digit 1 to 9, and digits.
fn decimal(text: &[u8]) -> Option<u64>
    ensures { result ≡ decimal text.now }
{
    match text {
        [b'1'..=b'9', ..] => digits(10, text),
        _ => None,
    }
}

/// What follows a first 0.
fn after_zero(text: &[u8]) -> Option<u64>
    ensures { result ≡ after_zero text.now }
{
    match text {
        [] => Some(0),
        [b'x'] => None,
        [b'x', hexadecimal @ ..] => digits(16, hexadecimal),
        _ => digits(8, text),
    }
}

/// A constant without a sign.
fn unsigned(text: &[u8]) -> Option<u64>
    ensures { result ≡ unsigned_number text.now }
{
    match text {
        [b'0', rest @ ..] => after_zero(rest),
        _ => decimal(text),
    }
}

/// What a constant stands for.
#[tactic(auto, unfolding(crate::specs::Bytes::number_of))]
pub fn number(text: &[u8]) -> Option<i128>
    ensures { result ≡ number_of text.now }
{
    if let [b'-', digits @ ..] = text {
        let value = decimal(digits)?;
        if value > 1 << 63 {
            return None;
        }
        return Some(0 - value as i128);
    }
    let value = unsigned(text)?;
    Some(value as i128)
}

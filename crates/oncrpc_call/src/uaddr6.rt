//! Universal addresses over IPv6 (RFC 5665 section 5.2.3.4).
ghost use Rattle.std.specs.Prelude.{◌≡◌, ◌<◌, ℕ, List, ◌++◌, ◌∷◌, Some, IfSome, MatchOption, codes, decimal};
ghost use Rattle.xdr_units.specs.Texts.{HasNoDot};
ghost use Rattle.oncrpc_call.specs.Ports.{IsUaddr6};

use std::net::Ipv6Addr;
use xdr_units::decimal_number;

/// The port of the universal address over IPv6 that a text is: a host as RFC 4291 section 2.2 writes it, and the port's
/// high octet and its low one. These are in decimal without leading zeros, each behind a dot. `None` of every other
/// text.
pub fn port_over_6(text: &[u8]) -> Option<u16>
    ensures told { IfSome result (λ port. IsUaddr6 text.now port) }
    ensures only { (port : ℕ) → IsUaddr6 text.now port → result ≡ Some port }
{
    let (front, low) = last_octet(text)?;
    let (host, high) = last_octet(front)?;
    match Ipv6Addr::parse_ascii(host) {
        Ok(_host) => Some(u16::from(high) * 256 + u16::from(low)),
        Err(_) => None,
    }
}

// The octet behind the last dot, and the text before that dot.
fn last_octet(text: &[u8]) -> Option<(&[u8], u8)>
    ensures found { IfSome result (λ r. text.now ≡ r.0.now ++ codes "." ++ decimal r.1) }
    ensures only { (front : List ℕ) (n : ℕ) → n < 256 → text.now ≡ front ++ codes "." ++ decimal n
        → MatchOption result ⊥ (λ r. (r.0.now ≡ front) × (r.1 ≡ n)) }
{
    let (front, part) = at_last_dot(text)?;
    let number = decimal_number(part)?;
    if number < 256 {
        Some((front, number as u8))
    } else {
        None
    }
}

// The text before the last dot, and that behind it.
fn at_last_dot(text: &[u8]) -> Option<(&[u8], &[u8])>
    ensures { MatchOption result (HasNoDot text.now)
        (λ r. HasNoDot r.1.now × (text.now ≡ r.0.now ++ 46 ∷ r.1.now)) }
{
    for at in (0..text.len()).rev() {
        if text[at] == b'.' {
            return Some((&text[..at], &text[at + 1..]));
        }
    }
    None
}

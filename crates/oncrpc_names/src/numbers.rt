//! Numbers with dots after them. Nothing here takes memory.
ghost use Rattle.std.specs.Prelude.{◌≡◌, ◌<◌, ◌^◌, ◌++◌, ◌∷◌, ℕ, List, decimal, IfSome, MatchOption};

use xdr_units::{before_dot, decimal_number};

/// The number before the first dot, and the text after that dot.
pub fn first_number(text: &[u8]) -> Option<(u32, &[u8])>
    // The text is the number, a dot and the rest,
    ensures found { IfSome result (λ r. text.now ≡ decimal r.0 ++ 46 ∷ r.1.now) }
    // and a text that is so, with a number below 2^32, is read so.
    ensures only { (n : ℕ) (rest : List ℕ) → n < 2 ^ 32 → text.now ≡ decimal n ++ 46 ∷ rest
        → MatchOption result ⊥ (λ r. (r.0 ≡ n) × (r.1.now ≡ rest)) }
{
    let (part, rest) = before_dot(text)?;
    Some((decimal_number(part)?, rest))
}

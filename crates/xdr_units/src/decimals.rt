//! Numbers as decimal texts, which have no leading zero, and the parts of a text with dots between them.
ghost use Rattle.std.specs.Prelude.{◌≡◌, ◌<◌, ◌^◌, ◌++◌, ◌∷◌, ℕ, Some, decimal, IfSome, MatchOption, OnOk};
ghost use Rattle.xdr_units.specs.Texts.{HasNoDot};

use crate::memory::NoMemory;
use itoa::Buffer;
use std::str::from_utf8;

/// The number below 2^32 whose decimal text this is, which has no leading zero. `None` for every other text. It takes
/// no memory.
pub fn decimal_number(text: &[u8]) -> Option<u32>
    // The text is that of the number,
    ensures found { IfSome result (λ n. text.now ≡ decimal n) }
    // and the text of a number gives it.
    ensures only { (n : ℕ) → n < 2 ^ 32 → text.now ≡ decimal n → result ≡ Some n }
{
    let number: u32 = from_utf8(text).ok()?.parse().ok()?;
    let mut buffer = Buffer::new();
    (buffer.format(number).as_bytes() == text).then_some(number)
}

/// The text before the first dot, and the text after that dot. `None` where there is no dot. It takes no memory.
pub fn before_dot(text: &[u8]) -> Option<(&[u8], &[u8])>
    ensures { MatchOption result (HasNoDot text.now) (λ r. HasNoDot r.0.now × (text.now ≡ r.0.now ++ 46 ∷ r.1.now)) }
{
    for at in 0..text.len() {
        if text[at] == b'.' {
            return Some((&text[..at], &text[at + 1..]));
        }
    }
    None
}

/// Writes the number's decimal text.
pub fn push_decimal(out: &mut Vec<u8>, number: u32) -> Result<(), NoMemory>
    ensures { OnOk result (out.new.items ≡ out.old.items ++ decimal number) }
{
    let mut buffer = Buffer::new();
    out.extend_from_slice(buffer.format(number).as_bytes())?;
    Ok(())
}

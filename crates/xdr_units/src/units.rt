//! Words and padded content at the front of bytes, and written behind bytes (RFC 4506 sections 3 and 4).
ghost use Rattle.std.specs.Prelude.{◌≡◌, ◌<◌, ◌^◌, ◌++◌, ℕ, List, length, replicate, IsTrue, ◌↔◌, MatchOption};
ghost use Rattle.std.specs.Prelude.{MatchResult, OnOk, OnErr, IfSome};
ghost use Rattle.std.specs.Io.{StartsWith};
ghost use Rattle.xdr_units.specs.Numbers.{word, long_word, gap, padded, IsWord};
ghost use Rattle.xdr_units.specs.Fronts.{IsNoContent};

use crate::memory::NoMemory;
use byteorder::{BigEndian, ByteOrder};

/// Why padded content does not stand at the front of bytes.
#[derive(Clone, Copy, Debug, PartialEq, Eq)]
pub enum NoContent {
    /// The bytes end before the content and its padding do.
    Truncated,
    /// The padding is there and is not zero.
    BadPadding,
}

/// The number that the four bytes at the front are, and what follows them. `None` where there are fewer bytes (RFC 4506
/// section 4.2).
pub fn first_word(bytes: &[u8]) -> Option<(u32, &[u8])>
    // The number's four bytes come first, and then the rest;
    ensures found { MatchOption result (length bytes.now < 4) (λ r. bytes.now ≡ word r.0 ++ r.1.now) }
    ensures fits { IfSome result (λ r. IsWord r.0) }
    // and a number whose bytes come first is found.
    ensures only { (n : ℕ) (rest : List ℕ) → n < 2 ^ 32 → bytes.now ≡ word n ++ rest
        → MatchOption result ⊥ (λ r. (r.0 ≡ n) × (r.1.now ≡ rest)) }
{
    if bytes.len() < 4 {
        return None;
    }
    let (front, rest) = bytes.split_at(4);
    let number = u32::from_be_bytes([front[0], front[1], front[2], front[3]]);
    Some((number, rest))
}

/// The same of eight bytes (RFC 4506 section 4.5).
pub fn first_long_word(bytes: &[u8]) -> Option<(u64, &[u8])>
    // The number's eight bytes come first, and then the rest;
    ensures found { MatchOption result (length bytes.now < 8) (λ r. bytes.now ≡ long_word r.0 ++ r.1.now) }
    // and a number whose bytes come first is found.
    ensures only { (n : ℕ) (rest : List ℕ) → n < 2 ^ 64 → bytes.now ≡ long_word n ++ rest
        → MatchOption result ⊥ (λ r. (r.0 ≡ n) × (r.1.now ≡ rest)) }
{
    if bytes.len() < 8 {
        return None;
    }
    let (front, rest) = bytes.split_at(8);
    let number = u64::from_be_bytes([
        front[0], front[1], front[2], front[3], front[4], front[5], front[6], front[7],
    ]);
    Some((number, rest))
}

/// How many bytes are missing to a multiple of four (RFC 4506 section 3).
fn gap(count: usize) -> usize
    ensures { result ≡ gap count }
{
    (4 - count % 4) % 4
}

/// Whether each byte is 0.
pub fn are_zeros(bytes: &[u8]) -> bool
    ensures { IsTrue result ↔ (bytes.now ≡ replicate (length bytes.now) 0) }
{
    bytes.iter().all(|byte| *byte == 0)
}

/// So many bytes at the front, and what follows their padding. Where both are wrong, a cut is named before the padding
/// (RFC 4506 section 3). It takes no memory.
pub fn first_content(bytes: &[u8], size: u32) -> Result<(&[u8], &[u8]), NoContent>
    // The content and its padding come first, and then the rest;
    ensures found { MatchResult result (λ r. (length r.0.now ≡ size) × (bytes.now ≡ padded r.0.now ++ r.1.now))
        (λ why. IsNoContent why size bytes.now) }
    // and content that comes first with its padding is found.
    ensures only { (content rest : List ℕ) → length content ≡ size → bytes.now ≡ padded content ++ rest
        → MatchResult result (λ r. (r.0.now ≡ content) × (r.1.now ≡ rest)) (λ _. ⊥) }
{
    let size = size as usize;
    let padding = gap(size);
    if bytes.len() < size + padding {
        return Err(NoContent::Truncated);
    }
    let (content, behind) = bytes.split_at(size);
    let (zeros, rest) = behind.split_at(padding);
    if !are_zeros(zeros) {
        return Err(NoContent::BadPadding);
    }
    Ok((content, rest))
}

/// Writes the number's four bytes. Where memory is refused it writes none.
pub fn push_word(out: &mut Vec<u8>, number: u32) -> Result<(), NoMemory>
    // The number's bytes stand behind what stood there,
    ensures ok { OnOk result (out.new.items ≡ out.old.items ++ word number) }
    // A number of 32 bits is a unit,
    ensures fits { IsWord number }
    // and after an error what stood there.
    ensures retained { OnErr result (out.new.items ≡ out.old.items) }
    // Nothing of it is changed.
    ensures begins { StartsWith out.new.items out.old.items }
{
    let mut bytes = [0; 4];
    BigEndian::write_u32(&mut bytes, number);
    out.extend_from_slice(&bytes)?;
    Ok(())
}

/// Writes the bytes and their padding. Where memory is refused some of them may stand behind what stood there.
pub fn push_padded(out: &mut Vec<u8>, bytes: &[u8]) -> Result<(), NoMemory>
    // The bytes and their padding stand behind what stood there,
    ensures ok { OnOk result (out.new.items ≡ out.old.items ++ padded bytes.now) }
    // of which nothing is changed.
    ensures begins { StartsWith out.new.items out.old.items }
{
    out.extend_from_slice(bytes)?;
    for _ in 0..gap(bytes.len()) {
        out.push(0)?;
    }
    Ok(())
}

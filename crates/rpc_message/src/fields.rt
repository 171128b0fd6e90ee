//! The parts of which messages are made: words, opaque data, `opaque_auth` (RFC 4506 sections 4.1 and 4.10, RFC 5531
//! section 8.2).

ghost use Rattle.std.specs.Prelude.{◌≡◌, ◌≤◌, ◌<◌, ◌^◌, ◌++◌, ◌↔◌, length, drop, replicate, IsTrue, IfOk, OnOk};
ghost use Rattle.std.specs.Io.{StartsWith};
ghost use Rattle.xdr_units.specs.Numbers.{gap, word, IsWord};
ghost use Rattle.rpc_message.specs.Spelling.{opaque, auth, IsAuth};
ghost use Rattle.rpc_message.specs.View.{auth_view, lent_view};
ghost use Rattle.rpc_message.specs.Private.Reading.{Reads, word_at, opaque_at, auth_at};

use crate::fault::ReplyFault;
use crate::message::{LentAuth, OpaqueAuth};
use xdr_units::{
    NoContent, NoMemory, are_zeros, first_content, first_word, push_padded, push_word,
};

/// The word in front, its highest byte first, and what follows it.
pub fn word_at(bytes: &[u8]) -> Result<(u32, &[u8]), ReplyFault>
    ensures { Reads (λ x. (x.0, x.1.now)) result (word_at bytes.now) }
{
    match first_word(bytes) {
        Some((number, rest)) => Ok((number, rest)),
        None => Err(ReplyFault::Truncated),
    }
}

/// Whether all that follows so many bytes is zero.
fn is_zero_behind(count: usize, bytes: &[u8]) -> bool
    ensures { IsTrue result ↔ (drop count bytes.now ≡ replicate (length (drop count bytes.now)) 0) }
{
    bytes.len() <= count || are_zeros(&bytes[count..])
}

/// A length of at most so much, the bytes, and their padding. Padding that is not zero is named before a cut.
#[tactic(auto, unfolding(crate::specs::Private::Reading::opaque_at))]
pub fn opaque_at(most: u32, bytes: &[u8]) -> Result<(&[u8], &[u8]), ReplyFault>
    requires { most ≤ 400 }
    ensures { Reads (λ x. (x.0.now, x.1.now)) result (opaque_at most bytes.now) }
{
    let (count, rest) = word_at(bytes)?;
    if most < count {
        return Err(ReplyFault::BadAuth);
    }
    match first_content(rest, count) {
        Ok((content, after)) => Ok((content, after)),
        Err(NoContent::BadPadding) => Err(ReplyFault::BadAuth),
        Err(NoContent::Truncated) => {
            if is_zero_behind(count as usize, rest) {
                Err(ReplyFault::Truncated)
            } else {
                Err(ReplyFault::BadAuth)
            }
        }
    }
}

/// A flavor, and a body of at most 400 bytes.
#[tactic(auto, unfolding(crate::specs::Private::Reading::auth_at))]
pub fn auth_at(bytes: &[u8]) -> Result<(LentAuth<'_>, &[u8]), ReplyFault>
    ensures { Reads (λ x. (lent_view x.0, x.1.now)) result (auth_at bytes.now) }
{
    let (flavor, rest) = word_at(bytes)?;
    let (body, rest) = opaque_at(400, rest)?;
    Ok((LentAuth { flavor, body }, rest))
}

/// Writes the length, the bytes, and zeros up to a multiple of four.
#[tactic(auto, using(crate::proofs::Begins::begins_then))]
pub fn push_opaque(out: &mut Vec<u8>, bytes: &[u8]) -> Result<(), NoMemory>
    requires { length bytes.now ≤ 400 }
    ensures ok { OnOk result (out.new.items ≡ out.old.items ++ opaque bytes.now) }
    ensures begins { StartsWith out.new.items out.old.items }
{
    push_word(out, bytes.len() as u32)?;
    push_padded(out, bytes)
}

/// Writes the flavor and the body.
#[tactic(auto, using(crate::proofs::Begins::begins_then))]
pub fn push_auth(out: &mut Vec<u8>, a: &OpaqueAuth) -> Result<(), NoMemory>
    requires { length a.now.body.items ≤ 400 }
    ensures ok { OnOk result (out.new.items ≡ out.old.items ++ auth (auth_view a.now)) }
    // A body has at most 400 bytes.
    ensures fits { OnOk result (IsAuth (auth_view a.now)) }
    // In either case what stood there stays.
    ensures begins { StartsWith out.new.items out.old.items }
{
    push_word(out, a.flavor)?;
    push_opaque(out, &a.body)
}

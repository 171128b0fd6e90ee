//! The uid of a body of AUTH_SYS, read in place: no memory is taken (RFC 5531 appendix A).

ghost use Rattle.std.specs.Prelude.{◌≡◌, Some, IfSome};
ghost use Rattle.rpc_message.specs.Message.{AuthSysView};
ghost use Rattle.rpc_message.specs.Spelling.{AuthSysBytes};
ghost use Rattle.rpc_message.specs.Uids.{IsUidOf};
ghost use Rattle.rpc_message.specs.Private.Reading.{Reads};
ghost use Rattle.rpc_message.specs.Private.Passing.{behind_words, gids_passed, uid_at};

use crate::fault::ReplyFault;
use crate::fields::{opaque_at, word_at};

/// What follows so many words.
fn after_words(count: u32, bytes: &[u8]) -> Result<&[u8], ReplyFault>
    ensures { Reads (λ x. x.now) result (behind_words count bytes.now) }
{
    let mut rest = bytes;
    for _ in 0..count {
        let (_, after) = word_at(rest)?;
        rest = after;
    }
    Ok(rest)
}

/// Passes over the gids to the end: how many, at most 16, and each of them.
#[tactic(auto, unfolding(crate::specs::Private::Reading::gids_at))]
fn pass_gids(bytes: &[u8]) -> Result<(), ReplyFault>
    ensures { Reads (λ x. x) result (gids_passed bytes.now) }
{
    let (count, rest) = word_at(bytes)?;
    if 16 < count {
        return Err(ReplyFault::BadAuth);
    }
    let rest = after_words(count, rest)?;
    if !rest.is_empty() {
        return Err(ReplyFault::Rest);
    }
    Ok(())
}

/// The uid of the whole body.
#[tactic(auto, unfolding(crate::specs::Private::Reading::auth_sys_at))]
fn uid_of(bytes: &[u8]) -> Result<u32, ReplyFault>
    ensures { Reads (λ x. x) result (uid_at bytes.now) }
{
    let (_, rest) = word_at(bytes)?;
    let (_, rest) = opaque_at(255, rest)?;
    let (uid, rest) = word_at(rest)?;
    let (_, rest) = word_at(rest)?;
    pass_gids(rest)?;
    Ok(uid)
}

/// The uid of the body of AUTH_SYS that the bytes are, all of them, or `None` where `read_auth_sys` answers `None`. It
/// takes no memory (RFC 5531 appendix A).
pub fn read_auth_sys_uid(bytes: &[u8]) -> Option<u32>
    // What is read is the uid of what is spelled so.
    ensures found { IfSome result (IsUidOf bytes.now) }
    // The uid of what is spelled so is read.
    ensures only { (a : AuthSysView) → AuthSysBytes a bytes.now → result ≡ Some a.uid }
{
    match uid_of(bytes) {
        Ok(uid) => Some(uid),
        Err(_) => None,
    }
}

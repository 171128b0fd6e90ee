//! The body of AUTH_SYS as bytes (RFC 5531 appendix A).

ghost use Rattle.std.specs.Prelude.{◌≡◌, ◌≤◌, ◌<◌, ◌++◌, length, Some, IfOk, IfSome, OnOk, All, option_map};
ghost use Rattle.std.specs.List.{flat_map};
ghost use Rattle.rpc_message.specs.Message.{AuthSysView};
ghost use Rattle.xdr_units.specs.Numbers.{word, IsWord};
ghost use Rattle.rpc_message.specs.Spelling.{auth_sys, AuthSysBytes};
ghost use Rattle.rpc_message.specs.View.{auth_sys_view};
ghost use Rattle.rpc_message.specs.Private.Reading.{ReadsOrNoMemory, is_memory, words_at, gids_at, auth_sys_at};

use crate::fault::ReplyFault;
use crate::fields::{opaque_at, push_opaque, word_at};
use crate::message::AuthSys;
use std::alloc::Global;
use xdr_units::{NoMemory, push_word};

/// So many words from the front.
fn words_of(alloc: Global, count: u32, bytes: &[u8]) -> Result<(Vec<u32>, &[u8]), ReplyFault>
    ensures { ReadsOrNoMemory (λ x. (x.0.items, x.1.now)) result (words_at count bytes.now) }
{
    let mut words = Vec::new(alloc);
    let mut rest = bytes;
    for _ in 0..count {
        let (number, after) = word_at(rest)?;
        words.push(number)?;
        rest = after;
    }
    Ok((words, rest))
}

/// The gids to the end: how many, at most 16, and each of them.
#[tactic(auto, unfolding(crate::specs::Private::Reading::gids_at))]
fn gids_of(alloc: Global, bytes: &[u8]) -> Result<Vec<u32>, ReplyFault>
    ensures { ReadsOrNoMemory (λ v. v.items) result (gids_at bytes.now) }
{
    let (count, rest) = word_at(bytes)?;
    if 16 < count {
        return Err(ReplyFault::BadAuth);
    }
    let (gids, rest) = words_of(alloc, count, rest)?;
    if !rest.is_empty() {
        return Err(ReplyFault::Rest);
    }
    Ok(gids)
}

/// The whole body.
#[tactic(auto, unfolding(crate::specs::Private::Reading::auth_sys_at))]
fn auth_sys_of(alloc: Global, bytes: &[u8]) -> Result<AuthSys, ReplyFault>
    ensures { ReadsOrNoMemory auth_sys_view result (auth_sys_at bytes.now) }
{
    let (stamp, rest) = word_at(bytes)?;
    let (machine, rest) = opaque_at(255, rest)?;
    let (uid, rest) = word_at(rest)?;
    let (gid, rest) = word_at(rest)?;
    let gids = gids_of(alloc, rest)?;
    let machine = Vec::from_slice(alloc, machine)?;
    Ok(AuthSys {
        stamp,
        machine,
        uid,
        gid,
        gids,
    })
}

/// Whether memory was refused.
fn is_memory(fault: ReplyFault) -> bool
    ensures { result ≡ is_memory fault }
{
    matches!(fault, ReplyFault::NoMemory)
}

/// The body of AUTH_SYS that the bytes are, all of them, or `None` where they are none (RFC 5531 appendix A). They are
/// none where they are cut, or have more than 255 bytes of machine name, more than 16 gids, padding that is not zero,
/// or bytes after the gids. `NoMemory` comes where memory is refused.
pub fn read_auth_sys(alloc: Global, bytes: &[u8]) -> Result<Option<AuthSys>, NoMemory>
    // What is read is spelled so.
    ensures found { IfOk result (λ o. IfSome o (λ a. AuthSysBytes (auth_sys_view a) bytes.now)) }
    // What is spelled so is read, unless memory runs out.
    ensures only { (a : AuthSysView) → AuthSysBytes a bytes.now
        → IfOk result (λ o. option_map auth_sys_view o ≡ Some a) }
{
    match auth_sys_of(alloc, bytes) {
        Ok(a) => Ok(Some(a)),
        Err(fault) => {
            if is_memory(fault) {
                return Err(NoMemory);
            }
            Ok(None)
        }
    }
}

/// Writes each word.
#[tactic(auto, using(crate::proofs::Loop::words_more))]
fn push_words(out: &mut Vec<u8>, words: &[u32]) -> Result<(), NoMemory>
    ensures ok { OnOk result (out.new.items ≡ out.old.items ++ flat_map word words.now) }
    ensures fits { OnOk result (All IsWord words.now) }
{
    for number in words {
        push_word(out, *number)?;
    }
    Ok(())
}

/// The bytes of the body: stamp, machine name, uid, gid, and the gids with their number before them. There are at
/// most 255 bytes of machine name and 16 gids. `NoMemory` comes where memory is refused (RFC 5531 appendix A).
pub fn write_auth_sys(alloc: Global, a: &AuthSys) -> Result<Vec<u8>, NoMemory>
    requires machine { length a.now.machine.items ≤ 255 }
    requires gids { length a.now.gids.items ≤ 16 }
    ensures { IfOk result (λ v. AuthSysBytes (auth_sys_view a.now) v.items) }
{
    let mut out = Vec::new(alloc);
    push_word(&mut out, a.stamp)?;
    push_opaque(&mut out, &a.machine)?;
    push_word(&mut out, a.uid)?;
    push_word(&mut out, a.gid)?;
    push_word(&mut out, a.gids.len() as u32)?;
    push_words(&mut out, &a.gids)?;
    Ok(out)
}

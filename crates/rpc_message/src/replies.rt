//! Replies as bytes (RFC 5531 section 9).

ghost use Rattle.std.specs.Prelude.{◌≡◌, ◌≤◌, ◌<◌, ◌++◌, length, IfOk, IfErr, OnOk, OnErr, MatchResult};
ghost use Rattle.std.specs.Io.{StartsWith};
ghost use Rattle.rpc_message.specs.declared.fault.ReplyFault.TheVariants as faults;
ghost use Rattle.rpc_message.specs.Message.{ReplyView};
ghost use Rattle.rpc_message.specs.Spelling.{reply, status, why, IsStatus, IsWhy, IsReply, ReplyBytes};
ghost use Rattle.rpc_message.specs.View.{reply_view, status_view, why_view, HasShortVerf};
ghost use Rattle.rpc_message.specs.Faults.{StandsIn};
ghost use Rattle.rpc_message.specs.Private.Reading.{Reads, ReadsOrNoMemory, bounds_at, status_at, why_at, accepted_at};
ghost use Rattle.rpc_message.specs.Private.Reading.{denied_at};
ghost use Rattle.rpc_message.specs.Private.Reading.{reply_stat_at, reply_at};

use crate::fault::ReplyFault;
use crate::fields::{auth_at, push_auth, word_at};
use crate::message::{Reply, Status, Why};
use crate::numbers::{
    AUTH_ERROR, GARBAGE_ARGS, MSG_ACCEPTED, MSG_DENIED, PROC_UNAVAIL, PROG_MISMATCH, PROG_UNAVAIL,
    REPLY, RPC_MISMATCH, SUCCESS, SYSTEM_ERR,
};
use std::alloc::Global;
use xdr_units::{NoMemory, push_word};

/// The two numbers that end a reply.
#[tactic(auto, unfolding(crate::specs::Private::Reading::bounds_at))]
fn bounds(bytes: &[u8]) -> Result<(u32, u32), ReplyFault>
    ensures { Reads (λ x. (x.0, x.1)) result (bounds_at bytes.now) }
{
    let (low, rest) = word_at(bytes)?;
    let (high, rest) = word_at(rest)?;
    if !rest.is_empty() {
        return Err(ReplyFault::Rest);
    }
    Ok((low, high))
}

/// What follows the number `stat` of an accepted reply.
#[tactic(auto, unfolding(crate::specs::Private::Reading::status_at))]
fn status_of(alloc: Global, stat: u32, bytes: &[u8]) -> Result<Status, ReplyFault>
    ensures { ReadsOrNoMemory status_view result (status_at stat bytes.now) }
{
    match stat {
        SUCCESS => Ok(Status::Success(Vec::from_slice(alloc, bytes)?)),
        PROG_MISMATCH => {
            let (low, high) = bounds(bytes)?;
            Ok(Status::ProgMismatch { low, high })
        }
        PROG_UNAVAIL | PROC_UNAVAIL | GARBAGE_ARGS | SYSTEM_ERR if !bytes.is_empty() => {
            Err(ReplyFault::Rest)
        }
        PROG_UNAVAIL => Ok(Status::ProgUnavail),
        PROC_UNAVAIL => Ok(Status::ProcUnavail),
        GARBAGE_ARGS => Ok(Status::GarbageArgs),
        SYSTEM_ERR => Ok(Status::SystemErr),
        _ => Err(ReplyFault::BadStatus),
    }
}

/// What follows the number `stat` of a denied reply.
#[tactic(auto, unfolding(crate::specs::Private::Reading::why_at))]
fn why_of(stat: u32, bytes: &[u8]) -> Result<Why, ReplyFault>
    ensures { Reads why_view result (why_at stat bytes.now) }
{
    match stat {
        RPC_MISMATCH => {
            let (low, high) = bounds(bytes)?;
            Ok(Why::RpcMismatch { low, high })
        }
        AUTH_ERROR => {
            let (stat, rest) = word_at(bytes)?;
            if !rest.is_empty() {
                return Err(ReplyFault::Rest);
            }
            Ok(Why::AuthError(stat))
        }
        _ => Err(ReplyFault::BadStatus),
    }
}

/// The rest of an accepted reply.
#[tactic(auto, unfolding(crate::specs::Private::Reading::accepted_at))]
fn accepted(alloc: Global, xid: u32, bytes: &[u8]) -> Result<Reply, ReplyFault>
    ensures { ReadsOrNoMemory reply_view result (accepted_at xid bytes.now) }
{
    let (verf, rest) = auth_at(bytes)?;
    let (stat, rest) = word_at(rest)?;
    let status = status_of(alloc, stat, rest)?;
    let verf = verf.copied(alloc)?;
    Ok(Reply::Accepted { xid, verf, status })
}

/// The rest of a denied reply.
#[tactic(auto, unfolding(crate::specs::Private::Reading::denied_at))]
fn denied(xid: u32, bytes: &[u8]) -> Result<Reply, ReplyFault>
    ensures { Reads reply_view result (denied_at xid bytes.now) }
{
    let (stat, rest) = word_at(bytes)?;
    let why = why_of(stat, rest)?;
    Ok(Reply::Denied { xid, why })
}

/// What follows the number `stat` of a reply.
#[tactic(auto, unfolding(crate::specs::Private::Reading::reply_stat_at))]
fn reply_stat(alloc: Global, xid: u32, stat: u32, bytes: &[u8]) -> Result<Reply, ReplyFault>
    ensures { ReadsOrNoMemory reply_view result (reply_stat_at xid stat bytes.now) }
{
    match stat {
        MSG_ACCEPTED => accepted(alloc, xid, bytes),
        MSG_DENIED => denied(xid, bytes),
        _ => Err(ReplyFault::BadStatus),
    }
}

/// The whole reply.
#[tactic(auto, unfolding(crate::specs::Private::Reading::reply_at))]
fn reply_at(alloc: Global, bytes: &[u8]) -> Result<Reply, ReplyFault>
    ensures { ReadsOrNoMemory reply_view result (reply_at bytes.now) }
{
    let (xid, rest) = word_at(bytes)?;
    let (kind, rest) = word_at(rest)?;
    if kind != REPLY {
        return Err(ReplyFault::NotAReply);
    }
    let (stat, rest) = word_at(rest)?;
    reply_stat(alloc, xid, stat, rest)
}

/// The reply that the bytes are, all of them. Where they are none, the fault is the first in the order of the bytes:
/// `Truncated`, `NotAReply`, `BadStatus`, `BadAuth` or `Rest`, and it names what stands in them. A number counts once
/// it is whole, and padding byte by byte. `NoMemory` comes only where memory is refused (RFC 5531 sections 8.2 and 9).
pub fn read_reply(alloc: Global, bytes: &[u8]) -> Result<Reply, ReplyFault>
    // What is read is spelled so.
    ensures found { IfOk result (λ r. ReplyBytes (reply_view r) bytes.now) }
    // What is spelled so is read, unless memory runs out.
    ensures only { (r : ReplyView) → ReplyBytes r bytes.now
        → MatchResult result (λ q. reply_view q ≡ r) (λ e. e ≡ faults.NoMemory) }
    // A fault names what stands in the bytes.
    ensures fault { IfErr result (λ f. StandsIn f bytes.now) }
{
    reply_at(alloc, bytes)
}

/// Writes a status with its number.
#[tactic(auto, using(crate::proofs::Begins::begins_then))]
fn push_status(out: &mut Vec<u8>, s: &Status) -> Result<(), NoMemory>
    ensures ok { OnOk result (out.new.items ≡ out.old.items ++ status (status_view s.now)) }
    ensures fits { OnOk result (IsStatus (status_view s.now)) }
    ensures begins { StartsWith out.new.items out.old.items }
{
    match s {
        Status::Success(results) => {
            push_word(out, SUCCESS)?;
            Ok(out.extend_from_slice(results)?)
        }
        Status::ProgUnavail => push_word(out, PROG_UNAVAIL),
        Status::ProgMismatch { low, high } => {
            push_word(out, PROG_MISMATCH)?;
            push_word(out, *low)?;
            push_word(out, *high)
        }
        Status::ProcUnavail => push_word(out, PROC_UNAVAIL),
        Status::GarbageArgs => push_word(out, GARBAGE_ARGS),
        Status::SystemErr => push_word(out, SYSTEM_ERR),
    }
}

/// Writes a reason with its number.
#[tactic(auto, using(crate::proofs::Begins::begins_then))]
fn push_why(out: &mut Vec<u8>, w: Why) -> Result<(), NoMemory>
    ensures ok { OnOk result (out.new.items ≡ out.old.items ++ why (why_view w)) }
    ensures fits { OnOk result (IsWhy (why_view w)) }
    ensures begins { StartsWith out.new.items out.old.items }
{
    match w {
        Why::RpcMismatch { low, high } => {
            push_word(out, RPC_MISMATCH)?;
            push_word(out, low)?;
            push_word(out, high)
        }
        Why::AuthError(stat) => {
            push_word(out, AUTH_ERROR)?;
            push_word(out, stat)
        }
    }
}

/// Writes a reply.
#[tactic(auto, using(crate::proofs::Begins::begins_then))]
fn push_reply(out: &mut Vec<u8>, r: &Reply) -> Result<(), NoMemory>
    requires { HasShortVerf r.now }
    ensures ok { OnOk result (out.new.items ≡ out.old.items ++ reply (reply_view r.now)) }
    ensures fits { OnOk result (IsReply (reply_view r.now)) }
    ensures begins { StartsWith out.new.items out.old.items }
{
    match r {
        Reply::Accepted { xid, verf, status } => {
            push_word(out, *xid)?;
            push_word(out, REPLY)?;
            push_word(out, MSG_ACCEPTED)?;
            push_auth(out, verf)?;
            push_status(out, status)?;
            Ok(())
        }
        Reply::Denied { xid, why } => {
            push_word(out, *xid)?;
            push_word(out, REPLY)?;
            push_word(out, MSG_DENIED)?;
            push_why(out, *why)?;
            Ok(())
        }
    }
}

/// Writes the reply behind what stands in `out`. The verifier has at most 400 bytes. `NoMemory` comes where memory is
/// refused, and then `out` holds what it held (RFC 5531 section 9).
pub fn append_reply(out: &mut Vec<u8>, r: &Reply) -> Result<(), NoMemory>
    requires { HasShortVerf r.now }
    ensures ok { OnOk result (out.new.items ≡ out.old.items ++ reply (reply_view r.now)) }
    // Each number of the reply is a word of 32 bits, and its verifier has at most 400 bytes.
    ensures fits { OnOk result (IsReply (reply_view r.now)) }
    ensures retained { OnErr result (out.new.items ≡ out.old.items) }
{
    let before = out.len();
    match push_reply(out, r) {
        Ok(()) => Ok(()),
        Err(_) => {
            out.truncate(before);
            Err(NoMemory)
        }
    }
}

/// The bytes of the reply: xid, REPLY, and MSG_ACCEPTED, verifier, status or MSG_DENIED, reason. The verifier has at
/// most 400 bytes. `NoMemory` comes where memory is refused (RFC 5531 section 9).
pub fn write_reply(alloc: Global, r: &Reply) -> Result<Vec<u8>, NoMemory>
    requires { HasShortVerf r.now }
    ensures { IfOk result (λ v. ReplyBytes (reply_view r.now) v.items) }
{
    let mut out = Vec::new(alloc);
    append_reply(&mut out, r)?;
    Ok(out)
}

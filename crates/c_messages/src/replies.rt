//! Replies read and written (RFC 5531 section 9).
ghost use Rattle.std.specs.Prelude.{◌≡◌, ◌⊎◌, Result};
ghost use Rattle.rpc_message.specs.Message.{ReplyView};
ghost use Rattle.rpc_message.specs.Spelling.{ReplyBytes};
ghost use Rattle.rpc_message.specs.View.{reply_view, status_view, HasShortVerf};
ghost use Rattle.rpc_message.specs.declared.fault.ReplyFault.{ReplyFault as FaultSpec};
ghost use Rattle.c_messages.specs.Parts.{LiesAt};
ghost use Rattle.c_messages.specs.Replies.{bare, with_status, reported_of, fault_status, outcome_status};
ghost use Rattle.c_messages.specs.Replies.{outcome_reported, IsOutcome, verifier_of, results_of, IsReplyWritten};
ghost use Rattle.c_messages.specs.Statuses.{Reports};

use super::answer::Answer;
use super::asked::reply_asked;
use super::buffer::place;
use super::part::{Part, padded_size};
use rpc_message::{Reply, ReplyFault, Status, Why, read_reply, write_reply};
use std::alloc::Global;

/// The greatest count of bytes of a verifier (RFC 5531 section 8.2).
const MOST_BODY: usize = 400;

/// The last state of an accepted reply, SYSTEM_ERR.
const MOST_STATUS: u32 = 5;

/// The last state, AUTH_ERROR.
const MOST_STATE: u32 = 7;

/// What C sees of a reply. Each field that the state does not speak of is 0.
#[repr(C)]
#[derive(Clone, Copy)]
pub struct ReplyParts {
    pub xid: u32,
    /// The number of an accepted reply's status, 0 to 5, or 6 for RPC_MISMATCH, or 7 for AUTH_ERROR.
    pub state: u32,
    pub low: u32,
    pub high: u32,
    pub auth_stat: u32,
    pub verifier_flavor: u32,
    pub verifier: Part,
    pub results: Part,
}

/// A reply of this state without a verifier.
fn bare(xid: u32, state: u32) -> ReplyParts
    ensures { result ≡ bare xid state }
{
    ReplyParts {
        xid,
        state,
        low: 0,
        high: 0,
        auth_stat: 0,
        verifier_flavor: 0,
        verifier: Part::none(),
        results: Part::none(),
    }
}

/// What a status adds to the parts of an accepted reply whose results would be at that place.
fn with_status(parts: ReplyParts, status: &Status, at: usize) -> ReplyParts
    ensures { result ≡ with_status parts (status_view status.now) at }
{
    match status {
        Status::Success(results) => ReplyParts {
            results: Part {
                at,
                count: results.len(),
            },
            ..parts
        },
        Status::ProgUnavail => ReplyParts { state: 1, ..parts },
        Status::ProgMismatch { low, high } => ReplyParts {
            state: 2,
            low: *low,
            high: *high,
            ..parts
        },
        Status::ProcUnavail => ReplyParts { state: 3, ..parts },
        Status::GarbageArgs => ReplyParts { state: 4, ..parts },
        Status::SystemErr => ReplyParts { state: 5, ..parts },
    }
}

/// All parts of a reply.
fn reported(reply: &Reply) -> ReplyParts
    requires { HasShortVerf reply.now }
    ensures { result ≡ reported_of (reply_view reply.now) }
{
    match reply {
        Reply::Accepted { xid, verf, status } => {
            let accepted = ReplyParts {
                verifier_flavor: verf.flavor,
                verifier: Part {
                    at: 20,
                    count: verf.body.len(),
                },
                ..bare(*xid, 0)
            };
            with_status(accepted, status, 24 + padded_size(verf.body.len()))
        }
        Reply::Denied {
            xid,
            why: Why::RpcMismatch { low, high },
        } => ReplyParts {
            low: *low,
            high: *high,
            ..bare(*xid, 6)
        },
        Reply::Denied {
            xid,
            why: Why::AuthError(stat),
        } => ReplyParts {
            auth_stat: *stat,
            ..bare(*xid, 7)
        },
    }
}

/// The number that C sees of a fault.
fn fault_status(fault: ReplyFault) -> u32
    ensures { result ≡ fault_status fault }
{
    match fault {
        ReplyFault::NoMemory => 6,
        ReplyFault::BadAuth => 12,
        ReplyFault::Truncated => 13,
        ReplyFault::NotAReply => 14,
        ReplyFault::BadStatus => 15,
        ReplyFault::Rest => 16,
    }
}

/// Reads the bytes as a reply, as `oncrpc_reply_read` says.
pub fn read_reply_parts(alloc: Global, input: &[u8], reply: &mut ReplyParts) -> u32
    // A reply that is reported has these bytes, and a fault names what stands in them.
    ensures found { (a : Result ReplyView FaultSpec) × IsOutcome input.now a × (result ≡ outcome_status a)
        × (reply.new ≡ outcome_reported a) }
    // A reply that the bytes are is reported, unless memory was refused.
    ensures only { (r : ReplyView) → ReplyBytes r input.now
        → (result ≡ 6) ⊎ ((result ≡ 0) × (reply.new ≡ reported_of r)) }
    // Its parts lie where they are told to be.
    ensures verifier { (r : ReplyView) → ReplyBytes r input.now → result ≡ 0
        → LiesAt input.now reply.new.verifier (verifier_of r) }
    // Where the bytes are a reply with results, these lie where the answer says.
    ensures results { (r : ReplyView) → ReplyBytes r input.now → result ≡ 0
        → LiesAt input.now reply.new.results (results_of r) }
{
    match read_reply(alloc, input) {
        Ok(value) => {
            *reply = reported(&value);
            0
        }
        Err(fault) => {
            *reply = bare(0, 0);
            fault_status(fault)
        }
    }
}

fn reply_into(
    alloc: Global,
    reply: &ReplyParts,
    verifier: &[u8],
    results: &[u8],
    buffer: &mut [u8],
    count: &mut usize,
) -> Answer
    ensures { IsReplyWritten reply.now verifier.now results.now buffer.old buffer.new count.new result }
{
    *count = 0;
    if MOST_STATE < reply.state {
        return Answer::BadStatus;
    }
    if reply.state <= MOST_STATUS && MOST_BODY < verifier.len() {
        return Answer::BadVerifier;
    }
    let Ok(asked) = reply_asked(alloc, reply, verifier, results) else {
        return Answer::NoMemory;
    };
    match write_reply(alloc, &asked) {
        Ok(bytes) => place(&bytes, buffer, count),
        Err(_) => Answer::NoMemory,
    }
}

/// Writes a reply into the buffer, as `oncrpc_reply_write` says.
pub fn write_reply_parts(
    alloc: Global,
    reply: &ReplyParts,
    verifier: &[u8],
    results: &[u8],
    buffer: &mut [u8],
    count: &mut usize,
) -> u32
    ensures { Reports (IsReplyWritten reply.now verifier.now results.now buffer.old buffer.new count.new) result }
{
    reply_into(alloc, reply, verifier, results, buffer, count).status()
}

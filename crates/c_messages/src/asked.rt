//! Replies that C asks to be written.
ghost use Rattle.std.specs.Prelude.{◌≤◌, length, IfOk};
ghost use Rattle.rpc_message.specs.View.{reply_view, status_view, HasShortVerf};
ghost use Rattle.c_messages.specs.Replies.{IsAsked, IsStatusAsked};

use super::replies::ReplyParts;
use rpc_message::{NoMemory, OpaqueAuth, Reply, Status, Why};
use std::alloc::Global;

/// The status of an accepted reply.
fn status_asked(alloc: Global, parts: &ReplyParts, results: &[u8]) -> Result<Status, NoMemory>
    requires { parts.now.state ≤ 5 }
    ensures { IfOk result (λ s. IsStatusAsked parts.now results.now (status_view s)) }
{
    match parts.state {
        0 => Ok(Status::Success(Vec::from_slice(alloc, results)?)),
        1 => Ok(Status::ProgUnavail),
        2 => Ok(Status::ProgMismatch {
            low: parts.low,
            high: parts.high,
        }),
        3 => Ok(Status::ProcUnavail),
        4 => Ok(Status::GarbageArgs),
        _ => Ok(Status::SystemErr),
    }
}

/// An accepted reply.
fn accepted_asked(
    alloc: Global,
    parts: &ReplyParts,
    verifier: &[u8],
    results: &[u8],
) -> Result<Reply, NoMemory>
    requires state { parts.now.state ≤ 5 }
    requires verifier { length verifier.now ≤ 400 }
    ensures asked { IfOk result (λ r. IsAsked parts.now verifier.now results.now (reply_view r)) }
    ensures short { IfOk result HasShortVerf }
{
    let status = status_asked(alloc, parts, results)?;
    let verf = OpaqueAuth {
        flavor: parts.verifier_flavor,
        body: Vec::from_slice(alloc, verifier)?,
    };
    Ok(Reply::Accepted {
        xid: parts.xid,
        verf,
        status,
    })
}

/// The reply of the parts' state: accepted up to 5, denied at 6 (RPC_MISMATCH) and 7 (AUTH_ERROR) (RFC 5531 section 9).
pub fn reply_asked(
    alloc: Global,
    parts: &ReplyParts,
    verifier: &[u8],
    results: &[u8],
) -> Result<Reply, NoMemory>
    requires state { parts.now.state ≤ 7 }
    requires verifier { parts.now.state ≤ 5 → length verifier.now ≤ 400 }
    ensures asked { IfOk result (λ r. IsAsked parts.now verifier.now results.now (reply_view r)) }
    ensures short { IfOk result HasShortVerf }
{
    let why = match parts.state {
        6 => Why::RpcMismatch {
            low: parts.low,
            high: parts.high,
        },
        7 => Why::AuthError(parts.auth_stat),
        _ => return accepted_asked(alloc, parts, verifier, results),
    };
    Ok(Reply::Denied {
        xid: parts.xid,
        why,
    })
}

//! Calls as bytes (RFC 5531 section 9).

ghost use Rattle.std.specs.Prelude.{◌≡◌, ◌≤◌, ◌<◌, length, IfOk, OnErr};
ghost use Rattle.rpc_message.specs.Message.{CallView, CaseView, Whole, OtherVersion, NotACall};
ghost use Rattle.rpc_message.specs.Spelling.{call, CallBytes};
ghost use Rattle.rpc_message.specs.View.{call_view, case_view, lent_case_view};
ghost use Rattle.rpc_message.specs.Cases.{IsCase};
ghost use Rattle.rpc_message.specs.Private.Reading.{Reads, call_head_at, target_at, case_of};

use crate::fault::ReplyFault;
use crate::fields::{auth_at, push_auth, word_at};
use crate::message::{Call, CallRead, LentCall, LentRead};
use crate::numbers::{CALL, RPC_VERSION};
use std::alloc::Global;
use xdr_units::{NoMemory, push_word};

/// The xid and the version of a call.
#[tactic(auto, unfolding(crate::specs::Private::Reading::call_head_at))]
fn call_head(bytes: &[u8]) -> Result<(u32, u32, &[u8]), ReplyFault>
    ensures { Reads (λ x. (x.0, x.1, x.2.now)) result (call_head_at bytes.now) }
{
    let (xid, rest) = word_at(bytes)?;
    let (kind, rest) = word_at(rest)?;
    let (version, rest) = word_at(rest)?;
    if kind != CALL {
        return Err(ReplyFault::NotAReply);
    }
    Ok((xid, version, rest))
}

/// Program, version and procedure.
#[tactic(auto, unfolding(crate::specs::Private::Reading::target_at))]
fn target(bytes: &[u8]) -> Result<(u32, u32, u32, &[u8]), ReplyFault>
    ensures { Reads (λ x. (x.0, x.1, x.2, x.3.now)) result (target_at bytes.now) }
{
    let (prog, rest) = word_at(bytes)?;
    let (vers, rest) = word_at(rest)?;
    let (proc, rest) = word_at(rest)?;
    Ok((prog, vers, proc, rest))
}

/// The case of the bytes.
#[tactic(auto, unfolding(crate::specs::Private::Reading::case_of))]
fn case_of(bytes: &[u8]) -> LentRead<'_>
    ensures { case_of bytes.now ≡ lent_case_view result }
{
    let Ok((xid, version, rest)) = call_head(bytes) else {
        return LentRead::NotACall;
    };
    if version != RPC_VERSION {
        return LentRead::OtherVersion { xid, version };
    }
    let Ok((prog, vers, proc, rest)) = target(rest) else {
        return LentRead::NotACall;
    };
    let Ok((cred, rest)) = auth_at(rest) else {
        return LentRead::BadCred { xid };
    };
    let Ok((verf, args)) = auth_at(rest) else {
        return LentRead::BadVerf { xid };
    };
    LentRead::Whole(LentCall {
        xid,
        prog,
        vers,
        proc,
        cred,
        verf,
        args,
    })
}

/// What the bytes are, as a call that lies in them: the one of the five cases that applies. It takes no memory
/// (RFC 5531 sections 8.2 and 9).
pub fn read_lent_call(bytes: &[u8]) -> LentRead<'_>
    // The case that is answered applies,
    ensures found { IsCase bytes.now (lent_case_view result) }
    // and the case that applies is answered.
    ensures only { (k : CaseView) → IsCase bytes.now k → lent_case_view result ≡ k }
{
    case_of(bytes)
}

/// What the bytes are, as a call: the one of the five cases that applies. `NoMemory` comes only for a whole call, as
/// the other cases take no memory (RFC 5531 sections 8.2 and 9).
pub fn read_call(alloc: Global, bytes: &[u8]) -> Result<CallRead, NoMemory>
    // The case that is answered applies,
    ensures found { IfOk result (λ r. IsCase bytes.now (case_view r)) }
    // and the case that applies is answered.
    ensures only { (k : CaseView) → IsCase bytes.now k → IfOk result (λ r. case_view r ≡ k) }
    // Memory runs out only for a whole call.
    ensures memory { OnErr result ((c : CallView) × CallBytes c bytes.now) }
{
    match read_lent_call(bytes) {
        LentRead::Whole(call) => Ok(CallRead::Whole(call.copied(alloc)?)),
        LentRead::OtherVersion { xid, version } => Ok(CallRead::OtherVersion { xid, version }),
        LentRead::BadCred { xid } => Ok(CallRead::BadCred { xid }),
        LentRead::BadVerf { xid } => Ok(CallRead::BadVerf { xid }),
        LentRead::NotACall => Ok(CallRead::NotACall),
    }
}

/// The bytes of the call: xid, CALL, version 2, program, version, procedure, credential, verifier, and the arguments.
/// Credential and verifier have at most 400 bytes each. `NoMemory` comes where memory is refused (RFC 5531 section 9).
pub fn write_call(alloc: Global, c: &Call) -> Result<Vec<u8>, NoMemory>
    requires cred { length c.now.cred.body.items ≤ 400 }
    requires verf { length c.now.verf.body.items ≤ 400 }
    ensures { IfOk result (λ v. CallBytes (call_view c.now) v.items) }
{
    let mut out = Vec::new(alloc);
    push_word(&mut out, c.xid)?;
    push_word(&mut out, CALL)?;
    push_word(&mut out, RPC_VERSION)?;
    push_word(&mut out, c.prog)?;
    push_word(&mut out, c.vers)?;
    push_word(&mut out, c.proc)?;
    push_auth(&mut out, &c.cred)?;
    push_auth(&mut out, &c.verf)?;
    out.extend_from_slice(&c.args)?;
    Ok(out)
}

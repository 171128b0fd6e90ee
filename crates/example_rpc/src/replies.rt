//! Replies: what bytes are read as which reply, and what is written (RFC 5531 section 9).
ghost use Rattle.std.specs.Prelude.{◌≡◌, ◌≢◌, [], ◌∷◌, ◌++◌, length};
ghost use Rattle.std.specs.Prelude.{◌⊎◌, IfOk, OnOk, OnErr, IfErr, IfSome, MatchResult};
ghost use Rattle.rpc_message.specs.View.{reply_view, HasShortVerf};
ghost use Rattle.rpc_message.specs.declared.fault.ReplyFault.TheVariants as faults;

use rpc_message::{
    AUTH_BADCRED, NoMemory, OpaqueAuth, PROC_UNAVAIL, Reply, ReplyFault, SUCCESS, Status, Why,
    accepted_head, append_denial, append_head, append_reply, cut_to_system_error, read_reply,
    reply_bytes_are_exact, system_error, write_reply,
};
use std::alloc::Global;

/// The reply that a call failed because an allocation failed has these 24 bytes: its status is 5, SYSTEM_ERR.
pub fn writes_a_system_error(alloc: Global) -> Result<Vec<u8>, NoMemory>
    ensures { IfOk result (λ v. v.items ≡
        0 ∷ 0 ∷ 0 ∷ 3 ∷ 0 ∷ 0 ∷ 0 ∷ 1 ∷ 0 ∷ 0 ∷ 0 ∷ 0 ∷ 0 ∷ 0 ∷ 0 ∷ 0 ∷ 0 ∷ 0 ∷ 0 ∷ 0 ∷ 0 ∷ 0 ∷ 0 ∷ 5 ∷ []) }
{
    let reply = Reply::Accepted {
        xid: 3,
        verf: OpaqueAuth {
            flavor: 0,
            body: Vec::new(alloc),
        },
        status: Status::SystemErr,
    };
    write_reply(alloc, &reply)
}

/// A reply is appended to what stands before it, as to the header of a record.
pub fn appends_a_denial(out: &mut Vec<u8>) -> Result<(), NoMemory>
    ensures { OnOk result (out.new.items ≡ out.old.items ++
        0 ∷ 0 ∷ 0 ∷ 1 ∷ 0 ∷ 0 ∷ 0 ∷ 1 ∷ 0 ∷ 0 ∷ 0 ∷ 1 ∷ 0 ∷ 0 ∷ 0 ∷ 1 ∷ 0 ∷ 0 ∷ 0 ∷ 1 ∷ []) }
{
    let reply = Reply::Denied {
        xid: 1,
        why: Why::AuthError(1),
    };
    append_reply(out, &reply)
}

/// Where memory is refused, what stood before the reply stands there alone.
pub fn keeps_what_stood_there(out: &mut Vec<u8>, reply: &Reply) -> Result<(), NoMemory>
    requires { HasShortVerf reply.now }
    ensures { OnErr result (out.new.items ≡ out.old.items) }
{
    append_reply(out, reply)
}

/// The head of an accepted reply has these 24 bytes: xid, REPLY, MSG_ACCEPTED, AUTH_NONE, no body, and the number, 3
/// for PROC_UNAVAIL (RFC 5531 section 9, accept_stat).
pub fn heads_a_reply() -> [u8; 24]
    ensures { result ≡
        0 ∷ 0 ∷ 0 ∷ 7 ∷ 0 ∷ 0 ∷ 0 ∷ 1 ∷ 0 ∷ 0 ∷ 0 ∷ 0 ∷ 0 ∷ 0 ∷ 0 ∷ 0 ∷ 0 ∷ 0 ∷ 0 ∷ 0 ∷ 0 ∷ 0 ∷ 0 ∷ 3 ∷ [] }
{
    accepted_head(7, PROC_UNAVAIL)
}

/// It is written behind what stands in a buffer; results follow it.
pub fn appends_a_head(out: &mut Vec<u8>) -> Result<(), NoMemory>
    ensures { OnOk result (out.new.items ≡ out.old.items ++
        0 ∷ 0 ∷ 0 ∷ 7 ∷ 0 ∷ 0 ∷ 0 ∷ 1 ∷ 0 ∷ 0 ∷ 0 ∷ 0 ∷ 0 ∷ 0 ∷ 0 ∷ 0 ∷ 0 ∷ 0 ∷ 0 ∷ 0 ∷ 0 ∷ 0 ∷ 0 ∷ 0 ∷ []) }
{
    append_head(out, 7, SUCCESS)
}

/// SYSTEM_ERR has the number 5, and takes no memory.
pub fn answers_a_system_error() -> [u8; 24]
    ensures { result ≡
        0 ∷ 0 ∷ 0 ∷ 7 ∷ 0 ∷ 0 ∷ 0 ∷ 1 ∷ 0 ∷ 0 ∷ 0 ∷ 0 ∷ 0 ∷ 0 ∷ 0 ∷ 0 ∷ 0 ∷ 0 ∷ 0 ∷ 0 ∷ 0 ∷ 0 ∷ 0 ∷ 5 ∷ [] }
{
    system_error(7)
}

/// A reply with one byte of results becomes SYSTEM_ERR where it stands.
pub fn cuts_a_reply(out: &mut Vec<u8>)
    requires { out.old.items ≡
        0 ∷ 0 ∷ 0 ∷ 7 ∷ 0 ∷ 0 ∷ 0 ∷ 1 ∷ 0 ∷ 0 ∷ 0 ∷ 0 ∷ 0 ∷ 0 ∷ 0 ∷ 0 ∷ 0 ∷ 0 ∷ 0 ∷ 0 ∷ 0 ∷ 0 ∷ 0 ∷ 0 ∷ 9 ∷ [] }
    ensures { out.new.items ≡
        0 ∷ 0 ∷ 0 ∷ 7 ∷ 0 ∷ 0 ∷ 0 ∷ 1 ∷ 0 ∷ 0 ∷ 0 ∷ 0 ∷ 0 ∷ 0 ∷ 0 ∷ 0 ∷ 0 ∷ 0 ∷ 0 ∷ 0 ∷ 0 ∷ 0 ∷ 0 ∷ 5 ∷ [] }
{
    cut_to_system_error(out, 0)
}

/// A call whose credential cannot be read is denied with AUTH_BADCRED, the last number.
pub fn denies_a_credential(out: &mut Vec<u8>) -> Result<(), NoMemory>
    ensures { OnOk result (out.new.items ≡ out.old.items ++
        0 ∷ 0 ∷ 0 ∷ 7 ∷ 0 ∷ 0 ∷ 0 ∷ 1 ∷ 0 ∷ 0 ∷ 0 ∷ 1 ∷ 0 ∷ 0 ∷ 0 ∷ 1 ∷ 0 ∷ 0 ∷ 0 ∷ 1 ∷ []) }
{
    append_denial(out, 7, Why::AuthError(AUTH_BADCRED))
}

/// A denied reply has these 20 bytes; the last number, 1 for AUTH_BADCRED, says why (RFC 5531 section 9, auth_stat).
pub fn writes_a_denial(alloc: Global) -> Result<Vec<u8>, NoMemory>
    ensures { IfOk result (λ v. v.items ≡
        0 ∷ 0 ∷ 0 ∷ 1 ∷ 0 ∷ 0 ∷ 0 ∷ 1 ∷ 0 ∷ 0 ∷ 0 ∷ 1 ∷ 0 ∷ 0 ∷ 0 ∷ 1 ∷ 0 ∷ 0 ∷ 0 ∷ 1 ∷ []) }
{
    let reply = Reply::Denied {
        xid: 1,
        why: Why::AuthError(1),
    };
    write_reply(alloc, &reply)
}

/// A reply that was written is read as it, and only an allocation failure can keep it from being read.
pub fn reads_the_reply_again(alloc: Global, reply: &Reply) -> Result<Reply, ReplyFault>
    requires { HasShortVerf reply.now }
    ensures found { IfOk result (λ read. reply_view read ≡ reply_view reply.now) }
    ensures fault { IfErr result (λ fault. fault ≡ faults.NoMemory) }
{
    match write_reply(alloc, reply) {
        Ok(bytes) => read_reply(alloc, &bytes),
        Err(NoMemory) => Err(ReplyFault::NoMemory),
    }
}

/// A reply that was read is written to the bytes that it was read from: another message is no reply, no other padding
/// is accepted, and no bytes follow a reply without results.
pub fn writes_the_reply_again(alloc: Global, bytes: &[u8]) -> Option<Vec<u8>>
    ensures { IfSome result (λ v. v.items ≡ bytes.now) }
{
    let reply = read_reply(alloc, bytes).ok()?;
    if let Reply::Accepted { verf, .. } = &reply {
        if 400 < verf.body.len() {
            return None;
        }
    }
    write_reply(alloc, &reply).ok()
}

/// Four bytes are cut: the type of the message is missing.
pub fn reports_the_cut_reply(alloc: Global, bytes: &[u8]) -> Result<Reply, ReplyFault>
    requires { bytes.now ≡
        0 ∷ 0 ∷ 0 ∷ 1 ∷ [] }
    ensures { MatchResult result (λ _. ⊥) (λ f. (f ≡ faults.Truncated) ⊎ (f ≡ faults.NoMemory)) }
{
    read_reply(alloc, bytes)
}

/// A call is no reply.
pub fn takes_no_call_for_a_reply(alloc: Global, bytes: &[u8]) -> Result<Reply, ReplyFault>
    requires { bytes.now ≡
        0 ∷ 0 ∷ 0 ∷ 1 ∷ 0 ∷ 0 ∷ 0 ∷ 0 ∷ [] }
    ensures { MatchResult result (λ _. ⊥) (λ f. (f ≡ faults.NotAReply) ⊎ (f ≡ faults.NoMemory)) }
{
    read_reply(alloc, bytes)
}

/// A reply is accepted, 0, or denied, 1; there is no status 2.
pub fn reports_a_status_that_there_is_not(alloc: Global, bytes: &[u8]) -> Result<Reply, ReplyFault>
    requires { bytes.now ≡
        0 ∷ 0 ∷ 0 ∷ 1 ∷ 0 ∷ 0 ∷ 0 ∷ 1 ∷ 0 ∷ 0 ∷ 0 ∷ 2 ∷ [] }
    ensures { MatchResult result (λ _. ⊥) (λ f. (f ≡ faults.BadStatus) ⊎ (f ≡ faults.NoMemory)) }
{
    read_reply(alloc, bytes)
}

/// A verifier of 401 bytes is reported by its length, before any byte of it has come.
pub fn reports_the_long_verifier_of_a_reply(
    alloc: Global,
    bytes: &[u8],
) -> Result<Reply, ReplyFault>
    requires { bytes.now ≡
        0 ∷ 0 ∷ 0 ∷ 1 ∷ 0 ∷ 0 ∷ 0 ∷ 1 ∷ 0 ∷ 0 ∷ 0 ∷ 0 ∷ 0 ∷ 0 ∷ 0 ∷ 0 ∷ 0 ∷ 0 ∷ 1 ∷ 145 ∷ [] }
    ensures { MatchResult result (λ _. ⊥) (λ f. (f ≡ faults.BadAuth) ⊎ (f ≡ faults.NoMemory)) }
{
    read_reply(alloc, bytes)
}

/// A byte after a denial belongs to no reply.
pub fn reports_what_follows_a_denial(alloc: Global, bytes: &[u8]) -> Result<Reply, ReplyFault>
    requires { bytes.now ≡
        0 ∷ 0 ∷ 0 ∷ 1 ∷ 0 ∷ 0 ∷ 0 ∷ 1 ∷ 0 ∷ 0 ∷ 0 ∷ 1 ∷ 0 ∷ 0 ∷ 0 ∷ 1 ∷ 0 ∷ 0 ∷ 0 ∷ 1 ∷ 0 ∷ [] }
    ensures { MatchResult result (λ _. ⊥) (λ f. (f ≡ faults.Rest) ⊎ (f ≡ faults.NoMemory)) }
{
    read_reply(alloc, bytes)
}

/// Two replies that differ are written to bytes that differ.
pub fn tells_two_replies_apart(
    alloc: Global,
    first: &Reply,
    second: &Reply,
) -> Result<(Vec<u8>, Vec<u8>), NoMemory>
    requires first { HasShortVerf first.now }
    requires second { HasShortVerf second.now }
    requires differ { reply_view first.now ≢ reply_view second.now }
    ensures { IfOk result (λ both. both.0.items ≢ both.1.items) }
{
    reply_bytes_are_exact();
    let one = write_reply(alloc, first)?;
    let other = write_reply(alloc, second)?;
    Ok((one, other))
}

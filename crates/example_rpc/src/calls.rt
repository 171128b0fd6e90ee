//! Calls: what bytes are read as which call, and what is written (RFC 5531 section 9).
ghost use Rattle.std.specs.Prelude.{◌≡◌, ◌≢◌, ◌≤◌, [], ◌∷◌, Some, length};
ghost use Rattle.std.specs.Prelude.{IfOk, IfSome, IsOk};
ghost use Rattle.rpc_message.specs.Message.{CaseView, Whole, OtherVersion, BadCred, BadVerf, NotACall};
ghost use Rattle.rpc_message.specs.Cases.{IsCase};
ghost use Rattle.rpc_message.specs.View.{call_view, case_view, lent_case_view};

use rpc_message::{
    Call, CallRead, LentRead, NoMemory, OpaqueAuth, call_bytes_are_exact, five_cases, read_call,
    read_lent_call, write_call,
};
use std::alloc::Global;

/// The call of procedure 0 of the port mapper, with two empty AUTH_NONE and no arguments, has these 40 bytes.
pub fn writes_the_null_call(alloc: Global) -> Result<Vec<u8>, NoMemory>
    ensures { IfOk result (λ v. v.items ≡
        0 ∷ 0 ∷ 0 ∷ 1 ∷ 0 ∷ 0 ∷ 0 ∷ 0 ∷ 0 ∷ 0 ∷ 0 ∷ 2 ∷ 0 ∷ 1 ∷ 134 ∷ 160 ∷ 0 ∷ 0 ∷ 0 ∷ 2 ∷ 0 ∷ 0 ∷ 0 ∷ 0 ∷
        0 ∷ 0 ∷ 0 ∷ 0 ∷ 0 ∷ 0 ∷ 0 ∷ 0 ∷ 0 ∷ 0 ∷ 0 ∷ 0 ∷ 0 ∷ 0 ∷ 0 ∷ 0 ∷ []) }
{
    let call = Call {
        xid: 1,
        prog: 100000,
        vers: 2,
        proc: 0,
        cred: OpaqueAuth {
            flavor: 0,
            body: Vec::new(alloc),
        },
        verf: OpaqueAuth {
            flavor: 0,
            body: Vec::new(alloc),
        },
        args: Vec::new(alloc),
    };
    write_call(alloc, &call)
}

/// A call that was written is read as it, with its own credential and verifier.
pub fn reads_what_was_written(alloc: Global, call: &Call) -> Result<CallRead, NoMemory>
    requires cred { length call.now.cred.body.items ≤ 400 }
    requires verf { length call.now.verf.body.items ≤ 400 }
    ensures { IfOk result (λ read. case_view read ≡ Whole (call_view call.now)) }
{
    let bytes = write_call(alloc, call)?;
    read_call(alloc, &bytes)
}

/// A call that was read is written to the bytes that it was read from: no other padding is accepted, and no byte is
/// lost.
pub fn writes_what_was_read(alloc: Global, bytes: &[u8]) -> Result<Option<Vec<u8>>, NoMemory>
    ensures { IfOk result (λ o. IfSome o (λ v. v.items ≡ bytes.now)) }
{
    let CallRead::Whole(call) = read_call(alloc, bytes)? else {
        return Ok(None);
    };
    Ok(Some(write_call(alloc, &call)?))
}

/// A call that is read has at most 400 bytes of credential; with 401 it is no whole call (RFC 5531 section 8.2).
pub fn credential_size(alloc: Global, bytes: &[u8]) -> Result<usize, NoMemory>
    ensures { IfOk result (λ n. n ≤ 400) }
{
    match read_call(alloc, bytes)? {
        CallRead::Whole(call) => Ok(call.cred.body.len()),
        _ => Ok(0),
    }
}

/// A call of version 3 of RPC is reported with its xid and its version. That takes no memory.
pub fn reports_version_three(alloc: Global, bytes: &[u8]) -> Result<CallRead, NoMemory>
    requires { bytes.now ≡ 0 ∷ 0 ∷ 0 ∷ 2 ∷ 0 ∷ 0 ∷ 0 ∷ 0 ∷ 0 ∷ 0 ∷ 0 ∷ 3 ∷ [] }
    ensures reported { IfOk result (λ read. case_view read ≡ OtherVersion 2 3) }
    ensures no_memory { IsOk result }
{
    read_call(alloc, bytes)
}

/// A reply is no call, whatever would be its version: the type of a message is looked at first.
pub fn takes_no_reply_for_a_call(alloc: Global, bytes: &[u8]) -> Result<CallRead, NoMemory>
    requires { bytes.now ≡ 0 ∷ 0 ∷ 0 ∷ 1 ∷ 0 ∷ 0 ∷ 0 ∷ 1 ∷ 0 ∷ 0 ∷ 0 ∷ 3 ∷ [] }
    ensures { IfOk result (λ read. case_view read ≡ NotACall) }
{
    read_call(alloc, bytes)
}

/// Twenty bytes are no call: the procedure is missing.
pub fn wants_the_procedure(alloc: Global, bytes: &[u8]) -> Result<CallRead, NoMemory>
    requires { bytes.now ≡
        0 ∷ 0 ∷ 0 ∷ 1 ∷ 0 ∷ 0 ∷ 0 ∷ 0 ∷ 0 ∷ 0 ∷ 0 ∷ 2 ∷ 0 ∷ 1 ∷ 134 ∷ 160 ∷ 0 ∷ 0 ∷ 0 ∷ 2 ∷ [] }
    ensures { IfOk result (λ read. case_view read ≡ NotACall) }
{
    read_call(alloc, bytes)
}

/// With 24 bytes it is a call whose credential cannot be read.
pub fn reports_the_missing_credential(alloc: Global, bytes: &[u8]) -> Result<CallRead, NoMemory>
    requires { bytes.now ≡
        0 ∷ 0 ∷ 0 ∷ 1 ∷ 0 ∷ 0 ∷ 0 ∷ 0 ∷ 0 ∷ 0 ∷ 0 ∷ 2 ∷ 0 ∷ 1 ∷ 134 ∷ 160 ∷ 0 ∷ 0 ∷ 0 ∷ 2 ∷ 0 ∷ 0 ∷ 0 ∷ 0 ∷ [] }
    ensures { IfOk result (λ read. case_view read ≡ BadCred 1) }
{
    read_call(alloc, bytes)
}

/// With a credential of 401 bytes too, and no byte of it is waited for.
pub fn reports_the_long_credential(alloc: Global, bytes: &[u8]) -> Result<CallRead, NoMemory>
    requires { bytes.now ≡
        0 ∷ 0 ∷ 0 ∷ 1 ∷ 0 ∷ 0 ∷ 0 ∷ 0 ∷ 0 ∷ 0 ∷ 0 ∷ 2 ∷ 0 ∷ 1 ∷ 134 ∷ 160 ∷ 0 ∷ 0 ∷ 0 ∷ 2 ∷ 0 ∷ 0 ∷ 0 ∷ 0 ∷
        0 ∷ 0 ∷ 0 ∷ 0 ∷ 0 ∷ 0 ∷ 1 ∷ 145 ∷ [] }
    ensures { IfOk result (λ read. case_view read ≡ BadCred 1) }
{
    read_call(alloc, bytes)
}

/// After a whole credential it is the verifier that is missing.
pub fn reports_the_missing_verifier(alloc: Global, bytes: &[u8]) -> Result<CallRead, NoMemory>
    requires { bytes.now ≡
        0 ∷ 0 ∷ 0 ∷ 1 ∷ 0 ∷ 0 ∷ 0 ∷ 0 ∷ 0 ∷ 0 ∷ 0 ∷ 2 ∷ 0 ∷ 1 ∷ 134 ∷ 160 ∷ 0 ∷ 0 ∷ 0 ∷ 2 ∷ 0 ∷ 0 ∷ 0 ∷ 0 ∷
        0 ∷ 0 ∷ 0 ∷ 0 ∷ 0 ∷ 0 ∷ 0 ∷ 0 ∷ [] }
    ensures { IfOk result (λ read. case_view read ≡ BadVerf 1) }
{
    read_call(alloc, bytes)
}

/// A verifier of 401 bytes is reported too.
pub fn reports_the_long_verifier(alloc: Global, bytes: &[u8]) -> Result<CallRead, NoMemory>
    requires { bytes.now ≡
        0 ∷ 0 ∷ 0 ∷ 1 ∷ 0 ∷ 0 ∷ 0 ∷ 0 ∷ 0 ∷ 0 ∷ 0 ∷ 2 ∷ 0 ∷ 1 ∷ 134 ∷ 160 ∷ 0 ∷ 0 ∷ 0 ∷ 2 ∷ 0 ∷ 0 ∷ 0 ∷ 0 ∷
        0 ∷ 0 ∷ 0 ∷ 0 ∷ 0 ∷ 0 ∷ 0 ∷ 0 ∷ 0 ∷ 0 ∷ 0 ∷ 0 ∷ 0 ∷ 0 ∷ 1 ∷ 145 ∷ [] }
    ensures { IfOk result (λ read. case_view read ≡ BadVerf 1) }
{
    read_call(alloc, bytes)
}

/// Where a call lies in its bytes it is read as the same, and that takes no memory.
pub fn reads_the_same_where_it_lies(
    alloc: Global,
    bytes: &[u8],
) -> Result<(CallRead, LentRead<'_>), NoMemory>
    ensures { IfOk result (λ both. case_view both.0 ≡ lent_case_view both.1) }
{
    let lent = read_lent_call(bytes);
    Ok((read_call(alloc, bytes)?, lent))
}

/// Bytes are in one of the five cases that `read_call` tells, and in no other.
pub fn are_in_one_case(bytes: &[u8])
    ensures some { (k : CaseView) × IsCase bytes.now k }
    ensures one { (j k : CaseView) → IsCase bytes.now j → IsCase bytes.now k → j ≡ k }
{
    five_cases();
}

/// Two calls that differ are written to bytes that differ.
pub fn tells_two_calls_apart(
    alloc: Global,
    first: &Call,
    second: &Call,
) -> Result<(Vec<u8>, Vec<u8>), NoMemory>
    requires first_cred { length first.now.cred.body.items ≤ 400 }
    requires first_verf { length first.now.verf.body.items ≤ 400 }
    requires second_cred { length second.now.cred.body.items ≤ 400 }
    requires second_verf { length second.now.verf.body.items ≤ 400 }
    requires differ { call_view first.now ≢ call_view second.now }
    ensures { IfOk result (λ both. both.0.items ≢ both.1.items) }
{
    call_bytes_are_exact();
    let one = write_call(alloc, first)?;
    let other = write_call(alloc, second)?;
    Ok((one, other))
}

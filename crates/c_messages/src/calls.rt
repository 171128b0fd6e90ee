//! Calls read and written (RFC 5531 section 9).
ghost use Rattle.std.specs.Prelude.{◌≡◌, ◌≤◌, length, IfOk};
ghost use Rattle.rpc_message.specs.Message.{CallView, CaseView, Whole};
ghost use Rattle.rpc_message.specs.Cases.{IsCase};
ghost use Rattle.rpc_message.specs.Spelling.{CallBytes};
ghost use Rattle.rpc_message.specs.View.{lent_call_view, lent_case_view};
ghost use Rattle.c_messages.specs.Calls.{reported_of, call_of, case_status, front, AreShort, IsCallWritten};
ghost use Rattle.c_messages.specs.Parts.{LiesAt};
ghost use Rattle.c_messages.specs.Statuses.{Reports};

use super::answer::Answer;
use super::buffer::place;
use super::part::{Part, padded_size};
use rpc_message::{LentAuth, LentCall, LentRead, NoMemory, read_lent_call, write_call};
use std::alloc::Global;

/// The greatest count of bytes of a credential or a verifier (RFC 5531 section 8.2).
const MOST_BODY: usize = 400;

/// What C sees of a call. Each field that a status does not speak of is 0.
#[repr(C)]
#[derive(Clone, Copy)]
pub struct CallParts {
    pub xid: u32,
    pub rpc_version: u32,
    pub program: u32,
    pub version: u32,
    pub procedure: u32,
    pub credential_flavor: u32,
    pub verifier_flavor: u32,
    pub credential: Part,
    pub verifier: Part,
    pub arguments: Part,
}

/// A call of which no more can be reported.
fn front(xid: u32, rpc_version: u32) -> CallParts
    ensures { result ≡ front xid rpc_version }
{
    CallParts {
        xid,
        rpc_version,
        program: 0,
        version: 0,
        procedure: 0,
        credential_flavor: 0,
        verifier_flavor: 0,
        credential: Part::none(),
        verifier: Part::none(),
        arguments: Part::none(),
    }
}

/// All parts of a call.
fn whole(call: LentCall<'_>) -> CallParts
    requires cred { length call.cred.body.now ≤ 400 }
    requires verf { length call.verf.body.now ≤ 400 }
    ensures { result ≡ reported_of (Whole (lent_call_view call.entry)) }
{
    let verifier = 40 + padded_size(call.cred.body.len());
    let arguments = verifier + padded_size(call.verf.body.len());
    CallParts {
        xid: call.xid,
        rpc_version: 2,
        program: call.prog,
        version: call.vers,
        procedure: call.proc,
        credential_flavor: call.cred.flavor,
        verifier_flavor: call.verf.flavor,
        credential: Part {
            at: 32,
            count: call.cred.body.len(),
        },
        verifier: Part {
            at: verifier,
            count: call.verf.body.len(),
        },
        arguments: Part {
            at: arguments,
            count: call.args.len(),
        },
    }
}

/// The status of a case, and what is reported of it.
fn reported(read: LentRead<'_>) -> (u32, CallParts)
    requires { AreShort (lent_case_view read) }
    ensures status { result.0 ≡ case_status (lent_case_view read.entry) }
    ensures parts { result.1 ≡ reported_of (lent_case_view read.entry) }
{
    match read {
        LentRead::Whole(call) => (0, whole(call)),
        LentRead::NotACall => (9, front(0, 0)),
        LentRead::OtherVersion { xid, version } => (10, front(xid, version)),
        LentRead::BadCred { xid } => (11, front(xid, 2)),
        LentRead::BadVerf { xid } => (12, front(xid, 2)),
    }
}

/// Reads the bytes as a call, as `oncrpc_call_read` says.
pub fn read_call_parts(input: &[u8], call: &mut CallParts) -> u32
    // The status and what is reported are those of the case that applies,
    ensures found { (k : CaseView) × IsCase input.now k × (result ≡ case_status k) × (call.new ≡ reported_of k) }
    // of each one that applies.
    ensures only { (k : CaseView) → IsCase input.now k → (result ≡ case_status k) × (call.new ≡ reported_of k) }
    // The parts of a call lie where they are told to be.
    ensures credential { (c : CallView) → CallBytes c input.now → LiesAt input.now call.new.credential c.cred.body }
    // Where the bytes are a call, its verifier's body and its arguments lie where the answer says.
    ensures verifier { (c : CallView) → CallBytes c input.now → LiesAt input.now call.new.verifier c.verf.body }
    ensures arguments { (c : CallView) → CallBytes c input.now → LiesAt input.now call.new.arguments c.args }
{
    let (status, parts) = reported(read_lent_call(input));
    *call = parts;
    status
}

/// The bytes of the call that C asks for.
fn call_bytes(
    alloc: Global,
    call: &CallParts,
    credential: &[u8],
    verifier: &[u8],
    arguments: &[u8],
) -> Result<Vec<u8>, NoMemory>
    requires credential { length credential.now ≤ 400 }
    requires verifier { length verifier.now ≤ 400 }
    ensures { IfOk result (λ v. CallBytes (call_of call.now credential.now verifier.now arguments.now) v.items) }
{
    let lent = LentCall {
        xid: call.xid,
        prog: call.program,
        vers: call.version,
        proc: call.procedure,
        cred: LentAuth {
            flavor: call.credential_flavor,
            body: credential,
        },
        verf: LentAuth {
            flavor: call.verifier_flavor,
            body: verifier,
        },
        args: arguments,
    };
    let owned = lent.copied(alloc)?;
    write_call(alloc, &owned)
}

fn call_into(
    alloc: Global,
    call: &CallParts,
    credential: &[u8],
    verifier: &[u8],
    arguments: &[u8],
    buffer: &mut [u8],
    count: &mut usize,
) -> Answer
    ensures { IsCallWritten (call_of call.now credential.now verifier.now arguments.now) buffer.old buffer.new count.new
        result }
{
    *count = 0;
    if MOST_BODY < credential.len() {
        return Answer::BadCredential;
    }
    if MOST_BODY < verifier.len() {
        return Answer::BadVerifier;
    }
    match call_bytes(alloc, call, credential, verifier, arguments) {
        Ok(bytes) => place(&bytes, buffer, count),
        Err(_) => Answer::NoMemory,
    }
}

/// Writes a call of version 2 of RPC into the buffer, as `oncrpc_call_write` says.
pub fn write_call_parts(
    alloc: Global,
    call: &CallParts,
    credential: &[u8],
    verifier: &[u8],
    arguments: &[u8],
    buffer: &mut [u8],
    count: &mut usize,
) -> u32
    ensures { Reports (IsCallWritten (call_of call.now credential.now verifier.now arguments.now)
        buffer.old buffer.new count.new) result }
{
    call_into(alloc, call, credential, verifier, arguments, buffer, count).status()
}

//! Calls of RPC (RFC 5531 section 9).
ghost use Rattle.std.specs.Prelude.{◌≡◌};
ghost use Rattle.rpc_message.specs.Message.{CallView, CaseView};
ghost use Rattle.rpc_message.specs.Cases.{IsCase};
ghost use Rattle.rpc_message.specs.Spelling.{CallBytes};
ghost use Rattle.c_messages.specs.Calls.{reported_of, call_of, case_status, IsCallWritten};
ghost use Rattle.c_messages.specs.Parts.{LiesAt};
ghost use Rattle.c_messages.specs.Statuses.{Reports};

use c_messages::CallParts;
use std::alloc::Global;

/// Reads the bytes as a call, and tells its numbers and where its parts lie (RFC 5531 sections 8.2 and 9).
///
/// Status 0: they are a call of version 2 of RPC; all fields are filled. 9: they are no call, or less than its front.
/// 10: a call of another version of RPC, which is reported with the xid. 11: no credential can be read. 12: no
/// verifier can be read. At 11 and 12 the xid and the version 2 of RPC are reported.
#[unsafe(no_mangle)]
pub extern "C" fn oncrpc_call_read(input: &[u8], call: &mut CallParts) -> u32
    // The status and what is reported are those of the case that applies,
    ensures found { (k : CaseView) × IsCase input.now k × (result ≡ case_status k) × (call.new ≡ reported_of k) }
    // of each one that applies.
    ensures only { (k : CaseView) → IsCase input.now k → (result ≡ case_status k) × (call.new ≡ reported_of k) }
    // The parts of a call lie where they are told to be.
    ensures credential { (c : CallView) → CallBytes c input.now → LiesAt input.now call.new.credential c.cred.body }
    // Where the bytes are a call, its verifier's body and its arguments lie where the answer says.
    ensures verifier { (c : CallView) → CallBytes c input.now → LiesAt input.now call.new.verifier c.verf.body }
    ensures arguments { (c : CallView) → CallBytes c input.now → LiesAt input.now call.new.arguments c.args }
{
    c_messages::read_call_parts(input, call)
}

/// Writes a call of version 2 of RPC into the buffer (RFC 5531 section 9). Of `call` it has the xid, program, version,
/// procedure and the two flavors. These bytes are the bodies of credential and verifier, and the arguments.
///
/// Status 0: `count` bytes are written, and the rest of the buffer is untouched. 8: the buffer is too small, `count`
/// bytes are needed. 11 and 12: the credential, and else the verifier, has more than 400 bytes. 6: memory was refused.
/// At 6, 8, 11 and 12 the buffer is untouched, and at 6, 11 and 12 `count` is 0.
#[unsafe(no_mangle)]
pub extern "C" fn oncrpc_call_write(
    alloc: Global,
    call: &CallParts,
    credential: &[u8],
    verifier: &[u8],
    arguments: &[u8],
    buffer: &mut [u8],
    count: &mut usize,
) -> u32
    ensures { Reports (IsCallWritten (call_of call.now credential.now verifier.now arguments.now)
        buffer.old buffer.new count.new) result }
{
    c_messages::write_call_parts(alloc, call, credential, verifier, arguments, buffer, count)
}

//! Replies of RPC (RFC 5531 section 9).
ghost use Rattle.std.specs.Prelude.{◌≡◌, ◌⊎◌, Result};
ghost use Rattle.rpc_message.specs.Message.{ReplyView};
ghost use Rattle.rpc_message.specs.Spelling.{ReplyBytes};
ghost use Rattle.rpc_message.specs.declared.fault.ReplyFault.{ReplyFault as FaultSpec};
ghost use Rattle.c_messages.specs.Parts.{LiesAt};
ghost use Rattle.c_messages.specs.Replies.{reported_of, outcome_status, outcome_reported, IsOutcome};
ghost use Rattle.c_messages.specs.Replies.{verifier_of, results_of, IsReplyWritten};
ghost use Rattle.c_messages.specs.Statuses.{Reports};

use c_messages::ReplyParts;
use std::alloc::Global;

/// Reads the bytes as a reply, and tells its numbers and where its parts lie (RFC 5531 sections 8.2 and 9).
///
/// Status 0: they are a reply, all of them; its fields are filled. Else the first fault in the order of the bytes: 13:
/// they end inside of a number or of the verifier. 14: the second number is not 1, REPLY. 15: a status that there is
/// not. 12: the verifier is too long, or has padding that is not zero. 16: bytes follow a reply without results. 6:
/// memory was refused. At all but 0 each field is 0.
#[unsafe(no_mangle)]
pub extern "C" fn oncrpc_reply_read(alloc: Global, input: &[u8], reply: &mut ReplyParts) -> u32
    // A reply that is reported has these bytes, and a fault names what stands in them.
    ensures found { (a : Result ReplyView FaultSpec) × IsOutcome input.now a × (result ≡ outcome_status a)
        × (reply.new ≡ outcome_reported a) }
    // A reply that the bytes are is reported, unless memory was refused.
    ensures only { (r : ReplyView) → ReplyBytes r input.now
        → (result ≡ 6) ⊎ ((result ≡ 0) × (reply.new ≡ reported_of r)) }
    // Its parts lie where they are told to be.
    ensures verifier { (r : ReplyView) → ReplyBytes r input.now → result ≡ 0
        → LiesAt input.now reply.new.verifier (verifier_of r) }
    // Where the bytes are a reply with results, these lie where the answer says.
    ensures results { (r : ReplyView) → ReplyBytes r input.now → result ≡ 0
        → LiesAt input.now reply.new.results (results_of r) }
{
    c_messages::read_reply_parts(alloc, input, reply)
}

/// Writes a reply into the buffer (RFC 5531 section 9): the xid and the state of `reply`, and what that state speaks
/// of. These bytes are the body of an accepted reply's verifier, and the results of state 0.
///
/// Status 0: `count` bytes are written, and the rest of the buffer is untouched. 8: the buffer is too small, `count`
/// bytes are needed. 15: the state is above 7. 12: the verifier of an accepted reply has more than 400 bytes. 6:
/// memory was refused. At 6, 8, 12 and 15 the buffer is untouched, and at 6, 12 and 15 `count` is 0.
#[unsafe(no_mangle)]
pub extern "C" fn oncrpc_reply_write(
    alloc: Global,
    reply: &ReplyParts,
    verifier: &[u8],
    results: &[u8],
    buffer: &mut [u8],
    count: &mut usize,
) -> u32
    ensures { Reports (IsReplyWritten reply.now verifier.now results.now buffer.old buffer.new count.new) result }
{
    c_messages::write_reply_parts(alloc, reply, verifier, results, buffer, count)
}

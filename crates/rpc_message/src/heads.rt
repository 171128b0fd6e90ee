//! Replies whose verifier is AUTH_NONE, written word by word: what a server needs where there is no memory for a value
//! of the reply (RFC 5531 section 9).

ghost use Rattle.std.specs.Prelude.{◌≡◌, ◌≤◌, ◌+◌, ◌++◌, ℕ, List, length, OnOk, OnErr};
ghost use Rattle.rpc_message.specs.Constants.{success};
ghost use Rattle.rpc_message.specs.Heads.{accepted, accepted_head};
ghost use Rattle.rpc_message.specs.Message.{SystemErr, Denied};
ghost use Rattle.rpc_message.specs.Spelling.{reply};
ghost use Rattle.rpc_message.specs.View.{why_view};

use crate::message::{Reply, Why};
use crate::numbers::SYSTEM_ERR;
use crate::replies::append_reply;
use xdr_units::NoMemory;

/// The words of an accepted reply up to and with its number, an `accept_stat`. The verifier is AUTH_NONE with an empty
/// body (RFC 5531 section 9).
pub fn accepted_head(xid: u32, stat: u32) -> [u8; 24]
    ensures { result ≡ accepted_head xid stat }
{
    let [a, b, c, d] = xid.to_be_bytes();
    let [e, f, g, h] = stat.to_be_bytes();
    [
        a, b, c, d, 0, 0, 0, 1, 0, 0, 0, 0, 0, 0, 0, 0, 0, 0, 0, 0, e, f, g, h,
    ]
}

/// The reply SYSTEM_ERR: it has no results, so that it is sent where memory was refused (RFC 5531 section 9).
pub fn system_error(xid: u32) -> [u8; 24]
    ensures { result ≡ reply (accepted xid SystemErr) }
{
    accepted_head(xid, SYSTEM_ERR)
}

/// Writes those words behind what stands in `out`. `NoMemory` comes where memory is refused, and then `out` holds what
/// it held.
pub fn append_head(out: &mut Vec<u8>, xid: u32, stat: u32) -> Result<(), NoMemory>
    ensures ok { OnOk result (out.new.items ≡ out.old.items ++ accepted_head xid stat) }
    ensures retained { OnErr result (out.new.items ≡ out.old.items) }
{
    Ok(out.extend_from_slice(&accepted_head(xid, stat))?)
}

/// Writes a reply that denies a call behind what stands in `out`. `NoMemory` comes where memory is refused, and then
/// `out` holds what it held.
pub fn append_denial(out: &mut Vec<u8>, xid: u32, why: Why) -> Result<(), NoMemory>
    ensures ok { OnOk result (out.new.items ≡ out.old.items ++ reply (Denied xid (why_view why))) }
    ensures retained { OnErr result (out.new.items ≡ out.old.items) }
{
    append_reply(out, &Reply::Denied { xid, why })
}

/// Makes a successful reply that stands behind so many bytes SYSTEM_ERR without results, where it stands. It takes no
/// memory.
pub fn cut_to_system_error(out: &mut Vec<u8>, before: usize)
    requires { before + 24 ≤ length out.old.items }
    ensures { (old results : List ℕ) (xid : ℕ) → length old ≡ before
        → out.old.items ≡ old ++ (accepted_head xid success ++ results)
        → out.new.items ≡ old ++ reply (accepted xid SystemErr) }
{
    out.truncate(before + 24);
    out[before + 23] = SYSTEM_ERR as u8;
}

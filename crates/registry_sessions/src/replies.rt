//! A reply behind the replies that wait.
ghost use Rattle.std.specs.Prelude.{◌≡◌, ◌+◌, ◌^◌, ◌<◌, ◌≤◌, ◌++◌, ◌∷◌, [], ℕ, List, length, true, OnOk, OnErr};
ghost use Rattle.std.specs.Prelude.{vec_len};
ghost use Rattle.rpc_record.specs.Marked.{fragment};
ghost use Rattle.registry_sessions.specs.Private.Replying.{PushesReply};

use crate::origin::Origin;
use registry_answer::{Appended, system_error};
use registry_callers::{append_answer_from, refused_rows_stay};
use rpc_directory::Directory;
use rpc_record::{NoMemory, last_header, normal_forms_join};
use std::alloc::Global;
use std::hash::BuildHasher;

/// Answers a record, with its reply as one last fragment behind what stands in `out`. Where memory is refused for that
/// of SYSTEM_ERR, the rows and the bytes stay.
pub fn push_reply<S: BuildHasher>(
    alloc: Global,
    origin: Origin,
    directory: &mut Directory<S>,
    message: &[u8],
    out: &mut Vec<u8>,
) -> Result<(), NoMemory>
    ensures ok { OnOk result (PushesReply origin directory.old message.now directory.new out.old.items
        out.new.items) }
    ensures rows { OnErr result (directory.new ≡ directory.old) }
    ensures bytes { OnErr result (out.new.items ≡ out.old.items) }
{
    // The law, for the proof: a fragment has four bytes more than its content.
    normal_forms_join();
    // And where memory is refused the rows stay.
    refused_rows_stay();
    let before = out.len();
    if out.extend_from_slice(&[0; 4]).is_err() {
        return Err(NoMemory);
    }
    match append_answer_from(
        alloc,
        origin.caller,
        directory,
        origin.transport,
        message,
        out,
    ) {
        Appended::Nothing => {
            out.truncate(before);
            Ok(())
        }
        Appended::Reply => {
            mark_behind(out, before);
            Ok(())
        }
        Appended::OutOfMemory { xid } => {
            if out.extend_from_slice(&system_error(xid)).is_err() {
                out.truncate(before);
                return Err(NoMemory);
            }
            mark_behind(out, before);
            Ok(())
        }
    }
}

/// Makes the four bytes behind so many the header of a last fragment with what follows them.
fn mark_behind(out: &mut Vec<u8>, before: usize)
    requires front { before + 4 ≤ vec_len out.old }
    requires few { vec_len out.old < before + 2 ^ 31 }
    ensures { (old front reply : List ℕ) → length old ≡ before → length front ≡ 4
        → out.old.items ≡ old ++ (front ++ reply) → out.new.items ≡ old ++ fragment true reply }
{
    let [a, b, c, d] = last_header((out.len() - before - 4) as u32);
    out[before] = a;
    out[before + 1] = b;
    out[before + 2] = c;
    out[before + 3] = d;
}

//! What the registry answers to one message (RFC 5531 section 9, RFC 1833 section 3): the first check that fails
//! decides. Where memory is refused the answer is SYSTEM_ERR in place of the reply that is reported here.
ghost use Rattle.std.specs.Prelude.{◌≡◌, ℕ, false, [], ◌∷◌, Some};
ghost use Rattle.std.specs.Io.{StartsWith};
ghost use Rattle.rpc_message.specs.Cases.{IsNoCall};
ghost use Rattle.registry_answer.specs.Views.{is_refused, sent_of};
ghost use Rattle.registry_answer.specs.declared.answering.Answered.TheVariants as answered;
ghost use Rattle.registry_answer.specs.declared.answering.Appended.TheVariants as appended;

use registry_answer::{Answered, Appended, Transport, answer, append_answer, one_answer};
use rpc_directory::Directory;
use rpc_message::five_cases;
use std::alloc::Global;
use std::hash::BuildHasher;
use xdr_laws::whole_exactly;

/// Bytes that are no call get no reply, and the rows stay. Memory is never refused.
pub fn is_silent_to_no_call<S: BuildHasher>(
    alloc: Global,
    directory: &mut Directory<S>,
    transport: Transport,
    message: &[u8],
) -> Answered
    requires { IsNoCall message.now }
    ensures silent { result ≡ answered.Silent }
    ensures rows { directory.new ≡ directory.old }
{
    five_cases();
    answer(alloc, directory, transport, message)
}

/// Where memory is refused, the rows are as they were before the call, whatever the call.
pub fn keeps_the_rows_without_memory<S: BuildHasher>(
    alloc: Global,
    directory: &mut Directory<S>,
    transport: Transport,
    message: &[u8],
) -> Answered
    ensures { (xid : ℕ) → result ≡ answered.OutOfMemory xid → directory.new ≡ directory.old }
{
    answer(alloc, directory, transport, message)
}

/// A reply is written behind what stands there, as the buffer for a record's header. Where memory is refused nothing
/// is.
pub fn keeps_what_stands_before<S: BuildHasher>(
    alloc: Global,
    directory: &mut Directory<S>,
    transport: Transport,
    message: &[u8],
    out: &mut Vec<u8>,
) -> Appended
    ensures before { StartsWith out.new.items out.old.items }
    ensures refused { (xid : ℕ) → result ≡ appended.OutOfMemory xid → out.new.items ≡ out.old.items }
{
    append_answer(alloc, directory, transport, message, out)
}

/// A call of version 3 of RPC is denied with RPC_MISMATCH: the lowest version that is spoken is 2, and the highest too.
pub fn speaks_version_2_of_rpc<S: BuildHasher>(
    alloc: Global,
    directory: &mut Directory<S>,
    transport: Transport,
) -> Answered
    ensures reply { is_refused result ≡ false → sent_of result ≡ Some (
        0 ∷ 0 ∷ 0 ∷ 2 ∷ 0 ∷ 0 ∷ 0 ∷ 1 ∷ 0 ∷ 0 ∷ 0 ∷ 1 ∷ 0 ∷ 0 ∷ 0 ∷ 0 ∷ 0 ∷ 0 ∷ 0 ∷ 2 ∷ 0 ∷ 0 ∷ 0 ∷ 2 ∷ []) }
    ensures rows { directory.new ≡ directory.old }
{
    one_answer();
    let message = [0, 0, 0, 2, 0, 0, 0, 0, 0, 0, 0, 3];
    answer(alloc, directory, transport, &message)
}

/// A call without a credential is denied with AUTH_ERROR, AUTH_BADCRED.
pub fn wants_a_credential<S: BuildHasher>(
    alloc: Global,
    directory: &mut Directory<S>,
    transport: Transport,
) -> Answered
    ensures reply { is_refused result ≡ false → sent_of result ≡ Some (
        0 ∷ 0 ∷ 0 ∷ 1 ∷ 0 ∷ 0 ∷ 0 ∷ 1 ∷ 0 ∷ 0 ∷ 0 ∷ 1 ∷ 0 ∷ 0 ∷ 0 ∷ 1 ∷ 0 ∷ 0 ∷ 0 ∷ 1 ∷ []) }
    ensures rows { directory.new ≡ directory.old }
{
    one_answer();
    let message = [
        0, 0, 0, 1, 0, 0, 0, 0, 0, 0, 0, 2, 0, 1, 134, 160, 0, 0, 0, 2, 0, 0, 0, 0,
    ];
    answer(alloc, directory, transport, &message)
}

/// A credential of flavor 6, RPCSEC_GSS, is denied with AUTH_ERROR, AUTH_REJECTEDCRED: AUTH_NONE and AUTH_SYS alone are
/// believed.
pub fn rejects_another_flavor<S: BuildHasher>(
    alloc: Global,
    directory: &mut Directory<S>,
    transport: Transport,
) -> Answered
    ensures reply { is_refused result ≡ false → sent_of result ≡ Some (
        0 ∷ 0 ∷ 0 ∷ 1 ∷ 0 ∷ 0 ∷ 0 ∷ 1 ∷ 0 ∷ 0 ∷ 0 ∷ 1 ∷ 0 ∷ 0 ∷ 0 ∷ 1 ∷ 0 ∷ 0 ∷ 0 ∷ 2 ∷ []) }
    ensures rows { directory.new ≡ directory.old }
{
    one_answer();
    let message = [
        0, 0, 0, 1, 0, 0, 0, 0, 0, 0, 0, 2, 0, 1, 134, 160, 0, 0, 0, 2, 0, 0, 0, 0, 0, 0, 0, 6, 0,
        0, 0, 0, 0, 0, 0, 0, 0, 0, 0, 0,
    ];
    answer(alloc, directory, transport, &message)
}

/// A call of program 100001 is answered with PROG_UNAVAIL, though its version 9 and its procedure 77 are not here
/// either: the program is looked at before them.
pub fn looks_at_the_program_first<S: BuildHasher>(
    alloc: Global,
    directory: &mut Directory<S>,
    transport: Transport,
) -> Answered
    ensures reply { is_refused result ≡ false → sent_of result ≡ Some (
        0 ∷ 0 ∷ 0 ∷ 1 ∷ 0 ∷ 0 ∷ 0 ∷ 1 ∷ 0 ∷ 0 ∷ 0 ∷ 0 ∷ 0 ∷ 0 ∷ 0 ∷ 0 ∷ 0 ∷ 0 ∷ 0 ∷ 0 ∷ 0 ∷ 0 ∷ 0 ∷ 1 ∷ []) }
    ensures rows { directory.new ≡ directory.old }
{
    one_answer();
    let message = [
        0, 0, 0, 1, 0, 0, 0, 0, 0, 0, 0, 2, 0, 1, 134, 161, 0, 0, 0, 9, 0, 0, 0, 77, 0, 0, 0, 0, 0,
        0, 0, 0, 0, 0, 0, 0, 0, 0, 0, 0,
    ];
    answer(alloc, directory, transport, &message)
}

/// With program 100000 it is the version that is not here: PROG_MISMATCH, with 2 as the lowest and 4 as the highest.
pub fn has_versions_2_to_4<S: BuildHasher>(
    alloc: Global,
    directory: &mut Directory<S>,
    transport: Transport,
) -> Answered
    ensures reply { is_refused result ≡ false → sent_of result ≡ Some (
        0 ∷ 0 ∷ 0 ∷ 1 ∷ 0 ∷ 0 ∷ 0 ∷ 1 ∷ 0 ∷ 0 ∷ 0 ∷ 0 ∷ 0 ∷ 0 ∷ 0 ∷ 0 ∷ 0 ∷ 0 ∷ 0 ∷ 0 ∷ 0 ∷ 0 ∷ 0 ∷ 2 ∷
        0 ∷ 0 ∷ 0 ∷ 2 ∷ 0 ∷ 0 ∷ 0 ∷ 4 ∷ []) }
    ensures rows { directory.new ≡ directory.old }
{
    one_answer();
    let message = [
        0, 0, 0, 1, 0, 0, 0, 0, 0, 0, 0, 2, 0, 1, 134, 160, 0, 0, 0, 9, 0, 0, 0, 77, 0, 0, 0, 0, 0,
        0, 0, 0, 0, 0, 0, 0, 0, 0, 0, 0,
    ];
    answer(alloc, directory, transport, &message)
}

/// The null procedure of version 2 is answered with SUCCESS and no results.
pub fn answers_the_null_call<S: BuildHasher>(
    alloc: Global,
    directory: &mut Directory<S>,
    transport: Transport,
) -> Answered
    ensures reply { is_refused result ≡ false → sent_of result ≡ Some (
        0 ∷ 0 ∷ 0 ∷ 1 ∷ 0 ∷ 0 ∷ 0 ∷ 1 ∷ 0 ∷ 0 ∷ 0 ∷ 0 ∷ 0 ∷ 0 ∷ 0 ∷ 0 ∷ 0 ∷ 0 ∷ 0 ∷ 0 ∷ 0 ∷ 0 ∷ 0 ∷ 0 ∷ []) }
    ensures rows { directory.new ≡ directory.old }
{
    one_answer();
    whole_exactly();
    let message = [
        0, 0, 0, 1, 0, 0, 0, 0, 0, 0, 0, 2, 0, 1, 134, 160, 0, 0, 0, 2, 0, 0, 0, 0, 0, 0, 0, 0, 0,
        0, 0, 0, 0, 0, 0, 0, 0, 0, 0, 0,
    ];
    answer(alloc, directory, transport, &message)
}

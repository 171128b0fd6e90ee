//! Changes by callers of other hosts (RFC 5531 section 9, RFC 1833 sections 2.2.1 and 3.2). Where memory is refused the
//! answer is SYSTEM_ERR in place of the reply that is reported here.
ghost use Rattle.std.specs.Prelude.{◌≡◌, ◌≢◌, [], ◌∷◌, ◌++◌};
ghost use Rattle.registry_answer.specs.declared.answering.Appended.TheVariants as appended;

use registry_answer::{Appended, Transport};
use registry_callers::{Caller, Peer, append_answer_from, remote_is_denied};
use rpc_directory::Directory;
use std::alloc::Global;
use std::hash::BuildHasher;

/// A SET of version 2, of program 70000 at TCP port 515, from another host is denied with AUTH_ERROR, AUTH_TOOWEAK, and
/// sets nothing.
pub fn denies_a_remote_set<S: BuildHasher>(
    alloc: Global,
    directory: &mut Directory<S>,
    transport: Transport,
    out: &mut Vec<u8>,
) -> Appended
    ensures replies { result ≢ appended.Nothing }
    ensures reply { result ≡ appended.Reply → out.new.items ≡ out.old.items ++ (
        0 ∷ 0 ∷ 0 ∷ 1 ∷ 0 ∷ 0 ∷ 0 ∷ 1 ∷ 0 ∷ 0 ∷ 0 ∷ 1 ∷ 0 ∷ 0 ∷ 0 ∷ 1 ∷ 0 ∷ 0 ∷ 0 ∷ 5 ∷ []) }
    ensures rows { directory.new ≡ directory.old }
{
    remote_is_denied();
    let caller = Caller {
        peer: Peer::Remote,
        host: None,
        trusts_remote: false,
    };
    let message = [
        0, 0, 0, 1, 0, 0, 0, 0, 0, 0, 0, 2, 0, 1, 134, 160, 0, 0, 0, 2, 0, 0, 0, 1, 0, 0, 0, 0, 0,
        0, 0, 0, 0, 0, 0, 0, 0, 0, 0, 0, 0, 1, 17, 112, 0, 0, 0, 1, 0, 0, 0, 6, 0, 0, 2, 3,
    ];
    append_answer_from(alloc, caller, directory, transport, &message, out)
}

/// So is an UNSET of version 4, whatever it names: the registry's own rows stay.
pub fn denies_a_remote_unset<S: BuildHasher>(
    alloc: Global,
    directory: &mut Directory<S>,
    transport: Transport,
    out: &mut Vec<u8>,
) -> Appended
    ensures replies { result ≢ appended.Nothing }
    ensures reply { result ≡ appended.Reply → out.new.items ≡ out.old.items ++ (
        0 ∷ 0 ∷ 0 ∷ 1 ∷ 0 ∷ 0 ∷ 0 ∷ 1 ∷ 0 ∷ 0 ∷ 0 ∷ 1 ∷ 0 ∷ 0 ∷ 0 ∷ 1 ∷ 0 ∷ 0 ∷ 0 ∷ 5 ∷ []) }
    ensures rows { directory.new ≡ directory.old }
{
    remote_is_denied();
    let caller = Caller {
        peer: Peer::Remote,
        host: Some([192, 0, 2, 1]),
        trusts_remote: false,
    };
    let message = [
        0, 0, 0, 1, 0, 0, 0, 0, 0, 0, 0, 2, 0, 1, 134, 160, 0, 0, 0, 4, 0, 0, 0, 2, 0, 0, 0, 0, 0,
        0, 0, 0, 0, 0, 0, 0, 0, 0, 0, 0,
    ];
    append_answer_from(alloc, caller, directory, transport, &message, out)
}

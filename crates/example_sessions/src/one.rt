//! One session: a record cut across pieces, a reply taken in part, output above the bound, and an end behind a fault
//! (RFC 5531 sections 9 and 11).
ghost use Rattle.std.specs.Prelude.{◌≡◌, ◌⊎◌, ◌+◌, ◌≤◌, ℕ, List, [], ◌∷◌, length, drop, Some, None, Ok, Err};
ghost use Rattle.rpc_record.specs.Marked.{normal};
ghost use Rattle.registry_sessions.specs.Represents.{Holds, IsFull, fault_in, output_of};
ghost use Rattle.registry_sessions.specs.declared.fault.SessionFault.{SessionFault};
ghost use Rattle.registry_sessions.specs.declared.fault.Taken.TheVariants as taken;

use registry_answer::{Transport, one_answer};
use registry_callers::{Caller, Peer, others_are_as_ever};
use registry_sessions::{Origin, Session, SessionFault, Taken};
use rpc_directory::Directory;
use std::alloc::Global;
use std::hash::BuildHasher;

/// Another host, over TCP.
const AFAR: Origin = Origin {
    caller: Caller {
        peer: Peer::Remote,
        host: None,
        trusts_remote: false,
    },
    transport: Transport::Tcp,
};

/// A record that comes in two pieces is answered with the second, which has its last byte. It is a call of version 3 of
/// RPC, so the output is RPC_MISMATCH, whose versions are 2 and 2, or SYSTEM_ERR where memory was refused for that. The
/// rows stay.
pub fn answers_a_record_cut_in_two<S: BuildHasher>(
    alloc: Global,
    directory: &mut Directory<S>,
) -> (
    Session,
    Result<Taken, SessionFault>,
    Result<Taken, SessionFault>,
)
    ensures output { result.1 ≡ Ok taken.More → (used : ℕ) → result.2 ≡ Ok (taken.Answered used)
        → (output_of result.0 ≡ 128 ∷ 0 ∷ 0 ∷ 24 ∷
        0 ∷ 0 ∷ 0 ∷ 2 ∷ 0 ∷ 0 ∷ 0 ∷ 1 ∷ 0 ∷ 0 ∷ 0 ∷ 1 ∷ 0 ∷ 0 ∷ 0 ∷ 0 ∷ 0 ∷ 0 ∷ 0 ∷ 2 ∷ 0 ∷ 0 ∷ 0 ∷ 2 ∷ [])
        ⊎ (output_of result.0 ≡ 128 ∷ 0 ∷ 0 ∷ 24 ∷
        0 ∷ 0 ∷ 0 ∷ 2 ∷ 0 ∷ 0 ∷ 0 ∷ 1 ∷ 0 ∷ 0 ∷ 0 ∷ 0 ∷ 0 ∷ 0 ∷ 0 ∷ 0 ∷ 0 ∷ 0 ∷ 0 ∷ 0 ∷ 0 ∷ 0 ∷ 0 ∷ 5 ∷ []) }
    ensures rows { result.1 ≡ Ok taken.More → (used : ℕ) → result.2 ≡ Ok (taken.Answered used)
        → directory.new ≡ directory.old }
{
    one_answer();
    others_are_as_ever();
    let mut session = Session::start(alloc, 65536, AFAR);
    let first = session.take_in(&[0x80, 0, 0, 12, 0, 0, 0, 2, 0, 0], directory);
    let second = session.take_in(&[0, 0, 0, 0, 0, 3], directory);
    session.records_are_longest();
    (session, first, second)
}

/// Half a record changes no rows, whatever is answered.
pub fn keeps_the_rows_at_half_a_record<S: BuildHasher>(
    alloc: Global,
    directory: &mut Directory<S>,
) -> Result<Taken, SessionFault>
    ensures { directory.new ≡ directory.old }
{
    let mut session = Session::start(alloc, 65536, AFAR);
    let taken = session.take_in(&[0x80, 0, 0, 12, 0, 0, 0, 2, 0, 0], directory);
    session.records_are_longest();
    taken
}

/// With more bytes of output than its bound a session takes nothing, and the rows stay.
pub fn takes_nothing_above_the_bound<S: BuildHasher>(
    session: &mut Session,
    piece: &[u8],
    directory: &mut Directory<S>,
) -> Result<Taken, SessionFault>
    requires sound { fault_in session.old ≡ None }
    requires full { IsFull session.old }
    ensures full { result ≡ Ok taken.Full }
    ensures same { session.new ≡ session.old }
    ensures rows { directory.new ≡ directory.old }
{
    session.take_in(piece, directory)
}

/// Where a write takes some of the output, the rest of the replies waits, in order, and nothing of it is lost.
pub fn keeps_the_rest_of_a_reply(session: &mut Session, n: usize)
    requires { n ≤ length (output_of session.old) }
    ensures { (replies : List (List ℕ)) (count : ℕ) → Holds session.old replies count
        → output_of session.new ≡ drop (count + n) (normal replies) }
{
    session.took(n);
}

/// A session with a fault ends with that fault, and nothing changes.
pub fn ends_with_its_fault(session: &mut Session) -> Result<(), SessionFault>
    ensures fault { (f : SessionFault) → fault_in session.old ≡ Some f → result ≡ Err f }
    ensures same { (f : SessionFault) → fault_in session.old ≡ Some f → session.new ≡ session.old }
{
    session.end()
}

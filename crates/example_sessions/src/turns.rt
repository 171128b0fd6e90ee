//! Sessions of a table that take turns.
ghost use Rattle.std.specs.Prelude.{◌≡◌, ◌≢◌, ◌++◌, ℕ, [], IfSome};
ghost use Rattle.registry_sessions.specs.Progress.{Proceeds, happened, session_at};

use registry_sessions::{SessionFault, SessionTable, Taken, steps_join};
use rpc_directory::Directory;
use std::hash::BuildHasher;

/// Two sessions that take turns have done what came of the first, and then what came of the second.
pub fn takes_turns<S: BuildHasher>(
    table: &mut SessionTable,
    one: (u64, &[u8]),
    other: (u64, &[u8]),
    directory: &mut Directory<S>,
) -> Option<(Result<Taken, SessionFault>, Result<Taken, SessionFault>)>
    ensures { IfSome result (λ r. Proceeds table.old table.new directory.old directory.new
        (happened one.entry.0 one.entry.1.now r.0 ++ happened other.entry.0 other.entry.1.now r.1) []) }
{
    steps_join();
    let first = table.take_in(one.0, one.1, directory)?;
    let second = table.take_in(other.0, other.1, directory)?;
    Some((first, second))
}

/// What one session takes changes no other one, whatever is answered.
pub fn leaves_the_other_sessions<S: BuildHasher>(
    table: &mut SessionTable,
    number: u64,
    piece: &[u8],
    directory: &mut Directory<S>,
) -> Option<Result<Taken, SessionFault>>
    ensures { (other : ℕ) → other ≢ number → session_at table.new other ≡ session_at table.old other }
{
    table.take_in(number, piece, directory)
}

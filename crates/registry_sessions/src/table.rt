//! The sessions of many connections over one registry, by the numbers of their connections.
ghost use Rattle.std.specs.Prelude.{◌≡◌, ◌≤◌, ℕ, nat_eq, Some};
ghost use Rattle.std.specs.HashMap.{get, hash_map_len};
ghost use Rattle.registry_sessions.specs.declared.session.Session.{Session};
ghost use Rattle.registry_sessions.specs.Represents.{bound_of};

use crate::fault::{OpenFault, SessionFault, Taken};
use crate::origin::Origin;
use crate::session::Session;
use registry_answer::{Appended, Transport};
use registry_callers::{Caller, append_answer_from};
use rpc_directory::Directory;
use std::alloc::Global;
use std::collections::HashMap;
use std::hash::BuildHasher;

/// The open connections of a registry, each with a number that no other one has had, and the datagrams that come beside
/// them.
#[derive(Drop)]
pub struct SessionTable {
    sessions: HashMap<u64, Session>,
    /// The number of the connection to come.
    next: u64,
    /// How many may be open at a time.
    most: usize,
    /// With more bytes of output than these a connection is not read.
    bound: u32,
    alloc: Global,
    ghost few: { hash_map_len sessions ≤ most },
    ghost alike: { (k : ℕ) (s : Session) → get nat_eq sessions k ≡ Some s → bound_of s ≡ bound },
}

impl SessionTable {
    ghost use Rattle.std.specs.Prelude.{◌⊎◌, ◌-◌, ◌^◌, [], ◌∷◌, List, length, drop, None, IfOk, IfSome, IfNone};
    ghost use Rattle.std.specs.Prelude.{IsErrOf, OnErr, option_copied};
    ghost use Rattle.std.specs.Option.{ForSome};
    ghost use Rattle.registry_rows.specs.Rows.{Row};
    ghost use Rattle.rpc_engine.specs.Run.{listed};
    ghost use Rattle.registry_sessions.specs.Represents.{output_of, Took as TakesOut, TakesIn, Concludes};
    ghost use Rattle.registry_sessions.specs.Events.{Opens, Took, Ends, Came};
    ghost use Rattle.registry_sessions.specs.Progress.{HasDone, Proceeds, SameSessions, Starts, Steps, Stops};
    ghost use Rattle.registry_sessions.specs.Progress.{session_at, next_of, count_of, most_of, bound_in};
    ghost use Rattle.registry_sessions.specs.Progress.{happened, said_of};

    /// A table with no connection, for at most `most` at a time. While more than `bound` bytes of a connection's output
    /// wait, it takes nothing.
    pub fn start(alloc: Global, most: usize, bound: u32) -> Self
        // Over whatever registry, it has done nothing.
        ensures begun { (rows : List Row) → HasDone rows [] rows result [] }
        ensures most { most_of result ≡ most }
        ensures bound { bound_in result ≡ bound }
    {
        SessionTable {
            sessions: HashMap::new(alloc),
            next: 0,
            most,
            bound,
            alloc,
        }
    }

    /// Begins a connection from `origin`, and answers its number. `Full` comes where as many are open as may be, or
    /// where 2^64 - 1 numbers were given.
    pub fn open(&mut self, origin: Origin) -> Result<u64, OpenFault>
        ensures opened { IfOk result (λ i. Starts self.old self.new i origin) }
        ensures proceeds { IfOk result (λ i.
            (rows : List Row) → Proceeds self.old self.new rows rows (Opens i origin ∷ []) []) }
        ensures full { IsErrOf result OpenFault.Full
            → (most_of self.old ≤ count_of self.old) ⊎ (next_of self.old ≡ 2 ^ 64 - 1) }
        // Where none was begun, nothing changed, and the table has done nothing.
        ensures same { OnErr result (SameSessions self.old self.new) }
        ensures stays { OnErr result ((rows : List Row) → Proceeds self.old self.new rows rows [] []) }
    {
        if self.sessions.len() >= self.most || self.next == u64::MAX {
            return Err(OpenFault::Full);
        }
        let number = self.next;
        let session = Session::start(self.alloc, self.bound, origin);
        match self.sessions.insert(number, session) {
            Ok(_) => {
                self.next += 1;
                Ok(number)
            }
            Err(_) => Err(OpenFault::NoMemory),
        }
    }

    /// How many connections are open: at most as many as may be. So all together keep at most as many times what one
    /// keeps (`Session::retained`).
    pub fn open_count(&self) -> usize
        ensures count { result ≡ count_of self.now }
        ensures few { result ≤ most_of self.now }
    {
        self.sessions.len()
    }

    /// The session of a connection, whose bound is the table's. None: it is not open.
    pub fn session(&self, number: u64) -> Option<&Session>
        ensures session { option_copied result ≡ session_at self.now number }
        ensures bound { IfSome result (λ s. bound_of s.now ≡ bound_in self.now) }
    {
        self.sessions.get(&number)
    }

    /// Takes bytes of a piece that came over a connection, as `Session::take_in` does: at most one record is answered.
    /// None: the connection is not open, and nothing changes.
    pub fn take_in<S: BuildHasher>(
        &mut self,
        number: u64,
        piece: &[u8],
        directory: &mut Directory<S>,
    ) -> Option<Result<Taken, SessionFault>>
        // The bytes came, and whatever the table has done, it has done that too.
        ensures proceeds { IfSome result (λ r.
            Proceeds self.old self.new directory.old directory.new (happened number piece.now r) []) }
        // Its session took them, and no other one changed.
        ensures steps { IfSome result (λ r.
            Steps self.old self.new number (λ s t. TakesIn s t directory.old directory.new piece.now r)) }
        ensures none { IfNone result (session_at self.old number ≡ None) }
        ensures same { IfNone result ((self.new ≡ self.old) × (directory.new ≡ directory.old)) }
    {
        match self.sessions.get_mut(&number) {
            Some(session) => Some(session.take_in(piece, directory)),
            None => None,
        }
    }

    /// Tells that a write of a connection took the first n bytes of its output, which has so many. Where it is not open
    /// nothing changes.
    pub fn took(&mut self, number: u64, n: usize)
        requires { ForSome (session_at self.old number) (λ s. n ≤ length (output_of s)) }
        ensures proceeds { IfSome (session_at self.old number) (λ s.
            (rows : List Row) → Proceeds self.old self.new rows rows (Took number n ∷ []) []) }
        // The bytes left the output of this connection, and no other one changed.
        ensures steps { IfSome (session_at self.old number) (λ old.
            Steps self.old self.new number (λ s t. TakesOut s t n × (output_of t ≡ drop n (output_of s)))) }
        ensures same { IfNone (session_at self.old number) (self.new ≡ self.old) }
    {
        if let Some(session) = self.sessions.get_mut(&number) {
            session.took(n);
        }
    }

    /// Tells that the peer of a connection sends no more, as `Session::end` does: its output stays to be written. None:
    /// the connection is not open, and nothing changes.
    pub fn end(&mut self, number: u64) -> Option<Result<(), SessionFault>>
        ensures proceeds { IfSome result (λ r. (rows : List Row) → Proceeds self.old self.new rows rows [] []) }
        ensures steps { IfSome result (λ r.
            Steps self.old self.new number (λ s t. Concludes s t r × (output_of t ≡ output_of s))) }
        ensures none { IfNone result (session_at self.old number ≡ None) }
        ensures same { IfNone result (self.new ≡ self.old) }
    {
        Some(self.sessions.get_mut(&number)?.end())
    }

    /// Ends a connection, and drops what of its output was not written. None: it was not open, and nothing changes.
    pub fn close(&mut self, number: u64) -> Option<Session>
        ensures session { result ≡ session_at self.old number }
        ensures proceeds { IfSome result (λ s.
            (rows : List Row) → Proceeds self.old self.new rows rows (Ends number ∷ []) []) }
        ensures stops { IfSome result (λ s. Stops self.old self.new number) }
        ensures same { IfNone result (SameSessions self.old self.new) }
        ensures stays { IfNone result ((rows : List Row) → Proceeds self.old self.new rows rows [] []) }
    {
        self.sessions.remove(&number)
    }

    /// Answers a datagram of a caller, with the reply made in this buffer, whose bytes are dropped: `Reply` says that
    /// it stands there. No connection changes.
    pub fn receive<S: BuildHasher>(
        &self,
        datagram: &[u8],
        caller: Caller,
        directory: &mut Directory<S>,
        buffer: &mut Vec<u8>,
    ) -> Appended
        ensures { Proceeds self.now self.now directory.old directory.new (Came caller datagram.now ∷ [])
            (listed (said_of result buffer.new.items)) }
    {
        buffer.clear();
        append_answer_from(
            self.alloc,
            caller,
            directory,
            Transport::Udp,
            datagram,
            buffer,
        )
    }
}

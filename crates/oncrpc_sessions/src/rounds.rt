//! The sockets of a registry, and what is done each time they are ready.
ghost use Rattle.std.specs.Prelude.{List};
ghost use Rattle.registry_rows.specs.Rows.{Row};
ghost use Rattle.oncrpc_sessions.specs.Loops.{Goes};

use crate::bounds::{Bounds, Room, room_within};
use crate::client::Client;
use crate::clients::Clients;
use crate::datagrams::Datagrams;
use crate::ending::Ending;
use crate::listeners::{Accepted, Listeners};
use crate::stream::Stream;
use crate::unheard::{Place, Unheard, heard};
use crate::whence::Whence;
use mio::{Events, Poll, Registry, Token};
use registry_sessions::SessionTable;
use rpc_directory::Directory;
use std::alloc::Global;
use std::fs::Files;
use std::hash::BuildHasher;
use std::net::{Net, SocketAddr};
use std::rt::Clock;
use std::time::{Duration, Instant};
use std::{fs, io};

const LISTENER: Token = Token(usize::MAX);

const LOCAL_LISTENER: Token = Token(usize::MAX - 1);

const DATAGRAMS: Token = Token(usize::MAX - 2);

/// How many connections are taken at most in one round.
const MOST_AT_ONCE: u32 = 64;

/// For how many seconds a round waits at most where a client is there, and how often idle ones are looked for.
const LONGEST_WAIT: u64 = 1;

/// Listens at a path, too, and has the poll watch it. Where it cannot watch it, no file is left there.
fn listen_locally<R: Net + Files>(
    rt: &R,
    alloc: Global,
    path: &str,
    listeners: &mut Listeners,
    registry: &Registry,
) -> Result<(), Unheard> {
    heard(Place::Local, listeners.listen_at(rt, alloc, path))?;
    let watched = listeners.register_local(registry, LOCAL_LISTENER);
    if watched.is_err() {
        let _gone = fs::remove_file(rt, path);
    }
    heard(Place::Waiting, watched)
}

/// A registry's sockets: those that listen, one for datagrams, and those of the clients. Readiness is told once: what a
/// socket was ready for stays noted until a call would block.
#[derive(Drop)]
pub struct Sockets {
    alloc: Global,
    poll: Poll,
    events: Events,
    listeners: Listeners,
    datagrams: Datagrams,
    bounds: Bounds,
    port: u16,
    clients: Clients,
    /// When idle clients were looked for last.
    looked: Instant,
}

impl Sockets {
    /// Binds both sockets at this address, whose port is 0 for any free one, and a Unix socket at a path where one is
    /// given. That is the last, so that a port that is taken leaves the path as it is. Where the Unix socket cannot be
    /// waited for, its file is removed. What becomes of connections is kept for `endings` where it `is_told`. The error
    /// says what could not be had, and why.
    pub fn bind<R: Net + Files + Clock>(
        rt: &R,
        alloc: Global,
        address: SocketAddr,
        local: Option<&str>,
        bounds: Bounds,
        is_told: bool,
    ) -> Result<Sockets, Unheard> {
        let trusts_remote = bounds.trusts_remote;
        let looked = heard(Place::Waiting, Instant::now(rt))?;
        let poll = heard(Place::Waiting, Poll::new(rt))?;
        let events = Events::with_capacity(alloc, 1024)?;
        let over_tcp = Place::Tcp(address);
        let mut listeners = heard(over_tcp, Listeners::bind(rt, address, trusts_remote))?;
        let port = heard(over_tcp, listeners.port())?;
        let mut bound = address;
        bound.set_port(port);
        let over_udp = Place::Udp(bound);
        let mut datagrams = heard(over_udp, Datagrams::bind(rt, alloc, bound, trusts_remote))?;
        let registry = poll.registry();
        heard(Place::Waiting, listeners.register(registry, LISTENER))?;
        heard(Place::Waiting, datagrams.register(registry, DATAGRAMS))?;
        if let Some(path) = local {
            listen_locally(rt, alloc, path, &mut listeners, registry)?;
        }
        Ok(Sockets {
            alloc,
            poll,
            events,
            listeners,
            datagrams,
            bounds,
            port,
            clients: Clients::new(alloc, is_told),
            looked,
        })
    }

    /// The port at which both listen.
    pub fn port(&self) -> u16 {
        self.port
    }

    /// What became of the connections that have ended since the caller emptied this. One for which there was no memory
    /// is left out.
    pub fn endings(&mut self) -> &mut Vec<Ending> {
        self.clients.endings()
    }

    /// One round: waits until a socket is ready, at most a second where a client is there, and not at all while
    /// something is left to do. It accepts what waits, answers the datagrams that came, and gives each client turns.
    /// Those go that are done, or were idle for too long. An error is that of the wait or of the clock.
    pub fn round<R: Clock + Net, S: BuildHasher>(
        &mut self,
        rt: &R,
        table: &mut SessionTable,
        directory: &mut Directory<S>,
    ) -> io::Result<()>
        ensures { Goes table.old table.new directory.old directory.new }
    {
        let now = self.wait(rt, table)?;
        self.note();
        self.accept(now, table);
        self.datagrams.receive(rt, table, directory);
        self.turns(now, table, directory);
        Ok(())
    }

    /// Waits for events, and tells the time then.
    fn wait<R: Clock>(&mut self, rt: &R, table: &SessionTable) -> io::Result<Instant> {
        let longest = self.longest_wait(table);
        self.poll.poll(&mut self.events, longest)?;
        Instant::now(rt)
    }

    /// How long may be waited. None: as long as nothing comes.
    fn longest_wait(&self, table: &SessionTable) -> Option<Duration> {
        if self.datagrams.is_busy() || self.clients.is_busy() || self.is_to_accept(table) {
            Some(Duration::ZERO)
        } else if table.open_count() == 0 && !self.listeners.is_short() {
            None
        } else {
            Some(Duration::from_secs(LONGEST_WAIT))
        }
    }

    /// Notes which sockets are ready.
    fn note(&mut self) {
        for event in &self.events {
            if event.token() == LISTENER {
                self.listeners.note();
            } else if event.token() == LOCAL_LISTENER {
                self.listeners.note_local();
            } else if event.token() == DATAGRAMS {
                self.datagrams.note();
            } else {
                self.clients.note(event.token().0, event);
            }
        }
    }

    /// Where there is room for one more connection.
    fn room(&self, table: &SessionTable) -> Room {
        let local = self.clients.local_count();
        room_within(self.bounds, table.open_count().saturating_sub(local), local)
    }

    /// A connection may wait for which there is room.
    fn is_to_accept(&self, table: &SessionTable) -> bool {
        self.listeners.is_busy(self.room(table))
    }

    /// Accepts what waits, where there is room.
    fn accept(&mut self, now: Instant, table: &mut SessionTable)
        ensures { (rows : List Row) → Goes table.old table.new rows rows }
    {
        for _ in 0..MOST_AT_ONCE {
            self.accept_one(now, table);
        }
    }

    /// Accepts one connection, where there is room. Where no session can be begun its socket is closed at once.
    fn accept_one(&mut self, now: Instant, table: &mut SessionTable)
        ensures { (rows : List Row) → Goes table.old table.new rows rows }
    {
        if !self.is_to_accept(table) {
            return;
        }
        let room = self.room(table);
        let Some(accepted) = self.listeners.accept(room) else {
            return;
        };
        self.begin(accepted, now, table);
    }

    /// Begins a session for a client.
    fn begin(&mut self, accepted: Accepted, now: Instant, table: &mut SessionTable)
        ensures { (rows : List Row) → Goes table.old table.new rows rows }
    {
        let Accepted {
            stream,
            origin,
            whence,
        } = accepted;
        let Some((place, stream)) = self.registered(stream) else {
            return;
        };
        let opened = table.open(origin);
        self.keep(place, stream, whence, opened.ok(), now);
    }

    /// Keeps a client at a place, where its session was begun.
    fn keep(
        &mut self,
        place: usize,
        stream: Stream,
        whence: Whence,
        number: Option<u64>,
        now: Instant,
    ) {
        if let Some(number) = number {
            let client = Client::new(self.alloc, stream, whence, number, now);
            self.clients.put(place, client);
        }
    }

    /// Has the poll watch a socket, and gives it with the place for its client. None: that could not be done.
    fn registered(&mut self, stream: Stream) -> Option<(usize, Stream)> {
        let mut stream = stream;
        let place = self.clients.free_place()?;
        stream.register(self.poll.registry(), Token(place)).ok()?;
        Some((place, stream))
    }

    /// Gives the clients their turns, and lets those go that were idle for too long.
    fn turns<S: BuildHasher>(
        &mut self,
        now: Instant,
        table: &mut SessionTable,
        directory: &mut Directory<S>,
    )
        ensures { Goes table.old table.new directory.old directory.new }
    {
        let before = table.open_count();
        self.clients.turns(now, table, directory);
        self.look(now, table);
        if table.open_count() < before {
            self.listeners.try_again();
        }
    }

    /// Some time has passed since idle clients were looked for.
    fn is_to_look(&self, now: Instant) -> bool {
        now.duration_since(self.looked) >= Duration::from_secs(LONGEST_WAIT)
    }

    /// Looks for idle clients, once in a while.
    fn look(&mut self, now: Instant, table: &mut SessionTable)
        ensures { (rows : List Row) → Goes table.old table.new rows rows }
    {
        if !self.is_to_look(now) {
            return;
        }
        self.looked = now;
        self.listeners.try_again();
        self.clients.close_idle(now, self.bounds.idle, table);
    }
}

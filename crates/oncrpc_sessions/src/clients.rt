//! The clients, each at a place.
ghost use Rattle.oncrpc_sessions.specs.Loops.{Goes};
ghost use Rattle.std.specs.Prelude.{List};
ghost use Rattle.registry_rows.specs.Rows.{Row};

use crate::client::Client;
use crate::ending::Ending;
use crate::whence::Whence;
use mio::event::Event;
use registry_sessions::SessionTable;
use rpc_directory::Directory;
use std::alloc::Global;
use std::hash::BuildHasher;
use std::time::{Duration, Instant};

/// How many turns a client has at most, before what else is ready is looked for.
const MOST_TURNS: u32 = 16;

/// With more bytes of replies than these none has another turn before that.
const MOST_MADE: usize = 65536;

/// Clients at places, of which some are free.
#[derive(Drop)]
pub struct Clients {
    places: Vec<Option<Client>>,
    /// How many clients are at the Unix socket.
    local_count: usize,
    /// Some client has more to do before its socket is ready for more.
    is_busy: bool,
    /// How many bytes of replies were made in these turns.
    made: usize,
    /// What became of those that have gone, where that is asked.
    endings: Vec<Ending>,
    is_told: bool,
}

impl Clients {
    /// No client. What becomes of clients is kept where it `is_told`.
    pub fn new(alloc: Global, is_told: bool) -> Self {
        Clients {
            places: Vec::new(alloc),
            local_count: 0,
            is_busy: false,
            made: 0,
            endings: Vec::new(alloc),
            is_told,
        }
    }

    /// Some client has more to do before its socket is ready for more.
    pub fn is_busy(&self) -> bool {
        self.is_busy
    }

    /// How many clients are at the Unix socket.
    pub fn local_count(&self) -> usize {
        self.local_count
    }

    /// What became of those that have gone since this was emptied.
    pub fn endings(&mut self) -> &mut Vec<Ending> {
        &mut self.endings
    }

    /// Notes what the socket of the client at a place is ready for.
    pub fn note(&mut self, place: usize, event: &Event) {
        if let Some(Some(client)) = self.places.get_mut(place) {
            client.note(event);
        }
    }

    /// A place that no client has. None: memory was refused for one more.
    pub fn free_place(&mut self) -> Option<usize> {
        match self.places.iter().position(|slot| slot.is_none()) {
            Some(place) => Some(place),
            None => {
                let place = self.places.len();
                self.places.push(None).ok()?;
                Some(place)
            }
        }
    }

    /// Puts a client at a place that is there.
    pub fn put(&mut self, place: usize, client: Client) {
        let is_local = client.is_local();
        if let Some(slot) = self.places.get_mut(place) {
            *slot = Some(client);
            self.local_count = self.local_count.saturating_add(is_local as usize);
        }
    }

    /// Gives the clients turns, one after another, until none has more to do, or they have done enough.
    pub fn turns<S: BuildHasher>(
        &mut self,
        now: Instant,
        table: &mut SessionTable,
        directory: &mut Directory<S>,
    )
        ensures { Goes table.old table.new directory.old directory.new }
    {
        self.made = 0;
        for _ in 0..MOST_TURNS {
            self.turn(now, table, directory);
            if self.is_enough() {
                return;
            }
        }
    }

    fn is_enough(&self) -> bool {
        !self.is_busy || self.made > MOST_MADE
    }

    /// Gives each client one turn.
    fn turn<S: BuildHasher>(
        &mut self,
        now: Instant,
        table: &mut SessionTable,
        directory: &mut Directory<S>,
    )
        ensures { Goes table.old table.new directory.old directory.new }
    {
        self.is_busy = false;
        for place in 0..self.places.len() {
            self.turn_at(place, now, table, directory);
        }
    }

    /// Gives the client at a place its turn. It goes where it is done.
    fn turn_at<S: BuildHasher>(
        &mut self,
        place: usize,
        now: Instant,
        table: &mut SessionTable,
        directory: &mut Directory<S>,
    )
        ensures { Goes table.old table.new directory.old directory.new }
    {
        let Some(slot) = self.places.get_mut(place) else {
            return;
        };
        let Some(client) = slot else {
            return;
        };
        client.turn(now, table, directory);
        let (is_done, is_busy) = (client.is_done(), client.is_busy(table));
        self.is_busy |= is_busy;
        self.made = self.made.saturating_add(client.made());
        if is_done {
            self.close_at(place, table);
        }
    }

    /// Ends the session of the client at a place, and frees the place.
    fn close_at(&mut self, place: usize, table: &mut SessionTable)
        ensures { (rows : List Row) → Goes table.old table.new rows rows }
    {
        let Some(slot) = self.places.get_mut(place) else {
            return;
        };
        let Some(client) = slot else {
            return;
        };
        let ending = client.close(table);
        *slot = None;
        self.let_go(ending);
    }

    /// Counts a client no more, and keeps what became of it, where that is asked and memory is there.
    fn let_go(&mut self, ending: Ending) {
        let is_local = ending.whence == Whence::Local;
        self.local_count = self.local_count.saturating_sub(is_local as usize);
        if self.is_told {
            let _kept = self.endings.push(ending);
        }
    }

    /// Closes those that were idle for longer than this.
    pub fn close_idle(&mut self, now: Instant, longest: Duration, table: &mut SessionTable)
        ensures { (rows : List Row) → Goes table.old table.new rows rows }
    {
        for place in 0..self.places.len() {
            self.look_at(place, now, longest, table);
        }
    }

    /// Closes the client at a place, where it was idle for longer than this.
    fn look_at(&mut self, place: usize, now: Instant, longest: Duration, table: &mut SessionTable)
        ensures { (rows : List Row) → Goes table.old table.new rows rows }
    {
        if !self.is_idle_at(place, now, longest) {
            return;
        }
        self.close_at(place, table);
    }

    fn is_idle_at(&self, place: usize, now: Instant, longest: Duration) -> bool {
        match self.places.get(place) {
            Some(Some(client)) => client.is_idle(now, longest),
            _ => false,
        }
    }
}

//! One client: its socket, and the bytes that were read and not taken yet. Its session is in the table.
ghost use Rattle.std.specs.Prelude.{List};
ghost use Rattle.registry_rows.specs.Rows.{Row};
ghost use Rattle.oncrpc_sessions.specs.Loops.{Goes};

use crate::ending::{Ending, Why};
use crate::stream::Stream;
use crate::whence::Whence;
use mio::event::Event;
use registry_sessions::{SessionFault, SessionTable, Taken};
use rpc_directory::Directory;
use rpc_record::RecordFault;
use std::alloc::Global;
use std::hash::BuildHasher;
use std::io::ErrorKind;
use std::time::{Duration, Instant};

/// How many bytes are read at most at a time.
const MOST_READ: usize = 4096;

/// A client over a socket that does not block. Readiness is told once: what the socket was ready for stays noted until
/// a read or a write would block.
#[derive(Drop)]
pub struct Client {
    stream: Stream,
    whence: Whence,
    /// The number of its session in the table.
    number: u64,
    /// Bytes that were read, and not taken yet.
    piece: Vec<u8>,
    /// How many bytes of its output wait to be written.
    waiting: usize,
    /// A read may give something.
    may_read: bool,
    /// A write may take something.
    may_write: bool,
    /// The peer sends no more than what is there, so that a read is to find the end.
    is_closing: bool,
    /// Why no more is read: what its output holds is written, and then it goes.
    ending: Option<Why>,
    /// When a record of it was whole last, or it took bytes of a reply.
    last: Instant,
    records: u64,
    replies: u64,
    /// How many bytes the reply of its last turn has.
    made: usize,
}

/// Why a connection ends whose peer sends no more.
fn why_ended(ended: Option<Result<(), SessionFault>>) -> Why {
    match ended {
        Some(Err(fault)) => Why::from(fault),
        _ => Why::Done,
    }
}

impl Client {
    /// A client over a socket that does not block, whose session has this number in the table. Nothing of it was read
    /// yet. It takes no memory.
    pub fn new(alloc: Global, stream: Stream, whence: Whence, number: u64, last: Instant) -> Self {
        Client {
            stream,
            whence,
            number,
            piece: Vec::new(alloc),
            waiting: 0,
            may_read: true,
            may_write: true,
            is_closing: false,
            ending: None,
            last,
            records: 0,
            replies: 0,
            made: 0,
        }
    }

    /// Notes what its socket is ready for.
    pub fn note(&mut self, event: &Event) {
        let is_closing = event.is_read_closed() || event.is_error();
        self.may_read |= event.is_readable() || is_closing;
        self.may_write |= event.is_writable() || event.is_error();
        self.is_closing |= is_closing;
    }

    /// A turn of it would do something.
    pub fn is_busy(&self, table: &SessionTable) -> bool {
        self.is_to_be_read(table) || self.is_to_be_taken(table) || self.is_to_be_written(table)
    }

    /// It is at the Unix socket.
    pub fn is_local(&self) -> bool {
        self.whence == Whence::Local
    }

    /// Nothing is left to do for it.
    pub fn is_done(&self) -> bool {
        self.ending.is_some() && self.piece.is_empty() && self.waiting == 0
    }

    /// How many bytes the reply of its last turn has, with its header.
    pub fn made(&self) -> usize {
        self.made
    }

    /// It sent no whole record and took nothing of its replies for longer than this.
    pub fn is_idle(&self, now: Instant, longest: Duration) -> bool {
        now.duration_since(self.last) > longest
    }

    /// Its session ends. What became of it is told, where no fault came before: it was idle if it was not done.
    pub fn close(&self, table: &mut SessionTable) -> Ending
        ensures { (rows : List Row) → Goes table.old table.new rows rows }
    {
        let _session = table.close(self.number);
        Ending {
            number: self.number,
            whence: self.whence,
            records: self.records,
            replies: self.replies,
            why: self.ending.unwrap_or(Why::Idle),
        }
    }

    /// Reads once, takes in at most one record, and writes once.
    pub fn turn<S: BuildHasher>(
        &mut self,
        now: Instant,
        table: &mut SessionTable,
        directory: &mut Directory<S>,
    )
        ensures { Goes table.old table.new directory.old directory.new }
    {
        self.made = 0;
        self.read(table);
        self.take_in(now, table, directory);
        self.write(now, table);
    }

    fn is_to_be_read(&self, table: &SessionTable) -> bool {
        self.may_read && self.ending.is_none() && self.piece.is_empty() && !self.is_full(table)
    }

    fn is_to_be_taken(&self, table: &SessionTable) -> bool {
        !self.piece.is_empty() && !self.is_full(table)
    }

    /// Replies go out together, once all that was read is taken, or more than the bound waits.
    fn is_to_be_written(&self, table: &SessionTable) -> bool {
        self.may_write && self.waiting > 0 && (self.piece.is_empty() || self.is_full(table))
    }

    fn is_full(&self, table: &SessionTable) -> bool {
        match table.session(self.number) {
            Some(session) => session.is_full(),
            None => true,
        }
    }

    /// Reads once, where it may be read and nothing of it waits to be taken.
    fn read(&mut self, table: &mut SessionTable)
        ensures { (rows : List Row) → Goes table.old table.new rows rows }
    {
        if !self.is_to_be_read(table) {
            return;
        }
        let mut array = [0u8; MOST_READ];
        match self.stream.read(&mut array) {
            Ok(0) => self.end(table),
            Ok(n) => self.keep(&array[..n]),
            Err(fault) => self.not_read(fault.kind()),
        }
    }

    /// Its peer sends no more: a record that is not whole has no answer.
    fn end(&mut self, table: &mut SessionTable)
        ensures { (rows : List Row) → Goes table.old table.new rows rows }
    {
        let ended = table.end(self.number);
        self.ending = Some(why_ended(ended));
    }

    /// Keeps what was read. A read of less than it could take has left nothing, but for the end.
    fn keep(&mut self, bytes: &[u8]) {
        self.may_read = self.is_closing || bytes.len() == MOST_READ;
        if self.piece.extend_from_slice(bytes).is_err() {
            self.ending = Some(Why::Fault(RecordFault::NoMemory));
        }
    }

    fn not_read(&mut self, kind: ErrorKind) {
        match kind {
            ErrorKind::WouldBlock => self.may_read = false,
            ErrorKind::Interrupted => {}
            _ => self.ending = Some(Why::Fault(RecordFault::Read)),
        }
    }

    /// Takes in what was read, up to the end of a record, where something waits to be taken.
    fn take_in<S: BuildHasher>(
        &mut self,
        now: Instant,
        table: &mut SessionTable,
        directory: &mut Directory<S>,
    )
        ensures { Goes table.old table.new directory.old directory.new }
    {
        if !self.is_to_be_taken(table) {
            return;
        }
        let taken = table.take_in(self.number, &self.piece, directory);
        self.drop_taken(taken, now);
        self.count_reply(table);
    }

    /// Drops what was taken of what was read. After a fault no more is read.
    fn drop_taken(&mut self, taken: Option<Result<Taken, SessionFault>>, now: Instant) {
        match taken {
            Some(Ok(Taken::More)) => self.piece.clear(),
            Some(Ok(Taken::Answered { used })) => {
                self.piece.drain(..used.min(self.piece.len()));
                self.records = self.records.saturating_add(1);
                self.last = now;
            }
            Some(Ok(Taken::Full)) => {}
            Some(Err(fault)) => self.stop(Why::from(fault)),
            None => self.stop(Why::Done),
        }
    }

    /// No more of it is taken.
    fn stop(&mut self, why: Why) {
        self.ending = Some(why);
        self.piece.clear();
    }

    /// Notes how much waits to be written now: more than before after a reply.
    fn count_reply(&mut self, table: &SessionTable) {
        let waiting = match table.session(self.number) {
            Some(session) => session.output().len(),
            None => 0,
        };
        if waiting > self.waiting {
            self.made = waiting - self.waiting;
            self.replies = self.replies.saturating_add(1);
        }
        self.waiting = waiting;
    }

    /// Writes once, where something waits that is to be written now.
    fn write(&mut self, now: Instant, table: &mut SessionTable)
        ensures { (rows : List Row) → Goes table.old table.new rows rows }
    {
        if !self.is_to_be_written(table) {
            return;
        }
        let written = match table.session(self.number) {
            Some(session) if !session.output().is_empty() => self.stream.write(session.output()),
            _ => return,
        };
        match written {
            Ok(n) => {
                table.took(self.number, n);
                self.wrote(n, now);
            }
            Err(fault) => self.not_written(fault.kind()),
        }
    }

    fn wrote(&mut self, n: usize, now: Instant) {
        self.waiting = self.waiting.saturating_sub(n);
        self.may_write = n > 0;
        self.last = now;
    }

    /// Where a write fails, what waits is written to nobody.
    fn not_written(&mut self, kind: ErrorKind) {
        match kind {
            ErrorKind::WouldBlock => self.may_write = false,
            ErrorKind::Interrupted => {}
            _ => {
                self.stop(Why::Fault(RecordFault::Write { written: 0 }));
                self.waiting = 0;
            }
        }
    }
}

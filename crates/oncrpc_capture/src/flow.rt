//! A connection over TCP.
use crate::pairs::{Pair, nodes};
use capture_packets::Segment;
use capture_records::{Side, Step, Told, is_reply};
use std::alloc::{AllocError, Global};
use std::net::SocketAddr;

/// A connection: what each of two nodes sends.
#[derive(Drop)]
pub struct Flow {
    pair: Pair,
    /// Whether it is known to be RPC.
    known: bool,
    /// Whether the lower node calls, by the first message.
    lower_calls: Option<bool>,
    up: Side,
    down: Side,
    /// How many bytes of memory it held when they were counted.
    counted: usize,
}

/// What came of one direction of a connection: whether that was known to be RPC before, and who sent it to whom.
#[derive(Clone, Copy)]
pub struct Found {
    pub step: Step,
    pub known: bool,
    pub from: SocketAddr,
    pub to: SocketAddr,
}

/// What is left of one direction at its end, and whether the connection is known to be RPC.
#[derive(Clone, Copy)]
pub struct Left {
    pub known: bool,
    /// How many bytes of memory it held, about.
    pub held: usize,
    /// What is to be said of bytes that no record was made of, and of those that are missing at the end.
    pub left: Option<(Told, u64)>,
    pub missing: Option<(Told, u64)>,
}

impl Flow {
    ghost use Rattle.std.specs.Prelude.{◌≡◌, IfOk, OnOk, true};
    ghost use Rattle.oncrpc_capture.specs.Private.Follows.{Finds, IsNew, Keeps, Steps, Takes};

    /// A connection of which no segment was taken.
    pub fn new(alloc: Global, pair: Pair, known: bool) -> Flow
        ensures { IsNew result }
    {
        Flow {
            pair,
            known,
            lower_calls: None,
            up: Side::new(alloc),
            down: Side::new(alloc),
            counted: 0,
        }
    }

    /// Begins what one of the two nodes sends with a segment, where it has not begun, and notes the segment, by the
    /// number and the time of its packet.
    pub fn note(&mut self, up: bool, segment: Segment<'_>, packet: (u64, u64))
        ensures { Keeps self.old self.new }
    {
        if up {
            self.up.begin(segment);
            self.up.note(segment, packet);
        } else {
            self.down.begin(segment);
            self.down.note(segment, packet);
        }
    }

    /// Takes bytes that one of two nodes sent, where it is their connection, as `Side::take`.
    pub fn take(
        &mut self,
        pair: Pair,
        up: bool,
        sequence: u32,
        bytes: &[u8],
    ) -> Result<Option<usize>, AllocError>
        ensures { OnOk result (Takes self.old self.new pair up sequence bytes.now) }
    {
        if !self.is_between(pair) {
            return Ok(None);
        }
        if up {
            self.up.take(sequence, bytes)
        } else {
            self.down.take(sequence, bytes)
        }
    }

    // Whether these are its nodes.
    fn is_between(&self, pair: Pair) -> bool
        ensures { result ≡ true → self.now.pair ≡ pair }
    {
        self.pair == pair
    }

    /// Goes on behind the first hole of what one of the two nodes sends. False: nothing is held there.
    pub fn go_behind(&mut self, up: bool) -> Result<bool, AllocError>
        ensures { OnOk result (Keeps self.old self.new) }
    {
        if up {
            self.up.go_behind()
        } else {
            self.down.go_behind()
        }
    }

    /// The next that comes of what one of the two nodes sends. A record is put into the buffer. None: nothing more for
    /// now.
    pub fn find(&mut self, up: bool, buffer: &mut Vec<u8>) -> Result<Option<Found>, AllocError>
        ensures { IfOk result (λ found. Finds self.old self.new found buffer.new.items) }
    {
        let known = self.known;
        let step = self.next(up, buffer)?;
        if step == Step::Waits {
            return Ok(None);
        }
        self.note_step(up, step, buffer);
        let (from, to) = nodes(self.pair, up);
        Ok(Some(Found {
            step,
            known,
            from,
            to,
        }))
    }

    // The step of one of the two nodes.
    fn next(&mut self, up: bool, buffer: &mut Vec<u8>) -> Result<Step, AllocError>
        ensures { IfOk result (λ step. Steps self.old self.new up step buffer.new.items) }
    {
        if up {
            self.up.next(self.known, buffer)
        } else {
            self.down.next(self.known, buffer)
        }
    }

    // Notes what came of one of the two nodes: where that is a message it is RPC, and by the first one it is known who
    // calls.
    fn note_step(&mut self, up: bool, step: Step, record: &[u8])
        ensures pair { self.new.pair ≡ self.old.pair }
        ensures up { self.new.up ≡ self.old.up }
        ensures down { self.new.down ≡ self.old.down }
    {
        if step != Step::Record {
            return;
        }
        self.known = true;
        if self.lower_calls.is_none() {
            self.lower_calls = Some(up != is_reply(record));
        }
    }

    /// Lets all go that is held of what one of the two nodes sends, and says what is left of it.
    pub fn end(&mut self, up: bool) -> Left
        ensures { Keeps self.old self.new }
    {
        let known = self.known;
        if up {
            let held = self.up.held();
            let missing = self.up.missing_at_end();
            let left = self.up.let_go();
            Left {
                known,
                held,
                left,
                missing,
            }
        } else {
            let held = self.down.held();
            let missing = self.down.missing_at_end();
            let left = self.down.let_go();
            Left {
                known,
                held,
                left,
                missing,
            }
        }
    }

    /// The number and the time of the last packet of one of the two nodes.
    pub fn last(&self, up: bool) -> (u64, u64) {
        if up { self.up.last() } else { self.down.last() }
    }

    /// Whether the lower node calls, where a message has told.
    pub fn lower_calls(&self) -> Option<bool> {
        self.lower_calls
    }

    /// Whether a segment of one of the two nodes is of another connection between them.
    pub fn is_other(&self, up: bool, segment: Segment<'_>) -> bool {
        if up {
            self.up.is_other(segment)
        } else {
            self.down.is_other(segment)
        }
    }

    /// How many bytes of memory it held when they were counted.
    pub fn counted(&self) -> usize {
        self.counted
    }

    /// Counts how many bytes of memory it holds, about.
    pub fn count(&mut self) -> usize
        ensures { Keeps self.old self.new }
    {
        self.counted = self.up.held().saturating_add(self.down.held());
        self.counted
    }
}

//! Connections over TCP, by their places.
use crate::flow::{Flow, Found, Left};
use crate::pairs::{Pair, Pairs};
use capture_packets::Segment;
use std::alloc::{AllocError, Global};

/// The connections of a capture, of which 4096 are followed at a time.
#[derive(Drop)]
pub struct Flows {
    alloc: Global,
    pub pairs: Pairs,
    flows: Vec<Flow>,
    /// How many bytes of memory they hold, about.
    held: usize,
}

impl Flows {
    ghost use Rattle.std.specs.Prelude.{IfOk, OnOk};
    ghost use Rattle.oncrpc_capture.specs.Private.Follows.{Begun, FindAt, IsNew, KeepAll, TakeAt};

    /// No connection.
    pub fn new(alloc: Global) -> Flows
        ensures { Begun result }
    {
        Flows {
            alloc,
            pairs: Pairs::new(alloc),
            flows: Vec::new(alloc),
            held: 0,
        }
    }

    /// Follows a new connection, and says its place. Where there are too many, the one that was not seen for the
    /// longest time is forgotten.
    pub fn follow(&mut self, pair: Pair, known: bool) -> Result<usize, AllocError>
        ensures { OnOk result (KeepAll self.old self.new) }
    {
        let place = self.pairs.follow(pair)?;
        let flow = Flow::new(self.alloc, pair, known);
        self.put(place, flow)?;
        Ok(place)
    }

    // Puts a new connection at a place, where one is forgotten or none is yet.
    fn put(&mut self, place: usize, flow: Flow) -> Result<(), AllocError>
        requires { IsNew flow }
        ensures { OnOk result (KeepAll self.old self.new) }
    {
        match self.flows.get_mut(place) {
            Some(old) => {
                self.held = self.held.saturating_sub(old.counted());
                *old = flow;
                Ok(())
            }
            None => {
                self.flows.push(flow)?;
                Ok(())
            }
        }
    }

    /// Begins a direction of the connection at a place with a segment, where none has begun, and notes the segment, by
    /// the number and the time of its packet.
    pub fn note(&mut self, place: usize, up: bool, segment: Segment<'_>, packet: (u64, u64))
        ensures { KeepAll self.old self.new }
    {
        if let Some(flow) = self.flows.get_mut(place) {
            flow.note(up, segment, packet);
        }
    }

    /// Takes bytes that one of two nodes sent and that begin with this sequence number, where the connection at the
    /// place is theirs. None: all were taken. Else too many are held behind a hole, and the first so many were taken.
    pub fn take(
        &mut self,
        place: usize,
        pair: Pair,
        up: bool,
        sequence: u32,
        bytes: &[u8],
    ) -> Result<Option<usize>, AllocError>
        ensures { OnOk result (TakeAt self.old self.new pair up sequence bytes.now) }
    {
        match self.flows.get_mut(place) {
            Some(flow) => flow.take(pair, up, sequence, bytes),
            None => Ok(None),
        }
    }

    /// Goes on behind the first hole of a direction of the connection at a place. False: nothing is held there.
    pub fn go_behind(&mut self, place: usize, up: bool) -> Result<bool, AllocError>
        ensures { OnOk result (KeepAll self.old self.new) }
    {
        match self.flows.get_mut(place) {
            Some(flow) => flow.go_behind(up),
            None => Ok(false),
        }
    }

    /// The next that comes of a direction of the connection at a place. A record is put into the buffer.
    pub fn next(
        &mut self,
        place: usize,
        up: bool,
        buffer: &mut Vec<u8>,
    ) -> Result<Option<Found>, AllocError>
        ensures { IfOk result (λ found. FindAt self.old self.new found buffer.new.items) }
    {
        match self.flows.get_mut(place) {
            Some(flow) => flow.find(up, buffer),
            None => Ok(None),
        }
    }

    /// Lets all go that a direction of the connection at a place holds, and says what is left of it.
    pub fn end(&mut self, place: usize, up: bool) -> Option<Left>
        ensures { KeepAll self.old self.new }
    {
        match self.flows.get_mut(place) {
            Some(flow) => Some(flow.end(up)),
            None => None,
        }
    }

    /// The number and the time of the last packet of a direction of the connection at a place.
    pub fn last(&self, place: usize, up: bool) -> Option<(u64, u64)> {
        self.flows.get(place).map(|flow| flow.last(up))
    }

    /// Whether the lower node of the connection at a place calls: by the first message, else by the greater port.
    pub fn lower_calls(&self, place: usize) -> bool {
        let by_message = match self.flows.get(place) {
            Some(flow) => flow.lower_calls(),
            None => None,
        };
        match (by_message, self.pairs.pair(place)) {
            (Some(lower), _) => lower,
            (None, Some(pair)) => pair.low.port() >= pair.high.port(),
            (None, None) => true,
        }
    }

    /// Whether a segment is of another connection between the nodes at a place.
    pub fn is_other(&self, place: usize, up: bool, segment: Segment<'_>) -> bool {
        match self.flows.get(place) {
            Some(flow) => flow.is_other(up, segment),
            None => false,
        }
    }

    /// Counts what the connection at a place holds.
    pub fn count(&mut self, place: usize)
        ensures { KeepAll self.old self.new }
    {
        if let Some(flow) = self.flows.get_mut(place) {
            let before = flow.counted();
            let held = flow.count();
            self.held = self.held.saturating_sub(before).saturating_add(held);
        }
    }

    /// How many bytes of memory they hold, about.
    pub fn held(&self) -> usize {
        self.held
    }
}

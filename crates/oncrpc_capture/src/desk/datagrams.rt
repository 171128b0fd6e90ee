//! Datagrams, each of which is a message.
use super::Desk;
use crate::finding::begins_call;
use crate::pairs::pair_of;
use crate::seen::{Seen, node_of};
use capture_packets::{Datagram, Endpoint};
use capture_records::is_reply;
use oncrpc_answers::Failure;
use xdr_io::Sink;

impl<'a> Desk<'a> {
    ghost use Rattle.std.specs.Prelude.{◌≡◌, ◌↔◌, IsTrue, OnOk};
    ghost use Rattle.capture_packets.specs.View.{datagram_view, endpoint_view};
    ghost use Rattle.oncrpc_capture.specs.Brought.{BringsDatagram, IsMessage, is_wanted};
    ghost use Rattle.oncrpc_capture.specs.Nodes.{IsSeen};
    ghost use Rattle.oncrpc_capture.specs.Private.Steps.{MayTell, PrintsOf};

    // Whether traffic between these ports is RPC, or may be.
    pub(super) fn is_wanted(&self, from: u16, to: u16) -> bool
        ensures { result ≡ is_wanted self.now.ports.now from to }
    {
        self.ports.is_empty() || self.ports.contains(&from) || self.ports.contains(&to)
    }

    // The packet at work, by its time and who sent it to whom.
    pub(super) fn seen(&self, time: u64, from: Endpoint<'_>, to: Endpoint<'_>) -> Seen
        ensures { IsSeen self.now.frame (endpoint_view from.entry) (endpoint_view to.entry) result }
    {
        Seen {
            frame: self.frame,
            time,
            from: node_of(from),
            to: node_of(to),
            late: false,
        }
    }

    /// A datagram: a message, or a part of one where its end was not captured.
    pub(super) fn datagram<O: Sink>(
        &mut self,
        time: u64,
        datagram: Datagram<'_>,
        output: &mut O,
    ) -> Result<(), Failure>
        ensures brings { OnOk result (PrintsOf
            (λ es. BringsDatagram self.old.ports.now self.old.frame (datagram_view datagram.entry) es)
            self.old.printing self.new.printing (O.taken output.old) (O.taken output.new)) }
        ensures same { (self.new.ports ≡ self.old.ports) × (self.new.frame ≡ self.old.frame) }
        ensures flows { self.new.flows ≡ self.old.flows }
    {
        if !self.is_wanted(datagram.from.port, datagram.to.port) {
            return Ok(());
        }
        let seen = self.seen(time, datagram.from, datagram.to);
        let is_message = self.is_message(datagram);
        let (pair, _up) = pair_of(seen);
        let found = self.talks.place_for(pair, is_message)?;
        match found {
            Some(place) => self.datagram_at(place, is_message, seen, datagram, output),
            None => Ok(()),
        }
    }

    // A datagram between the nodes at a place: a message by itself, or a reply whose call is known.
    fn datagram_at<O: Sink>(
        &mut self,
        place: usize,
        is_message: bool,
        seen: Seen,
        datagram: Datagram<'_>,
        output: &mut O,
    ) -> Result<(), Failure>
        requires { IsSeen self.old.frame (endpoint_view datagram.from) (endpoint_view datagram.to) seen }
        ensures tells { OnOk result (PrintsOf
            (λ es. MayTell is_message self.old.frame (datagram_view datagram.entry) es)
            self.old.printing self.new.printing (O.taken output.old) (O.taken output.new)) }
        ensures same { (self.new.ports ≡ self.old.ports) × (self.new.frame ≡ self.old.frame) }
        ensures flows { self.new.flows ≡ self.old.flows }
    {
        self.talks.note(place, self.frame);
        let way = way_of(self.talks.number(place), false, seen, datagram.bytes);
        let is_told = self.printing.is_told(is_message, way, datagram.bytes);
        if !is_told {
            return Ok(());
        }
        self.printing
            .datagram(way, seen, datagram.bytes, datagram.missing, output)
    }

    // Whether a datagram is a message by itself.
    fn is_message(&self, datagram: Datagram<'_>) -> bool
        ensures { IsTrue result ↔ IsMessage self.now.ports.now (datagram_view datagram.entry) }
    {
        if self.ports.is_empty() {
            begins_call(datagram.bytes)
        } else {
            true
        }
    }
}

/// The way of a message between the two nodes of this number: from who calls to who is called.
pub(super) fn way_of(number: u32, tcp: bool, seen: Seen, message: &[u8]) -> u32 {
    let (caller, called) = if is_reply(message) {
        (seen.to, seen.from)
    } else {
        (seen.from, seen.to)
    };
    let over = if tcp { 2 } else { 0 };
    let back = if caller <= called { 0 } else { 1 };
    number.wrapping_mul(4).wrapping_add(over + back)
}

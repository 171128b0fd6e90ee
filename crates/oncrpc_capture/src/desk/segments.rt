//! Segments, and the messages that they bring to an end.
ghost use Rattle.std.specs.Prelude.{◌≡◌, ◌+◌, ◌%◌, ◌^◌, drop};

use super::Desk;
use super::datagrams::way_of;
use crate::flow::Found;
use crate::pairs::{Pair, pair_of};
use crate::seen::Seen;
use capture_packets::Segment;
use capture_records::{Step, Told, bytes_of, first_of};
use oncrpc_answers::Failure;
use xdr_io::Sink;

/// How many bytes all directions together hold, about.
const MOST_TOTAL: usize = 268435456;

impl<'a> Desk<'a> {
    ghost use Rattle.std.specs.Prelude.{◌≡◌, OnOk};
    ghost use Rattle.capture_packets.specs.View.{endpoint_view, segment_view};
    ghost use Rattle.oncrpc_capture.specs.Nodes.{IsSeen};
    ghost use Rattle.oncrpc_capture.specs.Private.Steps.{Goes, GoesBy, GoesOn, PrintsFound};

    /// A segment, and the messages that it brings to an end.
    pub(super) fn segment<O: Sink>(
        &mut self,
        time: u64,
        segment: Segment<'_>,
        output: &mut O,
    ) -> Result<(), Failure>
        ensures goes { OnOk result (GoesBy self.old.ports.now (segment_view segment.entry) self.old.flows
            self.new.flows self.old.printing self.new.printing (O.taken output.old) (O.taken output.new)) }
        ensures same { (self.new.ports ≡ self.old.ports) × (self.new.frame ≡ self.old.frame) }
    {
        if !self.is_wanted(segment.from.port, segment.to.port) {
            return Ok(());
        }
        let seen = self.seen(time, segment.from, segment.to);
        let (pair, up) = pair_of(seen);
        let place = self.flow_of(pair, output)?;
        self.flows.pairs.note(place, self.frame);
        self.begin(place, up, time, segment, output)?;
        self.take(place, seen, segment, output)?;
        self.hold(place, up, seen, output)
    }

    // The place of the connection between two nodes, which may be new.
    fn flow_of<O: Sink>(&mut self, pair: Pair, output: &mut O) -> Result<usize, Failure>
        ensures goes { OnOk result (Goes self.old.flows self.new.flows self.old.printing self.new.printing
            (O.taken output.old) (O.taken output.new)) }
        ensures same { (self.new.ports ≡ self.old.ports) × (self.new.frame ≡ self.old.frame) }
    {
        if let Some(place) = self.flows.pairs.place_of(&pair) {
            return Ok(place);
        }
        self.make_place(output)?;
        let known = !self.ports.is_empty();
        let place = self.flows.follow(pair, known)?;
        Ok(place)
    }

    // Where there are too many connections, the one that was not seen for the longest time ends.
    fn make_place<O: Sink>(&mut self, output: &mut O) -> Result<(), Failure>
        ensures goes { OnOk result (Goes self.old.flows self.new.flows self.old.printing self.new.printing
            (O.taken output.old) (O.taken output.new)) }
        ensures same { (self.new.ports ≡ self.old.ports) × (self.new.frame ≡ self.old.frame) }
    {
        if !self.flows.pairs.is_full() {
            return Ok(());
        }
        let oldest = self.flows.pairs.oldest();
        self.end_flow(oldest, output)
    }

    // Begins a direction with a segment, where none has begun. Where the segment is of another connection between the
    // same nodes, what was before ends.
    fn begin<O: Sink>(
        &mut self,
        place: usize,
        up: bool,
        time: u64,
        segment: Segment<'_>,
        output: &mut O,
    ) -> Result<(), Failure>
        ensures goes { OnOk result (Goes self.old.flows self.new.flows self.old.printing self.new.printing
            (O.taken output.old) (O.taken output.new)) }
        ensures same { (self.new.ports ≡ self.old.ports) × (self.new.frame ≡ self.old.frame) }
    {
        self.end_other(place, up, segment, output)?;
        self.flows.note(place, up, segment, (self.frame, time));
        Ok(())
    }

    // Where a segment is of another connection between the same nodes, the direction ends.
    fn end_other<O: Sink>(
        &mut self,
        place: usize,
        up: bool,
        segment: Segment<'_>,
        output: &mut O,
    ) -> Result<(), Failure>
        ensures goes { OnOk result (Goes self.old.flows self.new.flows self.old.printing self.new.printing
            (O.taken output.old) (O.taken output.new)) }
        ensures same { (self.new.ports ≡ self.old.ports) × (self.new.frame ≡ self.old.frame) }
    {
        if !self.flows.is_other(place, up, segment) {
            return Ok(());
        }
        self.end_side(place, up, output)
    }

    // Takes the bytes of a segment. Where too many are held behind a hole, goes on behind it.
    fn take<O: Sink>(
        &mut self,
        place: usize,
        seen: Seen,
        segment: Segment<'_>,
        output: &mut O,
    ) -> Result<(), Failure>
        requires { IsSeen self.old.frame (endpoint_view segment.from) (endpoint_view segment.to) seen }
        ensures goes { OnOk result (GoesOn (segment_view segment.entry) self.old.flows self.new.flows
            self.old.printing self.new.printing (O.taken output.old) (O.taken output.new)) }
        ensures same { (self.new.ports ≡ self.old.ports) × (self.new.frame ≡ self.old.frame) }
    {
        let late = Seen { late: true, ..seen };
        let (pair, up) = pair_of(seen);
        let mut sequence = first_of(segment);
        let mut rest = bytes_of(segment);
        'pieces: for _piece in 0..u64::MAX {
            let taken = self.flows.take(place, pair, up, sequence, rest)?;
            self.records(place, up, seen, output)?;
            let Some(count) = taken else {
                return Ok(());
            };
            rest = behind(rest, count);
            sequence = number_behind(sequence, count);
            self.go_behind(place, up, late, output)?;
        }
        Ok(())
    }

    /// Goes on behind the first hole of a direction, with the messages that are whole there. False: nothing is held
    /// behind one.
    pub(super) fn go_behind<O: Sink>(
        &mut self,
        place: usize,
        up: bool,
        seen: Seen,
        output: &mut O,
    ) -> Result<bool, Failure>
        ensures goes { OnOk result (Goes self.old.flows self.new.flows self.old.printing self.new.printing
            (O.taken output.old) (O.taken output.new)) }
        ensures same { (self.new.ports ≡ self.old.ports) × (self.new.frame ≡ self.old.frame) }
    {
        if !self.flows.go_behind(place, up)? {
            return Ok(false);
        }
        self.records(place, up, seen, output)?;
        Ok(true)
    }

    /// The messages of a direction that are whole, and what is said of bytes without one: each with the nodes of the
    /// direction.
    pub(super) fn records<O: Sink>(
        &mut self,
        place: usize,
        up: bool,
        seen: Seen,
        output: &mut O,
    ) -> Result<(), Failure>
        ensures goes { OnOk result (Goes self.old.flows self.new.flows self.old.printing self.new.printing
            (O.taken output.old) (O.taken output.new)) }
        ensures same { (self.new.ports ≡ self.old.ports) × (self.new.frame ≡ self.old.frame) }
    {
        let number = self.flows.pairs.number(place);
        'steps: for _step in 0..u64::MAX {
            let Some(found) = self.flows.next(place, up, &mut self.record)? else {
                return Ok(());
            };
            self.print_found(found, number, seen, output)?;
        }
        Ok(())
    }

    // Prints what came of a direction of the connection of this number.
    fn print_found<O: Sink>(
        &mut self,
        found: Found,
        number: u32,
        seen: Seen,
        output: &mut O,
    ) -> Result<(), Failure>
        ensures prints { OnOk result (PrintsFound found self.old.record.items self.old.printing self.new.printing
            (O.taken output.old) (O.taken output.new)) }
        ensures flows { self.new.flows ≡ self.old.flows }
        ensures same { (self.new.ports ≡ self.old.ports) × (self.new.frame ≡ self.old.frame) }
    {
        let seen = Seen {
            from: found.from,
            to: found.to,
            ..seen
        };
        match found.step {
            Step::Record => {
                let way = way_of(number, true, seen, &self.record);
                self.printing.record(way, seen, &self.record, output)
            }
            Step::Tells(told, count) => {
                if found.known {
                    self.printing.note(seen, told, count, output)
                } else {
                    Ok(())
                }
            }
            Step::TooLong => {
                if found.known {
                    self.printing.too_long(seen, output)
                } else {
                    Ok(())
                }
            }
            Step::Waits => Ok(()),
        }
    }

    // Counts what a connection holds. Where all hold too much, the direction at work lets its own go.
    fn hold<O: Sink>(
        &mut self,
        place: usize,
        up: bool,
        seen: Seen,
        output: &mut O,
    ) -> Result<(), Failure>
        ensures goes { OnOk result (Goes self.old.flows self.new.flows self.old.printing self.new.printing
            (O.taken output.old) (O.taken output.new)) }
        ensures same { (self.new.ports ≡ self.old.ports) × (self.new.frame ≡ self.old.frame) }
    {
        self.flows.count(place);
        if self.flows.held() <= MOST_TOTAL {
            return Ok(());
        }
        let Some(left) = self.flows.end(place, up) else {
            return Ok(());
        };
        self.flows.count(place);
        if left.known {
            self.printing
                .note(seen, Told::Dropped, left.held as u64, output)
        } else {
            Ok(())
        }
    }
}

// What stands behind so many bytes.
fn behind(bytes: &[u8], count: usize) -> &[u8]
    ensures { result.now ≡ drop count bytes.now }
{
    bytes.get(count..).unwrap_or(&[])
}

// The sequence number that is so many places behind another (RFC 9293 section 3.4).
fn number_behind(sequence: u32, count: usize) -> u32
    ensures { result ≡ (sequence + count) % 2 ^ 32 }
{
    sequence.wrapping_add((count % (1 << 32)) as u32)
}

//! Connections that end: by another one between the same nodes, for want of a place, or with the file.
use super::Desk;
use crate::pairs::Pair;
use crate::seen::Seen;
use oncrpc_answers::Failure;
use xdr_io::Sink;

impl<'a> Desk<'a> {
    ghost use Rattle.std.specs.Prelude.{◌≡◌, OnOk};
    ghost use Rattle.oncrpc_capture.specs.Private.Steps.{Goes};

    /// At the end of the file all connections end.
    pub(super) fn end<O: Sink>(&mut self, output: &mut O) -> Result<(), Failure>
        ensures goes { OnOk result (Goes self.old.flows self.new.flows self.old.printing self.new.printing
            (O.taken output.old) (O.taken output.new)) }
        ensures same { (self.new.ports ≡ self.old.ports) × (self.new.frame ≡ self.old.frame) }
    {
        'flows: for place in 0..self.flows.pairs.len() {
            self.end_flow(place, output)?;
        }
        Ok(())
    }

    /// Both directions of a connection end, that of the calls first, so that replies behind holes have their calls.
    pub(super) fn end_flow<O: Sink>(&mut self, place: usize, output: &mut O) -> Result<(), Failure>
        ensures goes { OnOk result (Goes self.old.flows self.new.flows self.old.printing self.new.printing
            (O.taken output.old) (O.taken output.new)) }
        ensures same { (self.new.ports ≡ self.old.ports) × (self.new.frame ≡ self.old.frame) }
    {
        let calls = self.flows.lower_calls(place);
        self.end_side(place, calls, output)?;
        self.end_side(place, !calls, output)
    }

    /// A direction ends: no hole in it is filled any more, and what is held behind holes is read. The packet of each
    /// message is the last of the direction.
    pub(super) fn end_side<O: Sink>(
        &mut self,
        place: usize,
        up: bool,
        output: &mut O,
    ) -> Result<(), Failure>
        ensures goes { OnOk result (Goes self.old.flows self.new.flows self.old.printing self.new.printing
            (O.taken output.old) (O.taken output.new)) }
        ensures same { (self.new.ports ≡ self.old.ports) × (self.new.frame ≡ self.old.frame) }
    {
        let Some(seen) = self.last_of(place, up) else {
            return Ok(());
        };
        self.records(place, up, seen, output)?;
        self.read_held(place, up, seen, output)?;
        self.tell_left(place, up, seen, output)
    }

    // The last packet of a direction.
    fn last_of(&self, place: usize, up: bool) -> Option<Seen> {
        let Pair { low, high } = self.flows.pairs.pair(place)?;
        let (frame, time) = self.flows.last(place, up)?;
        let (from, to) = if up { (low, high) } else { (high, low) };
        Some(Seen {
            frame,
            time,
            from,
            to,
            late: true,
        })
    }

    // What stands behind the holes of a direction.
    fn read_held<O: Sink>(
        &mut self,
        place: usize,
        up: bool,
        seen: Seen,
        output: &mut O,
    ) -> Result<(), Failure>
        ensures goes { OnOk result (Goes self.old.flows self.new.flows self.old.printing self.new.printing
            (O.taken output.old) (O.taken output.new)) }
        ensures same { (self.new.ports ≡ self.old.ports) × (self.new.frame ≡ self.old.frame) }
    {
        'holes: for _hole in 0..u64::MAX {
            if !self.go_behind(place, up, seen, output)? {
                return Ok(());
            }
        }
        Ok(())
    }

    // Says what is left of a direction that is known to be RPC, and lets all of it go.
    fn tell_left<O: Sink>(
        &mut self,
        place: usize,
        up: bool,
        seen: Seen,
        output: &mut O,
    ) -> Result<(), Failure>
        ensures goes { OnOk result (Goes self.old.flows self.new.flows self.old.printing self.new.printing
            (O.taken output.old) (O.taken output.new)) }
        ensures same { (self.new.ports ≡ self.old.ports) × (self.new.frame ≡ self.old.frame) }
    {
        let Some(left) = self.flows.end(place, up) else {
            return Ok(());
        };
        self.flows.count(place);
        if !left.known {
            return Ok(());
        }
        self.printing.note_some(seen, left.left, output)?;
        self.printing.note_some(seen, left.missing, output)
    }
}

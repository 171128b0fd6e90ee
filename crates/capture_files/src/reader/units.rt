//! How the units of a file are gathered, one after another.

use super::{CaptureReader, LEAST_UNIT};
use crate::captured::Interface;
use crate::fault::CaptureFault;
use crate::place::{Place, Step};
use crate::progress::Progress;
use crate::reason::CaptureReason;
use crate::step::step;
use std::mem;

impl CaptureReader {
    ghost use Rattle.std.specs.Prelude.{◌≡◌, ◌<◌, ◌≤◌, ◌+◌, ◌++◌, ◌∷◌, [], length, take, vec_len, IsTrue, false};
    ghost use Rattle.capture_files.specs.Gathers.{Gathers};
    ghost use Rattle.capture_files.specs.Represents.{Takes, Ends};
    ghost use Rattle.capture_files.specs.Runs.{left_of, capped};
    ghost use Rattle.capture_files.specs.Faults.{RefusesEnd};
    ghost use Rattle.capture_files.specs.Private.Moves.{Enters, Describes, Goes, Looks, IsBetween, IsInside};
    ghost use Rattle.capture_files.specs.Private.Moves.{IsUncut};

    /// Whether the file may end here.
    fn is_between(&self) -> bool
        ensures between { IsTrue result → IsBetween self.now }
        ensures inside { result ≡ false → IsInside self.now }
    {
        match self.place {
            Place::Record(_) => self.unit.is_empty(),
            Place::Block { .. } => self.unit.is_empty(),
            Place::Start => false,
            Place::Options { .. } => false,
            Place::Passing { .. } => false,
        }
    }

    /// Ends the file while a unit is gathered.
    pub(super) fn end_unit(&mut self) -> Result<(), CaptureFault>
        requires { self.old.progress ≡ Progress.Gathering }
        ensures ends { Ends self.old self.new result }
        ensures refused { RefusesEnd self.old self.new result }
    {
        if self.is_between() {
            return Ok(());
        }
        Err(self.refuse(CaptureReason::Truncated))
    }

    /// Takes some of these bytes, at least one.
    pub(super) fn take(&mut self, rest: &[u8]) -> usize
        requires some { 0 < length rest.now }
        requires open { self.old.progress ≡ Progress.Gathering }
        ensures some { 0 < result }
        ensures few { result ≤ length rest.now }
        ensures takes { Takes self.old self.new (take result rest.now) }
        ensures uncut { IsUncut self.new.progress }
    {
        match self.place {
            Place::Passing {
                order,
                interface,
                left,
                total,
            } => {
                if left == 0 {
                    return self.gather(rest);
                }
                let count = rest.len().min(left as usize);
                self.at = self.at.saturating_add(count as u64);
                self.place = Place::Passing {
                    order,
                    interface,
                    left: left - count as u32,
                    total,
                };
                count
            }
            Place::Start => self.gather(rest),
            Place::Record(_) => self.gather(rest),
            Place::Block { .. } => self.gather(rest),
            Place::Options { .. } => self.gather(rest),
        }
    }

    /// Takes some of these bytes for the unit at work, and looks what it is.
    fn gather(&mut self, rest: &[u8]) -> usize
        requires some { 0 < length rest.now }
        requires open { self.old.progress ≡ Progress.Gathering }
        requires here { left_of self.old.place ≡ 0 }
        ensures some { 0 < result }
        ensures few { result ≤ length rest.now }
        ensures takes { Takes self.old self.new (take result rest.now) }
        ensures uncut { IsUncut self.new.progress }
    {
        let mut unit = mem::replace(&mut self.unit, Vec::new(self.alloc));
        let count = (self.need - unit.len()).min(rest.len());
        match unit.extend_from_slice(&rest[..count]) {
            Ok(()) => {
                self.look(unit);
                count
            }
            Err(_) => {
                self.refuse(CaptureReason::NoMemory);
                count
            }
        }
    }

    /// Looks what the unit at work is, once it has as many bytes as it needs.
    fn look(&mut self, unit: Vec<u8>)
        requires fits { vec_len unit ≤ self.old.need }
        requires open { self.old.progress ≡ Progress.Gathering }
        requires here { left_of self.old.place ≡ 0 }
        ensures looks { Looks self.old self.new unit.items }
        ensures uncut { IsUncut self.new.progress }
    {
        if unit.len() < self.need {
            self.unit = unit;
            return;
        }
        let next = step(self.place, &self.interfaces, &unit);
        self.go(next, unit);
    }

    /// Goes where the unit leads.
    fn go(&mut self, next: Step, unit: Vec<u8>)
        requires fits { vec_len unit ≤ self.old.need }
        requires gathers { Gathers unit.items next }
        requires open { self.old.progress ≡ Progress.Gathering }
        ensures { Goes self.old self.new unit.items next }
    {
        match next {
            Step::Need(need) => {
                self.need = need;
                self.unit = unit;
            }
            Step::Moved(place) => self.enter(place, unit),
            Step::Section(place) => {
                self.interfaces.clear();
                self.enter(place, unit);
            }
            Step::Described(place, interface) => self.describe(place, interface, unit),
            Step::Packet(place, found) => {
                self.place = place;
                self.unit = unit;
                self.progress = Progress::Waiting(found);
            }
            Step::Refused(reason) => {
                self.refuse(reason);
            }
        }
    }

    /// Comes to the place behind the unit, whose memory the next one takes.
    pub(super) fn enter(&mut self, place: Place, unit: Vec<u8>)
        ensures { Enters self.new place self.old.interfaces.items (capped (self.old.at + length unit.items)) }
    {
        self.at = self.at.saturating_add(unit.len() as u64);
        self.progress = Progress::Gathering;
        self.place = place;
        self.need = LEAST_UNIT;
        self.unit = unit;
        self.unit.clear();
    }

    /// The same, and the section has one more interface.
    fn describe(&mut self, place: Place, interface: Interface, unit: Vec<u8>)
        ensures { Describes self.new place (self.old.interfaces.items ++ interface ∷ []) self.old.at
            (capped (self.old.at + length unit.items)) }
    {
        match self.interfaces.push(interface) {
            Ok(()) => self.enter(place, unit),
            Err(_) => {
                self.refuse(CaptureReason::NoMemory);
            }
        }
    }

    /// Answers this fault from now on.
    pub(super) fn refuse(&mut self, reason: CaptureReason) -> CaptureFault
        ensures broken { self.new.progress ≡ Progress.Broken result }
        ensures reason { result.reason ≡ reason }
        ensures at { result.at ≡ self.old.at }
    {
        let fault = CaptureFault {
            reason,
            at: self.at,
        };
        self.progress = Progress::Broken(fault);
        fault
    }
}

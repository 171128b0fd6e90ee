//! A reader of files of captured packets, in any pieces: `units` gathers them, one after another.

ghost use Rattle.std.specs.Prelude.{◌+◌, ◌≤◌, vec_len};
ghost use Rattle.capture_files.specs.Fields.{open_of, end_of};
ghost use Rattle.capture_files.specs.Limits.{most_unit};

use crate::captured::{Captured, Interface};
use crate::fault::{CaptureFault, CaptureStep};
use crate::place::Place;
use crate::progress::Progress;
use crate::reason::CaptureReason;
use std::alloc::Global;
use std::mem;

mod units;

/// How many bytes each unit has at least, beside those that are passed over.
const LEAST_UNIT: usize = 4;

/// Takes a file in any pieces, and hands its packets out. It keeps at most 262172 bytes and 256 interfaces.
#[derive(Drop)]
pub struct CaptureReader {
    place: Place,
    interfaces: Vec<Interface>,
    /// The bytes of the unit at work, or of the one whose packet waits.
    unit: Vec<u8>,
    alloc: Global,
    /// How many bytes the unit has at least.
    need: usize,
    /// Where in the file the unit begins, u64::MAX for any place behind.
    at: u64,
    progress: Progress,
    ghost bounded: { need ≤ most_unit },
    ghost gathered: { vec_len unit + open_of progress ≤ need },
    ghost within: { end_of progress ≤ vec_len unit },
}

impl CaptureReader {
    ghost use Rattle.std.specs.Prelude.{◌≡◌, [], length, take, option_map, IfSome};
    ghost use Rattle.capture_files.specs.Represents.{Represents, captured_view, waiting, Takes, used_of, Reports, Ends};
    ghost use Rattle.capture_files.specs.Represents.{kept_of, Keeps};
    ghost use Rattle.capture_files.specs.Faults.{RefusesPiece, RefusesEnd};
    ghost use Rattle.capture_files.specs.Private.Moves.{LetsGo};

    /// A reader before the first byte of a file.
    pub fn start(alloc: Global) -> Self
        // It has taken no bytes, and they have no packets.
        ensures represents { Represents result [] [] }
        // It waits for bytes: no packet waits, and no fault was answered.
        ensures gathers { result.progress ≡ Progress.Gathering }
    {
        CaptureReader {
            place: Place::Start,
            interfaces: Vec::new(alloc),
            unit: Vec::new(alloc),
            alloc,
            need: LEAST_UNIT,
            at: 0,
            progress: Progress::Gathering,
        }
    }

    /// Takes the bytes of a piece, which may be empty, up to the end of a packet. `More`: all were taken. `Packet`: a
    /// packet waits, and the first `used` bytes were taken, which end with its last byte; the next call lets it go. A
    /// fault takes the whole piece and is answered for ever after. `Truncated` comes only of `end`.
    pub fn feed(&mut self, piece: &[u8]) -> Result<CaptureStep, CaptureFault>
        ensures used { used_of result (length piece.now) ≤ length piece.now }
        // What all bytes that were ever taken are, and which packets they have.
        ensures takes { Takes self.old self.new (take (used_of result (length piece.now)) piece.now) }
        // A packet waits exactly where the answer says so.
        ensures reports { Reports result self.new.progress }
        // A fault stays, and a new one never says that the file is cut.
        ensures refused { RefusesPiece self.old self.new result }
    {
        self.let_go();
        let mut used = 0;
        while used < piece.len() {
            match self.progress {
                Progress::Gathering => used += self.take(&piece[used..]),
                Progress::Waiting(_) => return Ok(CaptureStep::Packet { used }),
                Progress::Broken(fault) => return Err(fault),
            }
        }
        match self.progress {
            Progress::Gathering => Ok(CaptureStep::More),
            Progress::Waiting(_) => Ok(CaptureStep::Packet { used }),
            Progress::Broken(fault) => Err(fault),
        }
    }

    /// The packet that waits. None where none does.
    pub fn packet(&self) -> Option<Captured<'_>>
        ensures packet { option_map captured_view result ≡ waiting self.now }
        // It stands where the unit does.
        ensures at { IfSome result (λ c. c.at ≡ self.now.at) }
    {
        match self.progress {
            Progress::Waiting(found) => Some(Captured {
                link: found.link,
                time: found.time,
                resolution: found.resolution,
                original: found.original,
                at: self.at,
                bytes: &self.unit[found.from..found.from + found.size],
            }),
            _ => None,
        }
    }

    /// How many bytes of the file are kept, those of the unit at work or of the packet that waits: at most 262172.
    pub fn retained(&self) -> usize
        ensures kept { result ≡ length (kept_of self.now) }
        // These are the last of the bytes that were taken.
        ensures keeps { Keeps self.now }
        ensures most { result ≤ most_unit }
    {
        self.unit.len()
    }

    /// Ends the file: well between two records or blocks. Inside of one it is `Truncated`, at the place of that one,
    /// for ever after, and an earlier fault is answered again. A packet that waits is let go. No memory is taken, so
    /// `NoMemory` comes only where it was answered before.
    pub fn end(&mut self) -> Result<(), CaptureFault>
        ensures ends { Ends self.old self.new result }
        // A fault stays, and a new one says that the file is cut.
        ensures refused { RefusesEnd self.old self.new result }
    {
        self.let_go();
        match self.progress {
            Progress::Gathering => self.end_unit(),
            Progress::Waiting(_) => unreachable!(),
            Progress::Broken(fault) => Err(fault),
        }
    }

    /// Lets the packet go that waits.
    fn let_go(&mut self)
        ensures { LetsGo self.old self.new }
    {
        match self.progress {
            Progress::Waiting(_) => {
                let unit = mem::replace(&mut self.unit, Vec::new(self.alloc));
                self.progress = Progress::Gathering;
                self.need = LEAST_UNIT;
                self.enter(self.place, unit);
            }
            Progress::Gathering => {}
            Progress::Broken(_) => {}
        }
    }
}

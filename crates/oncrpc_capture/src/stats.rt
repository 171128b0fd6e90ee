//! What is counted where no message is printed; `tables` are the lines of it.
ghost use Rattle.std.specs.Prelude.{◌<◌, IfSome};

use crate::seen::Seen;
use capture_packets::Reason as PacketReason;
use capture_records::Told;
use oncrpc_messages::{Asked, Found, Said, Verdict, Why};
use std::alloc::{AllocError, Global};
use std::collections::BTreeMap;
use xdr_codec::Reason;

mod tables;

/// Of how many procedures there are rows. Calls of others are counted in none.
const MOST_ROWS: usize = 4096;

/// How many of the slowest replies are told.
const MOST_SLOW: usize = 10;

/// A procedure by its numbers.
#[derive(Clone, Copy, Debug, PartialEq, Eq, PartialOrd, Ord)]
struct Target {
    program: u32,
    version: u32,
    procedure: u32,
}

/// What is counted of a procedure.
#[derive(Clone, Copy)]
struct Row {
    calls: u64,
    replies: u64,
    refused: u64,
}

/// A reply to a call: how long it took, in nanoseconds, and the packet that ended it.
#[derive(Clone, Copy)]
struct Slow {
    time: u64,
    frame: u64,
    xid: u32,
    target: Target,
}

/// What is counted of messages.
#[derive(Drop)]
pub struct Stats {
    alloc: Global,
    rows: BTreeMap<Target, Row>,
    reasons: [u64; 9],
    /// The slowest replies, the slowest first.
    slow: Vec<Slow>,
    /// Of how many bytes each was said.
    told: [u64; 4],
    /// How many packets were not read for each reason.
    unread: [u64; 6],
}

fn target_of(asked: Asked) -> Target {
    Target {
        program: asked.program,
        version: asked.version,
        procedure: asked.procedure,
    }
}

fn told_place(told: Told) -> usize
    ensures { result < 4 }
{
    match told {
        Told::Missing => 0,
        Told::Unfinished => 1,
        Told::Passed => 2,
        Told::Dropped => 3,
    }
}

fn unread_place(reason: PacketReason) -> Option<usize>
    ensures { IfSome result (λ place. place < 6) }
{
    match reason {
        PacketReason::UnknownLink => Some(0),
        PacketReason::Cut => Some(1),
        PacketReason::BadInternet => Some(2),
        PacketReason::Fragment => Some(3),
        PacketReason::BadDatagram => Some(4),
        PacketReason::BadSegment => Some(5),
        PacketReason::NotInternet | PacketReason::OtherProtocol => None,
    }
}

fn reason_place(why: Why) -> usize
    ensures { result < 9 }
{
    match why {
        Why::Bytes(Reason::BadBool) => 0,
        Why::Bytes(Reason::BadNumbered) => 1,
        Why::Bytes(Reason::BadCase) => 2,
        Why::Bytes(Reason::TooLong) => 3,
        Why::Bytes(Reason::BadPadding) => 4,
        Why::Bytes(Reason::TooDeep) => 5,
        Why::Bytes(Reason::TooLarge) => 6,
        Why::Bytes(Reason::Truncated) => 7,
        Why::Bytes(Reason::NoMemory) => 7,
        Why::MoreFollows => 8,
    }
}

impl Stats {
    /// No message.
    pub fn new(alloc: Global) -> Stats {
        Stats {
            alloc,
            rows: BTreeMap::new(alloc),
            reasons: [0; 9],
            slow: Vec::new(alloc),
            told: [0; 4],
            unread: [0; 6],
        }
    }

    /// Counts bytes of which something is said.
    pub fn note(&mut self, told: Told, count: u64) {
        let place = told_place(told);
        self.told[place] = self.told[place].saturating_add(count);
    }

    /// Counts a packet that is not read.
    pub fn unread(&mut self, reason: PacketReason) {
        if let Some(place) = unread_place(reason) {
            self.unread[place] = self.unread[place].saturating_add(1);
        }
    }

    /// Counts a header that no record has.
    pub fn refuse_record(&mut self) {
        self.reasons[3] = self.reasons[3].saturating_add(1);
    }

    /// Counts a message that ended with this packet, and the call to which it answers. How long a reply took is not
    /// known where it stood behind a hole.
    pub fn count(
        &mut self,
        found: Found,
        asked: Option<Asked>,
        seen: Seen,
    ) -> Result<(), AllocError> {
        let mut refused = 0;
        if let Verdict::Refused(refusal) = found.verdict {
            refused = 1;
            let place = reason_place(refusal.why);
            self.reasons[place] = self.reasons[place].saturating_add(1);
        }
        match found.said {
            Said::Call { asked, .. } => self.add(target_of(asked), 1, 0, refused),
            Said::Reply { xid } => match asked {
                Some(asked) => {
                    let target = target_of(asked);
                    if !seen.late {
                        self.note_slow(Slow {
                            time: seen.time.saturating_sub(asked.time),
                            frame: seen.frame,
                            xid,
                            target,
                        })?;
                    }
                    self.add(target, 0, 1, refused)
                }
                None => Ok(()),
            },
            Said::Neither => Ok(()),
        }
    }

    // Adds to the row of a procedure.
    fn add(
        &mut self,
        target: Target,
        calls: u64,
        replies: u64,
        refused: u64,
    ) -> Result<(), AllocError> {
        let row = match self.rows.get(&target) {
            Some(row) => *row,
            None => {
                if self.rows.len() == MOST_ROWS {
                    return Ok(());
                }
                Row {
                    calls: 0,
                    replies: 0,
                    refused: 0,
                }
            }
        };
        let row = Row {
            calls: row.calls.saturating_add(calls),
            replies: row.replies.saturating_add(replies),
            refused: row.refused.saturating_add(refused),
        };
        match self.rows.insert(target, row) {
            Ok(_) => Ok(()),
            Err(_) => Err(AllocError),
        }
    }

    // Behind how many of the slowest replies one of this time stands.
    fn place_of(&self, time: u64) -> usize {
        for (place, other) in self.slow.iter().enumerate() {
            if other.time < time {
                return place;
            }
        }
        self.slow.len()
    }

    // Keeps a reply where it is among the slowest.
    fn note_slow(&mut self, slow: Slow) -> Result<(), AllocError> {
        let at = self.place_of(slow.time);
        if at >= MOST_SLOW {
            return Ok(());
        }
        self.slow.truncate(MOST_SLOW - 1);
        if at <= self.slow.len() {
            self.slow.insert(at, slow)?;
        }
        Ok(())
    }
}

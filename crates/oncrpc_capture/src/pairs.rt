//! Who talks to whom.
ghost use Rattle.std.specs.Prelude.{◌≡◌};
ghost use Rattle.oncrpc_capture.specs.Private.Follows.{from_of, to_of};

use crate::seen::Seen;
use std::alloc::{AllocError, Global};
use std::collections::BTreeMap;
use std::net::SocketAddr;

/// How many pairs are followed at a time.
pub const MOST_PAIRS: usize = 4096;

/// Two nodes that talk to one another, the lower one first.
#[derive(Clone, Copy, PartialEq, Eq, PartialOrd, Ord)]
pub struct Pair {
    pub low: SocketAddr,
    pub high: SocketAddr,
}

/// Who talks to whom in a packet, and whether the lower node sends it.
pub fn pair_of(seen: Seen) -> (Pair, bool)
    ensures from { from_of result.0 result.1 ≡ seen.from }
    ensures to { to_of result.0 result.1 ≡ seen.to }
{
    let Seen { from, to, .. } = seen;
    if from <= to {
        let pair = Pair {
            low: from,
            high: to,
        };
        (pair, true)
    } else {
        let pair = Pair {
            low: to,
            high: from,
        };
        (pair, false)
    }
}

/// Who sends to whom, where the lower node sends or the higher.
pub fn nodes(pair: Pair, up: bool) -> (SocketAddr, SocketAddr)
    ensures from { result.0 ≡ from_of pair up }
    ensures to { result.1 ≡ to_of pair up }
{
    if up {
        (pair.low, pair.high)
    } else {
        (pair.high, pair.low)
    }
}

// A pair that is followed.
#[derive(Clone, Copy)]
struct Row {
    pair: Pair,
    /// Its number, by which its calls are noted.
    number: u32,
    /// The number of its last packet.
    last: u64,
}

/// Pairs, of which so many are followed at a time.
#[derive(Drop)]
pub struct Pairs {
    places: BTreeMap<Pair, usize>,
    rows: Vec<Row>,
    /// The number of the next pair.
    next: u32,
}

impl Pairs {
    ghost use Rattle.std.specs.Prelude.{◌≡◌, false, IfOk, MatchOption, ⊤};

    /// No pair.
    pub fn new(alloc: Global) -> Pairs {
        Pairs {
            places: BTreeMap::new(alloc),
            rows: Vec::new(alloc),
            next: 0,
        }
    }

    /// The place of a pair, where it is followed.
    pub fn place_of(&self, pair: &Pair) -> Option<usize> {
        self.places.get(pair).copied()
    }

    /// Whether no more can be followed unless one is forgotten.
    pub fn is_full(&self) -> bool {
        self.rows.len() >= MOST_PAIRS
    }

    /// How many are followed.
    pub fn len(&self) -> usize {
        self.rows.len()
    }

    /// The place of the one that was not seen for the longest time.
    pub fn oldest(&self) -> usize {
        let mut oldest = 0;
        let mut last = u64::MAX;
        for (place, row) in self.rows.iter().enumerate() {
            if row.last < last {
                last = row.last;
                oldest = place;
            }
        }
        oldest
    }

    /// The place of a pair, which is followed from now on where it is wanted.
    pub fn place_for(&mut self, pair: Pair, wanted: bool) -> Result<Option<usize>, AllocError>
        ensures { IfOk result (λ place. MatchOption place (wanted ≡ false) (λ _. ⊤)) }
    {
        let known = self.place_of(&pair);
        if let Some(place) = known {
            return Ok(Some(place));
        }
        if !wanted {
            return Ok(None);
        }
        let place = self.follow(pair)?;
        Ok(Some(place))
    }

    /// Follows a new pair, and says its place: behind the others, or where there are too many that of the one that was
    /// not seen for the longest time, which is forgotten.
    pub fn follow(&mut self, pair: Pair) -> Result<usize, AllocError> {
        let row = Row {
            pair,
            number: self.next,
            last: 0,
        };
        self.next = self.next.wrapping_add(1);
        let place = if self.is_full() {
            self.replace(row)
        } else {
            let count = self.rows.len();
            self.rows.push(row)?;
            count
        };
        match self.places.insert(pair, place) {
            Ok(_) => Ok(place),
            Err(_) => Err(AllocError),
        }
    }

    // Puts a row in place of the oldest.
    fn replace(&mut self, row: Row) -> usize {
        let oldest = self.oldest();
        if let Some(old) = self.rows.get_mut(oldest) {
            self.places.remove(&old.pair);
            *old = row;
        }
        oldest
    }

    /// A packet of the pair at this place came, with this number.
    pub fn note(&mut self, place: usize, frame: u64) {
        if let Some(row) = self.rows.get_mut(place) {
            row.last = frame;
        }
    }

    /// The pair at a place, where one is.
    pub fn pair(&self, place: usize) -> Option<Pair> {
        self.rows.get(place).map(|row| row.pair)
    }

    /// The number of the pair at a place.
    pub fn number(&self, place: usize) -> u32 {
        match self.rows.get(place) {
            Some(row) => row.number,
            None => 0,
        }
    }
}

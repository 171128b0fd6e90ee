//! Where bytes come from, and where they go.
ghost use Rattle.std.specs.Prelude.{◌≤◌, ◌<◌};

use crate::digest::Digest;
use crate::random::Random;
use xdr_io::{ReadFault, Sink, SinkFault, Source};

/// How many bytes a segment over Ethernet brings.
pub const SEGMENT: usize = 1448;

/// How many bytes a read brings.
#[derive(Clone, Copy)]
pub enum Pieces {
    /// As many as a read takes.
    Pages,
    /// What comes in a segment.
    Segments,
    /// From one byte to so many.
    UpTo(u32),
}

/// Gives bytes by pieces. It tells nothing of them.
#[derive(Drop)]
pub struct Pieced<'a> {
    rest: &'a [u8],
    pieces: Pieces,
    random: Random,
}

impl<'a> Pieced<'a> {
    pub fn new(bytes: &'a [u8], pieces: Pieces, random: &mut Random) -> Pieced<'a> {
        Pieced {
            rest: bytes,
            pieces,
            random: Random::new(random.word()),
        }
    }
}

impl<'a> Source for Pieced<'a> {
    fn read(&mut self, array: &mut [u8; 4096]) -> Result<usize, ReadFault> {
        let most = match self.pieces {
            Pieces::Pages => 4096,
            Pieces::Segments => SEGMENT,
            Pieces::UpTo(most) => self.random.within(1, most) as usize,
        };
        let n = self.rest.len().min(most).min(4096);
        let (front, rest) = self.rest.split_at(n);
        array[..n].copy_from_slice(front);
        self.rest = rest;
        Ok(n)
    }
}

/// Takes bytes, and keeps their digest: it does not depend on how they are cut.
#[derive(Drop)]
pub struct Digesting {
    digest: Digest,
    waiting: [u8; 4096],
    filled: usize,
    count: u64,
    ghost within: { filled < 4096 },
}

impl Digesting {
    pub fn new() -> Digesting {
        Digesting {
            digest: Digest::new(),
            waiting: [0; 4096],
            filled: 0,
            count: 0,
        }
    }

    /// The digest of all bytes.
    pub fn value(&self) -> u64 {
        let mut digest = self.digest;
        digest.bytes(&self.waiting[..self.filled]);
        digest.number(self.count);
        digest.value()
    }
}

impl Sink for Digesting {
    fn write(&mut self, piece: &[u8]) -> Result<usize, SinkFault> {
        let filled = self.filled;
        let n = piece.len().min(4096 - filled);
        let end = filled + n;
        self.waiting[filled..end].copy_from_slice(&piece[..n]);
        self.count = self.count.wrapping_add(n as u64);
        if end < 4096 {
            self.filled = end;
        } else {
            self.filled = 0;
            self.digest.bytes(&self.waiting);
        }
        Ok(n)
    }
}

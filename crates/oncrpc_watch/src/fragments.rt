//! Where the bytes of a record stand in its stream: behind the headers of its fragments (RFC 5531 section 11).
ghost use Rattle.std.specs.Prelude.{◌<◌, ◌≤◌, length, IfOk};

use std::alloc::{AllocError, Global};

/// How many fragments of a record are kept.
const MOST_FRAGMENTS: usize = 4096;

/// The highest bit of a header: the fragment is its record's last.
const LAST: u32 = 0x8000_0000;

/// Where a fragment's content begins: in its record, and in the stream.
#[derive(Clone, Copy)]
struct Start {
    content: usize,
    place: u64,
}

/// Where the fragments of a record begin, of the first 4096 that have bytes.
#[derive(Drop)]
pub struct Fragments {
    starts: Vec<Start>,
    /// The place in the stream of the next byte.
    place: u64,
    /// How many bytes of content the record has so far.
    content: usize,
    /// The bytes of a header that is not whole, and how many they are.
    header: [u8; 4],
    filled: usize,
    /// How many bytes of the fragment are still to come, and whether it is the last.
    left: u32,
    last: bool,
    /// Whether the record is whole.
    whole: bool,
    ghost open: { filled < 4 },
}

impl Fragments {
    /// Before the first byte of a stream.
    pub fn new(alloc: Global) -> Fragments {
        Fragments {
            starts: Vec::new(alloc),
            place: 0,
            content: 0,
            header: [0; 4],
            filled: 0,
            left: 0,
            last: false,
            whole: false,
        }
    }

    /// The next record begins at the next byte.
    pub fn begin(&mut self) {
        self.starts.clear();
        self.content = 0;
        self.whole = false;
    }

    /// Takes the next bytes of the stream up to the end of the record, and says how many.
    pub fn take(&mut self, bytes: &[u8]) -> Result<usize, AllocError>
        ensures { IfOk result (λ used. used ≤ length bytes.now) }
    {
        let mut rest = bytes;
        'parts: while !self.whole && !rest.is_empty() {
            let used = if self.left == 0 {
                self.take_header(rest)?
            } else {
                self.take_content(rest)
            };
            self.place = self.place.saturating_add(used as u64);
            rest = &rest[used..];
        }
        Ok(bytes.len() - rest.len())
    }

    // Takes bytes of a header, and says how many.
    fn take_header(&mut self, bytes: &[u8]) -> Result<usize, AllocError>
        ensures within { IfOk result (λ used. used ≤ length bytes.now) }
        ensures some { IfOk result (λ used. 0 < length bytes.now → 0 < used) }
    {
        let used = bytes.len().min(4 - self.filled);
        self.header[self.filled..self.filled + used].copy_from_slice(&bytes[..used]);
        let filled = self.filled + used;
        self.filled = filled % 4;
        if filled == 4 {
            let place = self.place.saturating_add(used as u64);
            self.begin_fragment(u32::from_be_bytes(self.header), place)?;
        }
        Ok(used)
    }

    // A fragment with this header has its content at this place.
    fn begin_fragment(&mut self, header: u32, place: u64) -> Result<(), AllocError> {
        self.left = header % LAST;
        self.last = header >= LAST;
        self.whole = self.last && self.left == 0;
        if self.left != 0 && self.starts.len() < MOST_FRAGMENTS {
            self.starts.push(Start {
                content: self.content,
                place,
            })?;
        }
        Ok(())
    }

    // Takes bytes of a fragment's content, and says how many.
    fn take_content(&mut self, bytes: &[u8]) -> usize
        ensures within { result ≤ length bytes.now }
        ensures some { 0 < self.old.left → 0 < length bytes.now → 0 < result }
    {
        let used = bytes.len().min(self.left as usize);
        self.left -= used as u32;
        self.content = self.content.saturating_add(used);
        self.whole = self.last && self.left == 0;
        used
    }

    /// The place in the stream of a byte of the record. Of a byte behind the first 4096 fragments it is as far behind
    /// the last of these as though no header followed.
    pub fn place_of(&self, at: usize) -> u64 {
        let mut found = self.place;
        for start in &self.starts {
            if start.content <= at {
                found = start.place.saturating_add((at - start.content) as u64);
            }
        }
        found
    }
}

//! A source of a stream of records, beside which the places of their bytes are told.
ghost use Rattle.std.specs.Prelude.{◌≡◌, ◌≤◌};

use crate::fragments::Fragments;
use std::alloc::{AllocError, Global};
use xdr_io::{ReadFault, Source};

/// Hands the bytes of a source on, and tells where those of the record at work stand in it. Each read is of bytes
/// behind the record before it, as a stream of records reads.
#[derive(Drop)]
pub struct Placed<R> {
    source: R,
    fragments: Fragments,
    /// What the last read gave, at its front.
    piece: [u8; 4096],
    /// How many bytes that is, and how many of them were taken.
    size: usize,
    at: usize,
    /// Whether memory was refused for a place.
    refused: bool,
    ghost within: { at ≤ size },
    ghost fits: { size ≤ 4096 },
}

impl<R: Source> Placed<R> {
    /// Before the first read.
    pub fn new(alloc: Global, source: R) -> Placed<R>
        ensures { result.source ≡ source }
    {
        Placed {
            source,
            fragments: Fragments::new(alloc),
            piece: [0; 4096],
            size: 0,
            at: 0,
            refused: false,
        }
    }

    /// The next record begins.
    pub fn begin(&mut self)
        ensures { self.new.source ≡ self.old.source }
    {
        self.fragments.begin();
    }

    /// Takes what was read of the record at work.
    pub fn take_record(&mut self) -> Result<(), AllocError>
        ensures { self.new.source ≡ self.old.source }
    {
        self.take_read();
        if self.refused {
            Err(AllocError)
        } else {
            Ok(())
        }
    }

    /// The place in the source of a byte of the record at work.
    pub fn place_of(&self, at: usize) -> u64 {
        self.fragments.place_of(at)
    }

    // Takes what was read, up to the end of the record.
    fn take_read(&mut self)
        ensures { self.new.source ≡ self.old.source }
    {
        let read = &self.piece[..self.size];
        match self.fragments.take(&read[self.at..]) {
            Ok(used) => self.at += used,
            Err(AllocError) => self.refused = true,
        }
    }
}

impl<R: Source> Source for Placed<R> {
    ghost left = { λ s. R.left s.source };

    ghost reads = { λ s. R.reads s.source };

    ghost failures = { λ s. R.failures s.source };

    fn read(&mut self, array: &mut [u8; 4096]) -> Result<usize, ReadFault> {
        self.take_read();
        self.at = 0;
        self.size = 0;
        let size = self.source.read(array)?;
        self.piece = *array;
        self.size = size;
        Ok(size)
    }
}

//! A source and a sink over borrowed memory, which report all.
ghost use Rattle.std.specs.Prelude.{◌≡◌, ◌<◌, ◌≤◌, [], Some, take, length, IfOk, IfSome};
ghost use Rattle.xdr_io.specs.Reported.{Counts, ReadMoves, WriteMoves, read_failures, write_failures, reported_count};

use super::traits::{ReadFault, Sink, SinkFault, Source};

/// A source over a borrowed slice. It gives at most `piece` bytes a read, and the read of number `failing`, from 1,
/// fails.
#[derive(Drop)]
pub struct MemorySource<'a> {
    rest: &'a [u8],
    piece: usize,
    failing: Option<u64>,
    reads: u64,
    failures: u64,
    ghost some: { 0 < piece },
}

impl<'a> MemorySource<'a> {
    /// A source before its first read.
    pub fn new(bytes: &'a [u8], piece: usize, failing: Option<u64>) -> Self
        requires { 0 < piece }
        ensures left { ⟦<MemorySource<'a> as Source>⟧.left result ≡ Some bytes.now }
        ensures reads { ⟦<MemorySource<'a> as Source>⟧.reads result ≡ Some 0 }
        ensures failures { ⟦<MemorySource<'a> as Source>⟧.failures result ≡ Some 0 }
        ensures piece { result.piece ≡ piece }
        ensures failing { result.failing ≡ failing }
    {
        MemorySource {
            rest: bytes,
            piece,
            failing,
            reads: 0,
            failures: 0,
        }
    }
}

impl<'a> Source for MemorySource<'a> {
    ghost use Rattle.xdr_io.specs.Memory.{ReadAnswers, SameSource};

    ghost left = { λ s. Some s.rest.now };

    ghost reads = { λ s. reported_count s.reads };

    ghost failures = { λ s. reported_count s.failures };

    fn read(&mut self, array: &mut [u8; 4096]) -> Result<usize, ReadFault>
        ensures bound { IfOk result (λ n. n ≤ 4096) }
        ensures bytes { ReadMoves (Some self.old.rest.now) (Some self.new.rest.now) result array.new }
        ensures count { Counts 1 (reported_count self.old.reads) (reported_count self.new.reads) }
        ensures failed { Counts (read_failures result)
            (reported_count self.old.failures) (reported_count self.new.failures) }
        // A whole piece is given while there is one, but for the read that fails.
        ensures gives { ReadAnswers self.old result }
        // The pieces and the read that fails stay.
        ensures same { SameSource self.old self.new }
    {
        self.reads = self.reads.saturating_add(1);
        if self.failing == Some(self.reads) {
            self.failures = self.failures.saturating_add(1);
            return Err(ReadFault);
        }
        let n = self.rest.len().min(self.piece).min(4096);
        let (front, rest) = self.rest.split_at(n);
        array[..n].copy_from_slice(front);
        self.rest = rest;
        Ok(n)
    }
}

/// A sink into a borrowed slice. It takes at most `piece` bytes a write, the write of number `failing`, from 1, fails,
/// and so does one when the slice is full.
#[derive(Drop)]
pub struct MemorySink<'a> {
    buffer: &'a mut [u8],
    used: usize,
    piece: usize,
    failing: Option<u64>,
    writes: u64,
    failures: u64,
    ghost some: { 0 < piece },
    ghost fits: { used ≤ length buffer.now },
}

impl<'a> MemorySink<'a> {
    /// A sink before its first write.
    pub fn new(buffer: &'a mut [u8], piece: usize, failing: Option<u64>) -> Self
        requires { 0 < piece }
        ensures taken { ⟦<MemorySink<'a> as Sink>⟧.taken result ≡ Some [] }
        ensures writes { ⟦<MemorySink<'a> as Sink>⟧.writes result ≡ Some 0 }
        ensures failures { ⟦<MemorySink<'a> as Sink>⟧.failures result ≡ Some 0 }
        ensures buffer { length result.buffer.now ≡ length buffer.old }
        ensures piece { result.piece ≡ piece }
        ensures failing { result.failing ≡ failing }
    {
        MemorySink {
            buffer,
            used: 0,
            piece,
            failing,
            writes: 0,
            failures: 0,
        }
    }

    /// How many bytes the slice has taken.
    pub fn used(&self) -> usize
        ensures { IfSome (⟦<MemorySink<'a> as Sink>⟧.taken self.now) (λ bytes. result ≡ length bytes) }
    {
        self.written().len()
    }

    /// The bytes that the slice has taken.
    pub fn written(&self) -> &[u8]
        ensures { ⟦<MemorySink<'a> as Sink>⟧.taken self.now ≡ Some result.now }
    {
        &self.buffer[..self.used]
    }
}

impl<'a> Sink for MemorySink<'a> {
    ghost use Rattle.xdr_io.specs.Memory.{WriteAnswers, SameSink};

    ghost taken = { λ s. Some (take s.used s.buffer.now) };

    ghost writes = { λ s. reported_count s.writes };

    ghost failures = { λ s. reported_count s.failures };

    fn write(&mut self, piece: &[u8]) -> Result<usize, SinkFault>
        ensures bound { IfOk result (λ n. n ≤ length piece.now) }
        ensures bytes { WriteMoves (Some (take self.old.used self.old.buffer.now))
            (Some (take self.new.used self.new.buffer.now)) result piece.now }
        ensures count { Counts 1 (reported_count self.old.writes) (reported_count self.new.writes) }
        ensures failed { Counts (write_failures result piece.now)
            (reported_count self.old.failures) (reported_count self.new.failures) }
        // A whole piece is taken while there is space, but for the write that fails.
        ensures takes { WriteAnswers self.old result piece.now }
        // The buffer, the pieces and the write that fails stay.
        ensures same { SameSink self.old self.new }
    {
        self.writes = self.writes.saturating_add(1);
        let used = self.used;
        let buffer = &mut *self.buffer;
        if self.failing == Some(self.writes) || used == buffer.len() {
            self.failures = self.failures.saturating_add(1);
            return Err(SinkFault);
        }
        let n = piece.len().min(self.piece).min(buffer.len() - used);
        buffer[used..used + n].copy_from_slice(&piece[..n]);
        self.used = used + n;
        Ok(n)
    }
}

//! A source and a sink, and what they report.
ghost use Rattle.std.specs.Prelude.{ℕ, ◌≤◌, List, Option, None, length, IfOk};
ghost use Rattle.xdr_io.specs.Reported.{Counts, ReadMoves, WriteMoves, read_failures, write_failures};

use thiserror::Error;

/// A read failed, for whatever reason.
#[derive(Clone, Copy, Debug, PartialEq, Eq, Error)]
#[error("a read failed")]
pub struct ReadFault;

/// A write failed, for whatever reason.
#[derive(Clone, Copy, Debug, PartialEq, Eq, Error)]
#[error("a write failed")]
pub struct SinkFault;

/// Where bytes come from.
pub trait Source {
    /// The bytes that are left, where they are reported.
    ghost left: { Self → Option (List ℕ) } = { λ _. None };

    /// How many reads there were, where that is reported.
    ghost reads: { Self → Option ℕ } = { λ _. None };

    /// How many of them failed, where that is reported.
    ghost failures: { Self → Option ℕ } = { λ _. None };

    /// Moves the next bytes to the front of the array, and says how many: 0 only where none is left. A fault moves
    /// none.
    fn read(&mut self, array: &mut [u8; 4096]) -> Result<usize, ReadFault>
        ensures bound { IfOk result (λ n. n ≤ 4096) }
        // The next bytes are moved to the front of the array.
        ensures bytes { ReadMoves (left self.old) (left self.new) result array.new }
        // Each call is one read,
        ensures count { Counts 1 (reads self.old) (reads self.new) }
        // which failed where the answer is a fault.
        ensures failed { Counts (read_failures result) (failures self.old) (failures self.new) };
}

/// Where bytes go.
pub trait Sink {
    /// The bytes that were taken, where they are reported.
    ghost taken: { Self → Option (List ℕ) } = { λ _. None };

    /// How many writes there were, where that is reported.
    ghost writes: { Self → Option ℕ } = { λ _. None };

    /// How many of them failed, where that is reported.
    ghost failures: { Self → Option ℕ } = { λ _. None };

    /// Takes some bytes from the front of the piece, and says how many. A fault takes none, and to take none of a
    /// piece that has some counts as failed.
    fn write(&mut self, piece: &[u8]) -> Result<usize, SinkFault>
        ensures bound { IfOk result (λ n. n ≤ length piece.now) }
        // The front of the piece is taken.
        ensures bytes { WriteMoves (taken self.old) (taken self.new) result piece.now }
        // Each call is one write,
        ensures count { Counts 1 (writes self.old) (writes self.new) }
        // which failed where it took nothing of a piece that has some.
        ensures failed { Counts (write_failures result piece.now) (failures self.old) (failures self.new) };
}

impl<S: Source> Source for &mut S {
    ghost left = { λ s. S.left s.now };

    ghost reads = { λ s. S.reads s.now };

    ghost failures = { λ s. S.failures s.now };

    fn read(&mut self, array: &mut [u8; 4096]) -> Result<usize, ReadFault> {
        (**self).read(array)
    }
}

impl<S: Sink> Sink for &mut S {
    ghost taken = { λ s. S.taken s.now };

    ghost writes = { λ s. S.writes s.now };

    ghost failures = { λ s. S.failures s.now };

    fn write(&mut self, piece: &[u8]) -> Result<usize, SinkFault> {
        (**self).write(piece)
    }
}

//! A source over std's readers and a sink over std's writers. They report nothing.
ghost use Rattle.std.specs.Prelude.{◌≡◌, ◌≤◌, length, IfOk};
ghost use Rattle.std.specs.Io.KnownBytes.{ReadConsumes, WriteAppends};

use super::traits::{ReadFault, Sink, SinkFault, Source};
use std::io::{Read, Write};

/// A source over a reader. A read that answers an error, whatever its kind, is a fault.
#[derive(Drop)]
pub struct FromRead<R> {
    reader: R,
}

impl<R: Read> FromRead<R> {
    /// The source of this reader's bytes.
    pub fn new(reader: R) -> Self
        ensures { result.reader ≡ reader }
    {
        FromRead { reader }
    }
}

impl<R: Read> Source for FromRead<R> {
    fn read(&mut self, array: &mut [u8; 4096]) -> Result<usize, ReadFault>
        ensures bound { IfOk result (λ n. n ≤ 4096) }
        // The bytes are the reader's, where std knows them.
        ensures passes { ReadConsumes (R.remaining self.old.reader) (R.remaining self.new.reader) result array.new }
    {
        match self.reader.read(array) {
            Ok(n) => Ok(n),
            Err(_) => Err(ReadFault),
        }
    }
}

/// A sink over a writer. A write that answers an error, whatever its kind, is a fault.
#[derive(Drop)]
pub struct IntoWrite<W> {
    writer: W,
}

impl<W: Write> IntoWrite<W> {
    /// The sink into this writer.
    pub fn new(writer: W) -> Self
        ensures { result.writer ≡ writer }
    {
        IntoWrite { writer }
    }
}

impl<W: Write> Sink for IntoWrite<W> {
    fn write(&mut self, piece: &[u8]) -> Result<usize, SinkFault>
        ensures bound { IfOk result (λ n. n ≤ length piece.now) }
        // The bytes are handed to the writer, where std knows them.
        ensures passes { WriteAppends (W.contents self.old.writer) (W.contents self.new.writer) result piece.now }
    {
        match self.writer.write(piece) {
            Ok(n) => Ok(n),
            Err(_) => Err(SinkFault),
        }
    }
}

//! Readers and writers: where bytes come from and where they go, a piece at a time.
ghost use Rattle.std.specs.Prelude.{◌≡◌, ◌<◌, [], ◌∷◌, true, false, length, IfOk, IfErr, IfSome, IsErr, Some, vec_len};
ghost use Rattle.std.specs.Prelude.{OnOk, Ok};
ghost use Rattle.std.specs.Io.KnownBytes.{Appends};
ghost use Rattle.xdr_io.specs.Reported.{Counts};

use std::alloc::{AllocError, Global};
use std::io::Write;
use xdr_io::{
    Cut, FromRead, InputFault, IntoWrite, MemorySink, MemorySource, ReadFault, Sink, SinkFault,
    Source, read_past, write_whole,
};

/// A read gives a piece: of three bytes in pieces of two, the first two.
pub fn reads_a_piece() -> Result<usize, ReadFault>
    ensures { result ≡ Ok 2 }
{
    let mut array = [0; 4096];
    MemorySource::new(b"abc", 2, None).read(&mut array)
}

/// A read of a source without bytes gives none: that is its end.
pub fn reads_nothing_at_the_end() -> Result<usize, ReadFault>
    ensures { result ≡ Ok 0 }
{
    let mut array = [0; 4096];
    MemorySource::new(b"", 4096, None).read(&mut array)
}

/// The read that is to fail fails.
pub fn fails_when_reported() -> Result<usize, ReadFault>
    ensures { IsErr result }
{
    let mut array = [0; 4096];
    MemorySource::new(b"abc", 4096, Some(1)).read(&mut array)
}

/// Reads are counted, and so are those that failed.
pub fn counts_reads<'a>(bytes: &'a [u8]) -> MemorySource<'a>
    ensures reads { ⟦<MemorySource<'a> as Source>⟧.reads result ≡ Some 2 }
    ensures failures { ⟦<MemorySource<'a> as Source>⟧.failures result ≡ Some 1 }
{
    let mut array = [0; 4096];
    let mut source = MemorySource::new(bytes, 4096, Some(1));
    let _failed = source.read(&mut array);
    let _read = source.read(&mut array);
    source
}

/// What a read gave is read no more: of three bytes in pieces of two, the second read gives one.
pub fn reads_the_rest() -> Result<usize, ReadFault>
    ensures { IfOk result (λ count. count ≡ 1) }
{
    let mut array = [0; 4096];
    let mut source = MemorySource::new(b"abc", 2, None);
    let _first = source.read(&mut array)?;
    source.read(&mut array)
}

/// A source over std's reader gives the reader's bytes, from the front of the array on.
pub fn reads_a_reader_of_std() -> Option<u8>
    ensures { IfSome result (λ first. first ≡ 97) }
{
    let mut array = [0; 4096];
    match FromRead::new(b"abc".as_slice()).read(&mut array) {
        Ok(count) if count > 0 => Some(array[0]),
        _ => None,
    }
}

/// A lent source has the bytes of the source.
pub fn reads_all_of_a_lent_source(alloc: Global) -> Result<Vec<u8>, InputFault>
    ensures { IfOk result (λ bytes. bytes.items ≡ 97 ∷ 98 ∷ 99 ∷ []) }
{
    let mut source = MemorySource::new(b"abc", 2, None);
    let mut lent = &mut source;
    read_past(alloc, &mut lent, 3)
}

/// An answer of at most `enough` bytes is all that the source had.
pub fn reads_all(alloc: Global) -> Result<Vec<u8>, InputFault>
    ensures { IfOk result (λ bytes. bytes.items ≡ 97 ∷ 98 ∷ 99 ∷ []) }
{
    let mut source = MemorySource::new(b"abc", 2, None);
    read_past(alloc, &mut source, 3)
}

/// An answer of more than `enough` bytes tells that a text is too long, and need not be all of it.
pub fn reads_past_enough(alloc: Global) -> Result<Vec<u8>, InputFault>
    ensures { IfOk result (λ bytes. 2 < vec_len bytes) }
{
    let mut source = MemorySource::new(b"abc", 2, None);
    read_past(alloc, &mut source, 2)
}

/// Only the fault `Read` says that a read failed: after any other answer none did.
pub fn says_whether_a_read_failed<R: Source>(alloc: Global, source: &mut R) -> bool
    ensures failed { result ≡ true → Counts 1 (R.failures source.old) (R.failures source.new) }
    ensures none { result ≡ false → Counts 0 (R.failures source.old) (R.failures source.new) }
{
    match read_past(alloc, source, 100) {
        Ok(_) => false,
        Err(InputFault::Read) => true,
        Err(InputFault::TooManyReads) => false,
        Err(InputFault::NoMemory) => false,
    }
}

/// Each way to fail has a fault of its own.
pub fn names_the_fault() -> (InputFault, InputFault)
    ensures { result ≡ (InputFault.Read, InputFault.NoMemory) }
{
    (InputFault::from(ReadFault), InputFault::from(AllocError))
}

/// Too many reads are exactly the most that are made.
pub fn makes_the_most_reads<R: Source>(alloc: Global, source: &mut R, enough: usize) -> bool
    ensures { result ≡ true → Counts 1048576 (R.reads source.old) (R.reads source.new) }
{
    matches!(
        read_past(alloc, source, enough),
        Err(InputFault::TooManyReads)
    )
}

/// A source of no more than a million bytes is never too many reads away from its end.
pub fn needs_no_more_reads<R: Source>(alloc: Global, source: &mut R) -> bool
    ensures { result ≡ false }
{
    matches!(
        read_past(alloc, source, 1000000),
        Err(InputFault::TooManyReads)
    )
}

/// A whole slice goes out in as many writes as it takes.
pub fn writes_a_byte_a_time(buffer: &mut [u8]) -> Result<usize, Cut>
    ensures all { IfOk result (λ used. used ≡ 3) }
    ensures cut { IfErr result (λ cut. cut.written < 3) }
{
    let mut sink = MemorySink::new(buffer, 1, None);
    write_whole(&mut sink, b"abc")?;
    Ok(sink.used())
}

/// Whatever the sink, an answer of Ok says that all went out.
pub fn writes_all_where_it_is_well<W: Sink>(sink: &mut W) -> Result<(), Cut>
    ensures { OnOk result (Appends (W.taken sink.old) (W.taken sink.new) (97 ∷ 98 ∷ 99 ∷ [])) }
{
    write_whole(sink, b"abc")
}

/// A sink over std's writer hands it the piece, where std knows what the writer holds.
pub fn writes_a_writer_of_std<W: Write>(sink: &mut IntoWrite<W>) -> Result<usize, SinkFault>
    ensures { result ≡ Ok 3
        → Appends (W.contents sink.old.writer) (W.contents sink.new.writer) (97 ∷ 98 ∷ 99 ∷ []) }
{
    sink.write(b"abc")
}

/// To take nothing of a piece that has some is a failed write, of a lent sink too.
pub fn counts_a_write_of_nothing<W: Sink>(sink: &mut &mut W) -> Result<usize, SinkFault>
    ensures { result ≡ Ok 0 → Counts 1 (W.failures sink.old.now) (W.failures sink.new.now) }
{
    Sink::write(sink, b"a")
}

/// A cut says exactly how many bytes went out.
pub fn counts_what_went_out(buffer: &mut [u8], bytes: &[u8]) -> bool
    ensures { result ≡ true }
{
    let mut sink = MemorySink::new(buffer, 4096, None);
    match write_whole(&mut sink, bytes) {
        Ok(()) => sink.used() == bytes.len(),
        Err(cut) => sink.used() == cut.written,
    }
}

/// Nothing is written by no write, so that fails into no sink.
pub fn writes_nothing<W: Sink>(sink: &mut W) -> Result<(), Cut>
    ensures { result ≡ Ok tt }
{
    write_whole(sink, &[])
}

/// A sink without buffer fails.
pub fn fails_when_full() -> Result<usize, SinkFault>
    ensures { IsErr result }
{
    let mut buffer = [];
    MemorySink::new(&mut buffer, 4096, None).write(b"a")
}

/// A sink takes what it has buffer for, and says how much: of three bytes into two, two.
pub fn takes_what_has_buffer() -> Result<usize, SinkFault>
    ensures { result ≡ Ok 2 }
{
    let mut buffer = [0; 2];
    MemorySink::new(&mut buffer, 4096, None).write(b"abc")
}

/// A failed read moves nothing: what is left is read by the next.
pub fn reads_on_after_a_failed_read() -> Result<usize, ReadFault>
    ensures { result ≡ Ok 3 }
{
    let mut array = [0; 4096];
    let mut source = MemorySource::new(b"abc", 4096, Some(1));
    let _failed = source.read(&mut array);
    source.read(&mut array)
}

/// A failed write takes nothing.
pub fn takes_nothing_where_it_fails(buffer: &mut [u8]) -> usize
    ensures { result ≡ 0 }
{
    let mut sink = MemorySink::new(buffer, 4096, Some(1));
    let _failed = sink.write(b"abc");
    sink.used()
}

/// Writes are counted, and so are those that failed.
pub fn counts_writes<'a>(buffer: &'a mut [u8]) -> MemorySink<'a>
    requires { 0 < length buffer.old }
    ensures writes { ⟦<MemorySink<'a> as Sink>⟧.writes result ≡ Some 2 }
    ensures failures { ⟦<MemorySink<'a> as Sink>⟧.failures result ≡ Some 1 }
{
    let mut sink = MemorySink::new(buffer, 4096, Some(1));
    let _failed = sink.write(b"a");
    let _written = sink.write(b"a");
    sink
}

/// A sink before its first write shows nothing, however much buffer it has.
pub fn shows_nothing_at_first(buffer: &mut [u8]) -> usize
    ensures { result ≡ 0 }
{
    MemorySink::new(buffer, 4096, None).written().len()
}

//! Bytes gathered in an array on their way to a sink.
ghost use Rattle.std.specs.Prelude.{◌≡◌, ◌+◌, ◌≤◌, ◌<◌, ◌^◌, ◌++◌, [], ⊤, length, take, MatchResult};
ghost use Rattle.xdr_codec.specs.Private.Gathered.{Gathers, Breaks, gathering};

use crate::put::{NotPut, Put};
use xdr_io::{Sink, write_whole};

/// Bytes wait in an array until they fill it, and then go to the sink in one write.
#[derive(Drop)]
pub struct Gather<'w, W> {
    /// Where the bytes go.
    pub sink: &'w mut W,
    /// Space for those that wait.
    pub array: [u8; 4096],
    /// How many wait.
    pub filled: usize,
    /// How many went to the sink.
    pub written: u32,
    ghost within: { filled ≤ 4096 },
}

impl<'w, W: Sink> Gather<'w, W> {
    /// Writes what waits.
    pub fn flush(&mut self) -> Result<(), NotPut>
        // The sink is the same one.
        ensures same_reference { self.new.sink.ghost_name ≡ self.old.sink.ghost_name }
        // After Ok nothing waits.
        ensures empty { MatchResult result (λ _. self.new.filled ≡ 0) (λ _. ⊤) }
        // What waited went out, or a front of it, as is counted.
        ensures put { MatchResult result
            (λ _. Gathers (gathering (W.taken self.old.sink.now) (W.failures self.old.sink.now) self.old.array
            self.old.filled self.old.written)
            (gathering (W.taken self.new.sink.now) (W.failures self.new.sink.now) self.new.array self.new.filled
            self.new.written) [])
            (λ _. Breaks (gathering (W.taken self.old.sink.now) (W.failures self.old.sink.now) self.old.array
            self.old.filled self.old.written)
            (gathering (W.taken self.new.sink.now) (W.failures self.new.sink.now) self.new.array self.new.filled
            self.new.written) []) }
    {
        let filled = self.filled;
        let array = self.array;
        match write_whole(self.sink, &array[..filled]) {
            Ok(()) => {
                self.written = self.written.saturating_add(filled as u32);
                self.filled = 0;
                Ok(())
            }
            Err(cut) => {
                self.written = self.written.saturating_add(cut.written as u32);
                Err(NotPut)
            }
        }
    }

    /// Adds bytes to those that wait.
    pub fn gather(&mut self, bytes: &[u8])
        requires { self.old.filled + length bytes.now ≤ 4096 }
        // The sink is the same one, nothing was written to it, and the count stays.
        ensures same_reference { self.new.sink.ghost_name ≡ self.old.sink.ghost_name }
        ensures sink { self.new.sink.now ≡ self.old.sink.now }
        ensures written { self.new.written ≡ self.old.written }
        // The bytes wait behind those that waited.
        ensures filled { self.new.filled ≡ self.old.filled + length bytes.now }
        ensures array { take self.new.filled self.new.array ≡ take self.old.filled self.old.array ++ bytes.now }
    {
        let filled = self.filled;
        self.array[filled..filled + bytes.len()].copy_from_slice(bytes);
        self.filled = filled + bytes.len();
    }

    /// Writes bytes while none wait.
    pub fn pass(&mut self, bytes: &[u8]) -> Result<(), NotPut>
        requires { self.old.filled ≡ 0 }
        ensures same_reference { self.new.sink.ghost_name ≡ self.old.sink.ghost_name }
        ensures put { MatchResult result
            (λ _. Gathers (gathering (W.taken self.old.sink.now) (W.failures self.old.sink.now) self.old.array
            self.old.filled self.old.written)
            (gathering (W.taken self.new.sink.now) (W.failures self.new.sink.now) self.new.array self.new.filled
            self.new.written) bytes.now)
            (λ _. Breaks (gathering (W.taken self.old.sink.now) (W.failures self.old.sink.now) self.old.array
            self.old.filled self.old.written)
            (gathering (W.taken self.new.sink.now) (W.failures self.new.sink.now) self.new.array self.new.filled
            self.new.written) bytes.now) }
    {
        match write_whole(self.sink, bytes) {
            Ok(()) => {
                self.written = self.written.saturating_add(count(bytes.len()));
                Ok(())
            }
            Err(cut) => {
                self.written = self.written.saturating_add(count(cut.written));
                Err(NotPut)
            }
        }
    }
}

// A count of bytes, as far as it can be reported.
fn count(bytes: usize) -> u32
    ensures { bytes < 2 ^ 32 → result ≡ bytes }
{
    u32::try_from(bytes).unwrap_or(u32::MAX)
}

//! All of a source, in a bounded number of reads.
ghost use Rattle.std.specs.Prelude.{◌≡◌, IfOk};
ghost use Rattle.xdr_io.specs.Past.{ReadsPast, FailsByRead, NeedsTooMany};
ghost use Rattle.xdr_io.specs.Private.Once.{Adds, ReadsOnce};
ghost use Rattle.xdr_io.specs.Reported.{CountsAtMost};
ghost use Rattle.xdr_io.specs.declared.input.InputFault.TheVariants.{Read, NoMemory};

use super::traits::{ReadFault, Source};
use std::alloc::{AllocError, Global};
use thiserror::Error;

/// How many reads a loop over a source makes at most.
pub const MOST_READS: u32 = 1048576;

/// Why reading an input failed.
#[derive(Clone, Copy, Debug, PartialEq, Eq, Error)]
pub enum InputFault {
    /// A read failed.
    #[error("a read failed")]
    Read,
    /// One more than the most reads would be needed.
    #[error("too many reads")]
    TooManyReads,
    /// Memory was refused.
    #[error("out of memory")]
    NoMemory,
}

impl From<ReadFault> for InputFault {
    ghost from_gives = { λ _ e. e ≡ Read };

    fn from(_: ReadFault) -> Self {
        InputFault::Read
    }
}

impl From<AllocError> for InputFault {
    ghost from_gives = { λ _ e. e ≡ NoMemory };

    fn from(_: AllocError) -> Self {
        InputFault::NoMemory
    }
}

/// Reads once more, behind the bytes that are there, and says how many bytes came.
fn read_more<R: Source>(
    source: &mut R,
    bytes: &mut Vec<u8>,
    array: &mut [u8; 4096],
) -> Result<usize, InputFault>
    ensures added { IfOk result (λ n.
        Adds n array.new (R.left source.old) (R.left source.new) bytes.old.items bytes.new.items) }
    ensures once { ReadsOnce (R.left source.old) (R.left source.new) (R.reads source.old) (R.reads source.new) result }
    ensures failures { FailsByRead (R.failures source.old) (R.failures source.new) result }
{
    let n = source.read(array)?;
    bytes.extend_from_slice(&array[..n])?;
    Ok(n)
}

/// Reads until the source ends or more than `enough` bytes are there, in at most 1048576 reads. So an answer of at
/// most `enough` bytes is all that the source had left, and one of more is its front. After a fault some of the
/// source's bytes were read, and are dropped. `TooManyReads` comes only where the source has not ended by the last
/// read, with 1048576 bytes or more, and `Read` only where the last read failed: after any other answer none did.
pub fn read_past<R: Source>(
    alloc: Global,
    source: &mut R,
    enough: usize,
) -> Result<Vec<u8>, InputFault>
    // What is answered are the next bytes: all of them, or more than enough.
    ensures read { ReadsPast enough (R.left source.old) (R.left source.new) result }
    // So many reads are made at most.
    ensures reads { CountsAtMost 1048576 (R.reads source.old) (R.reads source.new) }
    // A read failed exactly where the fault is `Read`.
    ensures failures { FailsByRead (R.failures source.old) (R.failures source.new) result }
    // Too many reads are as many as there may be, and gave a byte each.
    ensures too_many { NeedsTooMany enough (R.reads source.old) (R.reads source.new) result }
{
    let mut bytes = Vec::new(alloc);
    let mut array = [0u8; 4096];
    for _turn in 0..MOST_READS {
        let n = match read_more(source, &mut bytes, &mut array) {
            Ok(n) => n,
            Err(fault) => return Err(fault),
        };
        if n == 0 {
            return Ok(bytes);
        }
        if bytes.len() > enough {
            return Ok(bytes);
        }
    }
    Err(InputFault::TooManyReads)
}

//! A whole slice through a sink.
ghost use Rattle.std.specs.Prelude.{◌<◌, length, take, IfErr, OnOk, OnErr};
ghost use Rattle.std.specs.Io.KnownBytes.{Appends};
ghost use Rattle.xdr_io.specs.Reported.{Counts};

use super::traits::{Sink, SinkFault};
use thiserror::Error;

/// A write failed, or took 0 bytes. The first `written` bytes of the slice went out, and no more.
#[derive(Clone, Copy, Debug, PartialEq, Eq, Error)]
#[error("a write failed after {written} bytes")]
pub struct Cut {
    pub written: usize,
}

/// Writes the whole slice, in as many writes as it takes; none where it is empty. A fault comes only where a write
/// failed, the last that was made.
pub fn write_whole<W: Sink>(sink: &mut W, bytes: &[u8]) -> Result<(), Cut>
    // All bytes went out,
    ensures ok { OnOk result (Appends (W.taken sink.old) (W.taken sink.new) bytes.now) }
    // or the first of them, fewer than all.
    ensures cut { IfErr result (λ e. (e.written < length bytes.now)
        × Appends (W.taken sink.old) (W.taken sink.new) (take e.written bytes.now)) }
    // No write failed where the answer is Ok, and else one.
    ensures none_failed { OnOk result (Counts 0 (W.failures sink.old) (W.failures sink.new)) }
    ensures one_failed { OnErr result (Counts 1 (W.failures sink.old) (W.failures sink.new)) }
{
    let mut written = 0;
    while written < bytes.len() {
        match sink.write(&bytes[written..]) {
            Ok(0) => return Err(Cut { written }),
            Ok(n) => written += n,
            Err(SinkFault) => return Err(Cut { written }),
        }
    }
    Ok(())
}

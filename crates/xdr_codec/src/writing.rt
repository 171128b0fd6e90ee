//! A value into a sink.
ghost use Rattle.std.specs.Prelude.{◌≡◌, ◌<◌, length, take, IfOk, IfErr, OnOk, OnErr};
ghost use Rattle.std.specs.Io.KnownBytes.{Appends};
ghost use Rattle.xdr_io.specs.Reported.{Counts};
ghost use Rattle.xdr_types.specs.Spelling.{bytes_of};
ghost use Rattle.xdr_types.specs.View.{tree};
ghost use Rattle.xdr_types.specs.Within.{FitsWithin};

use crate::gather::Gather;
use crate::pushing::push_value;
use crate::put::{NotPut, Put};
use thiserror::Error;
use xdr_io::Sink;
use xdr_types::{KindId, Limits, Schema, Value};

/// A write failed. The first `written` bytes of the encoding went out, and no more.
#[derive(Clone, Copy, Debug, PartialEq, Eq, Error)]
#[error("a write failed after {written} bytes")]
pub struct WriteFault {
    pub written: u32,
}

impl<'w, W: Sink> Put for Gather<'w, W> {
    ghost use Rattle.std.proofs.Common.{refl, ◌∙◌};
    ghost use Rattle.xdr_codec.specs.Private.Gathered.{Gathers, Breaks, gathering};
    ghost use Rattle.xdr_codec.specs.Private.GatheredLaws.{gathers-none, gathers-trans, breaks-after, breaks-longer};

    ghost sends = { λ a b x. (b.sink.ghost_name ≡ a.sink.ghost_name)
        × Gathers (gathering (W.taken a.sink.now) (W.failures a.sink.now) a.array a.filled a.written)
        (gathering (W.taken b.sink.now) (W.failures b.sink.now) b.array b.filled b.written) x };

    ghost cuts = { λ a b x. (b.sink.ghost_name ≡ a.sink.ghost_name)
        × Breaks (gathering (W.taken a.sink.now) (W.failures a.sink.now) a.array a.filled a.written)
        (gathering (W.taken b.sink.now) (W.failures b.sink.now) b.array b.filled b.written) x };

    ghost none = { λ a. (refl, gathers-none _) };

    ghost trans = { λ a b c x y p q. (q.0 ∙ p.0, gathers-trans _ _ _ x y p.1 q.1) };

    ghost after = { λ a b c x y p q. (q.0 ∙ p.0, breaks-after _ _ _ x y p.1 q.1) };

    ghost longer = { λ a b x y p. (p.0, breaks-longer _ _ x y p.1) };

    fn put(&mut self, bytes: &[u8]) -> Result<(), NotPut> {
        if bytes.len() <= 4096 - self.filled {
            self.gather(bytes);
            return Ok(());
        }
        match self.flush() {
            Ok(()) => {}
            Err(NotPut) => return Err(NotPut),
        }
        if bytes.len() <= 4096 {
            self.gather(bytes);
            return Ok(());
        }
        self.pass(bytes)
    }
}

/// Writes the encoding of a value, the bytes that `encode` gives, and counts them. Takes no memory: units are gathered,
/// and go out 4096 bytes a write. After a fault exactly the first `written` bytes went out; it comes only where a write
/// failed or took no byte.
///
/// Each level of the value takes stack: up to 0.5 MiB at depth 4096 on x86-64.
pub fn encode_to<W: Sink>(
    writer: &mut W,
    schema: &Schema,
    kind: KindId,
    value: &Value,
    limits: Limits,
) -> Result<u32, WriteFault>
    requires { FitsWithin schema.now.kinds kind.place limits (tree value.now) }
    // The whole encoding went out,
    ensures bytes { OnOk result (Appends (W.taken writer.old) (W.taken writer.new)
        (bytes_of schema.now.kinds kind.place (tree value.now))) }
    // and its bytes are counted.
    ensures count { IfOk result (λ n. n ≡ length (bytes_of schema.now.kinds kind.place (tree value.now))) }
    // After a fault exactly the first `written` bytes went out,
    ensures cut { IfErr result (λ e. Appends (W.taken writer.old) (W.taken writer.new)
        (take e.written (bytes_of schema.now.kinds kind.place (tree value.now)))) }
    // and these are not all of them.
    ensures short { IfErr result (λ e. e.written < length (bytes_of schema.now.kinds kind.place (tree value.now))) }
    // No write failed, or one did.
    ensures none_failed { OnOk result (Counts 0 (W.failures writer.old) (W.failures writer.new)) }
    ensures one_failed { OnErr result (Counts 1 (W.failures writer.old) (W.failures writer.new)) }
{
    let _in_range = limits.depth();
    let mut out = Gather {
        sink: writer,
        array: [0; 4096],
        filled: 0,
        written: 0,
    };
    match push_value(&mut out, schema, kind, value) {
        Ok(()) => {}
        Err(NotPut) => return Err(WriteFault {
            written: out.written,
        }),
    }
    match out.flush() {
        Ok(()) => Ok(out.written),
        Err(NotPut) => Err(WriteFault {
            written: out.written,
        }),
    }
}

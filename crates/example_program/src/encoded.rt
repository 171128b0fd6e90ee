//! A value that is read as JSON, and its bytes: what a success says, and what a refusal does.
ghost use Rattle.std.specs.Prelude.{◌≡◌, ◌≢◌, ◌<◌, ◌≤◌, ◌∷◌, ◌++◌, [], codes, length};
ghost use Rattle.std.specs.Io.KnownBytes.{Appends};
ghost use Rattle.xdr_types.specs.Kinds as xdr;
ghost use Rattle.xdr_json_reader.specs.declared.fault.JsonReason.{JsonReason};
ghost use Rattle.oncrpc_tasks.specs.Checked.{IsSaid};
ghost use Rattle.oncrpc_encode.specs.Lines.{name};

use oncrpc_answers::ValueTask;
use oncrpc_encode::{encode_over, encode_value_over};
use oncrpc_tasks::{Opener, Target};
use std::alloc::Global;
use xdr_io::{MemorySource, Sink, Source};

/// Where the status is 0 the bytes of the value that the text spells were written, and nothing else: those of the hyper
/// -5, from a string. The text is not refused.
pub fn the_bytes_alone_are_written<O: Sink, F: Sink>(
    alloc: Global,
    target: &Target,
    text: &[u8],
    output: &mut O,
    faults: &mut F,
) -> u8
    requires kind { (target.now.schema.kinds ≡ xdr.hyper ∷ []) × (target.now.kind.place ≡ 0) }
    requires text { text.now ≡ codes "\"-5\"" }
    requires limits { (1 ≤ target.now.limits.depth) × (8 ≤ target.now.limits.bytes) }
    ensures written { result ≡ 0 → Appends (O.taken output.old) (O.taken output.new)
        (255 ∷ 255 ∷ 255 ∷ 255 ∷ 255 ∷ 255 ∷ 255 ∷ 251 ∷ []) }
    ensures taken { result ≢ 1 }
{
    let mut input = MemorySource::new(text, 4096, None);
    encode_value_over(alloc, target, false, &mut input, output, faults)
}

/// A text of no bytes is no JSON: the status is never 0. Where it is 1 the line of the refusal has the place before the
/// first byte, line 1 and column 1, and nothing was written.
pub fn an_empty_text_is_refused_at_1_1<O: Sink, F: Sink>(
    alloc: Global,
    target: &Target,
    output: &mut O,
    faults: &mut F,
) -> u8
    requires { target.now.kind.place < length target.now.schema.kinds }
    ensures refused { result ≢ 0 }
    ensures unwritten { result ≡ 1 → output.new ≡ output.old }
    ensures said { result ≡ 1 → (why : JsonReason)
        × IsSaid (record { taken = F.taken; lost = F.failures }) faults.old faults.new
        (codes "refused " ++ name why ++ codes " at 1:1\n") }
{
    let mut input = MemorySource::new(b"", 1, None);
    encode_value_over(alloc, target, false, &mut input, output, faults)
}

/// Where the declarations, the name or the limits are refused, no text is read and no byte written.
pub fn no_text_is_read_without_a_kind<P: Opener, I: Source, O: Sink, F: Sink>(
    alloc: Global,
    what: &ValueTask,
    opener: &mut P,
    input: &mut I,
    output: &mut O,
    faults: &mut F,
) -> u8
    ensures unread { result ≡ 2 → input.new ≡ input.old }
    ensures unwritten { result ≡ 2 → output.new ≡ output.old }
{
    encode_over(alloc, what, opener, input, output, faults)
}

//! A value whose bytes come in pieces.
ghost use Rattle.std.specs.Prelude.{◌≡◌, ◌≤◌, ◌<◌, [], ◌++◌, length, IfOk, IfErr, IfSome, IsErr, IsOk, IsTrue, Ok};
ghost use Rattle.xdr_types.specs.Kinds.{kind_at, hyper, int, opaque_up_to};
ghost use Rattle.xdr_types.specs.View.{tree};
ghost use Rattle.xdr_codec.specs.Settings.{kinds_of, kind_of, limits_of};
ghost use Rattle.xdr_codec.specs.Represents.{RepresentsBytes, IsDone, HasFailed};
ghost use Rattle.xdr_stream.specs.declared.fault.Reason.TheVariants.{NoMemory};
ghost use Rattle.xdr_stream.specs.declared.reader.Progress.TheVariants.{Done, More};
ghost use Rattle.example_xdr.specs.Rfc.{file_kinds, sillyprog, sillyprog_bytes};

use std::alloc::Global;
use xdr_codec::{DecodeFault, Decoder, Progress};
use xdr_types::{KindId, Limits, Schema, Value};

/// The file of RFC 4506 section 7 comes in two pieces, wherever it is cut, and is that file.
pub fn joins_two_pieces(
    alloc: Global,
    schema: &Schema,
    limits: Limits,
    first: &[u8],
    second: &[u8],
) -> Result<Value, DecodeFault>
    requires kinds { schema.now.kinds ≡ file_kinds }
    requires deep { 3 ≤ limits.depth }
    requires buffer { 48 ≤ limits.bytes }
    requires input { first.now ++ second.now ≡ sillyprog_bytes }
    ensures value { IfOk result (λ v. tree v ≡ sillyprog) }
    ensures taken { IfErr result (λ f. f.why ≡ NoMemory) }
{
    let mut decoder = Decoder::start(alloc, schema, KindId { place: 6 }, limits);
    let _ = decoder.feed(first)?;
    let _ = decoder.feed(second)?;
    decoder.finish()
}

/// No byte is no integer: a decoder that was given nothing waits.
pub fn waits_at_the_start(
    alloc: Global,
    schema: &Schema,
    kind: KindId,
    limits: Limits,
) -> Result<Progress, DecodeFault>
    requires has { kind.place < length schema.now.kinds }
    requires kind { kind_at schema.now.kinds kind.place ≡ int }
    ensures answer { IfOk result (λ p. p ≡ More) }
    ensures fault { 4 ≤ limits.bytes → 1 ≤ limits.depth → IfErr result (λ f. f.why ≡ NoMemory) }
{
    let mut decoder = Decoder::start(alloc, schema, kind, limits);
    decoder.feed(&[])
}

/// Half of a hyper integer is no fault: the decoder waits for the other.
pub fn waits_for_the_rest(
    alloc: Global,
    schema: &Schema,
    kind: KindId,
    limits: Limits,
) -> Result<Progress, DecodeFault>
    requires has { kind.place < length schema.now.kinds }
    requires kind { kind_at schema.now.kinds kind.place ≡ hyper }
    requires limit { 8 ≤ limits.bytes }
    requires depth { 1 ≤ limits.depth }
    ensures answer { IfOk result (λ p. p ≡ More) }
    ensures fault { IfErr result (λ f. f.why ≡ NoMemory) }
{
    let mut decoder = Decoder::start(alloc, schema, kind, limits);
    begins_a_hyper(&mut decoder)
}

// The first half of a hyper integer, to a decoder that was given no byte.
fn begins_a_hyper(decoder: &mut Decoder<'_>) -> Result<Progress, DecodeFault>
    requires fresh { RepresentsBytes decoder.old [] }
    requires kind { kind_at (kinds_of decoder.old) (kind_of decoder.old).place ≡ hyper }
    requires limit { 8 ≤ (limits_of decoder.old).bytes }
    requires depth { 1 ≤ (limits_of decoder.old).depth }
    ensures answer { IfOk result (λ p. p ≡ More) }
    ensures fault { IfErr result (λ f. f.why ≡ NoMemory) }
{
    decoder.feed(&[0, 0, 0, 1])
}

/// Where the bytes end inside the value, there is none.
pub fn ends_too_soon(
    alloc: Global,
    schema: &Schema,
    kind: KindId,
    limits: Limits,
) -> Result<Value, DecodeFault>
    requires has { kind.place < length schema.now.kinds }
    requires kind { kind_at schema.now.kinds kind.place ≡ hyper }
    ensures { IsErr result }
{
    let mut decoder = Decoder::start(alloc, schema, kind, limits);
    let _ = decoder.feed(&[0, 0, 0, 1])?;
    decoder.finish()
}

/// Nor where no byte came.
pub fn ends_without_a_byte(
    alloc: Global,
    schema: &Schema,
    kind: KindId,
    limits: Limits,
) -> Result<Value, DecodeFault>
    requires has { kind.place < length schema.now.kinds }
    requires kind { kind_at schema.now.kinds kind.place ≡ hyper }
    ensures { IsErr result }
{
    Decoder::start(alloc, schema, kind, limits).finish()
}

/// The value ends inside its last piece: `used` counts its bytes, and the rest of the piece is not taken.
pub fn takes_no_more(
    alloc: Global,
    schema: &Schema,
    kind: KindId,
    limits: Limits,
) -> Result<Progress, DecodeFault>
    requires has { kind.place < length schema.now.kinds }
    requires kind { kind_at schema.now.kinds kind.place ≡ opaque_up_to 4294967295 }
    requires limit { 4 ≤ limits.bytes }
    requires depth { 1 ≤ limits.depth }
    ensures answer { IfOk result (λ p. p ≡ Done 4) }
    ensures fault { IfErr result (λ f. f.why ≡ NoMemory) }
{
    let mut decoder = Decoder::start(alloc, schema, kind, limits);
    decoder.feed(&[0, 0, 0, 0, 0, 0, 0, 42])
}

/// Once the value is whole, nothing is taken of a later piece.
pub fn stays_whole(decoder: &mut Decoder<'_>, piece: &[u8]) -> Result<Progress, DecodeFault>
    requires { IsDone decoder.old }
    ensures { result ≡ Ok (Done 0) }
{
    decoder.feed(piece)
}

/// And the end gives it: no memory is asked for.
pub fn gives_what_is_whole(decoder: Decoder<'_>) -> Result<Value, DecodeFault>
    requires { IsDone decoder }
    ensures { IsOk result }
{
    decoder.finish()
}

/// A number needs no memory: what its bytes are is answered for certain.
pub fn is_sure_of_a_number(
    alloc: Global,
    schema: &Schema,
    kind: KindId,
    limits: Limits,
    piece: &[u8],
) -> Result<Progress, DecodeFault>
    requires has { kind.place < length schema.now.kinds }
    requires kind { kind_at schema.now.kinds kind.place ≡ hyper }
    ensures { IfErr result (λ f. f.why ≡ NoMemory → ⊥) }
{
    let mut decoder = Decoder::start(alloc, schema, kind, limits);
    decoder.feed(piece)
}

/// A fault comes again at each later call, whatever is given.
pub fn stays_refused(mut decoder: Decoder<'_>, first: &[u8], second: &[u8]) -> Option<bool>
    ensures { IfSome result (λ same. IsTrue same) }
{
    let (fault, same) = refuses_twice(&mut decoder, first, second)?;
    let last = decoder.finish().err()?;
    Some(same && fault == last)
}

// A fault, and whether the next call answers the same.
fn refuses_twice(
    decoder: &mut Decoder<'_>,
    first: &[u8],
    second: &[u8],
) -> Option<(DecodeFault, bool)>
    ensures failed { IfSome result (λ reported. HasFailed decoder.new reported.0) }
    ensures same { IfSome result (λ reported. IsTrue reported.1) }
{
    let fault = decoder.feed(first).err()?;
    let again = decoder.feed(second).err()?;
    Some((fault, fault == again))
}

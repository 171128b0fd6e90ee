//! What a value's bytes are.
ghost use Rattle.std.specs.Prelude.{◌≡◌, ◌↔◌, ◌<◌, ◌≤◌, [], ◌∷◌, pos, IfOk, IfSome, IsTrue};
ghost use Rattle.xdr_types.specs.Tree.{numbered};
ghost use Rattle.xdr_types.specs.View.{tree};
ghost use Rattle.xdr_types.specs.Within.{FitsWithin};
ghost use Rattle.example_xdr.specs.Rfc.{content, file_kinds, sillyprog, sillyprog_bytes, list_kinds, strings};
ghost use Rattle.example_xdr.specs.Rfc.{strings_bytes};

use std::alloc::Global;
use xdr_codec::{encode, encode_to};
use xdr_io::MemorySink;
use xdr_types::{KindId, Limits, NoMemory, Schema, Value};

// The bytes of the file of RFC 4506 section 7.
const SILLYPROG: [u8; 48] =
    *b"\0\0\0\x09sillyprog\0\0\0\0\0\0\x02\0\0\0\x04lisp\0\0\0\x04john\0\0\0\x06(quit)\0\0";

/// The file of RFC 4506 section 7 is encoded as the 48 bytes that the table there lists.
pub fn encodes_the_file(
    alloc: Global,
    schema: &Schema,
    value: &Value,
    limits: Limits,
) -> Result<Vec<u8>, NoMemory>
    requires kinds { schema.now.kinds ≡ file_kinds }
    requires value { tree value.now ≡ sillyprog }
    requires deep { 3 ≤ limits.depth }
    requires buffer { 48 ≤ limits.bytes }
    ensures { IfOk result (λ b. b.items ≡ sillyprog_bytes) }
{
    encode(alloc, schema, KindId { place: 6 }, value, limits)
}

/// A list is a chain of optional entries, each under a flag of 1, up to a flag of 0 (RFC 4506 section 4.19).
pub fn encodes_a_list(
    alloc: Global,
    schema: &Schema,
    value: &Value,
    limits: Limits,
) -> Result<Vec<u8>, NoMemory>
    requires kinds { schema.now.kinds ≡ list_kinds }
    requires value { tree value.now ≡ strings }
    requires deep { 6 ≤ limits.depth }
    requires buffer { 28 ≤ limits.bytes }
    ensures { IfOk result (λ b. b.items ≡ strings_bytes) }
{
    encode(alloc, schema, KindId { place: 1 }, value, limits)
}

/// The least hyper integer is two units, in two's complement (RFC 4506 section 4.5).
pub fn encodes_the_least_hyper(alloc: Global) -> Option<Vec<u8>>
    ensures { IfSome result (λ b. b.items ≡ 128 ∷ 0 ∷ 0 ∷ 0 ∷ 0 ∷ 0 ∷ 0 ∷ 0 ∷ []) }
{
    let schema = Schema::basic(alloc).ok()?;
    let limits = Limits::new(1, 8)?;
    encode(
        alloc,
        &schema,
        KindId { place: 2 },
        &Value::Hyper(i64::MIN),
        limits,
    )
    .ok()
}

/// Three bytes are counted and filled up with one zero to the end of their unit (RFC 4506 section 4.10).
pub fn fills_the_last_unit(alloc: Global, value: &Value) -> Option<Vec<u8>>
    requires value { tree value.now ≡ content (97 ∷ 98 ∷ 99 ∷ []) }
    ensures { IfSome result (λ b. b.items ≡ 0 ∷ 0 ∷ 0 ∷ 3 ∷ 97 ∷ 98 ∷ 99 ∷ 0 ∷ []) }
{
    let schema = Schema::basic(alloc).ok()?;
    let limits = Limits::new(1, 8)?;
    encode(alloc, &schema, KindId { place: 6 }, value, limits).ok()
}

/// A number of an enumeration is written as itself, and not as the member's place in the list (RFC 4506 section 4.3).
pub fn writes_a_member_as_its_number(
    alloc: Global,
    schema: &Schema,
    kind: KindId,
    value: &Value,
    limits: Limits,
) -> Result<Vec<u8>, NoMemory>
    requires fits { FitsWithin schema.now.kinds kind.place limits (tree value.now) }
    requires value { (tree value.now).0 ≡ numbered (pos 5) }
    ensures { IfOk result (λ b. b.items ≡ 0 ∷ 0 ∷ 0 ∷ 5 ∷ []) }
{
    encode(alloc, schema, kind, value, limits)
}

/// `encode_to` writes the bytes that `encode` gives, and answers their count; the sink here takes three at a time.
pub fn writes_all(
    schema: &Schema,
    value: &Value,
    buffer: &mut [u8],
    limits: Limits,
) -> Option<(u32, bool)>
    requires kinds { schema.now.kinds ≡ file_kinds }
    requires value { tree value.now ≡ sillyprog }
    requires deep { 3 ≤ limits.depth }
    requires buffer { 48 ≤ limits.bytes }
    ensures { IfSome result (λ r. (r.0 ≡ 48) × (IsTrue r.1)) }
{
    let mut sink = MemorySink::new(buffer, 3, None);
    let count = encode_to(&mut sink, schema, KindId { place: 6 }, value, limits).ok()?;
    Some((count, sink.written() == SILLYPROG.as_slice()))
}

/// Where a write failed, here the fourth, exactly the first `written` bytes went out, and not all.
pub fn writes_the_first(
    schema: &Schema,
    value: &Value,
    buffer: &mut [u8],
    limits: Limits,
) -> Option<(u32, bool)>
    requires kinds { schema.now.kinds ≡ file_kinds }
    requires value { tree value.now ≡ sillyprog }
    requires deep { 3 ≤ limits.depth }
    requires buffer { 48 ≤ limits.bytes }
    ensures { IfSome result (λ r. (r.0 < 48) × (IsTrue r.1)) }
{
    let mut sink = MemorySink::new(buffer, 3, Some(4));
    let fault = encode_to(&mut sink, schema, KindId { place: 6 }, value, limits).err()?;
    let first = &SILLYPROG[..fault.written as usize];
    Some((fault.written, sink.written() == first))
}

/// Two values of a kind with the same bytes are the same value.
pub fn tells_values_apart(
    alloc: Global,
    schema: &Schema,
    kind: KindId,
    first: &Value,
    second: &Value,
    limits: Limits,
) -> Option<bool>
    requires first { FitsWithin schema.now.kinds kind.place limits (tree first.now) }
    requires second { FitsWithin schema.now.kinds kind.place limits (tree second.now) }
    ensures { IfSome result (λ same. IsTrue same ↔ (tree first.now ≡ tree second.now)) }
{
    let a = encode(alloc, schema, kind, first, limits).ok()?;
    let b = encode(alloc, schema, kind, second, limits).ok()?;
    Some(a == b)
}

//! What a decoder and a checker hold.
ghost use Rattle.std.specs.Prelude.{◌≡◌, ◌+◌, ◌*◌, ◌/◌, ◌≤◌, ◌<◌, ℕ, List, length, IfSome};
ghost use Rattle.xdr_types.specs.Kinds.{kind_at, int, opaque_up_to, up_to};
ghost use Rattle.xdr_codec.specs.Checks.{RepresentsBytes as ChecksFor};

use std::alloc::Global;
use xdr_codec::laws::{each_spelling_is_one_value, held};
use xdr_codec::{Checker, Decoder, Held, Progress};
use xdr_types::{KindId, Limits, Schema};

/// A decoder that was given no byte holds no content and no unfinished unit.
pub fn holds_no_byte(alloc: Global, schema: &Schema, kind: KindId, limits: Limits) -> Held
    requires { kind.place < length schema.now.kinds }
    ensures bytes { result.bytes ≡ 0 }
    ensures pending { result.pending ≡ 0 }
    ensures frames { result.frames ≤ limits.depth + 1 }
{
    let decoder = Decoder::start(alloc, schema, kind, limits);
    decoder.held()
}

/// Whatever a piece declares, no more is held than it has.
pub fn holds_what_came(
    alloc: Global,
    schema: &Schema,
    kind: KindId,
    limits: Limits,
    piece: &[u8],
) -> Held
    requires { kind.place < length schema.now.kinds }
    ensures bytes { result.bytes ≤ length piece.now }
    ensures nodes { result.nodes ≤ (length schema.now.kinds + 1) * (length piece.now / 4 + 1) }
    ensures frames { result.frames ≤ limits.depth + 1 }
{
    let mut decoder = Decoder::start(alloc, schema, kind, limits);
    let _ = decoder.feed(piece);
    decoder.held()
}

/// A checker holds no node and no content, and less than a unit.
pub fn holds_no_value(checker: &Checker<'_>) -> Held
    ensures nodes { result.nodes ≡ 0 }
    ensures bytes { result.bytes ≡ 0 }
    ensures pending { (b : List ℕ) → ChecksFor checker.now b → result.pending ≤ 3 }
{
    checker.held()
}

/// The length of an opaque and one byte after it: nothing is pending, and then the byte is.
pub fn holds_a_byte_after_a_length(
    alloc: Global,
    schema: &Schema,
    kind: KindId,
    limits: Limits,
) -> Option<(Held, Held)>
    requires { kind.place < length schema.now.kinds }
    ensures first { IfSome result (λ held. held.0.pending ≡ 0) }
    ensures second { IfSome result (λ held. held.1.pending ≡ 1) }
{
    let mut decoder = Decoder::start(alloc, schema, kind, limits);
    let Ok(Progress::More) = decoder.feed(&[255, 255, 255, 255]) else {
        return None;
    };
    let first = decoder.held();
    let Ok(Progress::More) = decoder.feed(b"a") else {
        return None;
    };
    Some((first, decoder.held()))
}

/// Four bytes of opaque data that are whole: one node, its four bytes, and nothing else.
pub fn holds_the_whole_value(
    alloc: Global,
    schema: &Schema,
    kind: KindId,
    limits: Limits,
) -> Option<Held>
    requires has { kind.place < length schema.now.kinds }
    requires kind { kind_at schema.now.kinds kind.place ≡ opaque_up_to 4294967295 }
    ensures { IfSome result (λ held. held ≡ record { frames = 0; nodes = 1; bytes = 4; pending = 0 }) }
{
    // One value alone begins the bytes: a law.
    each_spelling_is_one_value();
    let mut decoder = Decoder::start(alloc, schema, kind, limits);
    let Ok(Progress::Done { .. }) = decoder.feed(&[0, 0, 0, 4, 97, 97, 97, 97]) else {
        return None;
    };
    Some(decoder.held())
}

/// The count of an array makes no node of its items, but of the first one, which is due.
pub fn holds_two_nodes_of_an_array(
    alloc: Global,
    schema: &Schema,
    kind: KindId,
    item: KindId,
    limits: Limits,
) -> Option<Held>
    requires has { kind.place < length schema.now.kinds }
    requires kind { kind_at schema.now.kinds kind.place ≡ up_to item.place 4294967295 }
    requires item { kind_at schema.now.kinds item.place ≡ int }
    ensures { IfSome result (λ held. held.nodes ≡ 2) }
{
    // What is held after some bytes does not hang on the value that they begin: a law.
    held();
    let mut decoder = Decoder::start(alloc, schema, kind, limits);
    let Ok(Progress::More) = decoder.feed(&[0, 0, 0, 3]) else {
        return None;
    };
    Some(decoder.held())
}

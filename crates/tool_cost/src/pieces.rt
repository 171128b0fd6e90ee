//! Bytes that are fed to a decoder or a checker by pieces.

use std::alloc::Global;
use xdr_codec::{Checker, DecodeFault, Decoder, Progress};
use xdr_types::{KindId, Limits, Schema, Value};

/// The bytes of a value, of which kind it is, and how many bytes of it come at once.
#[derive(Clone, Copy)]
pub struct Given<'a> {
    pub schema: &'a Schema,
    pub kind: KindId,
    pub limits: Limits,
    pub bytes: &'a [u8],
    pub piece: usize,
}

/// The value, or the fault; none, where the schema has no such kind or a piece no bytes.
pub fn decode(alloc: Global, given: &Given<'_>) -> Option<Result<Value, DecodeFault>> {
    if !given.schema.has(given.kind) || given.piece == 0 {
        return None;
    }
    let mut decoder = Decoder::start(alloc, given.schema, given.kind, given.limits);
    let mut rest = given.bytes;
    for _ in 0..given.bytes.len() / given.piece + 1 {
        let (piece, behind) = rest.split_at(rest.len().min(given.piece));
        rest = behind;
        match decoder.feed(piece) {
            Ok(Progress::More) => {}
            _ => break,
        }
    }
    Some(decoder.finish())
}

/// How many bytes the value has, or the fault; none, where the schema has no such kind or a piece no bytes.
pub fn check(alloc: Global, given: &Given<'_>) -> Option<Result<u32, DecodeFault>> {
    if !given.schema.has(given.kind) || given.piece == 0 {
        return None;
    }
    let mut checker = Checker::start(alloc, given.schema, given.kind, given.limits);
    let mut rest = given.bytes;
    for _ in 0..given.bytes.len() / given.piece + 1 {
        let (piece, behind) = rest.split_at(rest.len().min(given.piece));
        rest = behind;
        match checker.feed(piece) {
            Ok(Progress::More) => {}
            _ => break,
        }
    }
    Some(checker.finish())
}

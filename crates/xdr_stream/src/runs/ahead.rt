//! Whether bytes begin with a value that is there whole.
ghost use Rattle.std.specs.Prelude.{◌≡◌, ◌≤◌, ◌<◌, ◌+◌, length, take, IfSome};
ghost use Rattle.xdr_stream.specs.Frames.{left_of};
ghost use Rattle.xdr_stream.specs.Private.Sound.{AreKnown};
ghost use Rattle.xdr_stream.specs.Private.Entire.{IsPadded};
ghost use Rattle.xdr_stream.specs.Private.Ahead.{IsAhead, AreAhead};

use crate::machine::frame::{Frame, after, next};
use crate::machine::number::{Made, made_in};
use crate::machine::step::{Step, step_of};
use crate::machine::unit::{are_zeros, number_of, unit_at};
use crate::runs::content::whole_ahead;
use crate::runs::leaf::{leaf_ahead, leaf_of};
use xdr_types::{Kind, KindId, Schema};

/// How many of the bytes are a value of the kind, where they begin with one that has at most so many levels. Of the
/// kind any so many bytes are a value, or one unit among them decides, or it has no parts. The call goes into no kind.
#[inline(always)]
pub(crate) fn part_ahead(schema: &Schema, id: KindId, bytes: &[u8], levels: u32) -> Option<usize>
    requires { id.place < length schema.now.kinds }
    ensures within { IfSome result (λ n. n ≤ length bytes.now) }
    ensures ahead { IfSome result (λ n. IsAhead schema.now.kinds id.place levels (take n bytes.now)) }
{
    if levels == 0 || is_cut(schema, id, bytes) {
        return None;
    }
    if let Some(n) = free_ahead(schema, id, bytes, levels) {
        return Some(n);
    }
    if let Some(n) = decided_ahead(schema, id, bytes, levels) {
        return Some(n);
    }
    other_ahead(schema, id, bytes, levels)
}

/// The same of a union or an optional whose part has no parts, and of an array without items.
pub(crate) fn short_ahead(schema: &Schema, id: KindId, bytes: &[u8], levels: u32) -> Option<usize>
    requires { id.place < length schema.now.kinds }
    ensures within { IfSome result (λ n. n ≤ length bytes.now) }
    ensures ahead { IfSome result (λ n. IsAhead schema.now.kinds id.place levels (take n bytes.now)) }
{
    let _known = schema.len();
    let kind = schema.kind(id);
    let Step::Unit = step_of(kind) else {
        return None;
    };
    if levels < 2 || bytes.len() < 4 {
        return None;
    }
    let Ok(made) = made_in(schema, id, kind, number_of(&unit_at(bytes, 0))) else {
        return None;
    };
    match made {
        Made::Leaf(_) => Some(4),
        Made::Open(_, frame) => {
            let n = only_ahead(schema, frame, &bytes[4..], levels - 1)?;
            Some(4 + n)
        }
        Made::Length(size) => {
            let n = content_ahead(size, &bytes[4..])?;
            Some(4 + n)
        }
    }
}

// Whether the bytes are fewer than each value of the kind has.
#[inline(always)]
fn is_cut(schema: &Schema, id: KindId, bytes: &[u8]) -> bool {
    match schema.extent(id) {
        Some(extent) => extent.bytes as usize > bytes.len(),
        None => false,
    }
}

// The same of a kind of which any so many bytes are a value.
#[inline(always)]
fn free_ahead(schema: &Schema, id: KindId, bytes: &[u8], levels: u32) -> Option<usize>
    ensures { IfSome result (λ n. (n ≤ length bytes.now)
        × IsAhead schema.now.kinds id.place levels (take n bytes.now)) }
{
    let extent = schema.extent(id)?;
    let size = extent.bytes as usize;
    if !extent.free || extent.depth > levels || size > bytes.len() {
        return None;
    }
    Some(size)
}

// The same of a kind of which so many bytes are a value, if one unit among them is.
fn decided_ahead(schema: &Schema, id: KindId, bytes: &[u8], levels: u32) -> Option<usize>
    requires { id.place < length schema.now.kinds }
    ensures { IfSome result (λ n. (n ≤ length bytes.now)
        × IsAhead schema.now.kinds id.place levels (take n bytes.now)) }
{
    let decided = schema.decided(id)?;
    let extent = schema.extent(id)?;
    let size = extent.bytes as usize;
    if extent.depth > levels || size > bytes.len() {
        return None;
    }
    let _known = schema.len();
    let number = number_of(&unit_at(bytes, decided.at as usize));
    leaf_of(schema, decided.kind, schema.kind(decided.kind), number)?;
    Some(size)
}

// How many of the bytes are the only part that a frame has, where that has no parts, or none where it has no part.
#[inline(always)]
fn only_ahead(schema: &Schema, frame: Frame<'_>, bytes: &[u8], levels: u32) -> Option<usize>
    requires known { AreKnown schema.now.kinds (left_of frame) }
    requires some { 0 < levels }
    ensures within { IfSome result (λ n. n ≤ length bytes.now) }
    ensures ahead { IfSome result (λ n. AreAhead schema.now.kinds (left_of frame.entry) levels (take n bytes.now)) }
{
    let Some(id) = next(&frame) else {
        return Some(0);
    };
    match next(&after(frame)) {
        Some(_) => None,
        None => flat_ahead(schema, id, bytes, levels),
    }
}

// The same of a kind without parts.
#[inline(always)]
fn flat_ahead(schema: &Schema, id: KindId, bytes: &[u8], levels: u32) -> Option<usize>
    requires known { id.place < length schema.now.kinds }
    requires some { 0 < levels }
    ensures within { IfSome result (λ n. n ≤ length bytes.now) }
    ensures ahead { IfSome result (λ n. IsAhead schema.now.kinds id.place levels (take n bytes.now)) }
{
    if let Some((_, n)) = leaf_ahead(schema, id, bytes) {
        return Some(n);
    }
    other_ahead(schema, id, bytes, levels)
}

// The same of one without parts that is no number.
#[inline(always)]
fn other_ahead(schema: &Schema, id: KindId, bytes: &[u8], levels: u32) -> Option<usize>
    requires known { id.place < length schema.now.kinds }
    requires some { 0 < levels }
    ensures within { IfSome result (λ n. n ≤ length bytes.now) }
    ensures ahead { IfSome result (λ n. IsAhead schema.now.kinds id.place levels (take n bytes.now)) }
{
    if let Some(whole) = whole_ahead(schema, id, bytes) {
        return Some(whole.all);
    }
    match schema.kind(id) {
        Kind::Opaque { size } => content_ahead(*size, bytes),
        Kind::Nothing => Some(0),
        _ => None,
    }
}

// How many of the bytes are so many bytes of content and zeros up to a whole unit.
pub(crate) fn content_ahead(size: u32, bytes: &[u8]) -> Option<usize>
    ensures { IfSome result (λ n. (n ≤ length bytes.now) × IsPadded size (take n bytes.now)) }
{
    let size = size as usize;
    let padded = size + (4 - size % 4) % 4;
    if padded > bytes.len() || !are_zeros(&bytes[size..padded]) {
        return None;
    }
    Some(padded)
}

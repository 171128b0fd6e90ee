//! Content of an opaque or a string (RFC 4506 sections 4.9 to 4.11).
ghost use Rattle.std.specs.Prelude.{◌≡◌, ◌⊎◌, ◌<◌, ◌^◌, ◌==◌, ◌&&◌, ℕ, List, true, false, IfOk, IfErr};
ghost use Rattle.std.specs.Prelude.{MatchOption, length};
ghost use Rattle.xdr_types.specs.Kinds.{opaque, opaque_up_to, text};
ghost use Rattle.xdr_types.specs.Fits.{are_bytes};
ghost use Rattle.xdr_json.specs.Mapping.{hex_key};
ghost use Rattle.xdr_json.specs.Spelled.{is_hex, count, has_key, at_key};
ghost use Rattle.xdr_json_reader.specs.Tape.{json_in, members_of};
ghost use Rattle.xdr_json_reader.specs.Reasons.{hex_reason};
ghost use Rattle.xdr_json_reader.specs.Private.Look.{seen, pairs};
ghost use Rattle.xdr_json_reader.specs.Private.Leaves.{LeafRead, TextRead};
ghost use Rattle.xdr_json_reader.specs.declared.fault.JsonReason.TheVariants.{NoMemory};

use crate::fault::JsonReason;
use crate::reading_bytes::put_counted;
use crate::reading_look::{Shape, look};
use crate::tape::{Key, Node};
use hex::FromHexError;
use std::alloc::Global;
use xdr_units::push_padded;

// Each u8 is a byte.
fn every_u8_is_a_byte(bytes: &[u8])
    ensures { are_bytes bytes.now ≡ true }
{
    let _bytes = bytes;
}

// The bytes that hexadecimal digits stand for.
fn hex_content(alloc: Global, json: Shape<'_, '_>) -> Result<Vec<u8>, JsonReason>
    ensures found { IfOk result (λ v. is_hex v.items (seen json.entry) ≡ true) }
    ensures none { IfErr result
        (λ w. (w ≡ NoMemory) ⊎ ((bs : List ℕ) → is_hex bs (seen json.entry) ≡ true → ⊥)) }
    ensures why { IfErr result (λ w. (w ≡ NoMemory) ⊎ (w ≡ hex_reason (seen json.entry))) }
{
    match json {
        Shape::Text(text) => match hex::decode(alloc, text) {
            Ok(bytes) => Ok(bytes),
            Err(FromHexError::OutOfMemory) => Err(JsonReason::NoMemory),
            Err(_) => Err(JsonReason::BadHex),
        },
        _ => Err(JsonReason::WrongType),
    }
}

/// Reads an opaque of a fixed length.
pub fn read_opaque(
    alloc: Global,
    size: u32,
    json: Shape<'_, '_>,
    out: &mut Vec<u8>,
) -> Result<(), JsonReason>
    ensures { LeafRead (opaque size) (seen json.entry) out.old.items out.new.items result }
{
    match hex_content(alloc, json) {
        Ok(bytes) => {
            if bytes.len() != size as usize {
                return Err(JsonReason::WrongLength);
            }
            let content = bytes.as_slice();
            every_u8_is_a_byte(content);
            match push_padded(out, content) {
                Ok(()) => Ok(()),
                Err(_) => Err(JsonReason::NoMemory),
            }
        }
        Err(why) => Err(why),
    }
}

/// Reads an opaque of a length that varies.
pub fn read_opaque_up_to(
    alloc: Global,
    max: u32,
    json: Shape<'_, '_>,
    out: &mut Vec<u8>,
) -> Result<(), JsonReason>
    ensures { LeafRead (opaque_up_to max) (seen json.entry) out.old.items out.new.items result }
{
    match hex_content(alloc, json) {
        Ok(bytes) => {
            if bytes.len() > max as usize {
                return Err(JsonReason::WrongLength);
            }
            let content = bytes.as_slice();
            every_u8_is_a_byte(content);
            match put_counted(out, content) {
                Ok(()) => Ok(()),
                Err(_) => Err(JsonReason::NoMemory),
            }
        }
        Err(why) => Err(why),
    }
}

// The value under the key `hex`, where no other member is.
fn hex_member<'v, 'a>(members: &'v Vec<(Key<'a>, Node<'a>)>) -> Option<&'v Node<'a>>
    ensures { MatchOption result
        ((count (members_of (pairs members.now.items)) == 1 && has_key (members_of (pairs members.now.items)) hex_key)
        ≡ false)
        (λ n. ((count (members_of (pairs members.now.items)) == 1
        && has_key (members_of (pairs members.now.items)) hex_key) ≡ true)
        × (at_key (members_of (pairs members.now.items)) hex_key ≡ json_in n.now)) }
{
    if members.len() != 1 {
        return None;
    }
    let member = &members[0];
    if member.0.name != "hex" {
        return None;
    }
    Some(&member.1)
}

// Bytes of a string, which are at most so many.
fn put_text(out: &mut Vec<u8>, max: u32, bytes: &[u8]) -> Result<(), JsonReason>
    ensures { TextRead max bytes.now out.old.items out.new.items result }
{
    if bytes.len() > max as usize {
        return Err(JsonReason::WrongLength);
    }
    every_u8_is_a_byte(bytes);
    match put_counted(out, bytes) {
        Ok(()) => Ok(()),
        Err(_) => Err(JsonReason::NoMemory),
    }
}

/// Reads a string.
pub fn read_text(
    alloc: Global,
    max: u32,
    json: Shape<'_, '_>,
    out: &mut Vec<u8>,
) -> Result<(), JsonReason>
    ensures { LeafRead (text max) (seen json.entry) out.old.items out.new.items result }
{
    match json {
        Shape::Text(text) => put_text(out, max, text.as_bytes()),
        Shape::Object(members) => match hex_member(members) {
            Some(node) => match hex_content(alloc, look(node)) {
                Ok(bytes) => put_text(out, max, bytes.as_slice()),
                Err(why) => Err(why),
            },
            None => Err(JsonReason::WrongType),
        },
        _ => Err(JsonReason::WrongType),
    }
}

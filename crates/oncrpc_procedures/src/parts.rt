//! The parts of a procedure's name. Nothing here takes memory.
ghost use Rattle.std.specs.Prelude.{◌≡◌, IfErr, IfOk, IfSome, MatchBool, MatchOption};
ghost use Rattle.std.specs.Str.{bytes_eq};
ghost use Rattle.oncrpc_procedures.specs.Meant.{Parts as PlainParts, begins_with_digit, means};
ghost use Rattle.oncrpc_procedures.specs.Names.{AreReadable, IsCut, IsNoNumber};
ghost use Rattle.oncrpc_procedures.specs.Private.Search.{HasNoParts, parts_of};
ghost use Rattle.oncrpc_procedures.specs.Unnamed.{IsFirstUnread};

use crate::unnamed::Unnamed;
use xdr_units::{before_dot, decimal_number};

/// The parts of a procedure's name: what means the program, the version and the procedure.
#[derive(Clone, Copy)]
pub struct Parts<'a> {
    pub program: &'a [u8],
    pub version: &'a [u8],
    pub procedure: &'a [u8],
}

/// The three parts of a text, each of which is a number or a name.
pub fn read_parts(text: &[u8]) -> Result<Parts<'_>, Unnamed>
    ensures found { IfOk result (λ p. IsCut (parts_of p) text.now × AreReadable (parts_of p)) }
    ensures refused { IfErr result (λ why. HasNoParts text.now why) }
{
    let Some(parts) = cut(text) else {
        return Err(Unnamed::NotThreeParts);
    };
    match first_unread(&parts) {
        Some(part) => Err(Unnamed::NotANumber { part }),
        None => Ok(parts),
    }
}

// The text at its two dots.
fn cut(text: &[u8]) -> Option<Parts<'_>>
    ensures found { IfSome result (λ p. IsCut (parts_of p) text.now) }
    ensures only { (p : PlainParts) → IsCut p text.now → MatchOption result ⊥ (λ r. parts_of r ≡ p) }
{
    let (program, rest) = before_dot(text)?;
    let (version, procedure) = before_dot(rest)?;
    match before_dot(procedure) {
        Some((_front, _behind)) => None,
        None => Some(Parts {
            program,
            version,
            procedure,
        }),
    }
}

// The first part, from 1, that is neither a number nor a name.
fn first_unread(parts: &Parts<'_>) -> Option<u8>
    ensures { MatchOption result (AreReadable (parts_of parts.now)) (λ k. IsFirstUnread k (parts_of parts.now)) }
{
    if is_no_number(parts.program) {
        return Some(1);
    }
    if is_no_number(parts.version) {
        return Some(2);
    }
    if is_no_number(parts.procedure) {
        return Some(3);
    }
    None
}

/// Whether a part begins as a number does and is none.
pub fn is_no_number(part: &[u8]) -> bool
    ensures { MatchBool result (IsNoNumber part.now) (IsNoNumber part.now → ⊥) }
{
    if !begins_with_digit(part) {
        return false;
    }
    match decimal_number(part) {
        Some(_number) => false,
        None => true,
    }
}

/// Whether a part begins with a digit, which no name does (RFC 4506 section 6.2).
pub fn begins_with_digit(part: &[u8]) -> bool
    ensures { result ≡ begins_with_digit part.now }
{
    match part.first() {
        Some(byte) => byte.is_ascii_digit(),
        None => false,
    }
}

/// Whether a part means what has this name and this number.
pub fn is_meant(part: &[u8], name: &str, number: u32) -> bool
    ensures { result ≡ means part.now name.now number }
{
    if !begins_with_digit(part) {
        return is_name(part, name);
    }
    match decimal_number(part) {
        Some(read) => read == number,
        None => false,
    }
}

/// Whether a part is this name.
pub fn is_name(part: &[u8], name: &str) -> bool
    ensures { result ≡ bytes_eq part.now name.now }
{
    part == name.as_bytes()
}

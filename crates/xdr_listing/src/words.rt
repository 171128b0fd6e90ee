//! What lines say of numbers and of types.
ghost use Rattle.std.specs.Prelude.{◌≡◌, ◌++◌, OnOk, decimal, option_map};
ghost use Rattle.std.specs.Fmt.{signed_decimal};
ghost use Rattle.xdr_listing.specs.Private.Held.{types_of};
ghost use Rattle.xdr_listing.specs.Words.{count_word, least_word, greatest_word, range_word, kind_text, name_word};
ghost use Rattle.xdr_listing.specs.Words.{named_text};

use crate::types::{Types, name_of, range_of, word_of};
use itoa::Buffer;
use xdr_bounds::{Greatest, Range};
use xdr_types::{KindId, NoMemory};

/// A text as it is.
pub fn push_text(out: &mut Vec<u8>, text: &str) -> Result<(), NoMemory>
    ensures { OnOk result (out.new.items ≡ out.old.items ++ text.now) }
{
    out.extend_from_slice(text.as_bytes())?;
    Ok(())
}

/// A whole number in decimal, after a minus sign where it is negative.
pub fn push_integer(out: &mut Vec<u8>, number: i128) -> Result<(), NoMemory>
    ensures { OnOk result (out.new.items ≡ out.old.items ++ signed_decimal number) }
{
    let mut buffer = Buffer::new();
    push_text(out, buffer.format(number))
}

/// A count in decimal.
pub fn push_count(out: &mut Vec<u8>, count: u64) -> Result<(), NoMemory>
    ensures { OnOk result (out.new.items ≡ out.old.items ++ decimal count) }
{
    let mut buffer = Buffer::new();
    push_text(out, buffer.format(count))
}

/// The word of a kind, a space, and both counts of bytes.
pub fn push_kind(out: &mut Vec<u8>, types: &Types<'_>, id: KindId) -> Result<(), NoMemory>
    ensures { OnOk result (out.new.items ≡ out.old.items ++ kind_text (types_of types.now) id.place) }
{
    push_text(out, word_of(types, id))?;
    push_text(out, " ")?;
    push_range(out, range_of(types, id))
}

/// The name of a type, a space, and the same.
pub fn push_named(out: &mut Vec<u8>, types: &Types<'_>, id: KindId) -> Result<(), NoMemory>
    ensures { OnOk result (out.new.items ≡ out.old.items ++ named_text (types_of types.now) id.place) }
{
    push_name(out, name_of(types, id))?;
    push_text(out, " ")?;
    push_kind(out, types, id)
}

// A name, or that there is none.
fn push_name(out: &mut Vec<u8>, name: Option<&str>) -> Result<(), NoMemory>
    ensures { OnOk result (out.new.items ≡ out.old.items ++ name_word (option_map (λ s. s.now) name.entry)) }
{
    match name {
        Some(name) => push_text(out, name),
        None => push_text(out, "-"),
    }
}

// Both counts.
fn push_range(out: &mut Vec<u8>, range: Option<Range>) -> Result<(), NoMemory>
    ensures { OnOk result (out.new.items ≡ out.old.items ++ range_word range) }
{
    match range {
        Some(range) => {
            push_least(out, range.least)?;
            push_text(out, "..")?;
            push_greatest(out, range.greatest)
        }
        None => Ok(()),
    }
}

// A count of bytes.
#[tactic(auto, using(crate::proofs::Numbers::counted))]
fn push_bytes(out: &mut Vec<u8>, count: u64) -> Result<(), NoMemory>
    ensures { OnOk result (out.new.items ≡ out.old.items ++ count_word count) }
{
    push_count(out, count)
}

// The least count, or that it is 2^64 or more.
fn push_least(out: &mut Vec<u8>, least: Option<u64>) -> Result<(), NoMemory>
    ensures { OnOk result (out.new.items ≡ out.old.items ++ least_word least) }
{
    match least {
        Some(count) => push_bytes(out, count),
        None => push_text(out, "large"),
    }
}

// The greatest count, or that it is 2^64 or more, or that there is none.
fn push_greatest(out: &mut Vec<u8>, greatest: Greatest) -> Result<(), NoMemory>
    ensures { OnOk result (out.new.items ≡ out.old.items ++ greatest_word greatest) }
{
    match greatest {
        Greatest::Bytes(count) => push_bytes(out, count),
        Greatest::MoreThanU64 => push_text(out, "large"),
        Greatest::Unbounded => push_text(out, "unbounded"),
    }
}

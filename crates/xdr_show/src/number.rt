//! Numbers as texts.
ghost use Rattle.std.specs.Prelude.{◌≡◌, ◌++◌, List, IsTrue, OnOk, codes, decimal, true};
ghost use Rattle.std.specs.Fmt.{signed_decimal};
ghost use Rattle.xdr_types.specs.Kinds.{Constant, kind_at, numbered};
ghost use Rattle.xdr_types.specs.KindViews.{kind_view};
ghost use Rattle.xdr_types.specs.Fits.{is_tag_of};
ghost use Rattle.xdr_show.specs.Line.{flag_text, name_of_number, tag_text};

use itoa::Buffer;
use xdr_types::{Kind, KindId, NoMemory, Schema, member_in};

/// A number in decimal, after a minus sign where it is negative.
pub fn push_signed(out: &mut Vec<u8>, number: i64) -> Result<(), NoMemory>
    ensures { OnOk result (out.new.items ≡ out.old.items ++ signed_decimal number) }
{
    if number >= 0 {
        return push_unsigned(out, number.cast_unsigned());
    }
    let mut buffer = Buffer::new();
    out.extend_from_slice(buffer.format(number).as_bytes())?;
    Ok(())
}

/// A number that is not negative, in decimal.
#[tactic(auto, using(std::proofs::lemmas::Fmt::decimal_digit))]
pub fn push_unsigned(out: &mut Vec<u8>, number: u64) -> Result<(), NoMemory>
    ensures { OnOk result (out.new.items ≡ out.old.items ++ decimal number) }
{
    if number < 10 {
        // One digit needs no buffer.
        out.extend_from_slice(&[b'0' + number as u8])?;
        return Ok(());
    }
    let mut buffer = Buffer::new();
    out.extend_from_slice(buffer.format(number).as_bytes())?;
    Ok(())
}

/// A count in decimal, after the words that say of what.
pub fn push_count(out: &mut Vec<u8>, words: &[u8], count: u64) -> Result<(), NoMemory>
    ensures { OnOk result (out.new.items ≡ out.old.items ++ (words.now ++ decimal count)) }
{
    out.extend_from_slice(words)?;
    push_unsigned(out, count)
}

/// A boolean.
pub fn push_flag(out: &mut Vec<u8>, flag: bool) -> Result<(), NoMemory>
    ensures { OnOk result (out.new.items ≡ out.old.items ++ flag_text flag) }
{
    if flag {
        out.extend_from_slice(b"TRUE")?;
        Ok(())
    } else {
        out.extend_from_slice(b"FALSE")?;
        Ok(())
    }
}

/// A number of an enumeration, after its name.
pub fn push_numbered(out: &mut Vec<u8>, name: &[u8], number: i64) -> Result<(), NoMemory>
    ensures { OnOk result (out.new.items ≡ out.old.items ++ (name.now ++ codes " = " ++ signed_decimal number)) }
{
    out.extend_from_slice(name)?;
    out.extend_from_slice(b" = ")?;
    push_signed(out, number)
}

/// The name of the first member that has the number, of the enumeration at a place.
pub fn name_of<'s>(schema: &'s Schema, id: KindId, number: i64) -> &'s [u8]
    ensures { (members : List Constant) → kind_at schema.now.kinds id.place ≡ numbered members
        → result.now ≡ name_of_number members number }
{
    match member_in(schema, id, number) {
        Some(member) => member.0.as_bytes(),
        None => &[],
    }
}

/// The discriminant of a union, after the word case.
pub fn push_case(
    out: &mut Vec<u8>,
    schema: &Schema,
    tag: KindId,
    number: i64,
) -> Result<(), NoMemory>
    requires { is_tag_of (kind_at schema.now.kinds tag.place) number ≡ true }
    ensures { OnOk result (out.new.items ≡ out.old.items
        ++ (codes "case " ++ tag_text (kind_at schema.now.kinds tag.place) number)) }
{
    out.extend_from_slice(b"case ")?;
    push_tag(out, schema, tag, schema.kind(tag), number)
}

// The number of a discriminant of the kind.
fn push_tag(
    out: &mut Vec<u8>,
    schema: &Schema,
    tag: KindId,
    kind: &Kind,
    number: i64,
) -> Result<(), NoMemory>
    requires { kind_view kind.now ≡ kind_at schema.now.kinds tag.place }
    ensures { OnOk result (out.new.items ≡ out.old.items ++ tag_text (kind_view kind.now) number) }
{
    match kind {
        Kind::Bool => push_flag(out, number == 1),
        Kind::Numbered { .. } => push_numbered(out, name_of(schema, tag, number), number),
        _ => push_signed(out, number),
    }
}

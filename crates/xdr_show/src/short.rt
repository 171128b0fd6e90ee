//! Short lines, each put together on the stack and appended at once.
ghost use Rattle.std.specs.Prelude.{◌≡◌, ◌+◌, ◌≤◌, ◌++◌, List, ℕ, IfSome, OnOk, codes, decimal, length};
ghost use Rattle.std.specs.Prelude.{replicate, true};
ghost use Rattle.std.specs.Fmt.{signed_decimal};
ghost use Rattle.xdr_types.specs.Kinds.{kind_at};
ghost use Rattle.xdr_types.specs.KindViews.{kind_view};
ghost use Rattle.xdr_types.specs.Fits.{is_legal};
ghost use Rattle.xdr_show.specs.Line.{flag_text, label};
ghost use Rattle.xdr_show.specs.Private.Backwards.{IsWritten, Puts};
ghost use Rattle.xdr_show.specs.Private.Lines.{node_text};
ghost use Rattle.xdr_show.specs.Private.Heads.{head_view};

use crate::backwards::{ROOM, write_before, write_label, write_signed, write_unsigned};
use crate::head::Head;
use crate::number::name_of;
use xdr_types::{Kind, KindId, NoMemory, Schema};

/// Appends a line that is written from a place on, after so many spaces and the name.
pub fn push_written(
    out: &mut Vec<u8>,
    spaces: usize,
    name: &[u8],
    line: &mut [u8; ROOM],
    start: usize,
) -> Result<(), NoMemory>
    requires { (spaces + (length name.now + 2) ≤ start) × (start ≤ 128) }
    ensures { OnOk result ((text : List ℕ) → IsWritten line.old start text
        → out.new.items ≡ out.old.items ++ (replicate spaces 32 ++ (label name.now ++ text))) }
{
    let start = write_label(name, line, start);
    out.extend_from_slice(&line[start - spaces..])?;
    Ok(())
}

/// Writes what the line of a node says before a place; none, where it is content or a discriminant, or has a long name.
pub fn write_text(
    schema: &Schema,
    id: KindId,
    kind: &Kind,
    head: Head,
    line: &mut [u8; ROOM],
    end: usize,
) -> Option<usize>
    requires kind { kind_view kind.now ≡ kind_at schema.now.kinds id.place }
    requires legal { is_legal schema.now.kinds (kind_view kind.now) (head_view head) ≡ true }
    requires room { (84 ≤ end) × (end ≤ 128) }
    ensures { IfSome result (λ start. (end ≤ start + 84) × (start ≤ end) × Puts line.old end line.new start
        (node_text schema.now.kinds (kind_view kind.now) (head_view head.entry))) }
{
    match (kind, head) {
        (_, Head::Int(n)) => Some(write_signed(i64::from(n), line, end)),
        (_, Head::Unsigned(n)) => Some(write_unsigned(u64::from(n), line, end)),
        (_, Head::Hyper(n)) => Some(write_signed(n, line, end)),
        (_, Head::UnsignedHyper(n)) => Some(write_unsigned(n, line, end)),
        (_, Head::Bool(b)) => Some(write_flag(b, line, end)),
        (Kind::Numbered { .. }, Head::Numbered(n)) => {
            write_numbered(name_of(schema, id, i64::from(n)), i64::from(n), line, end)
        }
        (Kind::Fixed { item: _, size }, Head::Items(_)) => Some(write_count(
            b"array of ",
            u64::from(*size),
            line,
            end,
        )),
        (_, Head::Items(count)) => Some(write_count(b"list of ", count, line, end)),
        (_, Head::Fields) => Some(write_before(b"struct", line, end)),
        (_, Head::Absent) => Some(write_before(b"absent", line, end)),
        (_, Head::Present) => Some(write_before(b"present", line, end)),
        (_, Head::Nothing) => Some(write_before(b"void", line, end)),
        _ => None,
    }
}

// Writes a boolean before a place.
fn write_flag(flag: bool, line: &mut [u8; ROOM], end: usize) -> usize
    requires { (5 ≤ end) × (end ≤ 128) }
    ensures start { (result ≤ end) × (end ≤ result + 5) }
    ensures written { Puts line.old end line.new result (flag_text flag) }
{
    if flag {
        write_before(b"TRUE", line, end)
    } else {
        write_before(b"FALSE", line, end)
    }
}

// Writes a count before a place, after the words that say of what.
fn write_count(words: &[u8], count: u64, line: &mut [u8; ROOM], end: usize) -> usize
    requires { (length words.now + 20 ≤ end) × (end ≤ 128) }
    ensures start { (result ≤ end) × (end ≤ result + (length words.now + 20)) }
    ensures written { Puts line.old end line.new result (words.now ++ decimal count) }
{
    let start = write_unsigned(count, line, end);
    write_before(words, line, start)
}

// Writes a number of an enumeration before a place, after its name; none, where the name is long.
fn write_numbered(name: &[u8], number: i64, line: &mut [u8; ROOM], end: usize) -> Option<usize>
    requires { (84 ≤ end) × (end ≤ 128) }
    ensures { IfSome result (λ start. (end ≤ start + 84) × (start ≤ end)
        × Puts line.old end line.new start (name.now ++ codes " = " ++ signed_decimal number)) }
{
    if name.len() > 60 {
        return None;
    }
    let start = write_signed(number, line, end);
    let start = write_before(b" = ", line, start);
    Some(write_before(name, line, start))
}

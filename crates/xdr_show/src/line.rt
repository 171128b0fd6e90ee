//! What stands in a line before and around what its part says.
ghost use Rattle.std.specs.Prelude.{◌≡◌, ◌+◌, ◌≤◌, ◌++◌, IfOk, OnOk, codes, length, replicate, true, if◌then◌else◌};
ghost use Rattle.xdr_types.specs.Kinds.{kind_at};
ghost use Rattle.xdr_types.specs.KindViews.{kind_view};
ghost use Rattle.xdr_types.specs.Fits.{is_legal};
ghost use Rattle.xdr_show.specs.Line.{indent, label, line_text};
ghost use Rattle.xdr_show.specs.Private.Lines.{node_text};
ghost use Rattle.xdr_show.specs.Private.Heads.{head_view};

use crate::backwards::{ROOM, write_before};
use crate::content::{push_hexadecimal, push_quoted};
use crate::head::Head;
use crate::number::{
    name_of, push_case, push_count, push_flag, push_numbered, push_signed, push_unsigned,
};
use crate::short::{push_written, write_text};
use xdr_types::{Kind, KindId, NoMemory, Schema};

// Spaces that go in at once.
const SPACES: [u8; 64] = [b' '; 64];

// How many bytes the indentation and the name of a short line have at most.
const SHORT: usize = 40;

/// The line of a node.
pub fn push_line(
    out: &mut Vec<u8>,
    schema: &Schema,
    name: &[u8],
    id: KindId,
    kind: &Kind,
    depth: u32,
    head: Head,
) -> Result<(), NoMemory>
    requires kind { kind_view kind.now ≡ kind_at schema.now.kinds id.place }
    requires legal { is_legal schema.now.kinds (kind_view kind.now) (head_view head) ≡ true }
    ensures { OnOk result (out.new.items ≡ out.old.items
        ++ line_text depth name.now (node_text schema.now.kinds (kind_view kind.now) (head_view head.entry))) }
{
    let spaces = 2 * depth.saturating_sub(1) as usize;
    if spaces + name.len() <= SHORT {
        if push_near(out, schema, spaces, name, id, kind, head)? {
            return Ok(());
        }
    }
    push_indent(out, depth)?;
    push_label(out, name)?;
    push_text(out, schema, id, kind, head)?;
    out.extend_from_slice(b"\n")?;
    Ok(())
}

// The line of a node behind so many spaces, where it is short: it is written from its end, so that it is appended at
// once. Tells whether it is; where not, nothing is appended.
fn push_near(
    out: &mut Vec<u8>,
    schema: &Schema,
    spaces: usize,
    name: &[u8],
    id: KindId,
    kind: &Kind,
    head: Head,
) -> Result<bool, NoMemory>
    requires short { spaces + length name.now ≤ 40 }
    requires kind { kind_view kind.now ≡ kind_at schema.now.kinds id.place }
    requires legal { is_legal schema.now.kinds (kind_view kind.now) (head_view head) ≡ true }
    ensures { IfOk result (λ done. out.new.items ≡ (if done then out.old.items ++ (replicate spaces 32 ++ label name.now
        ++ node_text schema.now.kinds (kind_view kind.now) (head_view head.entry) ++ codes "\n") else out.old.items)) }
{
    let mut line = [b' '; ROOM];
    let end = write_before(b"\n", &mut line, ROOM);
    let Some(start) = write_text(schema, id, kind, head, &mut line, end) else {
        return Ok(false);
    };
    push_written(out, spaces, name, &mut line, start)?;
    Ok(true)
}

// Two spaces for each level below the first.
fn push_indent(out: &mut Vec<u8>, depth: u32) -> Result<(), NoMemory>
    ensures { OnOk result (out.new.items ≡ out.old.items ++ indent depth) }
{
    let mut left = 2 * depth.saturating_sub(1) as usize;
    while left > SPACES.len() {
        out.extend_from_slice(&SPACES)?;
        left -= SPACES.len();
    }
    out.extend_from_slice(&SPACES[..left])?;
    Ok(())
}

// A name with a colon and a space after it, where there is one.
fn push_label(out: &mut Vec<u8>, name: &[u8]) -> Result<(), NoMemory>
    ensures { OnOk result (out.new.items ≡ out.old.items ++ label name.now) }
{
    if name.is_empty() {
        return Ok(());
    }
    out.extend_from_slice(name)?;
    out.extend_from_slice(b": ")?;
    Ok(())
}

// What the line of a node says.
fn push_text(
    out: &mut Vec<u8>,
    schema: &Schema,
    id: KindId,
    kind: &Kind,
    head: Head,
) -> Result<(), NoMemory>
    requires kind { kind_view kind.now ≡ kind_at schema.now.kinds id.place }
    requires legal { is_legal schema.now.kinds (kind_view kind.now) (head_view head) ≡ true }
    ensures { OnOk result (out.new.items ≡ out.old.items
        ++ node_text schema.now.kinds (kind_view kind.now) (head_view head.entry)) }
{
    match (kind, head) {
        (_, Head::Int(n)) => push_signed(out, i64::from(n)),
        (_, Head::Unsigned(n)) => push_unsigned(out, u64::from(n)),
        (_, Head::Hyper(n)) => push_signed(out, n),
        (_, Head::UnsignedHyper(n)) => push_unsigned(out, n),
        (_, Head::Bool(b)) => push_flag(out, b),
        (Kind::Numbered { .. }, Head::Numbered(n)) => push_numbered(
            out,
            name_of(schema, id, i64::from(n)),
            i64::from(n),
        ),
        (Kind::Text { max: _ }, Head::Bytes(bytes)) => push_quoted(out, bytes),
        (_, Head::Bytes(bytes)) => push_hexadecimal(out, bytes),
        (Kind::Fixed { item: _, size }, Head::Items(_)) => push_count(
            out,
            b"array of ",
            u64::from(*size),
        ),
        (_, Head::Items(count)) => push_count(out, b"list of ", count),
        (_, Head::Fields) => Ok(out.extend_from_slice(b"struct")?),
        (
            Kind::Choice {
                tag,
                arms: _,
                other: _,
            },
            Head::Tag(number),
        ) => push_case(out, schema, *tag, number),
        (_, Head::Absent) => Ok(out.extend_from_slice(b"absent")?),
        (_, Head::Present) => Ok(out.extend_from_slice(b"present")?),
        (_, Head::Nothing) => Ok(out.extend_from_slice(b"void")?),
        _ => Ok(()),
    }
}

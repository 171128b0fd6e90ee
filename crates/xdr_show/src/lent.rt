//! The parts of a value as lines.
ghost use Rattle.std.specs.Prelude.{◌≡◌, ◌<◌, ◌++◌, ℕ, List, length, flat_map, IfOk, IfErr, OnOk};
ghost use Rattle.std.specs.List.{AllByRecursion};
ghost use Rattle.xdr_types.specs.Tree.{Tree};
ghost use Rattle.xdr_types.specs.Outcome.{Outcome, Whole};
ghost use Rattle.xdr_stream.specs.Finish.{EndsWith};
ghost use Rattle.xdr_parts.specs.Coming.{IsOneValue};
ghost use Rattle.xdr_show.specs.Lent.{ArePartsOf};
ghost use Rattle.xdr_show.specs.Shown.{show_text};
ghost use Rattle.xdr_show.specs.Private.Read.{line_lent, IsReadable};

use crate::line::push_line;
use crate::part_head::head_of_part;
use std::alloc::Global;
use xdr_parts::{Lent, PartWalk, parts};
use xdr_stream::{DecodeFault, Reason};
use xdr_types::{KindId, Limits, NoMemory, Schema};

/// The lines of the value whose encoding begins the input (RFC 4506 section 4): the same that `show` prints, and no
/// value is made.
///
/// A fault is that of `parts`, and so of `decode`. Where no value within the limits begins the input, `why` and `at`
/// say it, `Truncated` at the count of bytes where the input ends inside one. For `NoMemory` `at` is at most the count
/// of bytes.
///
/// Memory is that of the value's parts and of the lines.
pub fn show_bytes(
    alloc: Global,
    schema: &Schema,
    kind: KindId,
    limits: Limits,
    input: &[u8],
) -> Result<Vec<u8>, DecodeFault>
    requires { kind.place < length schema.now.kinds }
    // The lines are those of the value that begins the input.
    ensures lines { IfOk result (λ text. (v : Tree) × (n : ℕ)
        × Outcome schema.now.kinds kind.place limits input.now (Whole v n)
        × (text.items ≡ show_text schema.now.kinds kind.place v)) }
    // The outcome is this reason at this place, unless memory was refused; `Truncated` stands for a pending one.
    ensures fault { IfErr result (λ f. EndsWith schema.now.kinds kind.place limits input.now f) }
{
    match parts(alloc, schema, kind, limits, input) {
        Ok(lent) => match show_parts(alloc, schema, &lent) {
            Ok(text) => Ok(text),
            Err(_) => Err(DecodeFault {
                why: Reason::NoMemory,
                at: 0,
            }),
        },
        Err(fault) => Err(fault),
    }
}

/// The lines of a value (RFC 4506 section 4), printed from its parts: the same that `show` prints, and no value is
/// made. The parts are all that `parts` lent of one value, in their order, and the schema is that of this value.
///
/// It takes no stack for a level of the value, and memory for the lines alone.
pub fn show_parts<'a>(
    alloc: Global,
    schema: &Schema,
    parts: &[Lent<'a>],
) -> Result<Vec<u8>, NoMemory>
    requires { (kind : ℕ) × (v : Tree) × (input : List ℕ) × ArePartsOf schema.now.kinds kind v input parts.now }
    ensures { IfOk result (λ text. (kind : ℕ) (v : Tree) (input : List ℕ)
        → ArePartsOf schema.now.kinds kind v input parts.now → text.items ≡ show_text schema.now.kinds kind v) }
{
    let mut out = Vec::new(alloc);
    push_parts(&mut out, schema, parts)?;
    Ok(out)
}

/// The lines of the value whose encoding these bytes are, all of them (RFC 4506 section 4): the same that `show`
/// prints. No value is made, and the bytes are not judged again: that they are the encoding of a value of the kind
/// within the limits has to be known.
///
/// It takes no stack for a level of the value, and memory for the lines, some 256 parts and a frame for each open node.
pub fn show_whole(
    alloc: Global,
    schema: &Schema,
    kind: KindId,
    limits: Limits,
    bytes: &[u8],
) -> Result<Vec<u8>, NoMemory>
    requires { (v : Tree) × IsOneValue schema.now.kinds kind.place limits bytes.now v }
    ensures { IfOk result (λ text. (v : Tree) → IsOneValue schema.now.kinds kind.place limits bytes.now v
        → text.items ≡ show_text schema.now.kinds kind.place v) }
{
    let mut out = Vec::new(alloc);
    let mut walk = PartWalk::start(alloc, schema, kind, limits, bytes);
    while walk.advance()? {
        push_parts(&mut out, schema, walk.list())?;
    }
    Ok(out)
}

// The lines of parts, one after another.
fn push_parts(out: &mut Vec<u8>, schema: &Schema, parts: &[Lent]) -> Result<(), NoMemory>
    requires { AllByRecursion (IsReadable schema.now.kinds) parts.now }
    ensures { OnOk result (out.new.items
        ≡ out.old.items ++ flat_map (line_lent schema.now.kinds) parts.now) }
{
    for part in parts {
        push_part(out, schema, part)?;
    }
    Ok(())
}

// The line of a part, where it has one.
fn push_part(out: &mut Vec<u8>, schema: &Schema, part: &Lent) -> Result<(), NoMemory>
    requires { IsReadable schema.now.kinds part.now }
    ensures { OnOk result (out.new.items ≡ out.old.items ++ line_lent schema.now.kinds part.now) }
{
    let kind = schema.kind(part.kind);
    match head_of_part(schema, kind, part.role, part.bytes) {
        Some(head) => push_line(
            out,
            schema,
            part.name.as_bytes(),
            part.kind,
            kind,
            part.depth,
            head,
        ),
        None => Ok(()),
    }
}

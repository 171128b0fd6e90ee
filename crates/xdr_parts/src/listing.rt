//! The parts of the value that begins an input.
ghost use Rattle.std.specs.Prelude.{◌≡◌, ◌<◌, ℕ, length, map, IfOk, IfErr};
ghost use Rattle.xdr_types.specs.Layout.{entries};
ghost use Rattle.xdr_types.specs.Outcome.{Outcome, Whole};
ghost use Rattle.xdr_types.specs.Tree.{Tree};
ghost use Rattle.xdr_stream.specs.Finish.{EndsWith};
ghost use Rattle.xdr_parts.specs.Counted.{AreListed};
ghost use Rattle.xdr_parts.specs.Lent.{entry_of, AreLentFrom};

use crate::counting::PartCounts;
use crate::part::Lent;
use crate::whole::whole_parts;
use std::alloc::Global;
use xdr_stream::DecodeFault;
use xdr_types::{KindId, Limits, Schema};

/// The parts of a value, and how large it and their list are.
#[derive(Drop)]
pub struct SizedParts<'a> {
    /// What `count_parts` tells of the value.
    pub counts: PartCounts,
    /// What `parts` lists of it.
    pub list: Vec<Lent<'a>>,
}

/// The parts of the value whose encoding begins the input (RFC 4506 section 4), in the order of their bytes, a parent
/// before its parts. Their bytes are the input's own. A number, a flag or a length is its unit, or two of a hyper
/// integer. Content is without the zeros after it. A structure, an array of fixed size and a void have none.
///
/// A fault is that of `decode`: where no value within the limits begins the input, `why` and `at` say it, `Truncated`
/// at the count of bytes where the input ends inside one. For `NoMemory` `at` is at most the count of bytes.
///
/// Memory is that of the list, and a frame for each open node; no more is reserved than the bytes that came call for.
pub fn parts<'a>(
    alloc: Global,
    schema: &'a Schema,
    kind: KindId,
    limits: Limits,
    input: &'a [u8],
) -> Result<Vec<Lent<'a>>, DecodeFault>
    requires { kind.place < length schema.now.kinds }
    // The outcome of the input is a value, and the parts are those of its layout, each once and in order.
    ensures outcome { IfOk result (λ ls. (v : Tree) × (n : ℕ)
        × Outcome schema.now.kinds kind.place limits input.now (Whole v n)
        × (map entry_of ls.items ≡ entries schema.now.kinds kind.place v)) }
    // The bytes of each part are those of the input at its place.
    ensures lent { IfOk result (λ ls. AreLentFrom input.now ls.items) }
    // The outcome is this reason at this place, unless memory was refused; `Truncated` stands for a pending one.
    ensures fault { IfErr result (λ f. EndsWith schema.now.kinds kind.place limits input.now f) }
{
    let whole = whole_parts(alloc, schema, kind, limits, input, true)?;
    Ok(whole.1.list)
}

/// What `parts` and `count_parts` report together, of an input that is judged once. Faults and memory are those of
/// `parts`.
pub fn sized_parts<'a>(
    alloc: Global,
    schema: &'a Schema,
    kind: KindId,
    limits: Limits,
    input: &'a [u8],
) -> Result<SizedParts<'a>, DecodeFault>
    requires { kind.place < length schema.now.kinds }
    // The outcome of the input is a value, the parts are those of its layout, and the counts theirs.
    ensures outcome { IfOk result (λ s. AreListed schema.now.kinds kind.place limits input.now s.list.items s.counts) }
    // The outcome is this reason at this place, unless memory was refused; `Truncated` stands for a pending one.
    ensures fault { IfErr result (λ f. EndsWith schema.now.kinds kind.place limits input.now f) }
{
    let whole = whole_parts(alloc, schema, kind, limits, input, true)?;
    let counts = PartCounts {
        used: whole.0,
        parts: whole.1.parts,
        names: whole.1.names,
    };
    Ok(SizedParts {
        counts,
        list: whole.1.list,
    })
}

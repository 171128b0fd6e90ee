//! The part of a value that a path names.
ghost use Rattle.std.specs.Prelude.{◌≡◌, ◌<◌, ℕ, length, IfOk, Err};
ghost use Rattle.xdr_types.specs.Layout.{Entry};
ghost use Rattle.xdr_types.specs.Outcome.{Outcome, Whole};
ghost use Rattle.xdr_types.specs.Tree.{Tree};
ghost use Rattle.xdr_stream.specs.Finish.{EndsWith};
ghost use Rattle.xdr_stream.specs.declared.fault.DecodeFault.{DecodeFault as Refusal};
ghost use Rattle.xdr_parts.specs.Lent.{entry_of, IsLentFrom};
ghost use Rattle.xdr_paths.specs.Paths.{Names};

use crate::look::Look;
use crate::spot::Spot;
use std::alloc::Global;
use xdr_parts::Lent;
use xdr_parts::judge::judge;
use xdr_stream::{DecodeFault, Reason};
use xdr_types::{KindId, Limits, Schema};

/// Why no part is found.
#[derive(Clone, Copy, Debug, PartialEq, Eq)]
pub enum FindFault {
    /// No value within the limits begins the input, or memory was refused.
    Refused(DecodeFault),
    /// The value has no part with this path.
    NoSuchPart,
}

/// The part that a path names, of the value whose encoding begins the input (RFC 4506 section 4). Its bytes are the
/// input's own, as `xdr_parts::parts` lends them.
///
/// A path is the names of fields and arms with dots between them, and `[i]` behind an array for an item. Its index i is
/// from 0 and without leading zeros: `what.dir.data`, `list[3].name`. The empty path is the value itself. A path names
/// the last part that its node has by itself: the content of an opaque or a string of varying length, the length of an
/// array of one, the discriminant of a union. Optional data is its item, however often; where it is not there, a path
/// to it names its flag, and no path leads on.
///
/// The bytes are judged first. Then values before the part are passed over, those of one size without a look, and what
/// comes behind it is not looked at again. A fault is that of `decode`; for `NoMemory` `at` is at most the count of
/// bytes. Memory is a frame for each open node.
pub fn find<'a>(
    alloc: Global,
    schema: &'a Schema,
    kind: KindId,
    limits: Limits,
    input: &'a [u8],
    path: &[u8],
) -> Result<Lent<'a>, FindFault>
    requires { kind.place < length schema.now.kinds }
    // The outcome of the input is a value, and the path names this part of its layout, which is lent from the input.
    ensures found { IfOk result (λ l. (v : Tree) × (n : ℕ)
        × Outcome schema.now.kinds kind.place limits input.now (Whole v n)
        × Names schema.now.kinds kind.place v path.now (entry_of l) × IsLentFrom input.now l) }
    // The outcome of the input is a value, and the path names no part of its layout.
    ensures none { result ≡ Err FindFault.NoSuchPart → (v : Tree) × (n : ℕ)
        × Outcome schema.now.kinds kind.place limits input.now (Whole v n)
        × ((e : Entry) → Names schema.now.kinds kind.place v path.now e → ⊥) }
    // The outcome is this reason at this place, unless memory was refused; `Truncated` stands for a pending one.
    ensures refused { (f : Refusal) → result ≡ Err (FindFault.Refused f)
        → EndsWith schema.now.kinds kind.place limits input.now f }
{
    let _in_range = limits.depth();
    let used = match judge(alloc, schema, kind, limits, input) {
        Ok(used) => used,
        Err(fault) => return Err(FindFault::Refused(fault)),
    };
    let look = Look {
        alloc,
        schema,
        limits,
        bytes: &input[..used],
    };
    let root = Spot {
        at: 0,
        depth: 1,
        kind,
        name: "",
    };
    match look.at_path(look.settled(root), path) {
        Ok(Some(part)) => Ok(part),
        Ok(None) => Err(FindFault::NoSuchPart),
        Err(_) => Err(FindFault::Refused(DecodeFault {
            why: Reason::NoMemory,
            at: used,
        })),
    }
}

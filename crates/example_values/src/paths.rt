//! Paths of an integer.
ghost use Rattle.std.specs.Prelude.{◌≡◌, IfOk, Err};
ghost use Rattle.xdr_types.specs.Kinds.{kind_at, int};
ghost use Rattle.xdr_types.specs.Layout.{entry, of_number};
ghost use Rattle.xdr_parts.specs.Lent.{entry_of};
ghost use Rattle.xdr_types.specs.Fits.{item_part};

use std::alloc::Global;
use xdr_parts::Lent;
use xdr_paths::{FindFault, find};
use xdr_types::{KindId, Limits, Schema};

/// The empty path names an integer itself: its one part, which each value of the kind has.
pub fn names_a_number_itself<'a>(
    alloc: Global,
    schema: &'a Schema,
    kind: KindId,
    limits: Limits,
    input: &'a [u8],
) -> Result<Lent<'a>, FindFault>
    requires { kind_at schema.now.kinds kind.place ≡ int }
    ensures part { IfOk result (λ l. entry_of l ≡ entry 0 4 1 (item_part kind.place) of_number) }
    ensures there { result ≡ Err FindFault.NoSuchPart → ⊥ }
{
    find(alloc, schema, kind, limits, input, b"")
}

/// No path leads into an integer.
pub fn nothing_is_inside_a_number<'a>(
    alloc: Global,
    schema: &'a Schema,
    kind: KindId,
    limits: Limits,
    input: &'a [u8],
) -> Result<Lent<'a>, FindFault>
    requires { kind_at schema.now.kinds kind.place ≡ int }
    ensures { IfOk result (λ l. ⊥) }
{
    find(alloc, schema, kind, limits, input, b"high")
}

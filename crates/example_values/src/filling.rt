//! What items fill of a value, and which fill none.
ghost use Rattle.std.specs.Prelude.{◌≡◌, [], ◌∷◌, ◌++◌, IfOk, IfSome, None, false};
ghost use Rattle.xdr_types.specs.Kinds.{kind_at, int, opaque, text};
ghost use Rattle.xdr_writer.specs.Items.{item_view};
ghost use Rattle.xdr_filling.specs.Filled.{IsValue, spelled_bytes};
ghost use Rattle.example_values.specs.Pair.{lone_arm, pair_kinds, pair_bytes};

use std::alloc::{AllocError, Global};
use xdr_filling::{Filling, Spelled};
use xdr_types::{KindId, Limits, Schema};
use xdr_writer::Item;
use xdr_writer::laws::items_tell_value;

/// The bytes of an item that fills all of a value are the encoding of that value.
pub fn alone<'a>(
    alloc: Global,
    schema: &Schema,
    kind: KindId,
    limits: Limits,
    item: Item<'a>,
) -> Result<Option<Spelled<'a>>, AllocError>
    ensures { IfOk result (λ o. IfSome o (λ s. IsValue schema.now.kinds kind.place limits.depth
        (item_view item.entry ∷ []) (spelled_bytes s))) }
{
    let mut filling = Filling::start(alloc, schema, kind, limits);
    let Some(spelled) = filling.take(item)? else {
        return Ok(None);
    };
    if filling.is_whole()? {
        Ok(Some(spelled))
    } else {
        Ok(None)
    }
}

/// The bytes of -2 are ff ff ff fe (RFC 4506 section 4.1).
pub fn spells_a_number(
    alloc: Global,
    schema: &Schema,
    kind: KindId,
    limits: Limits,
) -> Result<Option<Spelled<'static>>, AllocError>
    requires { kind_at schema.now.kinds kind.place ≡ int }
    ensures { IfOk result (λ o. IfSome o (λ s. spelled_bytes s ≡ 255 ∷ 255 ∷ 255 ∷ 254 ∷ [])) }
{
    alone(alloc, schema, kind, limits, Item::Number(-2))
}

/// 2^31 fills no int.
pub fn fills_no_number_out_of_range(
    alloc: Global,
    schema: &Schema,
    kind: KindId,
    limits: Limits,
) -> Result<Option<Spelled<'static>>, AllocError>
    requires { kind_at schema.now.kinds kind.place ≡ int }
    ensures { IfOk result (λ o. o ≡ None) }
{
    alone(alloc, schema, kind, limits, Item::Number(2147483648))
}

/// Behind "abc" in an opaque of three stands a zero, not a one (RFC 4506 sections 3, 4.9).
pub fn pads_with_zeros(
    alloc: Global,
    schema: &Schema,
    kind: KindId,
    limits: Limits,
) -> Result<Option<Spelled<'static>>, AllocError>
    requires { kind_at schema.now.kinds kind.place ≡ opaque 3 }
    ensures { IfOk result (λ o. IfSome o (λ s. spelled_bytes s ≡ 97 ∷ 98 ∷ 99 ∷ 0 ∷ [])) }
{
    alone(alloc, schema, kind, limits, Item::Content(b"abc"))
}

/// Four bytes fill no string of three at most (RFC 4506 section 4.11).
pub fn fills_no_content_above_its_maximum(
    alloc: Global,
    schema: &Schema,
    kind: KindId,
    limits: Limits,
) -> Result<Option<Spelled<'static>>, AllocError>
    requires { kind_at schema.now.kinds kind.place ≡ text 3 }
    ensures { IfOk result (λ o. o ≡ None) }
{
    alone(alloc, schema, kind, limits, Item::Content(b"abcd"))
}

/// A discriminant that no arm lists fills no union (RFC 4506 section 4.15).
pub fn fills_no_missing_arm(
    alloc: Global,
    schema: &Schema,
    kind: KindId,
    limits: Limits,
) -> Result<Option<Spelled<'static>>, AllocError>
    requires { kind_at schema.now.kinds kind.place ≡ lone_arm }
    ensures { IfOk result (λ o. o ≡ None) }
{
    alone(alloc, schema, kind, limits, Item::Number(2))
}

/// The number 3 and "abc" fill a structure, and their bytes are its twelve (RFC 4506 sections 4.1, 4.11, 4.14).
pub fn fills_a_pair(
    alloc: Global,
    schema: &Schema,
    limits: Limits,
) -> Result<Option<(Spelled<'static>, Spelled<'static>)>, AllocError>
    requires { schema.now.kinds ≡ pair_kinds }
    ensures { IfOk result (λ o. IfSome o (λ t. spelled_bytes t.0 ++ spelled_bytes t.1 ≡ pair_bytes)) }
{
    items_tell_value();
    let mut filling = Filling::start(alloc, schema, KindId { place: 2 }, limits);
    let Some(first) = filling.take(Item::Number(3))? else {
        return Ok(None);
    };
    let Some(second) = filling.take(Item::Content(b"abc"))? else {
        return Ok(None);
    };
    if filling.is_whole()? {
        Ok(Some((first, second)))
    } else {
        Ok(None)
    }
}

/// A structure of two fields is not whole with its first.
pub fn is_not_whole_one_item_early(
    alloc: Global,
    schema: &Schema,
    limits: Limits,
) -> Result<bool, AllocError>
    requires { schema.now.kinds ≡ pair_kinds }
    ensures { IfOk result (λ b. b ≡ false) }
{
    let mut filling = Filling::start(alloc, schema, KindId { place: 2 }, limits);
    let Some(_first) = filling.take(Item::Number(3))? else {
        return Ok(false);
    };
    filling.is_whole()
}

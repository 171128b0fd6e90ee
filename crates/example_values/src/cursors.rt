//! A cursor that goes over an integer, and over a structure.
ghost use Rattle.std.specs.Prelude.{◌≡◌, ◌<◌, List, None, length, IfSome, IfErr};
ghost use Rattle.xdr_types.specs.Kinds.{Part, kind_at, int, structure};
ghost use Rattle.xdr_types.specs.Fits.{item_part};
ghost use Rattle.xdr_types.specs.Layout.{entry, of_number, of_group};
ghost use Rattle.xdr_parts.specs.Lent.{entry_of};

use std::alloc::Global;
use xdr_cursor::{Cursor, CursorFault};
use xdr_parts::Lent;
use xdr_types::{KindId, Limits, Schema};

/// The first part of an integer is its number.
pub fn begins_with_the_number<'a>(
    alloc: Global,
    schema: &'a Schema,
    kind: KindId,
    limits: Limits,
    input: &'a [u8],
) -> Option<Lent<'a>>
    requires known { kind.place < length schema.now.kinds }
    requires kind { kind_at schema.now.kinds kind.place ≡ int }
    ensures { IfSome result (λ l. entry_of l ≡ entry 0 4 1 (item_part kind.place) of_number) }
{
    let Ok(mut cursor) = Cursor::start(alloc, schema, kind, limits, input) else {
        return None;
    };
    let Ok(part) = cursor.next(schema, input) else {
        return None;
    };
    part
}

/// Behind it there is none.
pub fn ends_behind_the_number<'a>(
    alloc: Global,
    schema: &'a Schema,
    kind: KindId,
    limits: Limits,
    input: &'a [u8],
) -> Option<Lent<'a>>
    requires known { kind.place < length schema.now.kinds }
    requires kind { kind_at schema.now.kinds kind.place ≡ int }
    ensures { result ≡ None }
{
    let Ok(mut cursor) = Cursor::start(alloc, schema, kind, limits, input) else {
        return None;
    };
    let Ok(_number) = cursor.next(schema, input) else {
        return None;
    };
    let Ok(other) = cursor.next(schema, input) else {
        return None;
    };
    other
}

/// The value itself has no name.
pub fn has_no_name_at_the_root(
    alloc: Global,
    schema: &Schema,
    kind: KindId,
    limits: Limits,
    input: &[u8],
) -> Option<usize>
    requires known { kind.place < length schema.now.kinds }
    requires kind { kind_at schema.now.kinds kind.place ≡ int }
    ensures { IfSome result (λ count. count ≡ 0) }
{
    let Ok(mut cursor) = Cursor::start(alloc, schema, kind, limits, input) else {
        return None;
    };
    let Some(name) = cursor.next_name(schema) else {
        return None;
    };
    Some(name.len())
}

/// The part whose name was asked for still comes next.
pub fn names_without_a_step<'a>(
    alloc: Global,
    schema: &'a Schema,
    kind: KindId,
    limits: Limits,
    input: &'a [u8],
) -> Option<Lent<'a>>
    requires known { kind.place < length schema.now.kinds }
    requires kind { kind_at schema.now.kinds kind.place ≡ int }
    ensures { IfSome result (λ l. entry_of l ≡ entry 0 4 1 (item_part kind.place) of_number) }
{
    let Ok(mut cursor) = Cursor::start(alloc, schema, kind, limits, input) else {
        return None;
    };
    let _name = cursor.next_name(schema);
    let Ok(part) = cursor.next(schema, input) else {
        return None;
    };
    part
}

/// Behind the first part of a structure all that is inside it is passed over, and nothing is left.
pub fn passes_over_a_structure<'a>(
    alloc: Global,
    schema: &'a Schema,
    kind: KindId,
    limits: Limits,
    input: &'a [u8],
) -> Option<Lent<'a>>
    requires known { kind.place < length schema.now.kinds }
    requires kind { (fields : List Part) × (kind_at schema.now.kinds kind.place ≡ structure fields) }
    ensures { result ≡ None }
{
    let Ok(mut cursor) = Cursor::start(alloc, schema, kind, limits, input) else {
        return None;
    };
    let Ok(_group) = cursor.next(schema, input) else {
        return None;
    };
    let Ok(()) = cursor.skip(schema, input, 1) else {
        return None;
    };
    let Ok(other) = cursor.next(schema, input) else {
        return None;
    };
    other
}

/// With the schema and the input of the start no call goes astray.
pub fn never_goes_astray(
    alloc: Global,
    schema: &Schema,
    kind: KindId,
    limits: Limits,
    input: &[u8],
    depth: u32,
) -> Result<(), CursorFault>
    requires { kind.place < length schema.now.kinds }
    ensures { IfErr result (λ f. f ≡ CursorFault.NoMemory) }
{
    let Ok(mut cursor) = Cursor::start(alloc, schema, kind, limits, input) else {
        return Ok(());
    };
    let _part = cursor.next(schema, input)?;
    cursor.skip(schema, input, depth)?;
    let _other = cursor.next(schema, input)?;
    Ok(())
}

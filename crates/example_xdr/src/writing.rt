//! Values that are written item by item.
ghost use Rattle.std.specs.Prelude.{◌≡◌, ◌≤◌, ◌<◌, length, IfOk, IfErr, IfSome, IsErr, Err, Some};
ghost use Rattle.xdr_types.specs.Kinds.{kind_at, int, maybe, opaque};
ghost use Rattle.xdr_writer.specs.Answers.{IsKnown};
ghost use Rattle.xdr_writer.specs.Represents.{HasRefused};
ghost use Rattle.xdr_writer.specs.declared.item.Step.TheVariants.{More, Done};
ghost use Rattle.xdr_writer.specs.declared.refusal.Why.TheVariants.{Refused};
ghost use Rattle.example_xdr.specs.Pair.{pair_kinds, pair_bytes, too_deep};
ghost use Rattle.example_xdr.specs.Counted.{array_kinds, array_bytes};

use std::alloc::Global;
use xdr_types::{KindId, Limits, Schema};
use xdr_writer::{Item, Step, WriteRefusal, Writer};

/// The number 3 and the string "abc" are written as twelve bytes, and the second of them makes the structure whole
/// (RFC 4506 sections 4.1, 4.11, 4.14).
pub fn writes_a_pair(
    alloc: Global,
    schema: &Schema,
    limits: Limits,
) -> Result<(Step, Step, Vec<u8>), WriteRefusal>
    requires { schema.now.kinds ≡ pair_kinds }
    ensures steps { IfOk result (λ r. (r.0 ≡ More) × (r.1 ≡ Done)) }
    ensures bytes { IfOk result (λ r. r.2.items ≡ pair_bytes) }
{
    let mut out = Vec::new(alloc);
    let mut writer = Writer::start(alloc, schema, KindId { place: 2 }, limits);
    let first = writer.put(Item::Number(3), &mut out)?;
    let second = writer.put(Item::Content(b"abc"), &mut out)?;
    Ok((first, second, out))
}

/// All items of the structure are counted at the end: it has twelve bytes.
pub fn counts_the_bytes_of_a_pair(
    alloc: Global,
    schema: &Schema,
    limits: Limits,
) -> Result<u32, WriteRefusal>
    requires { schema.now.kinds ≡ pair_kinds }
    ensures { IfOk result (λ n. n ≡ 12) }
{
    let mut out = Vec::new(alloc);
    let mut writer = Writer::start(alloc, schema, KindId { place: 2 }, limits);
    writer.put(Item::Number(3), &mut out)?;
    writer.put(Item::Content(b"abc"), &mut out)?;
    writer.finish()
}

/// The numbers 3 and -1, put by one call behind their count, make the array whole (RFC 4506 sections 4.1, 4.13).
pub fn writes_numbers_at_once(
    alloc: Global,
    schema: &Schema,
    limits: Limits,
) -> Result<(Option<Step>, Vec<u8>), WriteRefusal>
    requires { schema.now.kinds ≡ array_kinds }
    ensures step { IfOk result (λ r. r.0 ≡ Some Done) }
    ensures bytes { IfOk result (λ r. r.1.items ≡ array_bytes) }
{
    let mut out = Vec::new(alloc);
    let mut writer = Writer::start(alloc, schema, KindId { place: 1 }, limits);
    writer.put(Item::Count(2), &mut out)?;
    let step = writer.put_numbers(&[3, -1], &mut out)?;
    Ok((step, out))
}

/// No reason but an allocation failure stands against an item that a value within the limits begins with.
pub fn takes_the_first_of_a_pair(
    alloc: Global,
    schema: &Schema,
    limits: Limits,
    out: &mut Vec<u8>,
) -> Result<Step, WriteRefusal>
    requires kinds { schema.now.kinds ≡ pair_kinds }
    requires deep { 2 ≤ limits.depth }
    requires buffer { 12 ≤ limits.bytes }
    ensures { IfErr result (λ f. IsKnown f.why → ⊥) }
{
    let mut writer = Writer::start(alloc, schema, KindId { place: 2 }, limits);
    writer.put(Item::Number(3), out)
}

/// A value that is too deep before its first item is refused for that, whatever item is put.
pub fn names_the_depth_before_an_item(
    alloc: Global,
    schema: &Schema,
    limits: Limits,
    item: Item<'_>,
    out: &mut Vec<u8>,
) -> Result<Step, WriteRefusal>
    requires kinds { schema.now.kinds ≡ pair_kinds }
    requires shallow { limits.depth ≡ 1 }
    ensures refused { IsErr result }
    ensures depth { IfErr result (λ f. IsKnown f.why → f.why ≡ Refused too_deep) }
    ensures retained { out.new.items ≡ out.old.items }
{
    let _in_range = limits.depth();
    let mut writer = Writer::start(alloc, schema, KindId { place: 2 }, limits);
    writer.put(item, out)
}

/// A flag is never taken for a number, and nothing is written of it.
pub fn refuses_a_flag_for_a_number(
    alloc: Global,
    schema: &Schema,
    kind: KindId,
    limits: Limits,
    out: &mut Vec<u8>,
) -> Result<Step, WriteRefusal>
    requires has { kind.place < length schema.now.kinds }
    requires kind { kind_at schema.now.kinds kind.place ≡ int }
    ensures refused { IsErr result }
    ensures retained { out.new.items ≡ out.old.items }
{
    let mut writer = Writer::start(alloc, schema, kind, limits);
    writer.put(Item::Flag(true), out)
}

/// A count is never taken for the flag of an optional item.
pub fn refuses_a_count_for_a_flag(
    alloc: Global,
    schema: &Schema,
    kind: KindId,
    limits: Limits,
    out: &mut Vec<u8>,
) -> Result<Step, WriteRefusal>
    requires has { kind.place < length schema.now.kinds }
    requires kind { kind_at schema.now.kinds kind.place ≡ maybe 0 }
    ensures { IsErr result }
{
    let mut writer = Writer::start(alloc, schema, kind, limits);
    writer.put(Item::Count(1), out)
}

/// Three bytes are never taken for an opaque of four.
pub fn refuses_content_of_another_size(
    alloc: Global,
    schema: &Schema,
    kind: KindId,
    limits: Limits,
    out: &mut Vec<u8>,
) -> Result<Step, WriteRefusal>
    requires has { kind.place < length schema.now.kinds }
    requires kind { kind_at schema.now.kinds kind.place ≡ opaque 4 }
    ensures { IsErr result }
{
    let mut writer = Writer::start(alloc, schema, kind, limits);
    writer.put(Item::Content(b"abc"), out)
}

/// A refusal comes again, whatever is put after it, and at the end too.
pub fn refuses_items_for_ever(
    mut writer: Writer<'_>,
    item: Item<'_>,
    later: Item<'_>,
    out: &mut Vec<u8>,
) -> Option<
    (
        WriteRefusal,
        Result<Step, WriteRefusal>,
        Result<u32, WriteRefusal>,
    ),
>
    ensures { IfSome result (λ r. (r.1 ≡ Err r.0) × (r.2 ≡ Err r.0)) }
{
    match writer.put(item, out) {
        Ok(_) => None,
        Err(refusal) => {
            let again = writer.put(later, out);
            let last = writer.finish();
            Some((refusal, again, last))
        }
    }
}

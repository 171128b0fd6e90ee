//! What becomes of an item, by what is due.
ghost use Rattle.std.specs.Prelude.{◌≡◌, ◌%◌, ◌<◌, ℕ, List, length};
ghost use Rattle.xdr_types.specs.Kinds as xdr;
ghost use Rattle.xdr_types.specs.Kinds.{KindView, kind_at};
ghost use Rattle.xdr_types.specs.Within.{Bounds};
ghost use Rattle.xdr_types.specs.Layout.{Entry, of_number, of_flag, of_length, of_content};
ghost use Rattle.xdr_laws.specs.Owed.{HasUnit, lead_of, role_of};
ghost use Rattle.xdr_due.specs.Due.{IsDue, IsNothing, hyper_kind};
ghost use Rattle.xdr_writer.specs.Items.{item_view};
ghost use Rattle.xdr_writer.specs.Private.Becomes.{Becomes, HasWords, HasTags, IsCountedContent, IsPlace};
ghost use Rattle.xdr_writer.specs.Private.Becomes.{in_word, in_wide};

use crate::item::Item;
use crate::refusal::Why;
use crate::units::Coded;
use xdr_codec::Due;
use xdr_types::{Kind, KindId, Schema};

/// Whether the number has one unit.
pub(crate) fn is_word(signed: bool, number: i128) -> bool
    ensures { result ≡ in_word signed number }
{
    if signed {
        number >= -2147483648 && number <= 2147483647
    } else {
        number >= 0 && number <= 4294967295
    }
}

// Whether the number has two units.
fn is_wide(signed: bool, number: i128) -> bool
    ensures { result ≡ in_wide signed number }
{
    if signed {
        number >= -9223372036854775808 && number <= 9223372036854775807
    } else {
        number >= 0 && number <= 18446744073709551615
    }
}

// An item where a number of one unit is due.
fn word_item(signed: bool, item: Item<'_>) -> Result<Coded<'_>, Why>
    ensures { (kinds : List KindView) (kind : KindView) → HasWords kinds kind signed
        → Becomes kinds kind of_number (item_view item.entry) result }
{
    match item {
        Item::Number(number) => {
            if !is_word(signed, number) {
                return Err(Why::NotInRange);
            }
            if signed {
                Ok(Coded::Signed(number as i32))
            } else {
                Ok(Coded::Unsigned(number as u32))
            }
        }
        Item::Flag(_) => Err(Why::WrongItem),
        Item::Count(_) => Err(Why::WrongItem),
        Item::Content(_) => Err(Why::WrongItem),
    }
}

// An item where a hyper integer is due.
fn hyper_item(signed: bool, item: Item<'_>) -> Result<Coded<'_>, Why>
    ensures { (kinds : List KindView) → Becomes kinds (hyper_kind signed) of_number (item_view item.entry) result }
{
    match item {
        Item::Number(number) => {
            if !is_wide(signed, number) {
                return Err(Why::NotInRange);
            }
            if signed {
                Ok(Coded::Hyper(number as i64))
            } else {
                Ok(Coded::UnsignedHyper(number as u64))
            }
        }
        Item::Flag(_) => Err(Why::WrongItem),
        Item::Count(_) => Err(Why::WrongItem),
        Item::Content(_) => Err(Why::WrongItem),
    }
}

// An item where a flag is due.
fn flag_item(item: Item<'_>) -> Result<Coded<'_>, Why>
    ensures { (kinds : List KindView) (part : ℕ)
        → Becomes kinds (xdr.maybe part) of_flag (item_view item.entry) result }
{
    match item {
        Item::Flag(flag) => Ok(Coded::Unsigned(if flag { 1 } else { 0 })),
        Item::Number(_) => Err(Why::WrongItem),
        Item::Count(_) => Err(Why::WrongItem),
        Item::Content(_) => Err(Why::WrongItem),
    }
}

// An item where a count is due.
fn count_item(item: Item<'_>) -> Result<Coded<'_>, Why>
    ensures { (kinds : List KindView) (part max : ℕ)
        → Becomes kinds (xdr.up_to part max) of_length (item_view item.entry) result }
{
    match item {
        Item::Count(count) => Ok(Coded::Unsigned(count)),
        Item::Number(_) => Err(Why::WrongItem),
        Item::Flag(_) => Err(Why::WrongItem),
        Item::Content(_) => Err(Why::WrongItem),
    }
}

// An item where content behind its length is due.
fn counted_item(item: Item<'_>) -> Result<Coded<'_>, Why>
    ensures { (kinds : List KindView) (kind : KindView) → IsCountedContent kind
        → Becomes kinds kind of_length (item_view item.entry) result }
{
    match item {
        Item::Content(bytes) => Ok(Coded::Counted(bytes)),
        Item::Number(_) => Err(Why::WrongItem),
        Item::Flag(_) => Err(Why::WrongItem),
        Item::Count(_) => Err(Why::WrongItem),
    }
}

// An item where content of so many bytes is due, at least one.
fn fixed_item(size: u32, item: Item<'_>) -> Result<Coded<'_>, Why>
    ensures { (kinds : List KindView) (limit : ℕ) → 0 < size
        → Becomes kinds (xdr.opaque limit) (of_content size) (item_view item.entry) result }
{
    match item {
        Item::Content(bytes) => {
            if bytes.len() == size as usize {
                Ok(Coded::Fixed(bytes))
            } else {
                Err(Why::WrongItem)
            }
        }
        Item::Number(_) => Err(Why::WrongItem),
        Item::Flag(_) => Err(Why::WrongItem),
        Item::Count(_) => Err(Why::WrongItem),
    }
}

// Whether a discriminant of the kind is a signed number.
fn is_signed_tag(schema: &Schema, tag: KindId) -> bool
    ensures { HasTags (kind_at schema.now.kinds tag.place) result }
{
    if !schema.has(tag) {
        return false;
    }
    match schema.kind(tag) {
        Kind::Int => true,
        Kind::Numbered { .. } => true,
        _ => false,
    }
}

// An item where a node of this kind is due.
fn node_item<'a>(schema: &Schema, id: KindId, item: Item<'a>) -> Result<Coded<'a>, Why>
    ensures { id.place < length schema.now.kinds → HasUnit (lead_of (kind_at schema.now.kinds id.place))
        → Becomes schema.now.kinds (kind_at schema.now.kinds id.place) (role_of (kind_at schema.now.kinds id.place))
        (item_view item.entry) result }
{
    if !schema.has(id) {
        return Err(Why::WrongItem);
    }
    match schema.kind(id) {
        Kind::Int => word_item(true, item),
        Kind::Numbered { .. } => word_item(true, item),
        Kind::Unsigned => word_item(false, item),
        Kind::Bool => word_item(false, item),
        Kind::Choice { tag, .. } => word_item(is_signed_tag(schema, *tag), item),
        Kind::Maybe { .. } => flag_item(item),
        Kind::UpTo { .. } => count_item(item),
        Kind::OpaqueUpTo { .. } => counted_item(item),
        Kind::Text { .. } => counted_item(item),
        _ => Err(Why::WrongItem),
    }
}

/// What becomes of an item where this is due.
pub(crate) fn coded_of<'a>(schema: &Schema, due: Due, item: Item<'a>) -> Result<Coded<'a>, Why>
    ensures { (root : ℕ) (limits : Bounds) (b : List ℕ) (e : Entry) → length b % 4 ≡ 0
        → IsDue schema.now.kinds root limits b due → (IsNothing due → ⊥) → IsPlace schema.now.kinds root b e
        → Becomes schema.now.kinds (kind_at schema.now.kinds e.kind) e.role (item_view item.entry) result }
{
    match due {
        Due::Unit(id) => node_item(schema, id, item),
        Due::Content(size) => fixed_item(size, item),
        Due::Hyper(signed) => hyper_item(signed, item),
        Due::Low(_) => Err(Why::WrongItem),
        Due::Nothing => Err(Why::WrongItem),
    }
}

//! The items of a value: as a case names them, and as a value's tree and its schema have them (RFC 4506 section 4).
use std::alloc::Global;
use test_lines::case::{Case, digits};
use xdr_types::{Arm, Kind, KindId, Member, NoMemory, Schema, Value};
use xdr_writer::Item;

/// An item that a case names, and its content.
#[derive(Drop)]
pub enum Named {
    Number(i128),
    Flag(bool),
    Count(u32),
    Content(Vec<u8>),
}

// The item that a sort and what stands behind it name.
fn item_named(alloc: Global, sort: &str, text: &str) -> Option<Named> {
    match sort {
        "number" => Some(Named::Number(text.parse::<i128>().ok()?)),
        "flag" => Some(Named::Flag(text == "1")),
        "count" => Some(Named::Count(text.parse::<u32>().ok()?)),
        "content" => Some(Named::Content(digits(alloc, text))),
        _ => None,
    }
}

/// The items of a case, a comma between two; none where they are no items, or where memory is refused.
pub fn case_items(case: &Case<'_>) -> Option<Vec<Named>> {
    let mut all = Vec::new(case.alloc);
    if case.has("items") {
        for text in case.word("items").split(',') {
            let (sort, text) = text.split_once(':')?;
            all.push(item_named(case.alloc, sort, text)?).ok()?;
        }
    }
    Some(all)
}

// The item as it is put.
fn item_of(named: &Named) -> Item<'_> {
    match named {
        Named::Number(number) => Item::Number(*number),
        Named::Flag(flag) => Item::Flag(*flag),
        Named::Count(count) => Item::Count(*count),
        Named::Content(bytes) => Item::Content(bytes),
    }
}

/// The items as they are put.
pub fn items_of(alloc: Global, named: &[Named]) -> Result<Vec<Item<'_>>, NoMemory> {
    let mut items = Vec::new(alloc);
    for each in named {
        items.push(item_of(each))?;
    }
    Ok(items)
}

// The kind that a part has where none is found: no value has such a part.
const NONE: KindId = KindId { place: 0 };

fn kind_of<'s>(schema: &'s Schema, id: KindId) -> Option<&'s Kind> {
    if schema.has(id) {
        Some(schema.kind(id))
    } else {
        None
    }
}

// The kind of the items of an array, or of an optional item.
fn item_kind(kind: Option<&Kind>) -> KindId {
    match kind {
        Some(Kind::Fixed { item, .. }) => *item,
        Some(Kind::UpTo { item, .. }) => *item,
        Some(Kind::Maybe { item }) => *item,
        _ => NONE,
    }
}

// The kind of a field.
fn field_kind(kind: Option<&Kind>, place: usize) -> KindId {
    match kind {
        Some(Kind::Structure { fields }) => match fields.get(place) {
            Some(field) => field.kind,
            None => NONE,
        },
        _ => NONE,
    }
}

// The kind of the arm under a discriminant, or of the default.
fn arm_kind(arms: &[Arm], other: &Option<Member>, tag: i64) -> KindId {
    for arm in arms {
        if arm.cases.contains(&tag) {
            return arm.member.kind;
        }
    }
    match other {
        Some(member) => member.kind,
        None => NONE,
    }
}

// The kind of a union's part.
fn part_kind(kind: Option<&Kind>, tag: i64) -> KindId {
    match kind {
        Some(Kind::Choice { arms, other, .. }) => arm_kind(arms, other, tag),
        _ => NONE,
    }
}

fn push_number(items: &mut Vec<Item<'_>>, number: i128) -> Result<(), NoMemory> {
    items.push(Item::Number(number))?;
    Ok(())
}

// Adds the count of an array, where its kind does not have it.
fn push_count(
    items: &mut Vec<Item<'_>>,
    kind: Option<&Kind>,
    count: usize,
) -> Result<(), NoMemory> {
    if let Some(Kind::UpTo { .. }) = kind {
        items.push(Item::Count(u32::try_from(count).unwrap_or(u32::MAX)))?;
    }
    Ok(())
}

/// Adds the items of a value of the kind, in the order of its parts.
#[cycle(push_items)]
pub fn push_items<'a>(
    items: &mut Vec<Item<'a>>,
    schema: &Schema,
    id: KindId,
    value: &'a Value,
) -> Result<(), NoMemory> {
    let kind = kind_of(schema, id);
    match value {
        Value::Int(number) => push_number(items, i128::from(*number)),
        Value::Unsigned(number) => push_number(items, i128::from(*number)),
        Value::Hyper(number) => push_number(items, i128::from(*number)),
        Value::UnsignedHyper(number) => push_number(items, i128::from(*number)),
        Value::Bool(is_true) => push_number(items, i128::from(u32::from(*is_true))),
        Value::Numbered(number) => push_number(items, i128::from(*number)),
        Value::Bytes(bytes) => {
            items.push(Item::Content(bytes))?;
            Ok(())
        }
        Value::List(parts) => {
            push_count(items, kind, parts.len())?;
            push_each(items, schema, item_kind(kind), parts)
        }
        Value::Group(parts) => push_fields(items, schema, kind, parts),
        Value::Choice { tag, part } => {
            push_number(items, i128::from(*tag))?;
            push_items(items, schema, part_kind(kind, *tag), part)
        }
        Value::Maybe(None) => {
            items.push(Item::Flag(false))?;
            Ok(())
        }
        Value::Maybe(Some(part)) => {
            items.push(Item::Flag(true))?;
            push_items(items, schema, item_kind(kind), part)
        }
        Value::Nothing => Ok(()),
    }
}

// Adds those of an array's items.
#[cycle(push_items)]
fn push_each<'a>(
    items: &mut Vec<Item<'a>>,
    schema: &Schema,
    id: KindId,
    parts: &'a Vec<Value>,
) -> Result<(), NoMemory> {
    for part in parts {
        push_items(items, schema, id, part)?;
    }
    Ok(())
}

// Adds those of a structure's fields.
#[cycle(push_items)]
fn push_fields<'a>(
    items: &mut Vec<Item<'a>>,
    schema: &Schema,
    kind: Option<&Kind>,
    parts: &'a Vec<Value>,
) -> Result<(), NoMemory> {
    for (place, part) in parts.iter().enumerate() {
        push_items(items, schema, field_kind(kind, place), part)?;
    }
    Ok(())
}

//! The shapes of kinds.
ghost use Rattle.std.specs.Prelude.{◌≡◌, ◌+◌, ◌^◌, ◌<◌, length, map, IfOk};
ghost use Rattle.xdr_units.specs.Numbers.{pad};
ghost use Rattle.xdr_types.specs.Kinds.{kind_at};
ghost use Rattle.xdr_types.specs.KindViews.{kind_view, part_of_member};
ghost use Rattle.xdr_bounds.specs.Private.Amounts.{places_of};
ghost use Rattle.xdr_bounds.specs.Private.Shapes.{kinds_of, IsShape, AreShapes};

use crate::shape::Shape;
use crate::unions::parts_of;
use std::alloc::{AllocError, Global};
use xdr_types::{Kind, KindId, Member, Schema};

// So many bytes, and no more and no less.
fn exactly(bytes: u64) -> Shape
    ensures { result ≡ Shape.Alone bytes bytes }
{
    Shape::Alone {
        least: bytes,
        greatest: bytes,
    }
}

// So many bytes of content with the zeros that fill their last unit (RFC 4506 section 3).
fn padded(count: u32) -> u64
    ensures { result ≡ count + length (pad count) }
{
    u64::from(count) + u64::from((4 - count % 4) % 4)
}

// The kinds of the fields.
fn kinds_of(alloc: Global, fields: &Vec<Member>) -> Result<Vec<KindId>, AllocError>
    ensures { IfOk result (λ v. places_of v.items ≡ kinds_of (map part_of_member fields.now.items)) }
{
    let mut kinds = Vec::with_capacity(alloc, fields.len())?;
    for field in fields {
        kinds.push(field.kind)?;
    }
    Ok(kinds)
}

// The shape of the kind at a place. An error is an allocation failure.
fn shape_of(alloc: Global, schema: &Schema, id: KindId) -> Result<Shape, AllocError>
    requires { id.place < length schema.now.kinds }
    ensures { IfOk result (IsShape schema.now.kinds (kind_at schema.now.kinds id.place)) }
{
    let _valued = schema.len();
    match schema.kind(id) {
        Kind::Int => Ok(exactly(4)),
        Kind::Unsigned => Ok(exactly(4)),
        Kind::Hyper => Ok(exactly(8)),
        Kind::UnsignedHyper => Ok(exactly(8)),
        Kind::Bool => Ok(exactly(4)),
        Kind::Numbered { members: _ } => Ok(exactly(4)),
        Kind::Opaque { size } => Ok(exactly(padded(*size))),
        Kind::OpaqueUpTo { max } => Ok(counted(*max)),
        Kind::Text { max } => Ok(counted(*max)),
        Kind::Fixed { item, size } => Ok(Shape::Items {
            item: *item,
            count: *size,
        }),
        Kind::UpTo { item, max } => Ok(up_to(*item, *max)),
        Kind::Structure { fields } => Ok(Shape::Fields {
            fields: kinds_of(alloc, fields)?,
        }),
        Kind::Choice { tag, arms, other } => Ok(Shape::OneOf {
            parts: parts_of(alloc, schema, id, *tag, arms, other)?,
        }),
        Kind::Maybe { item } => Ok(Shape::UpTo {
            item: *item,
            most: 1,
        }),
        Kind::Nothing => Ok(exactly(0)),
    }
}

// A count of bytes, and so many of them at most.
fn counted(max: u32) -> Shape
    ensures shape { result ≡ Shape.Alone 4 (max + length (pad max) + 4) }
    ensures small { max < 2 ^ 32 }
{
    Shape::Alone {
        least: 4,
        greatest: padded(max) + 4,
    }
}

// So many items at most.
fn up_to(item: KindId, most: u32) -> Shape
    ensures shape { result ≡ Shape.UpTo item most }
    ensures small { most < 2 ^ 32 }
{
    Shape::UpTo { item, most }
}

/// The shapes of all kinds of a schema. An error is an allocation failure.
pub fn shapes_of(alloc: Global, schema: &Schema) -> Result<Vec<Shape>, AllocError>
    ensures { IfOk result (λ v. AreShapes schema.now.kinds v.items) }
{
    let mut shapes = Vec::with_capacity(alloc, schema.len())?;
    for place in 0..schema.len() {
        let id = KindId {
            place: place as u32,
        };
        let shape = shape_of(alloc, schema, id)?;
        shapes.push(shape)?;
    }
    Ok(shapes)
}

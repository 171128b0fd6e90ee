//! A node at work, by the parts that it has not begun. It borrows nothing.
ghost use Rattle.std.specs.Prelude.{◌≡◌, [], ◌∷◌, map, drop, MatchOption};
ghost use Rattle.xdr_types.specs.Kinds.{kind_at};
ghost use Rattle.xdr_types.specs.KindViews.{part_of_member};
ghost use Rattle.xdr_types.specs.Tree.{fields};
ghost use Rattle.xdr_types.specs.Fits.{parts};
ghost use Rattle.xdr_cursor.specs.Frames.{left_in};
ghost use Rattle.xdr_cursor.specs.Private.Showing.{part_of};

use xdr_types::{Kind, KindId, Member, Schema, part_in};

/// A node at work: the parts that it has not begun.
#[derive(Clone, Copy)]
pub enum Frame {
    /// The fields of a structure from this index on.
    Fields { kind: KindId, from: usize },
    /// So many items of an array, an optional's item, or the root.
    Items { item: KindId, left: u32 },
    /// The part of a union under this discriminant.
    Arm { kind: KindId, number: i64 },
}

/// A named part: the name of a field or an arm, empty for items and the root.
#[derive(Clone, Copy)]
pub struct Next<'a> {
    pub kind: KindId,
    pub name: &'a str,
}

/// The part of a node at work that comes next, and the node after it; none, where all have begun.
#[inline(always)]
pub fn next_in<'a>(schema: &'a Schema, frame: Frame) -> Option<(Next<'a>, Frame)>
    ensures { MatchOption result (left_in schema.now.kinds frame ≡ [])
        (λ r. left_in schema.now.kinds frame ≡ part_of r.0 ∷ left_in schema.now.kinds r.1) }
{
    match frame {
        Frame::Fields { kind, from } => next_field(schema, kind, from),
        Frame::Items { item, left } => {
            if left == 0 {
                return None;
            }
            let next = Next {
                kind: item,
                name: "",
            };
            let left = left - 1;
            Some((next, Frame::Items { item, left }))
        }
        Frame::Arm { kind, number } => {
            let member = part_in(schema, kind, number)?;
            let none = Frame::Items {
                item: member.kind,
                left: 0,
            };
            Some((next_of(member), none))
        }
    }
}

// A field, or the part of an arm.
fn next_of<'a>(member: &'a Member) -> Next<'a>
    ensures { part_of result ≡ part_of_member member.now }
{
    Next {
        kind: member.kind,
        name: member.name.as_str(),
    }
}

// The fields of a structure; none of another kind.
fn fields_of(schema: &Schema, kind: KindId) -> &[Member]
    ensures { map part_of_member result.now ≡ parts (kind_at schema.now.kinds kind.place) fields }
{
    if !schema.has(kind) {
        return &[];
    }
    match schema.kind(kind) {
        Kind::Structure { fields } => fields,
        _ => &[],
    }
}

// The field with this index, and the node after it.
fn next_field<'a>(schema: &'a Schema, kind: KindId, from: usize) -> Option<(Next<'a>, Frame)>
    ensures { MatchOption result (drop from (parts (kind_at schema.now.kinds kind.place) fields) ≡ [])
        (λ r. drop from (parts (kind_at schema.now.kinds kind.place) fields)
        ≡ part_of r.0 ∷ left_in schema.now.kinds r.1) }
{
    let fields = fields_of(schema, kind);
    if from >= fields.len() {
        return None;
    }
    let from_next = from + 1;
    Some((
        next_of(&fields[from]),
        Frame::Fields {
            kind,
            from: from_next,
        },
    ))
}

//! A part of a value, as C sees it.
ghost use Rattle.std.specs.Prelude.{◌≡◌, ◌<◌, ℕ, length};
ghost use Rattle.xdr_types.specs.KindViews.{kind_view};
ghost use Rattle.xdr_parts.specs.Lent.{entry_of, role_in};
ghost use Rattle.c_values.specs.Parts.{role_number, type_number};
ghost use Rattle.c_values.specs.Private.Parting.{part_of};

use xdr_codec::{Lent, Role};
use xdr_types::{Kind, Schema};

/// A part of a value (RFC 4506 section 4).
#[repr(C)]
#[derive(Clone, Copy)]
pub struct ValuePart {
    /// How many bytes of the input are before it.
    pub at: usize,
    /// How many bytes of the input are its own: 4 or 8 of a number, 4 of a flag or a length, and those of content
    /// without the zeros after them. A structure, an array of fixed size and a void have none.
    pub count: usize,
    /// How many bytes of the names are before its own.
    pub name_at: usize,
    /// How many bytes its name has: that of the field or the arm that its node stands for; 0 at the root and for items.
    pub name_count: usize,
    /// The depth of its node; the root has depth 1.
    pub depth: u32,
    /// The place of its node's kind in the declarations.
    pub kind: u32,
    /// The number of that kind's type, from 1: int, unsigned, hyper, unsigned hyper, bool, enum, opaque of fixed and of
    /// variable size, string, array of fixed and of variable size, struct, union, optional, void.
    pub xdr_type: u32,
    /// What stands in its bytes: 1 is a number, 2 an optional's flag, 3 a length, 4 content, 5 nothing.
    pub role: u32,
}

/// The number of a role.
pub fn role_number(role: Role) -> u32
    ensures { (count : ℕ) → result ≡ role_number (role_in role count) }
{
    match role {
        Role::Number => 1,
        Role::Flag => 2,
        Role::Length => 3,
        Role::Content => 4,
        Role::Group => 5,
    }
}

/// The number of a kind's type.
pub fn type_number(kind: &Kind) -> u32
    ensures { result ≡ type_number (kind_view kind.now) }
{
    match kind {
        Kind::Int => 1,
        Kind::Unsigned => 2,
        Kind::Hyper => 3,
        Kind::UnsignedHyper => 4,
        Kind::Bool => 5,
        Kind::Numbered { .. } => 6,
        Kind::Opaque { .. } => 7,
        Kind::OpaqueUpTo { .. } => 8,
        Kind::Text { .. } => 9,
        Kind::Fixed { .. } => 10,
        Kind::UpTo { .. } => 11,
        Kind::Structure { .. } => 12,
        Kind::Choice { .. } => 13,
        Kind::Maybe { .. } => 14,
        Kind::Nothing => 15,
    }
}

/// The part with its name behind so many bytes of names.
pub fn part_of(schema: &Schema, lent: &Lent, name_at: usize) -> ValuePart
    requires { lent.now.kind.place < length schema.now.kinds }
    ensures { result ≡ part_of schema.now.kinds name_at (entry_of lent.now) }
{
    ValuePart {
        at: lent.at,
        count: lent.bytes.len(),
        name_at,
        name_count: lent.name.len(),
        depth: lent.depth,
        kind: lent.kind.place,
        xdr_type: type_number(schema.kind(lent.kind)),
        role: role_number(lent.role),
    }
}

//! What a node shows by itself, before the parts inside it.
ghost use Rattle.std.specs.Prelude.{◌≡◌, ◌+◌, ◌<◌, ◌≤◌, IfSome, MatchOption, length};
ghost use Rattle.xdr_types.specs.Kinds.{kind_at};
ghost use Rattle.xdr_types.specs.KindViews.{kind_view};
ghost use Rattle.xdr_types.specs.Outcome.{number_in};
ghost use Rattle.xdr_laws.specs.Owed.{lead_of, HasUnit};
ghost use Rattle.xdr_units.specs.Numbers.{gap, word};
ghost use Rattle.xdr_cursor.specs.Private.Showing.{IsUnitShown, IsShown, IsShownNowhere, IsThere};

use crate::frame::Frame;
use xdr_parts::Role;
use xdr_parts::part::whole_units;
use xdr_stream::machine::step::{Step, step_of};
use xdr_types::{Kind, KindId, Schema};
use xdr_units::first_word;

/// What a node shows by itself, before the parts inside it.
#[derive(Clone, Copy)]
pub enum Shown {
    /// One part of so many bytes, and none inside it.
    Leaf(Role, u32),
    /// One part of so many bytes, inside which those of a frame come.
    Open(Role, u32, Frame),
    /// A length, and so many bytes of content.
    Counted(u32),
}

/// What the node of a kind shows that begins at a place. None where it does not lie in the bytes.
pub fn shown_at(schema: &Schema, id: KindId, bytes: &[u8], at: usize) -> Option<Shown>
    ensures there { IfSome result (IsThere bytes.now at) }
    ensures shown { MatchOption result (IsShownNowhere schema.now.kinds id.place bytes.now at)
        (IsShown schema.now.kinds id.place bytes.now at) }
{
    if !schema.has(id) {
        return None;
    }
    if at > bytes.len() {
        return None;
    }
    let kind = schema.kind(id);
    let rest = &bytes[at..];
    match step_of(kind) {
        Step::Unit => match first_word(rest) {
            Some((number, _)) => Some(unit_shown(schema, id, kind, number)),
            None => None,
        },
        Step::Fields(_) => {
            let fields = Frame::Fields { kind: id, from: 0 };
            Some(Shown::Open(Role::Group, 0, fields))
        }
        Step::Items { item, size } => {
            let items = Frame::Items { item, left: size };
            Some(Shown::Open(Role::Group, 0, items))
        }
        Step::Void => Some(Shown::Leaf(Role::Group, 0)),
        Step::Wide(_) => leaf(rest, Role::Number, 8),
        Step::Content(size) => leaf(rest, Role::Content, size),
    }
}

// A part of so many bytes, with those that fill its last unit; none where fewer are there.
fn leaf(rest: &[u8], role: Role, size: u32) -> Option<Shown>
    ensures { MatchOption result (length rest.now < size + gap size)
        (λ s. (s ≡ Shown.Leaf role size) × (size + gap size ≤ length rest.now)) }
{
    if rest.len() < whole_units(size) {
        return None;
    }
    Some(Shown::Leaf(role, size))
}

// What the node shows whose first unit has this number.
fn unit_shown(schema: &Schema, id: KindId, kind: &Kind, number: u32) -> Shown
    requires kind { kind_view kind.now ≡ kind_at schema.now.kinds id.place }
    requires unit { HasUnit (lead_of (kind_view kind.now)) }
    ensures { IsUnitShown schema.now.kinds (kind_view kind.now) number result }
{
    match kind {
        Kind::OpaqueUpTo { .. } => Shown::Counted(number),
        Kind::Text { .. } => Shown::Counted(number),
        Kind::UpTo { item, .. } => {
            let items = Frame::Items {
                item: *item,
                left: number,
            };
            Shown::Open(Role::Length, 4, items)
        }
        Kind::Maybe { item } => {
            let item = Frame::Items {
                item: *item,
                left: number,
            };
            Shown::Open(Role::Flag, 4, item)
        }
        Kind::Choice { tag, .. } => {
            let number = discriminant(schema, *tag, number);
            Shown::Open(Role::Number, 4, Frame::Arm { kind: id, number })
        }
        _ => Shown::Leaf(Role::Number, 4),
    }
}

// The number that a unit stands for as a discriminant of the kind (RFC 4506 section 4.15).
fn discriminant(schema: &Schema, tag: KindId, number: u32) -> i64
    ensures { result ≡ number_in (kind_at schema.now.kinds tag.place) number }
{
    if !schema.has(tag) {
        return i64::from(number);
    }
    match schema.kind(tag) {
        Kind::Int | Kind::Numbered { .. } => i64::from(number.cast_signed()),
        _ => i64::from(number),
    }
}

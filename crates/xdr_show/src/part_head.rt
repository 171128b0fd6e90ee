//! What a node shows, read back from the bytes of one of its parts.
ghost use Rattle.std.specs.Prelude.{◌≡◌, option_map, length, MatchOption, true, ⊤};
ghost use Rattle.std.specs.Int.{w32, w64, from_be_bytes};
ghost use Rattle.xdr_types.specs.Fits.{is_legal};
ghost use Rattle.xdr_types.specs.KindViews.{kind_view};
ghost use Rattle.xdr_types.specs.Outcome.{number_in};
ghost use Rattle.xdr_laws.specs.Owed.{flag, silent_head};
ghost use Rattle.xdr_show.specs.Private.Heads.{head_view};
ghost use Rattle.xdr_show.specs.Private.Read.{number_shown, length_shown, shown_in, number_size, IsSized};

use crate::head::Head;
use xdr_parts::Role;
use xdr_types::{Kind, Schema};

/// What the bytes of a part show; none of the length of content, which has no line of its own.
pub fn head_of_part<'a>(
    schema: &Schema,
    kind: &Kind,
    role: Role,
    bytes: &'a [u8],
) -> Option<Head<'a>>
    requires sized { IsSized (kind_view kind.now) role (length bytes.now) }
    requires legal { MatchOption (shown_in schema.now.kinds (kind_view kind.now) role bytes.now) ⊤
        (λ h. is_legal schema.now.kinds (kind_view kind.now) h ≡ true) }
    ensures { option_map head_view result ≡ shown_in schema.now.kinds (kind_view kind.now) role bytes.now }
{
    match role {
        Role::Number => Some(number_head(schema, kind, bytes)),
        Role::Flag => Some(flag_head(bytes)),
        Role::Length => length_head(kind, bytes),
        Role::Content => Some(Head::Bytes(bytes)),
        Role::Group => Some(group_head(kind)),
    }
}

// The number of a unit.
fn unit_of(bytes: &[u8]) -> u32
    requires { length bytes.now ≡ 4 }
    ensures { result ≡ from_be_bytes w32 bytes.now }
{
    u32::from_be_bytes([bytes[0], bytes[1], bytes[2], bytes[3]])
}

// The number of two units.
fn units_of(bytes: &[u8]) -> u64
    requires { length bytes.now ≡ 8 }
    ensures { result ≡ from_be_bytes w64 bytes.now }
{
    u64::from_be_bytes([
        bytes[0], bytes[1], bytes[2], bytes[3], bytes[4], bytes[5], bytes[6], bytes[7],
    ])
}

// A number of the kind, a boolean, or a discriminant.
fn number_head<'a>(schema: &Schema, kind: &Kind, bytes: &[u8]) -> Head<'a>
    requires sized { length bytes.now ≡ number_size (kind_view kind.now) }
    requires legal { is_legal schema.now.kinds (kind_view kind.now)
        (number_shown schema.now.kinds (kind_view kind.now) bytes.now) ≡ true }
    ensures { head_view result ≡ number_shown schema.now.kinds (kind_view kind.now) bytes.now }
{
    match kind {
        Kind::Int => Head::Int(unit_of(bytes).cast_signed()),
        Kind::Unsigned => Head::Unsigned(unit_of(bytes)),
        Kind::Hyper => Head::Hyper(units_of(bytes).cast_signed()),
        Kind::UnsignedHyper => Head::UnsignedHyper(units_of(bytes)),
        Kind::Bool => Head::Bool(unit_of(bytes) != 0),
        Kind::Numbered { .. } => Head::Numbered(unit_of(bytes).cast_signed()),
        Kind::Choice { tag, .. } => Head::Tag(number_under(schema.kind(*tag), unit_of(bytes))),
        _ => Head::Nothing,
    }
}

// The number that a unit stands for in a kind of discriminants.
fn number_under(kind: &Kind, unit: u32) -> i64
    ensures { result ≡ number_in (kind_view kind.now) unit }
{
    match kind {
        Kind::Int | Kind::Numbered { .. } => i64::from(unit.cast_signed()),
        _ => i64::from(unit),
    }
}

// Whether an optional item is there.
fn flag_head<'a>(bytes: &[u8]) -> Head<'a>
    requires { length bytes.now ≡ 4 }
    ensures { head_view result ≡ flag (from_be_bytes w32 bytes.now) }
{
    if unit_of(bytes) == 0 {
        Head::Absent
    } else {
        Head::Present
    }
}

// The count of an array's items.
fn length_head<'a>(kind: &Kind, bytes: &[u8]) -> Option<Head<'a>>
    requires { length bytes.now ≡ 4 }
    ensures { option_map head_view result ≡ length_shown (kind_view kind.now) bytes.now }
{
    match kind {
        Kind::UpTo { .. } => Some(Head::Items(u64::from(unit_of(bytes)))),
        _ => None,
    }
}

// What has no bytes of its own.
fn group_head<'a>(kind: &Kind) -> Head<'a>
    ensures { head_view result ≡ silent_head (kind_view kind.now) }
{
    match kind {
        Kind::Fixed { size, .. } => Head::Items(u64::from(*size)),
        Kind::Structure { .. } => Head::Fields,
        _ => Head::Nothing,
    }
}

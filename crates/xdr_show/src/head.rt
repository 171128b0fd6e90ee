//! What a node of a value shows by itself, whatever it is read from.
ghost use Rattle.std.specs.Prelude.{◌≡◌};
ghost use Rattle.xdr_types.specs.View.{tree};
ghost use Rattle.xdr_show.specs.Private.Heads.{head_view};

use xdr_types::Value;

/// What a node shows by itself, its parts left out.
#[derive(Clone, Copy)]
pub enum Head<'a> {
    Int(i32),
    Unsigned(u32),
    Hyper(i64),
    UnsignedHyper(u64),
    Bool(bool),
    Numbered(i32),
    Bytes(&'a [u8]),
    Items(u64),
    Fields,
    Tag(i64),
    Present,
    Absent,
    Nothing,
}

/// What the node of a value shows.
pub fn head_of_value(value: &Value) -> Head
    ensures { head_view result ≡ (tree value.now).0 }
{
    match value {
        Value::Int(n) => Head::Int(*n),
        Value::Unsigned(n) => Head::Unsigned(*n),
        Value::Hyper(n) => Head::Hyper(*n),
        Value::UnsignedHyper(n) => Head::UnsignedHyper(*n),
        Value::Bool(b) => Head::Bool(*b),
        Value::Numbered(n) => Head::Numbered(*n),
        Value::Bytes(bytes) => Head::Bytes(bytes),
        Value::List(items) => Head::Items(items.len() as u64),
        Value::Group(_) => Head::Fields,
        Value::Choice { tag, .. } => Head::Tag(*tag),
        Value::Maybe(None) => Head::Absent,
        Value::Maybe(Some(_)) => Head::Present,
        Value::Nothing => Head::Nothing,
    }
}

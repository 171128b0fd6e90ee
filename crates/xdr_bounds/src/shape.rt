//! What decides how many bytes the values of a kind have.
use xdr_types::KindId;

/// What decides how many bytes the values of a kind have.
#[derive(Debug, Drop)]
pub enum Shape {
    /// So many bytes at least and at most, without parts.
    Alone { least: u64, greatest: u64 },
    /// So many items, and no bytes beside them.
    Items { item: KindId, count: u32 },
    /// One part after another, and no bytes beside them.
    Fields { fields: Vec<KindId> },
    /// Four bytes and one of the parts.
    OneOf { parts: Vec<KindId> },
    /// Four bytes and so many items at most.
    UpTo { item: KindId, most: u32 },
}

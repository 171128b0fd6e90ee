//! Where a node of a value stands in its bytes.
use xdr_types::KindId;

/// Where a node of a value stands in its bytes.
#[derive(Clone, Copy)]
pub struct Spot<'a> {
    /// How many bytes are before it.
    pub at: usize,
    /// Its depth; the root has depth 1.
    pub depth: u32,
    /// Its kind.
    pub kind: KindId,
    /// The name of the field or the arm that it stands for; empty at the root and for items.
    pub name: &'a str,
}

//! The bytes of an item.

/// The bytes of an item, in the forms that items have (RFC 4506 sections 3 and 4).
#[derive(Clone, Copy, Drop)]
pub enum Spelled<'a> {
    /// A number of one unit, a flag or a count.
    Unit([u8; 4]),
    /// A hyper integer.
    Wide([u8; 8]),
    /// Content, and the zeros after it.
    Fixed(&'a [u8]),
    /// Content with the four bytes of its length before it, and the zeros after it.
    Counted([u8; 4], &'a [u8]),
}

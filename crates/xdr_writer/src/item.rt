//! The items of a value, which are put one after another, and what each brings.
ghost use Rattle.std.specs.Prelude.{◌≡◌, true};
ghost use Rattle.xdr_writer.specs.declared.item.Step.TheVariants.{More};

/// An item of a value (RFC 4506 section 4): what stands in the bytes of a part, in the order of the layout. Structures,
/// arrays of fixed size and voids have no bytes of their own, and so no item; nor has the length of content.
#[derive(Clone, Copy, Drop)]
pub enum Item<'a> {
    /// An integer, a hyper integer, a boolean, an enumeration's number or a discriminant (sections 4.1 to 4.5, 4.15).
    Number(i128),
    /// Whether an optional item is there (section 4.19).
    Flag(bool),
    /// How many items of an array follow; an array of fixed size has none such (section 4.13).
    Count(u32),
    /// The bytes of an opaque or a string, without a length and without the zeros after them (sections 4.9 to 4.11).
    /// An opaque of fixed size has all of them in one item.
    Content(&'a [u8]),
}

/// What an item has brought.
#[derive(Clone, Copy, Debug, PartialEq, Eq)]
pub enum Step {
    /// The value is not whole yet.
    More,
    /// The value is whole.
    Done,
}

impl Step {
    /// Whether more items are to come.
    pub(crate) fn is_more(self) -> bool
        ensures { result ≡ true → self ≡ More }
    {
        match self {
            Step::More => true,
            Step::Done => false,
        }
    }
}

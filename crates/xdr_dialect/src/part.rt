//! Where a byte stands in a line of `#`.
ghost use Rattle.std.specs.Prelude.{◌≡◌};
ghost use Rattle.xdr_dialect.specs.Spots.{is_remark, next_part};

/// Where a byte of a line of `#` stands.
#[derive(Clone, Copy)]
pub enum Part {
    /// Among its words.
    Words,
    /// Behind `\`.
    Joint,
    /// Behind `/`.
    Slash,
    /// In a comment.
    Comment,
    /// In a comment behind `*`.
    Star,
}

impl Part {
    /// In a comment, or behind the `/` of one.
    pub(crate) fn is_remark(self) -> bool
        ensures { result ≡ is_remark self }
    {
        matches!(self, Part::Slash | Part::Comment | Part::Star)
    }

    /// Where the byte behind this one stands, as far as comments go.
    pub(crate) fn next(self, byte: u8) -> Part
        ensures { result ≡ next_part self byte }
    {
        match (self, byte) {
            (Part::Words | Part::Joint, b'/') => Part::Slash,
            (Part::Words | Part::Joint, _) => Part::Words,
            (Part::Slash, _) => Part::Comment,
            (Part::Star, b'/') => Part::Words,
            (Part::Comment | Part::Star, b'*') => Part::Star,
            (Part::Comment | Part::Star, _) => Part::Comment,
        }
    }
}

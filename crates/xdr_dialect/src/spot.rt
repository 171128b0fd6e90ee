//! Where a byte stands on its line, and what is kept of it.
ghost use Rattle.std.specs.Prelude.{◌≡◌};
ghost use Rattle.xdr_tokens.specs.Bytes.{is_space};
ghost use Rattle.xdr_dialect.specs.Spots.{after_text, after_words, after_line, blank, kept, next_spot, unquoted};
ghost use Rattle.xdr_dialect.specs.Spots.{is_line, is_line_remark};
ghost use Rattle.xdr_dialect.specs.Plain.{is_fresh};

use crate::part::Part;

/// Where a byte stands.
#[derive(Clone, Copy)]
pub enum Spot {
    /// Where a line begins, outside of comments, or behind white space there.
    Fresh,
    /// In a line of `%`, or behind `//` in a line of `#`.
    Hidden,
    /// There behind `\`.
    Escaped,
    /// In a line of `#`.
    Line(Part),
    /// In the text.
    Text,
    /// In the text behind `/`.
    Slash,
    /// In a comment.
    Comment,
    /// In a comment behind `*`.
    Star,
    /// In what is quoted.
    Quoted,
}

/// White space of the RFCs' language.
fn space(byte: u8) -> bool
    ensures { result ≡ is_space byte }
{
    byte == b' ' || (9 <= byte && byte <= 13)
}

/// A blank for each byte but a line feed.
pub(crate) fn blank(byte: u8) -> u8
    ensures { result ≡ blank byte }
{
    if byte == b'\n' { b'\n' } else { b' ' }
}

/// `=` in place of a quotation mark.
fn unquoted(byte: u8) -> u8
    ensures { result ≡ unquoted byte }
{
    if byte == b'"' { b'=' } else { byte }
}

/// Behind a byte of the text.
fn after_text(byte: u8) -> Spot
    ensures { result ≡ after_text byte }
{
    match byte {
        b'\n' => Spot::Fresh,
        b'/' => Spot::Slash,
        b'"' => Spot::Quoted,
        _ => Spot::Text,
    }
}

/// Behind a byte of a line of `#`, outside of its comments.
fn after_words(byte: u8) -> Spot
    ensures { result ≡ after_words byte }
{
    match byte {
        b'\n' => Spot::Fresh,
        b'\\' => Spot::Line(Part::Joint),
        _ => Spot::Line(Part::Words.next(byte)),
    }
}

/// Behind a byte of a line of `#`.
fn after_line(part: Part, byte: u8) -> Spot
    ensures { result ≡ after_line part byte }
{
    match (part, byte) {
        (Part::Joint, b'\n') => Spot::Line(Part::Words),
        (Part::Joint, b'\r') => Spot::Line(Part::Joint),
        (Part::Slash, b'*') => Spot::Line(Part::Comment),
        (Part::Slash, b'/') => Spot::Hidden,
        (Part::Words | Part::Joint | Part::Slash, _) => after_words(byte),
        (Part::Comment | Part::Star, _) => Spot::Line(part.next(byte)),
    }
}

impl Spot {
    /// A line may begin here.
    pub(crate) fn is_fresh(self) -> bool
        ensures { result ≡ is_fresh self }
    {
        matches!(self, Spot::Fresh)
    }

    /// In a line of `#`.
    pub(crate) fn is_line(self) -> bool
        ensures { result ≡ is_line self }
    {
        matches!(self, Spot::Line(_))
    }

    /// In a comment of a line of `#`.
    pub(crate) fn is_remark(self) -> bool
        ensures { result ≡ is_line_remark self }
    {
        matches!(self, Spot::Line(Part::Comment | Part::Star))
    }

    /// What is kept of a byte that is shown.
    pub(crate) fn kept(self, byte: u8) -> u8
        ensures { result ≡ kept self byte }
    {
        match self {
            Spot::Fresh if byte == b'%' => b' ',
            Spot::Fresh | Spot::Text | Spot::Slash => unquoted(byte),
            Spot::Hidden | Spot::Escaped | Spot::Line(_) => blank(byte),
            Spot::Comment | Spot::Star => byte,
            Spot::Quoted if byte == b'"' => b'=',
            Spot::Quoted => blank(byte),
        }
    }

    /// Where the byte behind this one stands.
    pub(crate) fn next(self, byte: u8) -> Spot
        ensures { result ≡ next_spot self byte }
    {
        match (self, byte) {
            (Spot::Fresh, _) if space(byte) => Spot::Fresh,
            (Spot::Fresh, b'%') => Spot::Hidden,
            (Spot::Hidden | Spot::Quoted, b'\n') => Spot::Fresh,
            (Spot::Hidden, b'\\') => Spot::Escaped,
            (Spot::Escaped, b'\\' | b'\r') => Spot::Escaped,
            (Spot::Hidden | Spot::Escaped, _) => Spot::Hidden,
            (Spot::Line(part), _) => after_line(part, byte),
            (Spot::Slash, b'*') => Spot::Comment,
            (Spot::Fresh | Spot::Text | Spot::Slash, _) => after_text(byte),
            (Spot::Comment | Spot::Star, b'*') => Spot::Star,
            (Spot::Star, b'/') => Spot::Text,
            (Spot::Comment | Spot::Star, _) => Spot::Comment,
            (Spot::Quoted, b'"') => Spot::Text,
            (Spot::Quoted, _) => Spot::Quoted,
        }
    }
}

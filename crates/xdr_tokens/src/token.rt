//! A token of the language.

/// A keyword (RFC 4506 section 6.4, RFC 5531 section 12.3), or `long`, which the text of RFC 1833 has.
#[derive(Clone, Copy, Debug, PartialEq, Eq)]
pub enum Keyword {
    Bool,
    Case,
    Const,
    Default,
    Double,
    Enum,
    Float,
    Hyper,
    Int,
    Long,
    Opaque,
    Program,
    Quadruple,
    String,
    Struct,
    Switch,
    Typedef,
    Union,
    Unsigned,
    Version,
    Void,
}

/// A mark: a token of one byte (RFC 4506 section 6.3).
#[derive(Clone, Copy, Debug, PartialEq, Eq)]
pub enum Mark {
    OpenBrace,
    CloseBrace,
    OpenRound,
    CloseRound,
    OpenBracket,
    CloseBracket,
    Less,
    Greater,
    Equal,
    Comma,
    Semicolon,
    Colon,
    Star,
}

/// A token and its place in the text: how many bytes there are from it to the end. A name is a part
/// of the text.
#[derive(Clone, Copy)]
pub enum Token<'a> {
    Word(Keyword, usize),
    Name(&'a str, usize),
    Number(i128, usize),
    Sign(Mark, usize),
}

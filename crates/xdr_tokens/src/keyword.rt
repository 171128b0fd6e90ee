//! Keywords: the runs of letters that are no names.
ghost use Rattle.std.specs.Prelude.{◌≡◌};
ghost use Rattle.xdr_tokens.specs.Tokens.{lexeme};
ghost use Rattle.xdr_tokens.specs.Text.{IsRun};
ghost use Rattle.xdr_tokens.specs.Keywords.{keyword, word_among, word_or_name};

use crate::token::{Keyword, Token};

/// How the keyword is spelled.
fn spelling(word: Keyword) -> &'static [u8]
    ensures { result.now ≡ keyword word }
{
    match word {
        Keyword::Bool => b"bool",
        Keyword::Case => b"case",
        Keyword::Const => b"const",
        Keyword::Default => b"default",
        Keyword::Double => b"double",
        Keyword::Enum => b"enum",
        Keyword::Float => b"float",
        Keyword::Hyper => b"hyper",
        Keyword::Int => b"int",
        Keyword::Long => b"long",
        Keyword::Opaque => b"opaque",
        Keyword::Program => b"program",
        Keyword::Quadruple => b"quadruple",
        Keyword::String => b"string",
        Keyword::Struct => b"struct",
        Keyword::Switch => b"switch",
        Keyword::Typedef => b"typedef",
        Keyword::Union => b"union",
        Keyword::Unsigned => b"unsigned",
        Keyword::Version => b"version",
        Keyword::Void => b"void",
    }
}

/// Letters, digits and `_` are a text.
fn text_of(run: &[u8]) -> &str
    requires { IsRun run.now }
    ensures { result.now ≡ run.now }
{
    str::from_utf8(run).unwrap()
}

/// One of the keywords, or a name.
#[tactic(auto, unfolding(crate::specs::Keywords::word_among))]
fn among<'a>(words: &[Keyword], run: &'a [u8], left: usize) -> Token<'a>
    requires { IsRun run.now }
    ensures { lexeme result ≡ word_among words.now run.now }
{
    for word in words {
        if run == spelling(*word) {
            return Token::Word(*word, left);
        }
    }
    Token::Name(text_of(run), left)
}

/// A keyword, or a name: the first letter says which keywords it may be.
#[tactic(auto, unfolding(crate::specs::Keywords::word_or_name, crate::specs::Keywords::word_among))]
pub fn word_or_name(run: &[u8], left: usize) -> Token<'_>
    requires { IsRun run.now }
    ensures { lexeme result ≡ word_or_name run.now }
{
    match run {
        [b'b', ..] => among(&[Keyword::Bool], run, left),
        [b'c', ..] => among(&[Keyword::Case, Keyword::Const], run, left),
        [b'd', ..] => among(&[Keyword::Default, Keyword::Double], run, left),
        [b'e', ..] => among(&[Keyword::Enum], run, left),
        [b'f', ..] => among(&[Keyword::Float], run, left),
        [b'h', ..] => among(&[Keyword::Hyper], run, left),
        [b'i', ..] => among(&[Keyword::Int], run, left),
        [b'l', ..] => among(&[Keyword::Long], run, left),
        [b'o', ..] => among(&[Keyword::Opaque], run, left),
        [b'p', ..] => among(&[Keyword::Program], run, left),
        [b'q', ..] => among(&[Keyword::Quadruple], run, left),
        [b's', ..] => among(
            &[Keyword::String, Keyword::Struct, Keyword::Switch],
            run,
            left,
        ),
        [b't', ..] => among(&[Keyword::Typedef], run, left),
        [b'u', ..] => among(&[Keyword::Union, Keyword::Unsigned], run, left),
        [b'v', ..] => among(&[Keyword::Version, Keyword::Void], run, left),
        _ => Token::Name(text_of(run), left),
    }
}

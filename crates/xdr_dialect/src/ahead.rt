//! What the tokens in front are.
ghost use Rattle.std.specs.Prelude.{◌≡◌, ◌||◌};
ghost use Rattle.xdr_tokens.specs.Tokens.{lexemes};
ghost use Rattle.xdr_dialect.specs.Tests.{is_word, is_sign, is_name, is_named, is_number, name_in, first_is, rest};
ghost use Rattle.xdr_dialect.specs.Rewriting.{is_whole, is_quoted, is_declared, ends_member, ends_argument, is_define};
ghost use Rattle.xdr_dialect.specs.Rewriting.{an_int, three_equal, is_tag, is_renaming};

use xdr_tokens::{Keyword, Mark, Token};

/// What follows the token in front.
pub(crate) fn rest<'t, 'a>(tokens: &'t [Token<'a>]) -> &'t [Token<'a>]
    ensures { lexemes result.now ≡ rest (lexemes tokens.now) }
{
    match tokens {
        [_, others @ ..] => others,
        [] => tokens,
    }
}

/// The keyword is in front.
pub(crate) fn word(tokens: &[Token<'_>], wanted: Keyword) -> bool
    ensures { result ≡ first_is (is_word wanted) (lexemes tokens.now) }
{
    match tokens {
        [Token::Word(found, _), ..] => *found == wanted,
        _ => false,
    }
}

/// The mark is in front.
pub(crate) fn sign(tokens: &[Token<'_>], wanted: Mark) -> bool
    ensures { result ≡ first_is (is_sign wanted) (lexemes tokens.now) }
{
    match tokens {
        [Token::Sign(found, _), ..] => *found == wanted,
        _ => false,
    }
}

/// A name is in front.
pub(crate) fn name(tokens: &[Token<'_>]) -> bool
    ensures { result ≡ first_is is_name (lexemes tokens.now) }
{
    matches!(tokens, [Token::Name(..), ..])
}

/// This name is in front.
pub(crate) fn named(tokens: &[Token<'_>], wanted: &str) -> bool
    ensures { result ≡ first_is (is_named wanted.now) (lexemes tokens.now) }
{
    match tokens {
        [Token::Name(found, _), ..] => *found == wanted,
        _ => false,
    }
}

/// A number is in front.
fn number(tokens: &[Token<'_>]) -> bool
    ensures { result ≡ first_is is_number (lexemes tokens.now) }
{
    matches!(tokens, [Token::Number(..), ..])
}

/// `int`, `long` or `hyper` is in front.
pub(crate) fn whole(tokens: &[Token<'_>]) -> bool
    ensures { result ≡ first_is is_whole (lexemes tokens.now) }
{
    matches!(
        tokens,
        [
            Token::Word(Keyword::Int | Keyword::Long | Keyword::Hyper, _),
            ..
        ]
    )
}

/// One, where `int` is in front, else none.
pub(crate) fn an_int(tokens: &[Token<'_>]) -> usize
    ensures { result ≡ an_int (lexemes tokens.now) }
{
    if word(tokens, Keyword::Int) { 1 } else { 0 }
}

/// Three `=` and the end of a definition are in front, which a quoted text leaves.
fn three_equal(tokens: &[Token<'_>]) -> bool
    ensures { result ≡ three_equal (lexemes tokens.now) }
{
    let second = rest(tokens);
    let third = rest(second);
    sign(tokens, Mark::Equal)
        && sign(second, Mark::Equal)
        && sign(third, Mark::Equal)
        && sign(rest(third), Mark::Semicolon)
}

/// A name and what a quoted text leaves are in front.
pub(crate) fn quoted(tokens: &[Token<'_>]) -> bool
    ensures { result ≡ is_quoted (lexemes tokens.now) }
{
    name(tokens) && three_equal(rest(tokens))
}

/// The name in front, where there is one.
fn name_in<'a>(tokens: &[Token<'a>]) -> &'a str
    ensures { result.now ≡ name_in (lexemes tokens.now) }
{
    match tokens {
        [Token::Name(found, _), ..] => found,
        _ => "",
    }
}

/// `struct`, `union` or `enum` is in front.
fn tag(tokens: &[Token<'_>]) -> bool
    ensures { result ≡ first_is is_tag (lexemes tokens.now) }
{
    matches!(
        tokens,
        [
            Token::Word(Keyword::Struct | Keyword::Union | Keyword::Enum, _),
            ..
        ]
    )
}

/// `struct NAME NAME;` is in front, or the same with `union` or `enum`.
pub(crate) fn renames(tokens: &[Token<'_>]) -> bool
    ensures { result ≡ is_renaming (lexemes tokens.now) }
{
    let first = rest(tokens);
    let second = rest(first);
    tag(tokens)
        && name(first)
        && named(second, name_in(first))
        && sign(rest(second), Mark::Semicolon)
}

/// A name or `*` is in front.
pub(crate) fn declared(tokens: &[Token<'_>]) -> bool
    ensures { result ≡ is_declared (lexemes tokens.now) }
{
    name(tokens) || sign(tokens, Mark::Star)
}

/// What ends an argument is in front.
pub(crate) fn ends_argument(tokens: &[Token<'_>]) -> bool
    ensures { result ≡ ends_argument (lexemes tokens.now) }
{
    sign(tokens, Mark::Comma) || sign(tokens, Mark::CloseRound)
}

/// What ends a member is in front.
pub(crate) fn ends_member(tokens: &[Token<'_>]) -> bool
    ensures { result ≡ ends_member (lexemes tokens.now) }
{
    sign(tokens, Mark::Comma) || sign(tokens, Mark::CloseBrace)
}

/// `define`, a name and a number are in front.
pub(crate) fn defines(tokens: &[Token<'_>]) -> bool
    ensures { result ≡ is_define (lexemes tokens.now) }
{
    let behind = rest(tokens);
    named(tokens, "define") && name(behind) && number(rest(behind))
}

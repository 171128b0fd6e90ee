//! What stands in place of a token of the dialect.
ghost use Rattle.std.specs.Prelude.{◌≡◌, codes};
ghost use Rattle.xdr_tokens.specs.Tokens.{lexeme, lexemes};
ghost use Rattle.xdr_dialect.specs.Rewriting.{turn, same, word_turn, name_turn, sign_turn, number_turn};
ghost use Rattle.xdr_dialect.specs.Rewriting.{unsigned_turn, same_but, is_kind, tagged_turn, floating_turn};
ghost use Rattle.xdr_dialect.specs.Rewriting.{member_turn, other_name, define_turn, round_turn};
ghost use Rattle.xdr_dialect.specs.Dialect.{left_of};
ghost use Rattle.xdr_dialect.specs.Private.Steps.{Stands};

use crate::ahead::{
    an_int, declared, defines, ends_argument, ends_member, name, named, quoted, renames, rest,
    sign, whole,
};
use crate::scope::{Scope, next_number, scope_after};
use xdr_tokens::{Keyword, Mark, Token};

/// The tokens in place of one.
#[derive(Clone, Copy)]
pub(crate) enum Out<'a> {
    Nothing,
    One(Token<'a>),
    Two(Token<'a>, Token<'a>),
    Three(Token<'a>, Token<'a>, Token<'a>),
}

/// What stands in place of a token, where the next one stands, and how many behind it go with it.
#[derive(Clone, Copy)]
pub(crate) struct Replaced<'a> {
    pub(crate) out: Out<'a>,
    pub(crate) scope: Scope,
    pub(crate) skip: usize,
}

/// The token, and nothing of so many behind it.
fn same_but(scope: Scope, token: Token<'_>, skip: usize) -> Replaced<'_>
    ensures { Stands result (same_but scope (lexeme token.entry) skip) (left_of token.entry) }
{
    Replaced {
        out: Out::One(token),
        scope: scope_after(scope, token),
        skip,
    }
}

/// The token itself.
fn same(scope: Scope, token: Token<'_>) -> Replaced<'_>
    ensures { Stands result (same scope (lexeme token.entry)) (left_of token.entry) }
{
    same_but(scope, token, 0)
}

/// Nothing, and nothing of so many tokens behind it.
fn nothing<'a>(scope: Scope, skip: usize) -> Replaced<'a>
    ensures out { result.out ≡ Out.Nothing }
    ensures scope { result.scope ≡ scope }
    ensures skip { result.skip ≡ skip }
{
    Replaced {
        out: Out::Nothing,
        scope,
        skip,
    }
}

/// `unsigned`.
fn unsigned_turn<'a>(scope: Scope, left: usize, others: &[Token<'a>]) -> Replaced<'a>
    ensures { Stands result (unsigned_turn scope (lexemes others.now)) left }
{
    let token = Token::Word(Keyword::Unsigned, left);
    if whole(others) {
        return same(scope, token);
    }
    let skip = if named(others, "char") {
        1
    } else if named(others, "short") {
        1 + an_int(rest(others))
    } else {
        0
    };
    Replaced {
        out: Out::Two(token, Token::Word(Keyword::Int, left)),
        scope: scope_after(scope, token),
        skip,
    }
}

/// A kind is in front of others.
fn is_kind(scope: Scope, others: &[Token<'_>]) -> bool
    ensures { result ≡ is_kind scope (lexemes others.now) }
{
    match scope {
        Scope::Argument(named) => !named,
        _ => declared(others),
    }
}

/// `enum` or `union`.
fn tagged_turn<'a>(scope: Scope, token: Token<'a>, others: &[Token<'a>]) -> Replaced<'a>
    ensures { Stands result (tagged_turn scope (lexeme token.entry) (lexemes others.now)) (left_of token.entry) }
{
    if name(others) && is_kind(scope, rest(others)) {
        return nothing(scope, 0);
    }
    same(scope, token)
}

/// `float`.
fn float_turn<'a>(scope: Scope, left: usize, others: &[Token<'a>]) -> Replaced<'a>
    ensures { Stands result (floating_turn scope Keyword.Float (codes "float") (lexemes others.now)) left }
{
    if is_kind(scope, others) {
        return same(scope, Token::Name("float", left));
    }
    same(scope, Token::Word(Keyword::Float, left))
}

/// `double`.
fn double_turn<'a>(scope: Scope, left: usize, others: &[Token<'a>]) -> Replaced<'a>
    ensures { Stands result (floating_turn scope Keyword.Double (codes "double") (lexemes others.now)) left }
{
    if is_kind(scope, others) {
        return same(scope, Token::Name("double", left));
    }
    same(scope, Token::Word(Keyword::Double, left))
}

/// A keyword.
fn word_turn<'a>(scope: Scope, word: Keyword, left: usize, others: &[Token<'a>]) -> Replaced<'a>
    ensures { Stands result (word_turn scope word (lexemes others.now)) left }
{
    let token = Token::Word(word, left);
    match word {
        Keyword::Const if quoted(others) => nothing(scope, 5),
        Keyword::Typedef if renames(others) => nothing(scope, 4),
        Keyword::Unsigned => unsigned_turn(scope, left, others),
        Keyword::Long | Keyword::Hyper => same_but(scope, token, an_int(others)),
        Keyword::Enum | Keyword::Union => tagged_turn(scope, token, others),
        Keyword::Float => float_turn(scope, left, others),
        Keyword::Double => double_turn(scope, left, others),
        _ => same(scope, token),
    }
}

/// A member without a number.
fn member_turn(member: &str, left: usize, value: i128) -> Replaced<'_>
    ensures { Stands result (member_turn member.now value) left }
{
    Replaced {
        out: Out::Three(
            Token::Name(member, left),
            Token::Sign(Mark::Equal, left),
            Token::Number(value, left),
        ),
        scope: Scope::Members(next_number(value)),
        skip: 0,
    }
}

/// Another name.
fn other_name<'a>(scope: Scope, run: &'a str, left: usize, others: &[Token<'a>]) -> Replaced<'a>
    ensures { Stands result (other_name scope run.now (lexemes others.now)) left }
{
    let skip = if run == "short" { an_int(others) } else { 0 };
    same_but(scope, Token::Name(run, left), skip)
}

/// A name.
fn name_turn<'a>(scope: Scope, run: &'a str, left: usize, others: &[Token<'a>]) -> Replaced<'a>
    ensures { Stands result (name_turn scope run.now (lexemes others.now)) left }
{
    match scope {
        Scope::Members(Some(value)) if ends_member(others) => member_turn(run, left, value),
        Scope::Argument(true) if ends_argument(others) => nothing(scope, 0),
        _ => other_name(scope, run, left, others),
    }
}

/// What `#define` left.
fn define_turn<'a>(left: usize) -> Replaced<'a>
    ensures { Stands result define_turn left }
{
    Replaced {
        out: Out::One(Token::Word(Keyword::Const, left)),
        scope: Scope::Constant,
        skip: 1,
    }
}

/// `(`.
fn round_turn<'a>(scope: Scope, left: usize, others: &[Token<'a>]) -> Replaced<'a>
    ensures { Stands result (round_turn scope (lexemes others.now)) left }
{
    let token = Token::Sign(Mark::OpenRound, left);
    if !sign(others, Mark::CloseRound) {
        return same(scope, token);
    }
    Replaced {
        out: Out::Two(token, Token::Word(Keyword::Void, left)),
        scope: scope_after(scope, token),
        skip: 0,
    }
}

/// A mark.
fn sign_turn<'a>(scope: Scope, mark: Mark, left: usize, others: &[Token<'a>]) -> Replaced<'a>
    ensures { Stands result (sign_turn scope mark (lexemes others.now)) left }
{
    match mark {
        Mark::Equal if defines(others) => define_turn(left),
        Mark::OpenRound => round_turn(scope, left, others),
        _ => same(scope, Token::Sign(mark, left)),
    }
}

/// A number.
fn number_turn<'a>(scope: Scope, value: i128, left: usize) -> Replaced<'a>
    ensures { Stands result (number_turn scope value) left }
{
    let token = Token::Number(value, left);
    if !matches!(scope, Scope::Constant) {
        return same(scope, token);
    }
    Replaced {
        out: Out::Three(
            Token::Sign(Mark::Equal, left),
            token,
            Token::Sign(Mark::Semicolon, left),
        ),
        scope: Scope::Elsewhere,
        skip: 0,
    }
}

/// What stands in place of a token, before others.
pub(crate) fn turn<'a>(scope: Scope, token: Token<'a>, others: &[Token<'a>]) -> Replaced<'a>
    ensures { Stands result (turn scope (lexeme token.entry) (lexemes others.now)) (left_of token.entry) }
{
    match token {
        Token::Word(word, left) => word_turn(scope, word, left, others),
        Token::Name(run, left) => name_turn(scope, run, left, others),
        Token::Number(value, left) => number_turn(scope, value, left),
        Token::Sign(mark, left) => sign_turn(scope, mark, left, others),
    }
}

//! Where in the grammar a token stands, as far as its meaning hangs on that.
ghost use Rattle.std.specs.Prelude.{◌≡◌};
ghost use Rattle.xdr_tokens.specs.Tokens.{lexeme};
ghost use Rattle.xdr_dialect.specs.Scopes.{scope_after, next_number, after_value, after_argument, after_other};

use xdr_tokens::{Keyword, Mark, Token};

/// Where a token stands.
#[derive(Clone, Copy)]
pub enum Scope {
    /// Anywhere else.
    Elsewhere,
    /// Behind `enum`.
    Head,
    /// Among the members of an enumeration; the next has this number, where one is known.
    Members(Option<i128>),
    /// Behind the `=` of a member.
    Value,
    /// Behind `switch`.
    Switch,
    /// Among arguments, behind the type of one or not.
    Argument(bool),
    /// In a line of `#define`.
    Constant,
}

/// The number of a member behind one with this number.
pub(crate) fn next_number(number: i128) -> Option<i128>
    ensures { result ≡ next_number number }
{
    if -(1 << 31) <= number && number < 1 << 31 {
        Some(number + 1)
    } else {
        None
    }
}

/// Behind the value of a member.
fn after_value(token: Token<'_>) -> Scope
    ensures { result ≡ after_value (lexeme token.entry) }
{
    match token {
        Token::Word(..) | Token::Sign(..) => Scope::Elsewhere,
        Token::Name(..) => Scope::Members(None),
        Token::Number(number, _) => Scope::Members(next_number(number)),
    }
}

/// Among arguments, behind a token of one.
fn after_argument(token: Token<'_>) -> Scope
    ensures { result ≡ after_argument (lexeme token.entry) }
{
    match token {
        Token::Sign(Mark::CloseRound | Mark::OpenBrace, _) => Scope::Elsewhere,
        Token::Sign(Mark::Comma, _) | Token::Word(Keyword::Struct, _) => Scope::Argument(false),
        _ => Scope::Argument(true),
    }
}

/// Behind a token that is neither `enum` nor `switch`.
fn after_other(scope: Scope, token: Token<'_>) -> Scope
    ensures { result ≡ after_other scope (lexeme token.entry) }
{
    match (scope, token) {
        (Scope::Elsewhere, Token::Sign(Mark::OpenRound, _)) => Scope::Argument(false),
        (Scope::Head, Token::Sign(Mark::OpenBrace, _)) => Scope::Members(Some(0)),
        (Scope::Head, Token::Name(..)) => Scope::Head,
        (Scope::Members(_), Token::Sign(Mark::CloseBrace, _)) => Scope::Elsewhere,
        (Scope::Members(_), Token::Sign(Mark::Equal, _)) => Scope::Value,
        (Scope::Members(next), _) => Scope::Members(next),
        (Scope::Value, _) => after_value(token),
        (Scope::Argument(_), _) => after_argument(token),
        (Scope::Constant, Token::Name(..)) => Scope::Constant,
        (Scope::Elsewhere | Scope::Head | Scope::Switch | Scope::Constant, _) => Scope::Elsewhere,
    }
}

/// Behind a token.
pub(crate) fn scope_after(scope: Scope, token: Token<'_>) -> Scope
    ensures { result ≡ scope_after scope (lexeme token.entry) }
{
    match token {
        Token::Word(Keyword::Enum, _) => Scope::Head,
        Token::Word(Keyword::Switch, _) => Scope::Switch,
        _ => after_other(scope, token),
    }
}

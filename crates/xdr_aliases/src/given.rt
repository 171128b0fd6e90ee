//! The names to which tokens give numbers.
ghost use Rattle.std.specs.Prelude.{◌≡◌, IfOk, option_map};
ghost use Rattle.xdr_tokens.specs.Tokens.{lexeme, lexemes};
ghost use Rattle.xdr_constants.specs.Views.{known_of, knowns};
ghost use Rattle.xdr_aliases.specs.Aliases.{number_given, behind_arguments, behind_name, given_by, given};
ghost use Rattle.xdr_aliases.specs.Aliases.{clashes, has_clash, apart};

use std::alloc::{AllocError, Global};
use xdr_constants::{ConstantTable, Known};
use xdr_grammar::Name;
use xdr_tokens::{Mark, Token};

/// The number behind `=` in front.
fn number_given(tokens: &[Token<'_>]) -> Option<i128>
    ensures { result ≡ number_given (lexemes tokens.now) }
{
    match tokens {
        [Token::Sign(Mark::Equal, _), Token::Number(value, _), ..] => Some(*value),
        _ => None,
    }
}

/// What follows arguments.
#[tactic(auto, unfolding(crate::specs::Aliases::behind_arguments))]
fn behind_arguments<'t, 'a>(tokens: &'t [Token<'a>]) -> &'t [Token<'a>]
    ensures { lexemes result.now ≡ behind_arguments (lexemes tokens.now) }
{
    let mut left = tokens;
    while let [first, others @ ..] = left {
        match first {
            Token::Sign(Mark::CloseRound, _) => return others,
            Token::Sign(Mark::OpenRound, _) => return left,
            _ => left = others,
        }
    }
    left
}

/// What follows a name, and the arguments behind that of a procedure.
pub(crate) fn behind_name<'t, 'a>(tokens: &'t [Token<'a>]) -> &'t [Token<'a>]
    ensures { lexemes result.now ≡ behind_name (lexemes tokens.now) }
{
    match tokens {
        [Token::Sign(Mark::OpenRound, _), others @ ..] => behind_arguments(others),
        _ => tokens,
    }
}

/// The token is a name, and others give it a number.
fn given_by<'a>(token: Token<'a>, others: &[Token<'a>]) -> Option<Known<'a>>
    ensures { option_map known_of result ≡ given_by (lexeme token.entry) (lexemes others.now) }
{
    let Token::Name(text, left) = token else {
        return None;
    };
    match number_given(behind_name(others)) {
        Some(value) => Some(Known {
            name: Name { text, left },
            value,
            by_const: true,
        }),
        None => None,
    }
}

/// The names to which tokens give numbers.
#[tactic(auto, unfolding(crate::specs::Aliases::given))]
fn given<'a>(alloc: Global, tokens: &[Token<'a>]) -> Result<ConstantTable<'a>, AllocError>
    ensures { IfOk result (λ v. knowns v.list.items ≡ given (lexemes tokens.now)) }
{
    let mut table = ConstantTable::new(alloc);
    let mut rest = tokens;
    while let [first, others @ ..] = rest {
        rest = others;
        if let Some(known) = given_by(*first, others) {
            table.push(known)?;
        }
    }
    Ok(table)
}

/// The first with the same name has another number.
fn clashes(table: &ConstantTable<'_>, known: &Known<'_>) -> bool
    ensures { result ≡ clashes (knowns table.now.list.items) (known_of known.now) }
{
    match table.named(known.name.text, table.list.len()) {
        Some((value, _)) => value < known.value || known.value < value,
        None => true,
    }
}

/// Some name has two numbers.
pub(crate) fn has_clash(table: &ConstantTable<'_>) -> bool
    ensures { result ≡ has_clash (knowns table.now.list.items) }
{
    let mut rest: &[Known<'_>] = &table.list;
    while let [first, others @ ..] = rest {
        if clashes(table, first) {
            return true;
        }
        rest = others;
    }
    false
}

/// The names to which tokens give numbers, none where one of them has two.
pub(crate) fn numbers<'a>(
    alloc: Global,
    tokens: &[Token<'a>],
) -> Result<ConstantTable<'a>, AllocError>
    ensures { IfOk result (λ v. knowns v.list.items ≡ apart (given (lexemes tokens.now))) }
{
    let table = given(alloc, tokens)?;
    if has_clash(&table) {
        return Ok(ConstantTable::new(alloc));
    }
    Ok(table)
}

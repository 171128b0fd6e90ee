//! Numbers in place of names.
ghost use Rattle.std.specs.Prelude.{◌≡◌, IfOk, OnOk, false, map};
ghost use Rattle.xdr_tokens.specs.Tokens.{lexeme, lexemes};
ghost use Rattle.xdr_constants.specs.Views.{knowns};
ghost use Rattle.xdr_dialect.specs.Dialect.{left_of};
ghost use Rattle.xdr_dialect.specs.Tests.{is_sign};
ghost use Rattle.xdr_aliases.specs.Aliases.{valued, followed, resolved_from, resolved};

use crate::followed::follow_one;
use crate::given::{has_clash, numbers};
use std::alloc::{AllocError, Global};
use xdr_constants::ConstantTable;
use xdr_tokens::{Mark, Token};

/// The token is `=`.
fn is_equal(token: Token<'_>) -> bool
    ensures { result ≡ is_sign Mark.Equal (lexeme token.entry) }
{
    matches!(token, Token::Sign(Mark::Equal, _))
}

/// The token, or the number of a name between `=` and `;`.
fn valued<'a>(
    table: &ConstantTable<'_>,
    is_value: bool,
    token: Token<'a>,
    others: &[Token<'a>],
) -> Token<'a>
    ensures token { lexeme result
        ≡ valued (knowns table.now.list.items) is_value (lexeme token.entry) (lexemes others.now) }
    ensures place { left_of result ≡ left_of token.entry }
{
    let (Token::Name(name, left), [Token::Sign(Mark::Semicolon, _), ..]) = (token, others) else {
        return token;
    };
    if !is_value {
        return token;
    }
    match table.named(name, table.list.len()) {
        Some((number, _)) => Token::Number(number, left),
        None => token,
    }
}

/// The tokens with numbers in place of names, by the names with numbers in the table. Where names are followed, it gets
/// those to which tokens give a name that has a number before.
#[tactic(auto, unfolding(crate::specs::Aliases::resolved_from, crate::specs::Aliases::followed))]
fn written<'a>(
    alloc: Global,
    table: &mut ConstantTable<'a>,
    tokens: &[Token<'a>],
    follows: bool,
) -> Result<Vec<Token<'a>>, AllocError>
    ensures tokens { IfOk result (λ v. lexemes v.items
        ≡ resolved_from follows (knowns table.old.list.items) false (lexemes tokens.now)) }
    ensures places { IfOk result (λ v. map left_of v.items ≡ map left_of tokens.now) }
    ensures table { OnOk result (knowns table.new.list.items
        ≡ followed follows (knowns table.old.list.items) (lexemes tokens.now)) }
{
    let mut found = Vec::new(alloc);
    let mut is_value = false;
    let mut rest = tokens;
    while let [first, others @ ..] = rest {
        found.push(valued(table, is_value, *first, others))?;
        if follows {
            follow_one(table, *first, others)?;
        }
        is_value = is_equal(*first);
        rest = others;
    }
    Ok(found)
}

/// The tokens, with its number in place of each name between `=` and `;` to which others give one: `NAME = NUMBER`, or
/// `NAME(..) = NUMBER`. Where they give some name two numbers, no name stands for one.
///
/// A name to which tokens before it give a name, `NAME = NAME` or `NAME(..) = NAME`, has the number which that has
/// there. Where some name would have two numbers so, none has one by a name.
///
/// It fails where a growth was refused.
pub fn resolved_tokens<'a>(
    alloc: Global,
    tokens: &[Token<'a>],
) -> Result<Vec<Token<'a>>, AllocError>
    ensures tokens { IfOk result (λ v. lexemes v.items ≡ resolved (lexemes tokens.now)) }
    // Each stands where the token stood in whose place it is.
    ensures places { IfOk result (λ v. map left_of v.items ≡ map left_of tokens.now) }
{
    let mut table = numbers(alloc, tokens)?;
    let found = written(alloc, &mut table, tokens, true)?;
    if !has_clash(&table) {
        return Ok(found);
    }
    let mut given = numbers(alloc, tokens)?;
    written(alloc, &mut given, tokens, false)
}

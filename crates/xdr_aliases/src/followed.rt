//! Names that tokens give to names.
ghost use Rattle.std.specs.Prelude.{◌≡◌, OnOk, Some, true, option_map};
ghost use Rattle.xdr_tokens.specs.Tokens.{lexeme, lexemes};
ghost use Rattle.xdr_constants.specs.Views.{known_of, knowns};
ghost use Rattle.xdr_aliases.specs.Aliases.{name_given, named_by, followed_one};

use crate::given::behind_name;
use std::alloc::AllocError;
use xdr_constants::{ConstantTable, Known};
use xdr_grammar::Name;
use xdr_tokens::{Mark, Token};

/// The name behind `=` in front.
fn name_given<'a>(tokens: &[Token<'a>]) -> Option<&'a str>
    ensures { option_map (λ t. t.now) result ≡ name_given (lexemes tokens.now) }
{
    match tokens {
        [Token::Sign(Mark::Equal, _), Token::Name(text, _), ..] => Some(*text),
        _ => None,
    }
}

/// The token is a name, and others give it a name that has a number.
fn named_by<'a>(
    table: &ConstantTable<'_>,
    token: Token<'a>,
    others: &[Token<'a>],
) -> Option<Known<'a>>
    ensures { option_map known_of result
        ≡ named_by (knowns table.now.list.items) (lexeme token.entry) (lexemes others.now) }
{
    let Token::Name(text, left) = token else {
        return None;
    };
    let meant = name_given(behind_name(others))?;
    let (value, _) = table.named(meant, table.list.len())?;
    Some(Known {
        name: Name { text, left },
        value,
        by_const: true,
    })
}

/// Adds the name in front, where others give it a name that has a number.
pub(crate) fn follow_one<'a>(
    table: &mut ConstantTable<'a>,
    token: Token<'a>,
    others: &[Token<'a>],
) -> Result<(), AllocError>
    ensures { OnOk result (knowns table.new.list.items
        ≡ followed_one true (knowns table.old.list.items) (lexeme token.entry) (lexemes others.now)) }
{
    if let Some(known) = named_by(table, token, others) {
        table.push(known)?;
    }
    Ok(())
}

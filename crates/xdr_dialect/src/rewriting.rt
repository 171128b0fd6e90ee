//! The tokens of the dialect as tokens of the RFCs' language.
ghost use Rattle.std.specs.Prelude.{◌≡◌, ◌++◌, OnOk, IfOk};
ghost use Rattle.xdr_dialect.specs.declared.scope.Scope.TheVariants as scope;
ghost use Rattle.xdr_tokens.specs.Tokens.{lexemes};
ghost use Rattle.xdr_dialect.specs.Rewriting.{rewritten};
ghost use Rattle.xdr_dialect.specs.Dialect.{all_placed, rewritten_places, meant, meant_places};
ghost use Rattle.xdr_dialect.specs.Private.Steps.{tokens_of};

use crate::library::add_library;
use crate::scope::Scope;
use crate::turn::{Out, turn};
use std::alloc::{AllocError, Global};
use xdr_tokens::Token;

/// Adds the tokens in place of one.
#[tactic(auto, using(crate::proofs::Places::placing))]
fn add<'a>(found: &mut Vec<Token<'a>>, out: Out<'a>) -> Result<(), AllocError>
    ensures { OnOk result (found.new.items ≡ found.old.items ++ tokens_of out.entry) }
{
    match out {
        Out::Nothing => Ok(()),
        Out::One(first) => found.extend_from_slice(&[first]),
        Out::Two(first, second) => found.extend_from_slice(&[first, second]),
        Out::Three(first, second, third) => found.extend_from_slice(&[first, second, third]),
    }
}

/// The tokens in place of those of the dialect, but for the library's definitions.
#[tactic(auto, using(crate::proofs::Places::stepping))]
fn rewritten<'a>(alloc: Global, tokens: &[Token<'a>]) -> Result<Vec<Token<'a>>, AllocError>
    ensures places { IfOk result
        (λ v. all_placed v.items ≡ rewritten_places scope.Elsewhere 0 (all_placed tokens.now)) }
    ensures tokens { IfOk result (λ v. lexemes v.items ≡ rewritten (lexemes tokens.now)) }
{
    let mut found = Vec::new(alloc);
    let mut scope = Scope::Elsewhere;
    let mut skip = 0;
    let mut rest = tokens;
    while let [first, others @ ..] = rest {
        rest = others;
        if skip > 0 {
            skip -= 1;
            continue;
        }
        let turned = turn(scope, *first, others);
        add(&mut found, turned.out)?;
        scope = turned.scope;
        skip = turned.skip;
    }
    Ok(found)
}

/// The tokens of the RFCs' language that those of a text in rpcgen's dialect stand for, in order. What stands in place
/// of a token stands where it stood; the definitions of the library's names that the text names and does not declare
/// are in front, `beginning` bytes before the end.
///
/// `NoMemory` comes where a growth was refused.
#[tactic(auto, using(crate::proofs::Places::meaning))]
pub fn meant_tokens<'a>(
    alloc: Global,
    tokens: &[Token<'a>],
    beginning: usize,
) -> Result<Vec<Token<'a>>, AllocError>
    // What is given are the tokens that these stand for, each at its place.
    ensures places { IfOk result (λ v. all_placed v.items ≡ meant_places beginning (all_placed tokens.now)) }
    // Which they are does not hang on places.
    ensures tokens { IfOk result (λ v. lexemes v.items ≡ meant (lexemes tokens.now)) }
{
    let body = rewritten(alloc, tokens)?;
    let mut found = Vec::new(alloc);
    add_library(&mut found, &body, beginning)?;
    found.extend_from_slice(&body)?;
    Ok(found)
}

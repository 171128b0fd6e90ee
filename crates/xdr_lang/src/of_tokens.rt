//! Reading tokens that something else than a text of the language was cut into.
ghost use Rattle.std.specs.Prelude.{◌≡◌, ◌≢◌, ◌≤◌, Some, IfOk, IfErr};
ghost use Rattle.xdr_tokens.specs.Due.{Gives};
ghost use Rattle.xdr_tokens.specs.Tokens.{lexemes};
ghost use Rattle.xdr_lang.specs.Declarations.{Declared as DeclaredSpec};
ghost use Rattle.xdr_lang.specs.OfTokens.{TokensMean};
ghost use Rattle.xdr_lang.specs.Refusals.{IsInner};
ghost use Rattle.xdr_lang.specs.Views.{declared_of};

use crate::declarations::Declared;
use crate::lang_fault::{LangFault, lang_fault};
use crate::meaning::meaning;
use std::alloc::Global;
use xdr_grammar::read_outline;
use xdr_tokens::{Fault, Token};

/// The fault of a text, as its caller sees it: with its number, its line and its column.
pub fn located(text: &[u8], fault: Fault) -> LangFault
    // Want of memory is number 13.
    ensures memory { fault ≡ Fault.NoMemory → result.number ≡ 13 }
    // The numbers, the line and the column are as in `read`.
    ensures number { (1 ≤ result.number) × (result.number ≤ 13) }
    ensures inner { IsInner result.number result.inner }
    ensures place { (1 ≤ result.line) × (1 ≤ result.column) }
{
    lang_fault(text, fault)
}

/// What tokens mean, or why they mean nothing.
fn spelled(alloc: Global, tokens: &[Token<'_>]) -> Result<Declared, Fault>
    ensures found { IfOk result (λ v. TokensMean (lexemes tokens.now) (declared_of v)) }
    ensures only { (d : DeclaredSpec) → TokensMean (lexemes tokens.now) d → Gives declared_of result (Some d) }
{
    let outline = read_outline(alloc, tokens)?;
    meaning(alloc, &outline)
}

/// Reads tokens whose places are places in the text: what they declare (RFC 4506 sections 6.3 and 6.4).
///
/// The faults are those of `read` but 1, 2 and 11, in its order.
pub fn read_tokens(alloc: Global, text: &[u8], tokens: &[Token<'_>]) -> Result<Declared, LangFault>
    // What is read is what the tokens mean.
    ensures found { IfOk result (λ v. TokensMean (lexemes tokens.now) (declared_of v)) }
    // Tokens that mean something are read, and no others, unless memory runs out.
    ensures only { (d : DeclaredSpec) → TokensMean (lexemes tokens.now) d → IfOk result (λ v. declared_of v ≡ d) }
    // Tokens that are refused for another reason mean nothing.
    ensures refused { IfErr result
        (λ e. e.number ≢ 13 → (d : DeclaredSpec) → TokensMean (lexemes tokens.now) d → ⊥) }
    // The numbers, the line and the column are as in `read`.
    ensures number { IfErr result (λ e. (1 ≤ e.number) × (e.number ≤ 13)) }
    ensures inner { IfErr result (λ e. IsInner e.number e.inner) }
    ensures place { IfErr result (λ e. (1 ≤ e.line) × (1 ≤ e.column)) }
{
    match spelled(alloc, tokens) {
        Ok(declared) => Ok(declared),
        Err(fault) => Err(lang_fault(text, fault)),
    }
}

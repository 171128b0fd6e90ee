//! Reading a text in rpcgen's dialect.
ghost use Rattle.std.specs.Prelude.{◌≡◌, ◌≢◌, ◌≤◌, IfOk, IfErr, map};
ghost use Rattle.xdr_tokens.specs.Tokens.{lexemes};
ghost use Rattle.xdr_lang.specs.Declarations.{Declared as DeclaredSpec};
ghost use Rattle.xdr_lang.specs.OfTokens.{TokensMean};
ghost use Rattle.xdr_lang.specs.Refusals.{IsInner};
ghost use Rattle.xdr_lang.specs.Views.{declared_of};
ghost use Rattle.xdr_dialect.specs.Answers.{texts};
ghost use Rattle.xdr_dialect.specs.Dialect.{left_of, all_placed, meant, meant_places};
ghost use Rattle.xdr_aliases.specs.Aliases.{resolved};
ghost use Rattle.xdr_rpcgen.specs.DialectMeans.{PlainMeans, DialectMeans};
ghost use Rattle.xdr_rpcgen.specs.Private.Places.{lefts};

use std::alloc::{AllocError, Global};
use xdr_aliases::resolved_tokens;
use xdr_dialect::{meant_tokens, plain_text};
use xdr_lang::{Declared, LangFault, MAX_TEXT, located, read_tokens};
use xdr_tokens::{Fault, Token, Wrong, tokens};

/// The tokens of the RFCs' language that those of a text of so many bytes stand for. Each stands where the token stood
/// in whose place it comes, and what the library declares where the text begins.
fn language_of<'a>(
    alloc: Global,
    cut: &[Token<'a>],
    len: usize,
) -> Result<Vec<Token<'a>>, AllocError>
    ensures tokens { IfOk result (λ v. lexemes v.items ≡ resolved (meant (lexemes cut.now))) }
    ensures places { IfOk result (λ v. map left_of v.items ≡ lefts (meant_places len (all_placed cut.now))) }
{
    let meant = meant_tokens(alloc, cut, len)?;
    resolved_tokens(alloc, &meant)
}

/// What the tokens of a text mean.
fn read_cut(alloc: Global, text: &[u8], cut: &[Token<'_>]) -> Result<Declared, LangFault>
    ensures found { IfOk result (λ v. TokensMean (resolved (meant (lexemes cut.now))) (declared_of v)) }
    ensures only { (d : DeclaredSpec) → TokensMean (resolved (meant (lexemes cut.now))) d
        → IfOk result (λ v. declared_of v ≡ d) }
    ensures refused { IfErr result
        (λ e. e.number ≢ 13 → (d : DeclaredSpec) → TokensMean (resolved (meant (lexemes cut.now))) d → ⊥) }
    ensures number { IfErr result (λ e. (1 ≤ e.number) × (e.number ≤ 13)) }
    ensures inner { IfErr result (λ e. IsInner e.number e.inner) }
    ensures place { IfErr result (λ e. (1 ≤ e.line) × (1 ≤ e.column)) }
{
    match language_of(alloc, cut, text.len()) {
        Ok(spoken) => read_tokens(alloc, text, &spoken),
        Err(_) => Err(located(text, Fault::NoMemory)),
    }
}

/// What a text means whose lines of `%` and `#` are left out.
fn read_plain(alloc: Global, text: &[u8], plain: &[u8]) -> Result<Declared, LangFault>
    ensures found { IfOk result (λ v. PlainMeans plain.now (declared_of v)) }
    ensures only { (d : DeclaredSpec) → PlainMeans plain.now d → IfOk result (λ v. declared_of v ≡ d) }
    ensures refused { IfErr result (λ e. e.number ≢ 13 → (d : DeclaredSpec) → PlainMeans plain.now d → ⊥) }
    ensures number { IfErr result (λ e. (1 ≤ e.number) × (e.number ≤ 13)) }
    ensures inner { IfErr result (λ e. IsInner e.number e.inner) }
    ensures place { IfErr result (λ e. (1 ≤ e.line) × (1 ≤ e.column)) }
{
    match tokens(alloc, plain) {
        Ok(cut) => read_cut(alloc, text, &cut),
        Err(fault) => Err(located(text, fault)),
    }
}

/// Reads a text of at most 262144 bytes in rpcgen's dialect: what it declares. For its lines `#ifdef` these names are
/// defined.
///
/// The faults are those of `xdr_lang::read`, in its order, each at its place in the text. A line of `#` that has no
/// meaning where it stands is 1 at its `#`, and a section that is open at the end 3 there; they come before all others
/// but 11.
pub fn read_dialect(alloc: Global, text: &[u8], names: &[&str]) -> Result<Declared, LangFault>
    // What is read is what the text means.
    ensures found { IfOk result (λ v. DialectMeans (texts names.now) text.now (declared_of v)) }
    // A text that means something is read, and nothing else, unless memory runs out.
    ensures only { (d : DeclaredSpec) → DialectMeans (texts names.now) text.now d
        → IfOk result (λ v. declared_of v ≡ d) }
    // A text that is refused for another reason means nothing.
    ensures refused { IfErr result
        (λ e. e.number ≢ 13 → (d : DeclaredSpec) → DialectMeans (texts names.now) text.now d → ⊥) }
    // The numbers, the line and the column are as in `xdr_lang::read`.
    ensures number { IfErr result (λ e. (1 ≤ e.number) × (e.number ≤ 13)) }
    ensures inner { IfErr result (λ e. IsInner e.number e.inner) }
    ensures place { IfErr result (λ e. (1 ≤ e.line) × (1 ≤ e.column)) }
{
    if text.len() > MAX_TEXT {
        let wrong = Wrong::TextTooLong;
        return Err(located(
            text,
            Fault::Refused {
                wrong,
                left: text.len(),
            },
        ));
    }
    match plain_text(alloc, text, names) {
        Ok(plain) => read_plain(alloc, text, &plain),
        Err(fault) => Err(located(text, fault)),
    }
}

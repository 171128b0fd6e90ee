//! Reading a text.
ghost use Rattle.std.specs.Prelude.{◌≡◌, ◌≢◌, ◌≤◌, Some, None, IfOk, IfErr};
ghost use Rattle.xdr_tokens.specs.Due.{Gives};
ghost use Rattle.xdr_lang.specs.Declarations.{Declared as DeclaredSpec};
ghost use Rattle.xdr_lang.specs.Means.{Means};
ghost use Rattle.xdr_lang.specs.Refusals.{IsInner};
ghost use Rattle.xdr_lang.specs.Views.{declared_of};

use crate::declarations::Declared;
use crate::lang_fault::{LangFault, lang_fault};
use crate::meaning::meaning;
use std::alloc::Global;
use xdr_grammar::read_outline;
use xdr_tokens::{Fault, Wrong, tokens};

/// How many bytes a text may have.
pub const MAX_TEXT: usize = 262144;

/// What a text means, or why it means nothing.
fn declared(alloc: Global, text: &[u8]) -> Result<Declared, Fault>
    ensures found { IfOk result (λ v. Means text.now (declared_of v)) }
    ensures only { (d : DeclaredSpec) → Means text.now d → Gives declared_of result (Some d) }
{
    if text.len() > MAX_TEXT {
        return Err(Fault::Refused {
            wrong: Wrong::TextTooLong,
            left: text.len(),
        });
    }
    let cut = tokens(alloc, text)?;
    let outline = read_outline(alloc, &cut)?;
    meaning(alloc, &outline)
}

/// Reads a text of at most 262144 bytes: what it declares (RFC 4506 section 6, RFC 5531 section 12).
///
/// The faults come in this order: 11 at the beginning, then the first bad token, 1 or 2. Next is the first token that
/// cannot continue the grammar, 3 or 4, or the brace of a 33rd body, 12. Then come 5 to 8 at the first token at fault,
/// at one token the lowest number; then 9; then 10, where the definition or declaration of the kind begins. 13 may come
/// in place of any other answer, where a growth was refused.
pub fn read(alloc: Global, text: &[u8]) -> Result<Declared, LangFault>
    // What is read is what the text means.
    ensures found { IfOk result (λ v. Means text.now (declared_of v)) }
    // A text that means something is read, and nothing else, unless memory runs out.
    ensures only { (d : DeclaredSpec) → Means text.now d → IfOk result (λ v. declared_of v ≡ d) }
    // A text that is refused for another reason means nothing.
    ensures refused { IfErr result (λ e. e.number ≢ 13 → (d : DeclaredSpec) → Means text.now d → ⊥) }
    // The number of a refusal is 1 to 13.
    ensures number { IfErr result (λ e. (1 ≤ e.number) × (e.number ≤ 13)) }
    // With number 10 the schema's is 1 to 10, else 0: its 11, an allocation failure, is number 13.
    ensures inner { IfErr result (λ e. IsInner e.number e.inner) }
    // Lines and columns count from 1.
    ensures place { IfErr result (λ e. (1 ≤ e.line) × (1 ≤ e.column)) }
{
    match declared(alloc, text) {
        Ok(declared) => Ok(declared),
        Err(fault) => Err(lang_fault(text, fault)),
    }
}

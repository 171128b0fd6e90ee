//! What `tokens` makes of a text (RFC 4506 section 6.2).
ghost use Rattle.std.specs.Prelude.{◌≡◌, negsuc, false, IfOk, IfErr, [], ◌∷◌, codes};
ghost use Rattle.xdr_tokens.specs.Tokens.{lexemes, Word, Name, Number, Sign};
ghost use Rattle.xdr_tokens.specs.declared.token.Keyword.TheVariants as word;
ghost use Rattle.xdr_tokens.specs.declared.token.Mark.TheVariants as mark;

use std::alloc::Global;
use xdr_tokens::{Fault, Token, tokens};

/// A keyword, a name that begins as a keyword does, and a mark.
pub fn keyword_and_names(alloc: Global) -> Result<Vec<Token<'static>>, Fault>
    ensures found { IfOk result (λ v. lexemes v.items ≡
        Word word.Int ∷ Name (codes "integer") ∷ Sign mark.Colon ∷ []) }
    ensures taken { IfErr result (λ e. e ≡ Fault.NoMemory) }
{
    tokens(alloc, b"int integer:")
}

/// `long` is a keyword; a longer run is a name.
pub fn long_and_a_longer_name(alloc: Global) -> Result<Vec<Token<'static>>, Fault>
    ensures found { IfOk result (λ v. lexemes v.items ≡ Word word.Long ∷ Name (codes "longer") ∷ []) }
    ensures taken { IfErr result (λ e. e ≡ Fault.NoMemory) }
{
    tokens(alloc, b"long longer")
}

/// A tab parts words, `switch` is a keyword, and `z` a letter as any other.
pub fn keyword_before_a_tab(alloc: Global) -> Result<Vec<Token<'static>>, Fault>
    ensures found { IfOk result (λ v. lexemes v.items ≡ Word word.Switch ∷ Name (codes "z") ∷ []) }
    ensures taken { IfErr result (λ e. e ≡ Fault.NoMemory) }
{
    tokens(alloc, b"switch\tz")
}

/// A comment goes to the first star that a slash follows; the star that begins it does not serve twice.
pub fn comment_with_a_star(alloc: Global) -> Result<Vec<Token<'static>>, Fault>
    ensures found { IfOk result (λ v. lexemes v.items ≡ Name (codes "b") ∷ []) }
    ensures taken { IfErr result (λ e. e ≡ Fault.NoMemory) }
{
    tokens(alloc, b"/*/ a * b */b")
}

/// The least number that a text may spell.
pub fn least_number(alloc: Global) -> Result<Vec<Token<'static>>, Fault>
    ensures found { IfOk result (λ v. lexemes v.items ≡ Number (negsuc 9223372036854775807) ∷ []) }
    ensures taken { IfErr result (λ e. e ≡ Fault.NoMemory) }
{
    tokens(alloc, b"-9223372036854775808")
}

/// No token begins with `|`.
pub fn no_token_of_a_bar(alloc: Global) -> bool
    ensures { result ≡ false }
{
    tokens(alloc, b"a|").is_ok()
}

//! Which names a line `#ifdef` can ask for.
ghost use Rattle.std.specs.Prelude.{◌≡◌};
ghost use Rattle.std.specs.List.{list_all};
ghost use Rattle.xdr_tokens.specs.Bytes.{is_word};
ghost use Rattle.xdr_dialect.specs.Directives.{is_identifier};

use crate::directive::{in_word, is_name};

/// Each byte is a letter, a digit or `_`.
fn all_in_word(text: &[u8]) -> bool
    ensures { result ≡ list_all is_word text.now }
{
    for byte in text {
        if !in_word(*byte) {
            return false;
        }
    }
    true
}

/// A line `#ifdef` can ask for the name: it is letters, digits and `_`, at least one, and does not begin with a digit
/// (own, after C). Another may be defined, and no line asks for it.
pub fn is_identifier(name: &[u8]) -> bool
    ensures { result ≡ is_identifier name.now }
{
    is_name(name) && all_in_word(name)
}

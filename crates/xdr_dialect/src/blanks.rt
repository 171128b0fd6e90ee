//! What stands between the words of a line of `#`, and where the line ends.
ghost use Rattle.std.specs.Prelude.{◌≡◌};
ghost use Rattle.xdr_dialect.specs.declared.part.Part.TheVariants as part;
ghost use Rattle.xdr_dialect.specs.Blanks.{begins, is_between, after_blanks, ends, closes};

use crate::part::Part;
use crate::spot::Spot;

/// This byte is in front.
fn begins(text: &[u8], wanted: u8) -> bool
    ensures { result ≡ begins wanted text.now }
{
    match text {
        [first, ..] => *first == wanted,
        [] => false,
    }
}

/// A byte stands between words: it is a space or a tab, or in a comment.
fn is_between(part: Part, first: u8, others: &[u8]) -> bool
    ensures { result ≡ is_between part first others.now }
{
    part.is_remark() || first == b' ' || first == b'\t' || first == b'/' && begins(others, b'*')
}

/// What follows spaces, tabs and comments.
#[tactic(auto, unfolding(crate::specs::Blanks::after_blanks_from))]
pub(crate) fn after_blanks(text: &[u8]) -> &[u8]
    ensures { result.now ≡ after_blanks text.now }
{
    let mut rest = text;
    let mut part = Part::Words;
    while let [first, others @ ..] = rest {
        if !is_between(part, *first, others) {
            break;
        }
        part = part.next(*first);
        rest = others;
    }
    rest
}

/// The line ends here, or `//` begins what the preprocessor passes over.
pub(crate) fn ends(text: &[u8]) -> bool
    ensures { result ≡ ends text.now }
{
    match text {
        [] | [b'\n' | b'\r', ..] => true,
        [b'/', others @ ..] => begins(others, b'/'),
        _ => false,
    }
}

/// Each comment of a line of `#` ends.
#[tactic(auto, unfolding(crate::specs::Blanks::closes_from))]
pub(crate) fn closes(text: &[u8]) -> bool
    ensures { result ≡ closes text.now }
{
    let mut rest = text;
    let mut spot = Spot::Line(Part::Words);
    while let [first, others @ ..] = rest {
        spot = spot.next(*first);
        if !spot.is_line() {
            return true;
        }
        rest = others;
    }
    !spot.is_remark()
}

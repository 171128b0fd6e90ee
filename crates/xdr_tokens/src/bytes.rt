//! Which bytes are white space, letters and digits, and how far runs and comments go.
ghost use Rattle.std.specs.Prelude.{◌≡◌, MatchOption, None, Some, length, take, drop, ◌≤◌};
ghost use Rattle.xdr_tokens.specs.Bytes.{is_space, is_letter, is_digit, is_word, run_length, after_comment};

/// White space.
pub fn space(byte: u8) -> bool
    ensures { result ≡ is_space byte }
{
    byte == b' ' || (9 <= byte && byte <= 13)
}

/// A letter of ASCII, of either case.
pub fn letter(byte: u8) -> bool
    ensures { result ≡ is_letter byte }
{
    (b'A' <= byte && byte <= b'Z') || (b'a' <= byte && byte <= b'z')
}

/// A decimal digit.
pub fn digit(byte: u8) -> bool
    ensures { result ≡ is_digit byte }
{
    b'0' <= byte && byte <= b'9'
}

/// Which bytes are letters, digits and `_`.
const WORDS: [bool; 256] = [
    false, false, false, false, false, false, false, false, false, false, false, false, false,
    false, false, false, false, false, false, false, false, false, false, false, false, false,
    false, false, false, false, false, false, false, false, false, false, false, false, false,
    false, false, false, false, false, false, false, false, false, true, true, true, true, true,
    true, true, true, true, true, false, false, false, false, false, false, false, true, true,
    true, true, true, true, true, true, true, true, true, true, true, true, true, true, true, true,
    true, true, true, true, true, true, true, true, false, false, false, false, true, false, true,
    true, true, true, true, true, true, true, true, true, true, true, true, true, true, true, true,
    true, true, true, true, true, true, true, true, true, false, false, false, false, false, false,
    false, false, false, false, false, false, false, false, false, false, false, false, false,
    false, false, false, false, false, false, false, false, false, false, false, false, false,
    false, false, false, false, false, false, false, false, false, false, false, false, false,
    false, false, false, false, false, false, false, false, false, false, false, false, false,
    false, false, false, false, false, false, false, false, false, false, false, false, false,
    false, false, false, false, false, false, false, false, false, false, false, false, false,
    false, false, false, false, false, false, false, false, false, false, false, false, false,
    false, false, false, false, false, false, false, false, false, false, false, false, false,
    false, false, false, false, false, false, false, false, false, false, false, false, false,
    false, false, false, false, false, false, false, false, false, false,
];

/// A letter, a digit or `_`: most bytes of a text are asked for this, so that it is a look-up.
#[tactic(auto, using(crate::proofs::Words::words_are))]
pub fn in_word(byte: u8) -> bool
    ensures { result ≡ is_word byte }
{
    WORDS[usize::from(byte)]
}

/// How many letters, digits and `_` stand in front.
#[tactic(auto, unfolding(crate::specs::Bytes::run_length))]
pub fn run_length(text: &[u8]) -> usize
    ensures value { result ≡ run_length text.now }
    ensures within { result ≤ length text.now }
{
    let mut rest = text;
    let mut len = 0;
    while let [first, others @ ..] = rest {
        if !in_word(*first) {
            break;
        }
        rest = others;
        len += 1;
    }
    len
}

/// What follows the next `*/`.
#[tactic(auto, unfolding(crate::specs::Bytes::after_comment))]
pub fn skip_comment(text: &[u8]) -> Option<&[u8]>
    ensures { MatchOption result (after_comment text.now ≡ None) (λ rest. after_comment text.now ≡ Some rest.now) }
{
    let mut rest = text;
    while let [_, others @ ..] = rest {
        if let [b'*', b'/', after @ ..] = rest {
            return Some(after);
        }
        rest = others;
    }
    None
}

//! The tokens of a text, cut from its front one by one.
ghost use Rattle.std.specs.Prelude.{◌≡◌, MatchOption, None, Some, ◌<◌, ◌≤◌, length, IfOk, OnOk, IfErr, List, [], ◌++◌};
ghost use Rattle.std.specs.Prelude.{option_map, false};
ghost use Rattle.xdr_tokens.specs.Tokens.{Lexeme, lexeme, lexemes};
ghost use Rattle.xdr_tokens.specs.Due.{Gives};
ghost use Rattle.xdr_tokens.specs.Refusals.{IsTokenFault, wrong_number};
ghost use Rattle.xdr_tokens.specs.Text.{Tokens, with_token};
ghost use Rattle.xdr_tokens.specs.Private.Front.{comment_at, mark_of, numeral_at, is_blank, piece_at};

use crate::bytes::{digit, letter, run_length, skip_comment, space};
use crate::fault::{Fault, Wrong};
use crate::keyword::word_or_name;
use crate::number::number;
use crate::token::{Mark, Token};
use std::alloc::Global;

/// What is wrong with the text is at its beginning.
fn refused(wrong: Wrong, text: &[u8]) -> Fault
    ensures { result ≡ Fault.Refused wrong (length text.now) }
{
    Fault::Refused {
        wrong,
        left: text.len(),
    }
}

/// The mark with that byte.
fn mark_at(byte: u8) -> Option<Mark>
    ensures { result ≡ mark_of byte }
{
    match byte {
        b'{' => Some(Mark::OpenBrace),
        b'}' => Some(Mark::CloseBrace),
        b'(' => Some(Mark::OpenRound),
        b')' => Some(Mark::CloseRound),
        b'[' => Some(Mark::OpenBracket),
        b']' => Some(Mark::CloseBracket),
        b'<' => Some(Mark::Less),
        b'>' => Some(Mark::Greater),
        b'=' => Some(Mark::Equal),
        b',' => Some(Mark::Comma),
        b';' => Some(Mark::Semicolon),
        b':' => Some(Mark::Colon),
        b'*' => Some(Mark::Star),
        _ => None,
    }
}

/// What follows a comment, after its `/`.
#[tactic(auto, unfolding(crate::specs::Private::Front::comment_at))]
fn comment(text: &[u8]) -> Option<&[u8]>
    ensures { MatchOption result (comment_at text.now ≡ None) (λ rest. comment_at text.now ≡ Some rest.now) }
{
    match text {
        [b'*', inside @ ..] => skip_comment(inside),
        _ => None,
    }
}

/// What is wrong with a constant that is no number. A `-` that no digit follows begins no token.
fn wrong_numeral(text: &[u8]) -> Wrong
    ensures from_1 { 1 ≤ wrong_number result }
    ensures to_2 { wrong_number result ≤ 2 }
{
    match text {
        [b'-'] => Wrong::BadCharacter,
        [b'-', next, ..] if !digit(*next) => Wrong::BadCharacter,
        _ => Wrong::BadNumber,
    }
}

/// The number of the first `len` bytes, and what follows them.
fn numeral(text: &[u8], len: usize) -> Result<(Option<Token<'_>>, &[u8]), Fault>
    requires within { len ≤ length text.now }
    requires filled { 1 ≤ length text.now }
    ensures read { Gives (λ x. (option_map lexeme x.0, x.1.now)) result (numeral_at len text.now) }
    ensures refused { IfErr result (λ e. IsTokenFault text.now e) }
{
    let (run, rest) = text.split_at(len);
    match number(run) {
        Some(value) => Ok((Some(Token::Number(value, text.len())), rest)),
        None => Err(refused(wrong_numeral(text), text)),
    }
}

/// What follows white space in front, where there is some.
#[tactic(auto, unfolding(crate::specs::Private::Front::piece_at))]
fn after_blank(text: &[u8]) -> Option<&[u8]>
    ensures { MatchOption result (is_blank text.now ≡ false) (λ rest. piece_at text.now ≡ Some (None, rest.now)) }
{
    match text {
        [first, others @ ..] if space(*first) => Some(others),
        _ => None,
    }
}

/// The token in front, where no white space is, or none at a comment, and what follows.
#[tactic(auto, unfolding(crate::specs::Private::Front::piece_at))]
fn piece(text: &[u8]) -> Result<(Option<Token<'_>>, &[u8]), Fault>
    requires filled { 1 ≤ length text.now }
    requires printed { is_blank text.now ≡ false }
    ensures read { Gives (λ x. (option_map lexeme x.0, x.1.now)) result (piece_at text.now) }
    ensures refused { IfErr result (λ e. IsTokenFault text.now e) }
{
    let [first, others @ ..] = text else {
        unreachable!();
    };
    if *first == b'/' {
        return match comment(others) {
            Some(rest) => Ok((None, rest)),
            None => Err(refused(Wrong::BadCharacter, text)),
        };
    }
    if letter(*first) {
        let (run, rest) = text.split_at(run_length(text));
        return Ok((Some(word_or_name(run, text.len())), rest));
    }
    if digit(*first) {
        return numeral(text, run_length(text));
    }
    if *first == b'-' {
        return numeral(text, 1 + run_length(others));
    }
    match mark_at(*first) {
        Some(mark) => Ok((Some(Token::Sign(mark, text.len())), others)),
        None => Err(refused(Wrong::BadCharacter, text)),
    }
}

/// Keeps the token, where there is one.
fn keep<'a>(found: &mut Vec<Token<'a>>, token: Option<Token<'a>>) -> Result<(), Fault>
    ensures ok { OnOk result
        (lexemes found.new.items ≡ lexemes found.old.items ++ with_token (option_map lexeme token.entry) []) }
    ensures memory { IfErr result (λ e. e ≡ Fault.NoMemory) }
{
    if let Some(token) = token {
        found.push(token)?;
    }
    Ok(())
}

/// The tokens of a text, in order, each with how many bytes there are from it to the end
/// (RFC 4506 sections 6.2 and 6.4). White space and comments stand between them.
///
/// `BadCharacter` and `BadNumber` come at the first byte from which no token can be taken,
/// `NoMemory` where a growth was refused.
pub fn tokens(alloc: Global, text: &[u8]) -> Result<Vec<Token<'_>>, Fault>
    // What is given are tokens of the text.
    ensures found { IfOk result (λ v. Tokens text.now (lexemes v.items)) }
    // No others are, and a text that has tokens is read, unless memory runs out.
    ensures only { (ts : List Lexeme) → Tokens text.now ts → Gives (λ v. lexemes v.items) result (Some ts) }
    // A refusal is an allocation failure, or number 1 or 2 at a byte of the text.
    ensures refused { IfErr result (λ e. IsTokenFault text.now e) }
{
    let mut found = Vec::new(alloc);
    let mut rest = text;
    while !rest.is_empty() {
        if let Some(after) = after_blank(rest) {
            rest = after;
            continue;
        }
        let (token, after) = piece(rest)?;
        keep(&mut found, token)?;
        rest = after;
    }
    Ok(found)
}

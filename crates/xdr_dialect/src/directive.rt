//! What a line of `#` says.
ghost use Rattle.std.specs.Prelude.{◌≡◌, ◌≤◌, length};
ghost use Rattle.std.specs.Str.{bytes_eq};
ghost use Rattle.xdr_tokens.specs.Bytes.{is_word, run_length};
ghost use Rattle.xdr_dialect.specs.Directives.{word_in, after_word, is_name, is_among, defined};
ghost use Rattle.xdr_dialect.specs.Directives.{condition, after_minus, begins_digit, is_numeral, definition};
ghost use Rattle.xdr_dialect.specs.Directives.{directive_of, directive, name_of_definition};
ghost use Rattle.xdr_dialect.specs.Answers.{texts};

use crate::blanks::{after_blanks, closes, ends};
use crate::own_names::OwnNames;

/// What a line of `#` says.
#[derive(Clone, Copy)]
pub enum Directive {
    /// `#if`, `#ifdef`, `#ifndef`, and whether its condition holds, where that is known.
    Section(Option<bool>),
    /// `#else`.
    Otherwise,
    /// `#elif`, and whether its condition holds, where that is known.
    OtherwiseIf(Option<bool>),
    /// `#endif`.
    End,
    /// `#define` of a name, and whether it is a number; else it is nothing.
    Definition(bool),
    /// `#include`, `#pragma`, `#ident`, or `#` alone.
    Nothing,
    /// Another.
    Other,
}

/// A letter, a digit or `_`.
pub(crate) fn in_word(byte: u8) -> bool
    ensures { result ≡ is_word byte }
{
    byte.is_ascii_alphanumeric() || byte == b'_'
}

/// How many letters, digits and `_` stand in front.
#[tactic(auto, unfolding(xdr_tokens::specs::Bytes::run_length))]
fn run_length(text: &[u8]) -> usize
    ensures value { result ≡ run_length text.now }
    ensures within { result ≤ length text.now }
{
    let mut rest = text;
    let mut len = 0;
    while let [first, others @ ..] = rest {
        if !in_word(*first) {
            break;
        }
        rest = others;
        len += 1;
    }
    len
}

/// The letters, digits and `_` in front, and what follows them, blanks and comments.
fn word(text: &[u8]) -> (&[u8], &[u8])
    ensures word { result.0.now ≡ word_in text.now }
    ensures after { result.1.now ≡ after_word text.now }
{
    let (run, rest) = text.split_at(run_length(text));
    (run, after_blanks(rest))
}

/// The bytes are these letters.
fn spells(run: &[u8], word: &str) -> bool
    ensures { result ≡ bytes_eq run.now word.now }
{
    run == word.as_bytes()
}

/// The name is one of the caller's.
fn is_among(names: &[&str], run: &[u8]) -> bool
    ensures { result ≡ is_among (texts names.now) run.now }
{
    let mut rest = names;
    while let [name, others @ ..] = rest {
        if spells(run, name) {
            return true;
        }
        rest = others;
    }
    false
}

/// The name does not begin with a digit.
pub(crate) fn is_name(run: &[u8]) -> bool
    ensures { result ≡ is_name run.now }
{
    !matches!(run, [] | [b'0'..=b'9', ..])
}

/// Whether the name is defined, where there is one.
fn defined(names: &[&str], own: &OwnNames<'_>, run: &[u8]) -> Option<bool>
    ensures { result ≡ defined (texts names.now) (texts own.now.list.items) run.now }
{
    if !is_name(run) {
        return None;
    }
    Some(is_among(names, run) || own.has(run))
}

/// The condition of `#if`.
fn condition(names: &[&str], own: &OwnNames<'_>, text: &[u8]) -> Option<bool>
    ensures { result ≡ condition (texts names.now) (texts own.now.list.items) text.now }
{
    let (run, rest) = word(text);
    if !ends(rest) || own.has(run) {
        return None;
    }
    if spells(run, "0") {
        return Some(false);
    }
    if spells(run, "1") {
        return Some(true);
    }
    defined(names, own, run)
}

/// What follows a `-` in front.
fn after_minus(text: &[u8]) -> &[u8]
    ensures { result.now ≡ after_minus text.now }
{
    match text {
        [b'-', others @ ..] => others,
        _ => text,
    }
}

/// A digit is in front.
fn begins_digit(text: &[u8]) -> bool
    ensures { result ≡ begins_digit text.now }
{
    matches!(text, [b'0'..=b'9', ..])
}

/// A number, and nothing else on the line.
fn is_numeral(text: &[u8]) -> bool
    ensures { result ≡ is_numeral text.now }
{
    let digits = after_minus(text);
    begins_digit(digits) && ends(word(digits).1)
}

/// What a line of `#define` says.
fn definition(text: &[u8]) -> Directive
    ensures { result ≡ definition text.now }
{
    let (name, rest) = word(text);
    if !is_name(name) {
        Directive::Other
    } else if ends(rest) {
        Directive::Definition(false)
    } else if is_numeral(rest) {
        Directive::Definition(true)
    } else {
        Directive::Other
    }
}

/// What the word behind `#` says, and what follows it.
fn directive_of(names: &[&str], own: &OwnNames<'_>, run: &[u8], rest: &[u8]) -> Directive
    ensures { result ≡ directive_of (texts names.now) (texts own.now.list.items) run.now rest.now }
{
    if spells(run, "ifdef") {
        Directive::Section(defined(names, own, word(rest).0))
    } else if spells(run, "ifndef") {
        Directive::Section(defined(names, own, word(rest).0).map(|holds| !holds))
    } else if spells(run, "if") {
        Directive::Section(condition(names, own, rest))
    } else if spells(run, "else") {
        Directive::Otherwise
    } else if spells(run, "endif") {
        Directive::End
    } else if spells(run, "define") {
        definition(rest)
    } else if spells(run, "elif") {
        Directive::OtherwiseIf(condition(names, own, rest))
    } else if spells(run, "include")
        || spells(run, "pragma")
        || spells(run, "ident")
        || spells(run, "") && ends(rest)
    {
        Directive::Nothing
    } else {
        Directive::Other
    }
}

/// What a line of `#` says, from what follows the `#`, where the text has defined these names of its own.
pub(crate) fn read_directive(names: &[&str], own: &OwnNames<'_>, text: &[u8]) -> Directive
    ensures { result ≡ directive (texts names.now) (texts own.now.list.items) text.now }
{
    if !closes(text) {
        return Directive::Other;
    }
    let (run, rest) = word(after_blanks(text));
    directive_of(names, own, run, rest)
}

/// The name of `#define`, from what follows the `#`.
pub(crate) fn name_of_definition(text: &[u8]) -> &[u8]
    ensures { result.now ≡ name_of_definition text.now }
{
    word(word(after_blanks(text)).1).0
}

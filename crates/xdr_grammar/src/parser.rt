//! The parser: the tokens that are left, taken from left to right.
ghost use Rattle.std.specs.Prelude.{◌≡◌, true, false, Some, None};
ghost use Rattle.xdr_grammar.specs.Private.Taking.{after_word, after_sign, either_sign};
ghost use Rattle.xdr_grammar.specs.Private.Parsing.{left, so_far, Parses, Takes, place_in};

use crate::misread::{Misplaced, Misread};
use crate::outline::Outline;
use std::alloc::Global;
use xdr_tokens::{Keyword, Mark, Token};

/// How many bodies of structs, unions and enums may stand inside one another.
pub(crate) const MAX_DEPTH: u32 = 32;

/// The tokens that are left, the place of the definition at work, and what was declared so far.
#[derive(Drop)]
pub(crate) struct Parser<'t, 'a> {
    pub(crate) alloc: Global,
    pub(crate) rest: &'t [Token<'a>],
    pub(crate) start: usize,
    pub(crate) outline: Outline<'a>,
}

impl<'t, 'a> Parser<'t, 'a> {
    /// The place of the token in front.
    pub(crate) fn here(&self) -> usize
        ensures { result ≡ place_in self.now.rest.now }
    {
        match self.rest {
            [Token::Word(_, left), ..] => *left,
            [Token::Name(_, left), ..] => *left,
            [Token::Number(_, left), ..] => *left,
            [Token::Sign(_, left), ..] => *left,
            [] => 0,
        }
    }

    /// The token in front is wrong.
    pub(crate) fn refused(&self, why: Misplaced) -> Misread
        ensures { result ≡ Misread.Token why (place_in self.now.rest.now) }
    {
        Misread::Token {
            why,
            left: self.here(),
        }
    }

    /// The token in front can't continue the grammar.
    pub(crate) fn unexpected(&self) -> Misread
        ensures { result ≡ Misread.Token Misplaced.Unexpected (place_in self.now.rest.now) }
    {
        self.refused(Misplaced::Unexpected)
    }

    /// Takes the keyword, where it is in front.
    #[tactic(auto, unfolding(crate::specs::Private::Taking::after_word))]
    pub(crate) fn word(&mut self, wanted: Keyword) -> bool
        ensures yes { result ≡ true → after_word wanted (left self.old) ≡ Some (left self.new) }
        ensures no { result ≡ false → after_word wanted (left self.old) ≡ None }
        ensures same { result ≡ false → left self.new ≡ left self.old }
        ensures made { so_far self.new ≡ so_far self.old }
    {
        match self.rest {
            [Token::Word(word, _), rest @ ..] if *word == wanted => {
                self.rest = rest;
                true
            }
            _ => false,
        }
    }

    /// Takes the mark, where it is in front.
    #[tactic(auto, unfolding(crate::specs::Private::Taking::after_sign))]
    pub(crate) fn sign(&mut self, wanted: Mark) -> bool
        ensures yes { result ≡ true → after_sign wanted (left self.old) ≡ Some (left self.new) }
        ensures no { result ≡ false → after_sign wanted (left self.old) ≡ None }
        ensures same { result ≡ false → left self.new ≡ left self.old }
        ensures made { so_far self.new ≡ so_far self.old }
    {
        match self.rest {
            [Token::Sign(mark, _), rest @ ..] if *mark == wanted => {
                self.rest = rest;
                true
            }
            _ => false,
        }
    }

    /// Takes the mark, which has to be in front.
    pub(crate) fn expect(&mut self, wanted: Mark) -> Result<(), Misread>
        ensures read { Parses (λ _. left self.new) result (after_sign wanted (left self.old)) }
        ensures made { so_far self.new ≡ so_far self.old }
    {
        if self.sign(wanted) {
            Ok(())
        } else {
            Err(self.unexpected())
        }
    }

    /// Takes the keyword, which has to be in front.
    pub(crate) fn expect_word(&mut self, wanted: Keyword) -> Result<(), Misread>
        ensures read { Parses (λ _. left self.new) result (after_word wanted (left self.old)) }
        ensures made { so_far self.new ≡ so_far self.old }
    {
        if self.word(wanted) {
            Ok(())
        } else {
            Err(self.unexpected())
        }
    }

    /// Takes one of two marks, and says whether it is the first.
    #[tactic(auto, unfolding(crate::specs::Private::Taking::either_sign))]
    pub(crate) fn either(&mut self, on: Mark, end: Mark) -> Result<bool, Misread>
        ensures read { Takes (λ x. x) result (either_sign on end) self.old self.new }
        ensures made { so_far self.new ≡ so_far self.old }
    {
        if self.sign(on) {
            return Ok(true);
        }
        self.expect(end)?;
        Ok(false)
    }
}

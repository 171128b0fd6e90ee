//! Names, constants, sizes and the types that are there without a definition.
ghost use Rattle.std.specs.Prelude.{◌≡◌, true, false, Some, None, option_map};
ghost use Rattle.xdr_grammar.specs.View.{late_of, part_of};
ghost use Rattle.xdr_grammar.specs.Private.Taking.{name_at, number_at, value_at, size_at, limit_at, numbered_at};
ghost use Rattle.xdr_grammar.specs.Private.Reading.{int_at};
ghost use Rattle.xdr_grammar.specs.Private.Reading.{basic_at};
ghost use Rattle.xdr_grammar.specs.Private.Parsing.{left, so_far, Takes};

use crate::misread::{Misplaced, Misread};
use crate::outline::{Basic, Late, Name, Number, Part};
use crate::parser::Parser;
use xdr_tokens::{Keyword, Mark, Token};

impl<'t, 'a> Parser<'t, 'a> {
    /// The name in front.
    #[tactic(auto, unfolding(crate::specs::Private::Taking::name_at))]
    pub(crate) fn name(&mut self) -> Result<Name<'a>, Misread>
        ensures read { Takes (λ x. x.text.now) result name_at self.old self.new }
        ensures made { so_far self.new ≡ so_far self.old }
    {
        match self.rest {
            [Token::Name(text, left), rest @ ..] => {
                self.rest = rest;
                Ok(Name { text, left: *left })
            }
            _ => Err(self.unexpected()),
        }
    }

    /// The constant in front.
    #[tactic(auto, unfolding(crate::specs::Private::Taking::number_at))]
    fn number(&mut self) -> Result<Number, Misread>
        ensures read { Takes (λ x. x.value) result number_at self.old self.new }
        ensures made { so_far self.new ≡ so_far self.old }
    {
        match self.rest {
            [Token::Number(value, left), rest @ ..] => {
                self.rest = rest;
                Ok(Number {
                    value: *value,
                    left: *left,
                })
            }
            _ => Err(self.unexpected()),
        }
    }

    /// The value in front.
    #[tactic(auto, unfolding(crate::specs::Private::Taking::value_at))]
    pub(crate) fn value(&mut self) -> Result<Late<'a>, Misread>
        ensures read { Takes late_of result (value_at (so_far self.old)) self.old self.new }
        ensures made { so_far self.new ≡ so_far self.old }
    {
        match self.rest {
            [Token::Name(text, left), rest @ ..] => {
                self.rest = rest;
                let name = Name { text, left: *left };
                let before = self.outline.constants.len();
                Ok(Late::Earlier { name, before })
            }
            [Token::Number(value, left), rest @ ..] => {
                self.rest = rest;
                Ok(Late::Given(Number {
                    value: *value,
                    left: *left,
                }))
            }
            _ => Err(self.unexpected()),
        }
    }

    /// A size and its closing bracket.
    #[tactic(auto, unfolding(crate::specs::Private::Taking::size_at))]
    pub(crate) fn size(&mut self) -> Result<Late<'a>, Misread>
        ensures read { Takes late_of result (size_at (so_far self.old)) self.old self.new }
        ensures made { so_far self.new ≡ so_far self.old }
    {
        let value = self.value()?;
        self.expect(Mark::CloseBracket)?;
        Ok(value)
    }

    /// What stands between `<` and `>`, and the `>`.
    #[tactic(auto, unfolding(crate::specs::Private::Taking::limit_at))]
    pub(crate) fn limit(&mut self) -> Result<Option<Late<'a>>, Misread>
        ensures read { Takes (λ x. option_map late_of x) result (limit_at (so_far self.old)) self.old self.new }
        ensures made { so_far self.new ≡ so_far self.old }
    {
        if self.sign(Mark::Greater) {
            return Ok(None);
        }
        let value = self.value()?;
        self.expect(Mark::Greater)?;
        Ok(Some(value))
    }

    /// What stands between `=` and `;`, and both.
    #[tactic(auto, unfolding(crate::specs::Private::Taking::numbered_at))]
    pub(crate) fn numbered(&mut self) -> Result<Number, Misread>
        ensures read { Takes (λ x. x.value) result numbered_at self.old self.new }
        ensures made { so_far self.new ≡ so_far self.old }
    {
        self.expect(Mark::Equal)?;
        let number = self.number()?;
        self.expect(Mark::Semicolon)?;
        Ok(number)
    }

    /// The token in front is the word of a floating kind.
    #[tactic(auto, unfolding(crate::specs::Private::Taking::name_at))]
    fn is_floating(&self) -> bool
        ensures { result ≡ true → name_at (left self.now) ≡ None }
    {
        match self.rest {
            [Token::Word(Keyword::Double, _), ..] => true,
            [Token::Word(Keyword::Float, _), ..] => true,
            [Token::Word(Keyword::Quadruple, _), ..] => true,
            _ => false,
        }
    }

    /// Takes `int`, or `long`, which stands for the same.
    #[tactic(auto, unfolding(crate::specs::Private::Reading::int_at))]
    fn int(&mut self) -> bool
        ensures yes { result ≡ true → int_at (left self.old) ≡ Some (left self.new) }
        ensures no { result ≡ false → int_at (left self.old) ≡ None }
        ensures same { result ≡ false → left self.new ≡ left self.old }
        ensures made { so_far self.new ≡ so_far self.old }
    {
        self.word(Keyword::Int) || self.word(Keyword::Long)
    }

    /// A basic type or the name of a type, with or without `struct`.
    #[tactic(auto, unfolding(crate::specs::Private::Reading::basic_at))]
    pub(crate) fn basic(&mut self) -> Result<Part<'a>, Misread>
        ensures read { Takes part_of result basic_at self.old self.new }
        ensures made { so_far self.new ≡ so_far self.old }
    {
        if self.word(Keyword::Unsigned) {
            if self.int() {
                return Ok(Part::Basic(Basic::Unsigned));
            }
            self.expect_word(Keyword::Hyper)?;
            return Ok(Part::Basic(Basic::UnsignedHyper));
        }
        if self.int() {
            return Ok(Part::Basic(Basic::Int));
        }
        if self.word(Keyword::Hyper) {
            return Ok(Part::Basic(Basic::Hyper));
        }
        if self.word(Keyword::Bool) {
            return Ok(Part::Basic(Basic::Bool));
        }
        if self.word(Keyword::Struct) {
            let name = self.name()?;
            return Ok(Part::Struct(name));
        }
        if self.is_floating() {
            return Err(self.refused(Misplaced::FloatingKind));
        }
        let name = self.name()?;
        Ok(Part::Named(name))
    }
}

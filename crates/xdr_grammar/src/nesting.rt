//! Where bodies of structs, unions and enums begin, and which one is one too many.
ghost use Rattle.std.specs.Prelude.{◌≡◌, Some, None, IfSome, is_some};
ghost use Rattle.xdr_grammar.specs.Private.Reading.{named_struct_at, body_word_at, inner_word_at};
ghost use Rattle.xdr_grammar.specs.Private.Parsing.{left, so_far};

use crate::misread::Misread;
use crate::outline::{BodyKind, Field};
use crate::parser::Parser;
use xdr_tokens::{Keyword, Mark, Token};

impl<'t, 'a> Parser<'t, 'a> {
    /// The word that begins a body.
    #[tactic(auto, unfolding(crate::specs::Private::Reading::body_word_at))]
    pub(crate) fn body_word(&mut self) -> Option<BodyKind>
        ensures some { IfSome result (λ k. body_word_at (left self.old) ≡ Some (k, left self.new)) }
        ensures none { result ≡ None → body_word_at (left self.old) ≡ None }
        ensures same { result ≡ None → left self.new ≡ left self.old }
        ensures made { so_far self.new ≡ so_far self.old }
    {
        if self.word(Keyword::Enum) {
            return Some(BodyKind::Enum);
        }
        if self.word(Keyword::Struct) {
            return Some(BodyKind::Struct);
        }
        if self.word(Keyword::Union) {
            return Some(BodyKind::Union);
        }
        None
    }

    // Whether `struct` and a name come first.
    #[tactic(auto, unfolding(crate::specs::Private::Taking::after_word, crate::specs::Private::Taking::name_at))]
    fn names_a_struct(&self) -> bool
        ensures { is_some (named_struct_at (left self.now)) ≡ result }
    {
        matches!(
            self.rest,
            [Token::Word(Keyword::Struct, _), Token::Name(_, _), ..]
        )
    }

    /// The same where a type specifier is due: `struct` and a name begin no body.
    #[tactic(auto, unfolding(crate::specs::Private::Reading::inner_word_at))]
    pub(crate) fn inner_word(&mut self) -> Option<BodyKind>
        ensures some { IfSome result (λ k. inner_word_at (left self.old) ≡ Some (k, left self.new)) }
        ensures none { result ≡ None → inner_word_at (left self.old) ≡ None }
        ensures same { result ≡ None → left self.new ≡ left self.old }
        ensures made { so_far self.new ≡ so_far self.old }
    {
        if self.names_a_struct() {
            return None;
        }
        self.body_word()
    }

    /// The switch declaration of a union whose body is one too many, where no body stands in it.
    fn flat_declaration(&mut self) -> Result<Field<'a>, Misread> {
        let start = self.here();
        if self.word(Keyword::Opaque) {
            return self.opaque(start);
        }
        if self.word(Keyword::String) {
            return self.text(start);
        }
        let part = self.basic()?;
        self.declared(part, start)
    }

    /// The mark in front has to be a `{`, which stays.
    fn brace(&self) -> Result<(), Misread> {
        match self.rest {
            [Token::Sign(Mark::OpenBrace, _), ..] => Ok(()),
            _ => Err(self.unexpected()),
        }
    }

    /// Goes on to the first `{` of a body that is one too many. A body in the switch declaration of a
    /// union is inside the union's, and its `{` comes first.
    pub(crate) fn to_the_brace(&mut self, kind: BodyKind) -> Result<(), Misread> {
        let mut kind = kind;
        for _ in 0..self.rest.len() {
            if kind != BodyKind::Union {
                break;
            }
            self.expect_word(Keyword::Switch)?;
            self.expect(Mark::OpenRound)?;
            match self.inner_word() {
                Some(inner) => kind = inner,
                None => {
                    self.flat_declaration()?;
                    self.expect(Mark::CloseRound)?;
                    break;
                }
            }
        }
        self.brace()
    }
}

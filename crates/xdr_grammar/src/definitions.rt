//! Definitions, one after the other.
ghost use Rattle.std.specs.Prelude.{◌≡◌, length, Some, IfOk, IfErr};
ghost use Rattle.xdr_tokens.specs.Due.{Gives};
ghost use Rattle.xdr_tokens.specs.Tokens.{lexemes};
ghost use Rattle.xdr_grammar.specs.Misreadings.{IsGrammarFault};
ghost use Rattle.xdr_grammar.specs.Outline.{Outline as OutlineSpec};
ghost use Rattle.xdr_grammar.specs.Spelled.{IsOutline};
ghost use Rattle.xdr_grammar.specs.View.{outline_of, part_of};
ghost use Rattle.xdr_grammar.specs.Private.Reading.{declaration_with, specifier_at, const_at, typedef_with};
ghost use Rattle.xdr_grammar.specs.Private.Reading.{defined_part};
ghost use Rattle.xdr_grammar.specs.Private.Reading.{defined_with, definition_at, definitions_at};
ghost use Rattle.xdr_grammar.specs.Private.Parsing.{left, so_far, Parses, Defines};

use crate::misread::{Misread, fault_of};
use crate::outline::{BodyKind, Field, Late, Outline, Part};
use crate::parser::{MAX_DEPTH, Parser};
use std::alloc::Global;
use xdr_tokens::{Fault, Keyword, Mark, Token};

/// What a definition with that body declares its name as. The kind of a struct is reported by `struct` too.
fn defined_part(kind: BodyKind, part: Part<'_>) -> Part<'_>
    ensures { part_of result ≡ defined_part kind (part_of part.entry) }
{
    match (kind, part) {
        (BodyKind::Struct, Part::Made(place)) => Part::StructMade(place),
        _ => part,
    }
}

impl<'t, 'a> Parser<'t, 'a> {
    /// What follows `const`.
    #[tactic(auto, unfolding(crate::specs::Private::Reading::const_at))]
    fn constant(&mut self) -> Result<(), Misread>
        ensures { Defines result const_at self.old self.new }
    {
        let name = self.name()?;
        let number = self.numbered()?;
        self.declare(name, Late::Given(number), true)
    }

    /// What follows `typedef`.
    #[tactic(auto, unfolding(crate::specs::Private::Reading::typedef_with))]
    fn typedef(&mut self) -> Result<(), Misread>
        ensures { Defines result (typedef_with (declaration_with (specifier_at 32))) self.old self.new }
    {
        let field = self.declaration(MAX_DEPTH)?;
        self.expect(Mark::Semicolon)?;
        self.add_type(field)
    }

    /// An enum, a struct or a union with its name.
    #[tactic(auto, unfolding(crate::specs::Private::Reading::defined_with))]
    fn defined(&mut self) -> Result<(), Misread>
        ensures { Defines result (defined_with (declaration_with (specifier_at 31))) self.old self.new }
    {
        let Some(kind) = self.body_word() else {
            return Err(self.unexpected());
        };
        let name = self.name()?;
        let part = self.body(kind, self.start, MAX_DEPTH - 1)?;
        self.expect(Mark::Semicolon)?;
        let part = defined_part(kind, part);
        self.add_type(Field { name, part })
    }

    /// A definition.
    #[tactic(auto, unfolding(crate::specs::Private::Reading::definition_at))]
    fn definition(&mut self) -> Result<(), Misread>
        ensures { Defines result definition_at self.old self.new }
    {
        self.start = self.here();
        if self.word(Keyword::Const) {
            return self.constant();
        }
        if self.word(Keyword::Typedef) {
            return self.typedef();
        }
        if self.word(Keyword::Program) {
            return self.program();
        }
        self.defined()
    }

    /// The definitions, to the end of the tokens.
    #[tactic(auto, unfolding(crate::specs::Private::Reading::definitions_at))]
    pub(crate) fn definitions(&mut self) -> Result<(), Misread>
        ensures { Parses (λ _. so_far self.new) result
            (definitions_at (length (left self.old)) (so_far self.old) (left self.old)) }
    {
        for _ in 0..self.rest.len() {
            if self.rest.is_empty() {
                return Ok(());
            }
            self.definition()?;
        }
        if self.rest.is_empty() {
            Ok(())
        } else {
            Err(self.unexpected())
        }
    }
}

/// What the definitions that the tokens spell declare, with names in place of what they stand for
/// (RFC 4506 section 6.3, RFC 5531 section 12.2).
///
/// The first token that cannot continue the grammar is `Unexpected`, or `FloatingKind` at the word of a floating-point
/// type where a type may begin. The `{` of a 33rd body inside others is `NestedTooDeep`. `NoMemory` comes where a
/// growth was refused.
pub fn read_outline<'a>(alloc: Global, tokens: &[Token<'a>]) -> Result<Outline<'a>, Fault>
    // What is read are the tokens of definitions.
    ensures found { IfOk result (λ v. IsOutline (lexemes tokens.now) (outline_of v)) }
    // The tokens of all definitions are read, unless memory runs out.
    ensures only { (v : OutlineSpec) → IsOutline (lexemes tokens.now) v → Gives outline_of result (Some v) }
    // A refusal is an allocation failure, or number 3, 4 or 12.
    ensures refused { IfErr result (λ e. IsGrammarFault e) }
{
    let mut parser = Parser {
        alloc,
        rest: tokens,
        start: 0,
        outline: Outline {
            constants: Vec::new(alloc),
            drafts: Vec::new(alloc),
            types: Vec::new(alloc),
            programs: Vec::new(alloc),
        },
    };
    match parser.definitions() {
        Ok(()) => {
            let Parser { outline, .. } = parser;
            Ok(outline)
        }
        Err(misread) => Err(fault_of(misread)),
    }
}

//! Declarations, and the bodies of structs and unions, which stand inside one another.
ghost use Rattle.std.specs.Prelude.{length, map, option_map};
ghost use Rattle.xdr_grammar.specs.View.{late_of, part_of, field_of, arm_of};
ghost use Rattle.xdr_grammar.specs.Private.Reading.{repeat, declaration_with, content_with, field_with, struct_with};
ghost use Rattle.xdr_grammar.specs.Private.Reading.{case_at, arm_with, default_with, switch_with, union_with};
ghost use Rattle.xdr_grammar.specs.Private.Reading.{body_with};
ghost use Rattle.xdr_grammar.specs.Private.Reading.{specifier_at};
ghost use Rattle.xdr_grammar.specs.Private.Parsing.{left, Reads};

use crate::misread::{Misplaced, Misread};
use crate::outline::{Arm, BodyKind, Field, Late, Name, Part, Shape};
use crate::parser::Parser;
use xdr_tokens::{Keyword, Mark};

impl<'t, 'a> Parser<'t, 'a> {
    /// A declaration, but not void.
    #[cycle(declarations)]
    #[tactic(auto, unfolding(crate::specs::Private::Reading::declaration_with))]
    pub(crate) fn declaration(&mut self, depth: u32) -> Result<Field<'a>, Misread>
        ensures { Reads field_of result (declaration_with (specifier_at depth)) self.old self.new }
    {
        let start = self.here();
        if self.word(Keyword::Opaque) {
            return self.opaque(start);
        }
        if self.word(Keyword::String) {
            return self.text(start);
        }
        let part = self.specifier(start, depth)?;
        self.declared(part, start)
    }

    /// A declaration or void.
    #[cycle(declarations)]
    #[tactic(auto, unfolding(crate::specs::Private::Reading::content_with))]
    fn content(&mut self, depth: u32) -> Result<Field<'a>, Misread>
        ensures { Reads field_of result (content_with (declaration_with (specifier_at depth))) self.old self.new }
    {
        let left = self.here();
        if self.word(Keyword::Void) {
            return Ok(Field {
                name: Name { text: "", left },
                part: Part::Void,
            });
        }
        self.declaration(depth)
    }

    /// A field of a struct, and whether another one follows.
    #[cycle(declarations)]
    #[tactic(auto, unfolding(crate::specs::Private::Reading::field_with))]
    fn field(&mut self, depth: u32) -> Result<(Field<'a>, bool), Misread>
        ensures { Reads (λ x. (field_of x.0, x.1)) result
            (field_with (content_with (declaration_with (specifier_at depth)))) self.old self.new }
    {
        let field = self.content(depth)?;
        self.expect(Mark::Semicolon)?;
        let last = self.sign(Mark::CloseBrace);
        Ok((field, !last))
    }

    /// The fields of a struct and its `}`.
    #[cycle(declarations)]
    #[tactic(auto, unfolding(crate::specs::Private::Reading::repeat))]
    fn fields(&mut self, depth: u32) -> Result<Vec<Field<'a>>, Misread>
        ensures { Reads (λ x. map field_of x.items) result
            (repeat (field_with (content_with (declaration_with (specifier_at depth)))) (length (left self.old)))
            self.old self.new }
    {
        let mut fields = Vec::new(self.alloc);
        for _ in 0..self.rest.len() {
            let (field, more) = self.field(depth)?;
            fields.push(field)?;
            if !more {
                return Ok(fields);
            }
        }
        Err(self.unexpected())
    }

    /// What follows `struct`.
    #[cycle(declarations)]
    #[tactic(auto, unfolding(crate::specs::Private::Reading::struct_with))]
    fn struct_body(&mut self, start: usize, depth: u32) -> Result<Part<'a>, Misread>
        ensures { Reads part_of result
            (struct_with (content_with (declaration_with (specifier_at depth)))) self.old self.new }
    {
        self.expect(Mark::OpenBrace)?;
        let fields = self.fields(depth)?;
        self.add(Shape::Structure(fields), start)
    }

    /// A value and `:` after `case`, and whether another `case` follows.
    #[tactic(auto, unfolding(crate::specs::Private::Reading::case_at))]
    fn case(&mut self) -> Result<(Late<'a>, bool), Misread>
        ensures { Reads (λ x. (late_of x.0, x.1)) result case_at self.old self.new }
    {
        let value = self.value()?;
        self.expect(Mark::Colon)?;
        let more = self.word(Keyword::Case);
        Ok((value, more))
    }

    /// The values of an arm.
    #[tactic(auto, unfolding(crate::specs::Private::Reading::repeat))]
    fn cases(&mut self) -> Result<Vec<Late<'a>>, Misread>
        ensures { Reads (λ x. map late_of x.items) result (repeat case_at (length (left self.old))) self.old self.new }
    {
        let mut cases = Vec::new(self.alloc);
        for _ in 0..self.rest.len() {
            let (value, more) = self.case()?;
            cases.push(value)?;
            if !more {
                return Ok(cases);
            }
        }
        Err(self.unexpected())
    }

    /// An arm of a union after its first `case`, and whether another `case` follows.
    #[cycle(declarations)]
    #[tactic(auto, unfolding(crate::specs::Private::Reading::arm_with))]
    fn arm(&mut self, depth: u32) -> Result<(Arm<'a>, bool), Misread>
        ensures { Reads (λ x. (arm_of x.0, x.1)) result
            (arm_with (content_with (declaration_with (specifier_at depth)))) self.old self.new }
    {
        let cases = self.cases()?;
        let member = self.content(depth)?;
        self.expect(Mark::Semicolon)?;
        let more = self.word(Keyword::Case);
        Ok((Arm { cases, member }, more))
    }

    /// The arms of a union after the first `case`.
    #[cycle(declarations)]
    #[tactic(auto, unfolding(crate::specs::Private::Reading::repeat))]
    fn arms(&mut self, depth: u32) -> Result<Vec<Arm<'a>>, Misread>
        ensures { Reads (λ x. map arm_of x.items) result
            (repeat (arm_with (content_with (declaration_with (specifier_at depth)))) (length (left self.old))) self.old
            self.new }
    {
        let mut arms = Vec::new(self.alloc);
        for _ in 0..self.rest.len() {
            let (arm, more) = self.arm(depth)?;
            arms.push(arm)?;
            if !more {
                return Ok(arms);
            }
        }
        Err(self.unexpected())
    }

    /// The default of a union, where it has one.
    #[cycle(declarations)]
    #[tactic(auto, unfolding(crate::specs::Private::Reading::default_with))]
    fn default(&mut self, depth: u32) -> Result<Option<Field<'a>>, Misread>
        ensures { Reads (λ x. option_map field_of x) result
            (default_with (content_with (declaration_with (specifier_at depth)))) self.old self.new }
    {
        if !self.word(Keyword::Default) {
            return Ok(None);
        }
        self.expect(Mark::Colon)?;
        let member = self.content(depth)?;
        self.expect(Mark::Semicolon)?;
        Ok(Some(member))
    }

    /// What follows `union`, as far as the first `case`.
    #[cycle(declarations)]
    #[tactic(auto, unfolding(crate::specs::Private::Reading::switch_with))]
    fn switch(&mut self, depth: u32) -> Result<Field<'a>, Misread>
        ensures { Reads field_of result (switch_with (declaration_with (specifier_at depth))) self.old self.new }
    {
        self.expect_word(Keyword::Switch)?;
        self.expect(Mark::OpenRound)?;
        let tag = self.declaration(depth)?;
        self.expect(Mark::CloseRound)?;
        self.expect(Mark::OpenBrace)?;
        self.expect_word(Keyword::Case)?;
        Ok(tag)
    }

    /// What follows `union`.
    #[cycle(declarations)]
    #[tactic(auto, unfolding(crate::specs::Private::Reading::union_with))]
    fn union_body(&mut self, start: usize, depth: u32) -> Result<Part<'a>, Misread>
        ensures { Reads part_of result (union_with (declaration_with (specifier_at depth))) self.old self.new }
    {
        let tag = self.switch(depth)?;
        let arms = self.arms(depth)?;
        let other = self.default(depth)?;
        self.expect(Mark::CloseBrace)?;
        self.add(Shape::Choice(tag.part, arms, other), start)
    }

    /// A body, with at most so many bodies inside it.
    #[cycle(declarations)]
    #[tactic(auto, unfolding(crate::specs::Private::Reading::body_with))]
    pub(crate) fn body(
        &mut self,
        kind: BodyKind,
        start: usize,
        depth: u32,
    ) -> Result<Part<'a>, Misread>
        ensures { Reads part_of result (body_with (declaration_with (specifier_at depth)) kind) self.old self.new }
    {
        match kind {
            BodyKind::Enum => self.enum_body(start),
            BodyKind::Struct => self.struct_body(start, depth),
            BodyKind::Union => self.union_body(start, depth),
        }
    }

    /// A type specifier, spelled by what begins at `start`, with at most so many bodies inside one
    /// another.
    #[cycle(declarations)]
    #[tactic(auto, unfolding(crate::specs::Private::Reading::specifier_at))]
    pub(crate) fn specifier(&mut self, start: usize, depth: u32) -> Result<Part<'a>, Misread>
        ensures { Reads part_of result (specifier_at depth) self.old self.new }
    {
        match self.inner_word() {
            Some(kind) if depth == 0 => {
                self.to_the_brace(kind)?;
                Err(self.refused(Misplaced::NestedTooDeep))
            }
            Some(kind) => self.body(kind, start, depth - 1),
            None => self.basic(),
        }
    }
}

//! What follows the type in a declaration: its name, and brackets or a star.
ghost use Rattle.xdr_grammar.specs.View.{part_of, field_of, shape_of};
ghost use Rattle.xdr_grammar.specs.Private.Reading.{makes, opaque_at, text_at, declared_at};
ghost use Rattle.xdr_grammar.specs.Private.Parsing.{Reads};

use crate::misread::Misread;
use crate::outline::{Field, Name, Part, Shape};
use crate::parser::Parser;
use xdr_tokens::Mark;

impl<'t, 'a> Parser<'t, 'a> {
    /// A field of a kind that is added, spelled by what begins at `start`.
    fn made(&mut self, name: Name<'a>, shape: Shape<'a>, start: usize) -> Result<Field<'a>, Misread>
        ensures { Reads field_of result (makes name.entry.text.now (shape_of shape.entry)) self.old self.new }
    {
        let part = self.add(shape, start)?;
        Ok(Field { name, part })
    }

    /// What follows `opaque`, which stands at `start`.
    #[tactic(auto, unfolding(crate::specs::Private::Reading::opaque_at))]
    pub(crate) fn opaque(&mut self, start: usize) -> Result<Field<'a>, Misread>
        ensures { Reads field_of result opaque_at self.old self.new }
    {
        let name = self.name()?;
        if self.sign(Mark::OpenBracket) {
            let size = self.size()?;
            return self.made(name, Shape::Opaque(size), start);
        }
        self.expect(Mark::Less)?;
        let max = self.limit()?;
        self.made(name, Shape::OpaqueUpTo(max), start)
    }

    /// What follows `string`, which stands at `start`.
    #[tactic(auto, unfolding(crate::specs::Private::Reading::text_at))]
    pub(crate) fn text(&mut self, start: usize) -> Result<Field<'a>, Misread>
        ensures { Reads field_of result text_at self.old self.new }
    {
        let name = self.name()?;
        self.expect(Mark::Less)?;
        let max = self.limit()?;
        self.made(name, Shape::Text(max), start)
    }

    /// What follows a type specifier, which begins at `start`.
    #[tactic(auto, unfolding(crate::specs::Private::Reading::declared_at))]
    pub(crate) fn declared(&mut self, part: Part<'a>, start: usize) -> Result<Field<'a>, Misread>
        ensures { Reads field_of result (declared_at (part_of part.entry)) self.old self.new }
    {
        if self.sign(Mark::Star) {
            let name = self.name()?;
            return self.made(name, Shape::Maybe(part), start);
        }
        let name = self.name()?;
        if self.sign(Mark::OpenBracket) {
            let size = self.size()?;
            return self.made(name, Shape::Fixed(part, size), start);
        }
        if self.sign(Mark::Less) {
            let max = self.limit()?;
            return self.made(name, Shape::UpTo(part, max), start);
        }
        Ok(Field { name, part })
    }
}

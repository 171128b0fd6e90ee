//! The bodies of enums.
ghost use Rattle.std.specs.Prelude.{length, map};
ghost use Rattle.xdr_grammar.specs.View.{part_of, member_of};
ghost use Rattle.xdr_grammar.specs.Private.Reading.{repeat, member_at, enum_at};
ghost use Rattle.xdr_grammar.specs.Private.Parsing.{left, Reads};

use crate::misread::Misread;
use crate::outline::{Member, Part, Shape};
use crate::parser::Parser;
use xdr_tokens::Mark;

impl<'t, 'a> Parser<'t, 'a> {
    /// A member of an enum, and whether another one follows.
    #[tactic(auto, unfolding(crate::specs::Private::Reading::member_at))]
    fn member(&mut self) -> Result<(Member<'a>, bool), Misread>
        ensures { Reads (λ x. (member_of x.0, x.1)) result member_at self.old self.new }
    {
        let name = self.name()?;
        self.expect(Mark::Equal)?;
        let value = self.value()?;
        let more = self.either(Mark::Comma, Mark::CloseBrace)?;
        self.declare(name, value, false)?;
        Ok((Member { name, value }, more))
    }

    /// The members of an enum and its `}`.
    #[tactic(auto, unfolding(crate::specs::Private::Reading::repeat))]
    fn members(&mut self) -> Result<Vec<Member<'a>>, Misread>
        ensures { Reads (λ x. map member_of x.items) result
            (repeat member_at (length (left self.old))) self.old self.new }
    {
        let mut members = Vec::new(self.alloc);
        for _ in 0..self.rest.len() {
            let (member, more) = self.member()?;
            members.push(member)?;
            if !more {
                return Ok(members);
            }
        }
        Err(self.unexpected())
    }

    /// What follows `enum`.
    #[tactic(auto, unfolding(crate::specs::Private::Reading::enum_at))]
    pub(crate) fn enum_body(&mut self, start: usize) -> Result<Part<'a>, Misread>
        ensures { Reads part_of result enum_at self.old self.new }
    {
        self.expect(Mark::OpenBrace)?;
        let members = self.members()?;
        self.add(Shape::Numbered(members), start)
    }
}

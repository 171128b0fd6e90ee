//! What is declared is added to the lists so far.
ghost use Rattle.std.specs.Prelude.{◌≡◌, OnOk, IfOk, IfErr};
ghost use Rattle.xdr_grammar.specs.Outline.{declare, place, add, add_type, add_program};
ghost use Rattle.xdr_grammar.specs.View.{late_of, part_of, field_of, shape_of, program_of};
ghost use Rattle.xdr_grammar.specs.Private.Parsing.{left, so_far};

use crate::misread::Misread;
use crate::outline::{Draft, Entry, Field, Late, Name, Part, Program, Shape};
use crate::parser::Parser;

impl<'t, 'a> Parser<'t, 'a> {
    /// Adds a constant.
    pub(crate) fn declare(
        &mut self,
        name: Name<'a>,
        value: Late<'a>,
        by_const: bool,
    ) -> Result<(), Misread>
        ensures made { OnOk result (so_far self.new ≡ declare name.entry.text.now (late_of value.entry) by_const
            (so_far self.old)) }
        ensures left { left self.new ≡ left self.old }
        ensures memory { IfErr result (λ e. e ≡ Misread.NoMemory) }
    {
        self.outline.constants.push(Entry {
            name,
            value,
            by_const,
        })?;
        Ok(())
    }

    /// Adds a kind, spelled by what begins at `start`.
    pub(crate) fn add(&mut self, shape: Shape<'a>, start: usize) -> Result<Part<'a>, Misread>
        ensures part { IfOk result (λ p. part_of p ≡ place (so_far self.old)) }
        ensures made { OnOk result (so_far self.new ≡ add (shape_of shape.entry) (so_far self.old)) }
        ensures left { left self.new ≡ left self.old }
        ensures memory { IfErr result (λ e. e ≡ Misread.NoMemory) }
    {
        let place = self.outline.drafts.len();
        self.outline.drafts.push(Draft { shape, left: start })?;
        Ok(Part::Made(place))
    }

    /// Adds a type.
    pub(crate) fn add_type(&mut self, field: Field<'a>) -> Result<(), Misread>
        ensures made { OnOk result (so_far self.new ≡ add_type (field_of field.entry) (so_far self.old)) }
        ensures left { left self.new ≡ left self.old }
        ensures memory { IfErr result (λ e. e ≡ Misread.NoMemory) }
    {
        self.outline.types.push(field)?;
        Ok(())
    }

    /// Adds a program.
    pub(crate) fn add_program(&mut self, program: Program<'a>) -> Result<(), Misread>
        ensures made { OnOk result (so_far self.new ≡ add_program (program_of program.entry) (so_far self.old)) }
        ensures left { left self.new ≡ left self.old }
        ensures memory { IfErr result (λ e. e ≡ Misread.NoMemory) }
    {
        self.outline.programs.push(program)?;
        Ok(())
    }
}

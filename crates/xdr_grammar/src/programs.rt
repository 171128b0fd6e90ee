//! Programs, their versions and their procedures.
ghost use Rattle.std.specs.Prelude.{length, map, option_map};
ghost use Rattle.xdr_grammar.specs.View.{part_of, procedure_of, version_of};
ghost use Rattle.xdr_grammar.specs.Private.Reading.{repeat, specifier_at, passed_with, argument_with, arguments_with};
ghost use Rattle.xdr_grammar.specs.Private.Reading.{result_with, procedure_with, version_with, program_with};
ghost use Rattle.xdr_grammar.specs.Private.Parsing.{left, Reads, Defines};

use crate::misread::Misread;
use crate::outline::{Part, Procedure, Program, Version};
use crate::parser::{MAX_DEPTH, Parser};
use xdr_tokens::{Keyword, Mark};

impl<'t, 'a> Parser<'t, 'a> {
    /// The type of an argument or a result.
    #[tactic(auto, unfolding(crate::specs::Private::Reading::passed_with))]
    fn passed(&mut self) -> Result<Part<'a>, Misread>
        ensures { Reads part_of result (passed_with (specifier_at 32)) self.old self.new }
    {
        if self.word(Keyword::String) {
            return Ok(Part::Text);
        }
        self.specifier(self.start, MAX_DEPTH)
    }

    /// An argument, and whether another one follows.
    #[tactic(auto, unfolding(crate::specs::Private::Reading::argument_with))]
    fn argument(&mut self) -> Result<(Part<'a>, bool), Misread>
        ensures { Reads (λ x. (part_of x.0, x.1)) result (argument_with (specifier_at 32)) self.old self.new }
    {
        let part = self.passed()?;
        let more = self.either(Mark::Comma, Mark::CloseRound)?;
        Ok((part, more))
    }

    /// The arguments of a procedure that has some, and their `)`.
    #[tactic(auto, unfolding(crate::specs::Private::Reading::repeat))]
    fn some_arguments(&mut self) -> Result<Vec<Part<'a>>, Misread>
        ensures { Reads (λ x. map part_of x.items) result
            (repeat (argument_with (specifier_at 32)) (length (left self.old))) self.old self.new }
    {
        let mut arguments = Vec::new(self.alloc);
        for _ in 0..self.rest.len() {
            let (part, more) = self.argument()?;
            arguments.push(part)?;
            if !more {
                return Ok(arguments);
            }
        }
        Err(self.unexpected())
    }

    /// The arguments of a procedure and their `)`.
    #[tactic(auto, unfolding(crate::specs::Private::Reading::arguments_with))]
    fn arguments(&mut self) -> Result<Vec<Part<'a>>, Misread>
        ensures { Reads (λ x. map part_of x.items) result (arguments_with (specifier_at 32)) self.old self.new }
    {
        if self.word(Keyword::Void) {
            self.expect(Mark::CloseRound)?;
            return Ok(Vec::new(self.alloc));
        }
        self.some_arguments()
    }

    /// The result of a procedure.
    #[tactic(auto, unfolding(crate::specs::Private::Reading::result_with))]
    fn result(&mut self) -> Result<Option<Part<'a>>, Misread>
        ensures { Reads (λ x. option_map part_of x) result (result_with (specifier_at 32)) self.old self.new }
    {
        if self.word(Keyword::Void) {
            return Ok(None);
        }
        let part = self.passed()?;
        Ok(Some(part))
    }

    /// A procedure, and whether another one follows.
    #[tactic(auto, unfolding(crate::specs::Private::Reading::procedure_with))]
    fn procedure(&mut self) -> Result<(Procedure<'a>, bool), Misread>
        ensures { Reads (λ x. (procedure_of x.0, x.1)) result (procedure_with (specifier_at 32)) self.old self.new }
    {
        let result = self.result()?;
        let name = self.name()?;
        self.expect(Mark::OpenRound)?;
        let arguments = self.arguments()?;
        let number = self.numbered()?;
        let last = self.sign(Mark::CloseBrace);
        let procedure = Procedure {
            name,
            number,
            arguments,
            result,
        };
        Ok((procedure, !last))
    }

    /// The procedures of a version and their `}`.
    #[tactic(auto, unfolding(crate::specs::Private::Reading::repeat))]
    fn procedures(&mut self) -> Result<Vec<Procedure<'a>>, Misread>
        ensures { Reads (λ x. map procedure_of x.items) result
            (repeat (procedure_with (specifier_at 32)) (length (left self.old))) self.old self.new }
    {
        let mut procedures = Vec::new(self.alloc);
        for _ in 0..self.rest.len() {
            let (procedure, more) = self.procedure()?;
            procedures.push(procedure)?;
            if !more {
                return Ok(procedures);
            }
        }
        Err(self.unexpected())
    }

    /// A version, and whether another one follows.
    #[tactic(auto, unfolding(crate::specs::Private::Reading::version_with))]
    fn version(&mut self) -> Result<(Version<'a>, bool), Misread>
        ensures { Reads (λ x. (version_of x.0, x.1)) result (version_with (specifier_at 32)) self.old self.new }
    {
        self.expect_word(Keyword::Version)?;
        let name = self.name()?;
        self.expect(Mark::OpenBrace)?;
        let procedures = self.procedures()?;
        let number = self.numbered()?;
        let last = self.sign(Mark::CloseBrace);
        let version = Version {
            name,
            number,
            procedures,
        };
        Ok((version, !last))
    }

    /// The versions of a program and their `}`.
    #[tactic(auto, unfolding(crate::specs::Private::Reading::repeat))]
    fn versions(&mut self) -> Result<Vec<Version<'a>>, Misread>
        ensures { Reads (λ x. map version_of x.items) result
            (repeat (version_with (specifier_at 32)) (length (left self.old))) self.old self.new }
    {
        let mut versions = Vec::new(self.alloc);
        for _ in 0..self.rest.len() {
            let (version, more) = self.version()?;
            versions.push(version)?;
            if !more {
                return Ok(versions);
            }
        }
        Err(self.unexpected())
    }

    /// What follows `program`.
    #[tactic(auto, unfolding(crate::specs::Private::Reading::program_with))]
    pub(crate) fn program(&mut self) -> Result<(), Misread>
        ensures { Defines result (program_with (specifier_at 32)) self.old self.new }
    {
        let name = self.name()?;
        self.expect(Mark::OpenBrace)?;
        let versions = self.versions()?;
        let number = self.numbered()?;
        self.add_program(Program {
            name,
            number,
            versions,
        })
    }
}

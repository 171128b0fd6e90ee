//! What a text declares, and look-ups in it.
ghost use Rattle.std.specs.Prelude.{◌≡◌, Some, None, map, option_map};
ghost use Rattle.xdr_types.specs.Named.{place_named};
ghost use Rattle.std.specs.Option.{option_or};
ghost use Rattle.xdr_lang.specs.Declarations.{procedure_numbered, procedure_of_version, procedure_of_program};
ghost use Rattle.xdr_lang.specs.Views.{procedure_of, version_of, program_of, declared_of};

use std::string::String;
use xdr_types::{KindId, Schema};

/// A procedure of a version (RFC 5531 section 12.2).
#[derive(Debug, Drop)]
pub struct Procedure {
    /// No other procedure of its version has the name (RFC 5531 section 12.3).
    pub name: String,
    /// No other procedure of its version has the number.
    pub number: u32,
    /// The kinds of its arguments, in text order. None at all is void.
    pub arguments: Vec<KindId>,
    /// The kind of what it answers. None is void.
    pub result: Option<KindId>,
}

/// A version of a program: procedures under one number (RFC 5531 section 12.2).
#[derive(Debug, Drop)]
pub struct Version {
    /// No other version of its program has the name (RFC 5531 section 12.3).
    pub name: String,
    /// No other version has the number in a program with its program's number.
    pub number: u32,
    /// Its procedures, in text order.
    pub procedures: Vec<Procedure>,
}

/// A program: versions under one number (RFC 5531 section 12.2).
#[derive(Debug)]
pub struct Program {
    /// No other program, type or constant of the text has the name (RFC 5531 section 12.3).
    pub name: String,
    /// Programs of one number differ in the numbers of their versions.
    pub number: u32,
    /// Its versions, in text order.
    pub versions: Vec<Version>,
}

// Written out, and not derived: so its proof is made here alone, and not in each crate that drops what is declared.
impl Drop for Program {
    fn drop(self) {
        let Program {
            name: _name,
            number: _number,
            versions: _versions,
        } = self;
    }
}

/// What a text declares: its kinds and types after the basic ones, its constants after TRUE and FALSE,
/// and its programs, each in text order.
#[derive(Debug, Drop)]
pub struct Declared {
    /// The kinds, and the types' names with their kinds.
    pub schema: Schema,
    /// What `const` and the members of enumerations declare, with numbers from -2^63 to 2^64 - 1.
    pub constants: Vec<(String, i128)>,
    /// What `program` declares (RFC 5531 section 12.2).
    pub programs: Vec<Program>,
}

/// The procedure with that number.
#[tactic(auto, unfolding(crate::specs::Declarations::procedure_numbered))]
fn procedure_numbered(procedures: &[Procedure], number: u32) -> Option<&Procedure>
    ensures { option_map (λ p. procedure_of p.now) result ≡ procedure_numbered number
        (map procedure_of procedures.now) }
{
    for procedure in procedures {
        if procedure.number == number {
            return Some(procedure);
        }
    }
    None
}

/// The procedure with that number in a version with that number.
#[tactic(auto, unfolding(crate::specs::Declarations::procedure_of_version))]
fn procedure_of_version(versions: &[Version], vers: u32, proc: u32) -> Option<&Procedure>
    ensures { option_map (λ p. procedure_of p.now) result ≡ procedure_of_version vers proc
        (map version_of versions.now) }
{
    for version in versions {
        if version.number == vers {
            if let Some(procedure) = procedure_numbered(&version.procedures, proc) {
                return Some(procedure);
            }
        }
    }
    None
}

/// The same in a program with that number.
#[tactic(auto, unfolding(crate::specs::Declarations::procedure_of_program))]
fn procedure_of_program(programs: &[Program], prog: u32, vers: u32, proc: u32) -> Option<&Procedure>
    ensures { option_map (λ p. procedure_of p.now) result ≡ procedure_of_program prog vers proc
        (map program_of programs.now) }
{
    for program in programs {
        if program.number == prog {
            if let Some(procedure) = procedure_of_version(&program.versions, vers, proc) {
                return Some(procedure);
            }
        }
    }
    None
}

impl Declared {
    /// The kind that a name of the schema names: a type of the text, or a basic one. Takes no memory.
    pub fn kind(&self, name: &str) -> Option<KindId>
        ensures { option_map (λ k. k.place) result ≡ place_named (declared_of self.now).schema.names name.now }
    {
        self.schema.named(name)
    }

    /// The procedure with that number in a version of a program with those numbers (RFC 5531 section
    /// 12.3). Takes no memory.
    pub fn procedure(&self, prog: u32, vers: u32, proc: u32) -> Option<&Procedure>
        ensures { option_map (λ p. procedure_of p.now) result ≡ procedure_of_program prog vers proc
            (declared_of self.now).programs }
    {
        procedure_of_program(&self.programs, prog, vers, proc)
    }
}

//! The numbers that the parts of a program's name mean. Nothing here takes memory.
ghost use Rattle.std.specs.Prelude.{◌≡◌, MatchOption, map};
ghost use Rattle.xdr_lang.specs.Views.{program_of, version_of};
ghost use Rattle.oncrpc_procedures.specs.Names.{IsNoNumber};
ghost use Rattle.oncrpc_procedures.specs.Private.Search.{first_called, first_version, first_version_of};
ghost use Rattle.oncrpc_procedures.specs.Programs.{IsUncalled, MeansNumber, program_called, version_called};

use crate::parts::{begins_with_digit, is_name};
use xdr_lang::{Program, Version};
use xdr_units::decimal_number;

/// The number of the program that a part means.
pub fn program_meant(programs: &[Program], part: &[u8]) -> Option<u32>
    requires { IsNoNumber part.now → ⊥ }
    ensures { let called = program_called part.now (map program_of programs.now) in
        MatchOption result (IsUncalled part.now called) (λ n. MeansNumber part.now called n) }
{
    if begins_with_digit(part) {
        return decimal_number(part);
    }
    program_called(programs, part)
}

/// The number of the version that a part means, of the programs with a number.
pub fn version_meant(programs: &[Program], program: u32, part: &[u8]) -> Option<u32>
    requires { IsNoNumber part.now → ⊥ }
    ensures { let called = version_called part.now program (map program_of programs.now) in
        MatchOption result (IsUncalled part.now called) (λ n. MeansNumber part.now called n) }
{
    if begins_with_digit(part) {
        return decimal_number(part);
    }
    version_called(programs, program, part)
}

// The number of the first program of this name.
fn program_called(programs: &[Program], name: &[u8]) -> Option<u32>
    ensures { result ≡ program_called name.now (map program_of programs.now) }
{
    first_called(programs, name)
}

#[tactic(auto, unfolding(crate::specs::Private::Search::first_called))]
fn first_called(programs: &[Program], name: &[u8]) -> Option<u32>
    ensures { result ≡ first_called name.now (map program_of programs.now) }
{
    for program in programs {
        if is_name(name, program.name.as_str()) {
            return Some(program.number);
        }
    }
    None
}

// The number of the first version of this name, of the programs with this number.
fn version_called(programs: &[Program], number: u32, name: &[u8]) -> Option<u32>
    ensures { result ≡ version_called name.now number (map program_of programs.now) }
{
    first_version_of(programs, number, name)
}

#[tactic(auto, unfolding(crate::specs::Private::Search::first_version_of))]
fn first_version_of(programs: &[Program], number: u32, name: &[u8]) -> Option<u32>
    ensures { result ≡ first_version_of name.now number (map program_of programs.now) }
{
    for program in programs {
        if program.number == number {
            if let Some(version) = first_version(&program.versions, name) {
                return Some(version);
            }
        }
    }
    None
}

#[tactic(auto, unfolding(crate::specs::Private::Search::first_version))]
fn first_version(versions: &[Version], name: &[u8]) -> Option<u32>
    ensures { result ≡ first_version name.now (map version_of versions.now) }
{
    for version in versions {
        if is_name(name, version.name.as_str()) {
            return Some(version.number);
        }
    }
    None
}

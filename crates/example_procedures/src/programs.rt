//! Names of the program that mounts, and of its versions.
ghost use Rattle.std.specs.Prelude.{◌≡◌, None, Some, codes, MatchOption, MatchResult};
ghost use Rattle.xdr_lang.specs.Views.{declared_of};
ghost use Rattle.oncrpc_procedures.specs.declared.unnamed_program.UnnamedProgram.TheVariants as unnamed;
ghost use Rattle.example_procedures.specs.Mount.{programs};

use oncrpc_procedures::{NamedProgram, UnnamedProgram, installed_text, program_named};
use xdr_lang::Declared;

/// The program and its version, by their names.
pub fn mount_by_names(declared: &Declared) -> Result<NamedProgram, UnnamedProgram>
    requires { (declared_of declared.now).programs ≡ programs }
    ensures { MatchResult result (λ n. (n.program ≡ 100005) × (n.version ≡ Some 3)) (λ why. ⊥) }
{
    program_named(declared, b"MOUNT_PROGRAM.MOUNT_V3")
}

/// No version has this name.
pub fn has_no_version_of_that_name(declared: &Declared) -> Result<NamedProgram, UnnamedProgram>
    requires { (declared_of declared.now).programs ≡ programs }
    ensures { MatchResult result (λ n. ⊥) (λ why. why ≡ unnamed.NoVersion) }
{
    program_named(declared, b"100005.MOUNT_V4")
}

/// Whatever is declared, a number is that of a program.
pub fn seven(declared: &Declared) -> Result<NamedProgram, UnnamedProgram>
    ensures { MatchResult result (λ n. (n.program ≡ 7) × (n.version ≡ None)) (λ why. ⊥) }
{
    program_named(declared, b"7")
}

/// Whatever is declared, three parts name no program.
pub fn has_too_many_parts(declared: &Declared) -> Result<NamedProgram, UnnamedProgram>
    ensures { MatchResult result (λ n. ⊥) (λ why. why ≡ unnamed.NotTwoParts) }
{
    program_named(declared, b"1.2.3")
}

/// Its declarations are installed, and found by its number.
pub fn mount_is_installed() -> Option<&'static str>
    ensures { MatchOption result ⊥ (λ name. name.now ≡ codes "mount") }
{
    installed_text(b"100005.V3.EXPORT")
}

//! The program of RFC 1813, appendix I, with two of its procedures.
ghost use Rattle.std.specs.Prelude.{◌≡◌, MatchResult};
ghost use Rattle.xdr_lang.specs.Views.{declared_of};
ghost use Rattle.oncrpc_procedures.specs.View.{target_of};
ghost use Rattle.oncrpc_procedures.specs.declared.unnamed.Unnamed.TheVariants as unnamed;
ghost use Rattle.example_procedures.specs.Mount.{export, programs};

use oncrpc_procedures::{Named, Unnamed, names_have_one_reading, procedure_named};
use xdr_lang::Declared;

/// The procedure that lists what may be mounted, by its names.
pub fn export_by_names(declared: &Declared) -> Result<Named<'_>, Unnamed>
    requires { (declared_of declared.now).programs ≡ programs }
    ensures { MatchResult result (λ n. target_of n ≡ export) (λ why. ⊥) }
{
    names_have_one_reading();
    procedure_named(declared, b"MOUNT_PROGRAM.MOUNT_V3.MOUNTPROC3_EXPORT")
}

/// The same by its numbers.
pub fn export_by_numbers(declared: &Declared) -> Result<Named<'_>, Unnamed>
    requires { (declared_of declared.now).programs ≡ programs }
    ensures { MatchResult result (λ n. target_of n ≡ export) (λ why. ⊥) }
{
    names_have_one_reading();
    procedure_named(declared, b"100005.3.5")
}

/// The program is known, but not in this version.
pub fn has_no_fourth_version(declared: &Declared) -> Result<Named<'_>, Unnamed>
    requires { (declared_of declared.now).programs ≡ programs }
    ensures { MatchResult result (λ n. ⊥) (λ why. why ≡ unnamed.NoVersion) }
{
    names_have_one_reading();
    procedure_named(declared, b"MOUNT_PROGRAM.4.MOUNTPROC3_EXPORT")
}

/// A number has no leading zero: this is no version 3.
pub fn is_no_number(declared: &Declared) -> Result<Named<'_>, Unnamed>
    ensures { MatchResult result (λ n. ⊥) (λ why. why ≡ unnamed.NotANumber 2) }
{
    names_have_one_reading();
    procedure_named(declared, b"100005.03.5")
}

/// Whatever is declared, two parts name no procedure.
pub fn is_cut_short(declared: &Declared) -> Result<Named<'_>, Unnamed>
    ensures { MatchResult result (λ n. ⊥) (λ why. why ≡ unnamed.NotThreeParts) }
{
    procedure_named(declared, b"100005.3")
}

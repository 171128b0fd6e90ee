//! Look-ups in what a text declares, in the text `typedef int t[2];` and in a program of one procedure.
ghost use Rattle.std.specs.Prelude.{◌≡◌, Some, None, option_map, ◌++◌, [], ◌∷◌, codes};
ghost use Rattle.xdr_types.specs.Named.{named, basic};
ghost use Rattle.xdr_lang.specs.Views.{declared_of, procedure_of};
ghost use Rattle.example_language.specs.Programs.{null, ping};

use xdr_lang::{Declared, Procedure};
use xdr_types::KindId;

/// A type has its kind by its name.
pub fn kind_of_a_type(declared: &Declared) -> Option<KindId>
    requires { (declared_of declared.now).schema.names ≡ basic.names ++ named (codes "t") 8 ∷ [] }
    ensures { option_map (λ (k : KindId). k.place) result ≡ Some 8 }
{
    declared.kind("t")
}

/// A name that is no type's, as a constant's, has none.
pub fn no_kind_of_a_constant(declared: &Declared) -> Option<KindId>
    requires { (declared_of declared.now).schema.names ≡ basic.names ++ named (codes "t") 8 ∷ [] }
    ensures { option_map (λ (k : KindId). k.place) result ≡ None }
{
    declared.kind("TRUE")
}

/// A procedure by the numbers of its program, its version and itself.
pub fn procedure_of_a_version(declared: &Declared) -> Option<&Procedure>
    requires { (declared_of declared.now).programs ≡ ping ∷ [] }
    ensures { option_map (λ p. procedure_of p.now) result ≡ Some null }
{
    declared.procedure(1, 2, 0)
}

/// The program's number comes before the version's.
pub fn program_comes_first(declared: &Declared) -> Option<&Procedure>
    requires { (declared_of declared.now).programs ≡ ping ∷ [] }
    ensures { option_map (λ p. procedure_of p.now) result ≡ None }
{
    declared.procedure(2, 1, 0)
}

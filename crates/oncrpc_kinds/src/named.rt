//! The kind that a name names.
ghost use Rattle.std.specs.Prelude.{◌≡◌, ℕ, option_map, IfSome, MatchOption};
ghost use Rattle.xdr_lang.specs.Views.{declared_of};
ghost use Rattle.oncrpc_kinds.specs.Naming.{Names, part_named};

use oncrpc_names::{Part, PartName, read_part_name};
use xdr_lang::Declared;
use xdr_types::KindId;

/// The kind that a name names in what was declared: that of the schema's name, or else of the procedure's argument or
/// result. It takes no memory.
pub fn kind_named(declared: &Declared, name: &str) -> Option<KindId>
    // The name names the kind that is answered,
    ensures found { IfSome result (λ kind. Names name.now (declared_of declared.now) kind.place) }
    // and a name that names a kind is answered with it.
    ensures only { (place : ℕ) → Names name.now (declared_of declared.now) place
        → MatchOption result ⊥ (λ kind. kind.place ≡ place) }
{
    match declared.kind(name) {
        Some(kind) => Some(kind),
        None => kind_of_part(declared, read_part_name(name.as_bytes())?),
    }
}

fn kind_of_part(declared: &Declared, name: PartName) -> Option<KindId>
    ensures { option_map (λ kind. kind.place) result ≡ part_named (declared_of declared.now) name }
{
    let procedure = declared.procedure(name.program, name.version, name.procedure)?;
    match name.part {
        Part::Argument(number) => {
            let before = number.checked_sub(1)?;
            procedure.arguments.get(before as usize).copied()
        }
        Part::Result => procedure.result,
    }
}

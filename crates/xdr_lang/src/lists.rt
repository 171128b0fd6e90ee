//! The types and constants of a text, after those that every text has.
ghost use Rattle.std.specs.Prelude.{◌≡◌, IfOk, List, map, ◌++◌};
ghost use Rattle.xdr_tokens.specs.Due.{Gives};
ghost use Rattle.xdr_grammar.specs.View.{field_of};
ghost use Rattle.xdr_types.specs.KindViews.{name_of};
ghost use Rattle.xdr_types.specs.Named.{basic};
ghost use Rattle.xdr_constants.specs.Views.{known_of, knowns};
ghost use Rattle.xdr_lang.specs.Views.{types_of, constant_of};
ghost use Rattle.xdr_lang.specs.Kinds.{each_onto, one_field};
ghost use Rattle.xdr_lang.specs.Meaning.{given_constants};
ghost use Rattle.xdr_lang.specs.Meaning as said;

use crate::places::kind_of;
use crate::type_table::TypeTable;
use std::alloc::{AllocError, Global};
use std::string::String;
use xdr_constants::Known;
use xdr_grammar::Field;
use xdr_tokens::Fault;
use xdr_types::{KindId, basic_names};

/// A type with its kind.
#[tactic(auto, unfolding(crate::specs::Kinds::one_field))]
fn one_type(
    alloc: Global,
    types: &TypeTable<'_>,
    field: &Field<'_>,
) -> Result<(String, KindId), Fault>
    ensures { Gives name_of result (one_field (types_of types.now.list.items) (field_of field.now)) }
{
    let kind = kind_of(types, field.part)?;
    let name = String::from_str(alloc, field.name.text)?;
    Ok((name, kind))
}

/// The types with their kinds, after the basic ones.
#[tactic(auto, unfolding(crate::specs::Kinds::each_onto))]
pub fn all_types(alloc: Global, types: &TypeTable<'_>) -> Result<Vec<(String, KindId)>, Fault>
    ensures { Gives (λ x. map name_of x.items) result
        (each_onto (one_field (types_of types.now.list.items)) (types_of types.now.list.items) basic.names) }
{
    let mut found = basic_names(alloc).map_err(|_| Fault::NoMemory)?;
    found.reserve(types.list.len())?;
    for field in &types.list {
        let one = one_type(alloc, types, field)?;
        found.push(one)?;
    }
    Ok(found)
}

/// TRUE and FALSE.
fn given_constants(alloc: Global) -> Result<Vec<(String, i128)>, AllocError>
    ensures { IfOk result (λ v. map constant_of v.items ≡ given_constants) }
{
    let mut found = Vec::new(alloc);
    found.push((String::from_str(alloc, "TRUE")?, 1))?;
    found.push((String::from_str(alloc, "FALSE")?, 0))?;
    Ok(found)
}

/// The constants, after TRUE and FALSE.
pub fn all_constants(
    alloc: Global,
    constants: &[Known<'_>],
) -> Result<Vec<(String, i128)>, AllocError>
    ensures { IfOk result
        (λ v. map constant_of v.items ≡ given_constants ++ map said.constant_of (knowns constants.now)) }
{
    let mut found = given_constants(alloc)?;
    found.reserve(constants.len())?;
    for constant in constants {
        let name = String::from_str(alloc, constant.name.text)?;
        found.push((name, constant.value))?;
    }
    Ok(found)
}

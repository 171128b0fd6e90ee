//! Names of constants, types and programs that are known to be apart, by the tables that they are looked up in.
ghost use Rattle.std.specs.Prelude.{◌≡◌, true, false, IfOk, ◌∷◌, ◌++◌, map, codes};
ghost use Rattle.std.specs.List.{list_any};
ghost use Rattle.std.specs.Str.{bytes_eq};
ghost use Rattle.xdr_grammar.specs.Outline as out;
ghost use Rattle.xdr_grammar.specs.View.{program_of};
ghost use Rattle.xdr_constants.specs.Names.{names};
ghost use Rattle.xdr_constants.specs.Views.{knowns};
ghost use Rattle.xdr_lang.specs.Views.{texts, types_of};
ghost use Rattle.xdr_lang.specs.Distinct.{names_repeat};
ghost use Rattle.xdr_lang.specs.Private.Tables.{type_names, share};

use crate::distinct::names_repeat;
use crate::names::add_names;
use crate::type_table::TypeTable;
use std::alloc::{AllocError, Global};
use xdr_constants::ConstantTable;
use xdr_grammar::{Field, Name, Program};

/// A constant has the name.
fn is_constant(known: &ConstantTable<'_>, name: &str) -> bool
    ensures { result ≡ list_any (bytes_eq name.now) (names (knowns known.now.list.items)) }
{
    known.named(name, known.list.len()).is_some()
}

/// A type has the name.
fn is_type(types: &TypeTable<'_>, name: &str) -> bool
    ensures { result ≡ list_any (bytes_eq name.now) (type_names (types_of types.now.list.items)) }
{
    types.named(name).is_some()
}

/// Some type has the name of a constant.
fn types_share(known: &ConstantTable<'_>, types: &[Field<'_>]) -> bool
    ensures { result ≡ share (type_names (types_of types.now)) (names (knowns known.now.list.items)) }
{
    for field in types {
        if is_constant(known, field.name.text) {
            return true;
        }
    }
    false
}

/// Some of the names is that of a constant.
fn constants_share(known: &ConstantTable<'_>, others: &[Name<'_>]) -> bool
    ensures { result ≡ share (texts others.now) (names (knowns known.now.list.items)) }
{
    for name in others {
        if is_constant(known, name.text) {
            return true;
        }
    }
    false
}

/// Some of the names is that of a type.
fn names_share(types: &TypeTable<'_>, others: &[Name<'_>]) -> bool
    ensures { result ≡ share (texts others.now) (type_names (types_of types.now.list.items)) }
{
    for name in others {
        if is_type(types, name.text) {
            return true;
        }
    }
    false
}

/// TRUE, FALSE and the names of programs.
fn other_names<'a>(alloc: Global, programs: &[Program<'a>]) -> Result<Vec<Name<'a>>, AllocError>
    ensures { IfOk result (λ v. texts v.items ≡ codes "TRUE" ∷ codes "FALSE" ∷
        map (λ (p : out.Program). p.name) (map program_of programs.now)) }
{
    let mut names = Vec::new(alloc);
    names.push(Name {
        text: "TRUE",
        left: 0,
    })?;
    names.push(Name {
        text: "FALSE",
        left: 0,
    })?;
    add_names(&mut names, programs)?;
    Ok(names)
}

/// Constants, types and programs have names of their own, and none is TRUE or FALSE. False says nothing.
pub fn are_apart(
    alloc: Global,
    known: &ConstantTable<'_>,
    types: &TypeTable<'_>,
    programs: &[Program<'_>],
) -> Result<bool, AllocError>
    ensures { IfOk result (λ b. b ≡ true → names_repeat
        (((codes "TRUE" ∷ codes "FALSE" ∷ names (knowns known.now.list.items)) ++ type_names
        (types_of types.now.list.items)) ++ map (λ (p : out.Program). p.name) (map program_of programs.now)) ≡ false) }
{
    if !known.are_apart() || !types.are_apart() || types_share(known, &types.list) {
        return Ok(false);
    }
    let others = other_names(alloc, programs)?;
    if constants_share(known, &others) || names_share(types, &others) {
        return Ok(false);
    }
    let again = names_repeat(alloc, &others)?;
    Ok(!again)
}

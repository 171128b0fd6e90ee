//! A line for each constant and for each type.
ghost use Rattle.std.specs.Prelude.{◌≡◌, ◌++◌, OnOk, codes, flat_map, map};
ghost use Rattle.xdr_types.specs.KindViews.{name_of};
ghost use Rattle.xdr_lang.specs.Views.{constant_of};
ghost use Rattle.xdr_listing.specs.Private.Held.{types_of};
ghost use Rattle.xdr_listing.specs.Private.Pieces.{constant_piece, type_piece};

use crate::types::Types;
use crate::words::{push_integer, push_kind, push_text};
use xdr_types::{KindId, NoMemory};

/// A line for each constant.
pub fn push_constants(out: &mut Vec<u8>, constants: &[(String, i128)]) -> Result<(), NoMemory>
    ensures { OnOk result (out.new.items
        ≡ out.old.items ++ flat_map constant_piece (map constant_of constants.now)) }
{
    for constant in constants {
        push_constant(out, constant)?;
    }
    Ok(())
}

fn push_constant(out: &mut Vec<u8>, constant: &(String, i128)) -> Result<(), NoMemory>
    ensures { OnOk result (out.new.items ≡ out.old.items ++ constant_piece (constant_of constant.now)) }
{
    push_start(out, "const", constant.0.as_str())?;
    push_integer(out, constant.1)?;
    push_text(out, "\n")
}

/// A line for each type, with its kind and both counts of bytes.
pub fn push_types(
    out: &mut Vec<u8>,
    types: &Types<'_>,
    names: &[(String, KindId)],
) -> Result<(), NoMemory>
    ensures { OnOk result (out.new.items
        ≡ out.old.items ++ flat_map (type_piece (types_of types.now)) (map name_of names.now)) }
{
    for name in names {
        push_type(out, types, name)?;
    }
    Ok(())
}

fn push_type(out: &mut Vec<u8>, types: &Types<'_>, name: &(String, KindId)) -> Result<(), NoMemory>
    ensures { OnOk result (out.new.items
        ≡ out.old.items ++ type_piece (types_of types.now) (name_of name.now)) }
{
    push_start(out, "type", name.0.as_str())?;
    push_kind(out, types, name.1)?;
    push_text(out, "\n")
}

/// What begins a line: a word, a name, and a space behind each.
pub fn push_start(out: &mut Vec<u8>, word: &str, name: &str) -> Result<(), NoMemory>
    ensures { OnOk result (out.new.items ≡ out.old.items ++ (word.now ++ codes " " ++ name.now ++ codes " ")) }
{
    push_text(out, word)?;
    push_text(out, " ")?;
    push_text(out, name)?;
    push_text(out, " ")
}

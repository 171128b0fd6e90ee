//! The listings of what a text declares.
ghost use Rattle.std.specs.Prelude.{◌≡◌, map, IfOk};
ghost use Rattle.xdr_types.specs.KindViews.{name_of};
ghost use Rattle.xdr_lang.specs.Views.{constant_of, program_of, declared_of};
ghost use Rattle.xdr_listing.specs.JsonListing.{json_listing};
ghost use Rattle.xdr_listing.specs.Listing.{IsListing, listing, own_constants, own_types};
ghost use Rattle.xdr_listing.specs.Private.Held.{types_of};
ghost use Rattle.xdr_listing.specs.Private.Pieces.{pieces};

use crate::json_listing::json_text;
use crate::lines::{push_constants, push_types};
use crate::names::first_names;
use crate::programs::push_programs;
use crate::types::Types;
use std::alloc::Global;
use xdr_bounds::Bounds;
use xdr_lang::{Declared, Program};
use xdr_types::{KindId, NoMemory};

// How many constants there are before those of a text.
const BASIC_CONSTANTS: usize = 2;

// How many names of types there are before those of a text.
const BASIC_NAMES: usize = 7;

/// A line for each constant, type, program, version and procedure that a text declares, and for each argument and
/// result. Constants come first, then types, then programs, each in the order of the text. The line of a type, an
/// argument or a result has its kind, and how many bytes its values have at least and at most (RFC 4506). That of an
/// argument or a result names its type by the first name of its kind, `-` where it has none. An error is that memory
/// was refused.
pub fn list_declared(alloc: Global, declared: &Declared) -> Result<Vec<u8>, NoMemory>
    ensures { IfOk result (λ v. IsListing listing (declared_of declared.now) v.items) }
{
    let bounds = Bounds::of(alloc, &declared.schema)?;
    let firsts = first_names(alloc, declared.schema.names())?;
    let types = Types {
        schema: &declared.schema,
        bounds: &bounds,
        firsts: &firsts,
    };
    let constants = own_constants(declared);
    let names = own_types(declared);
    let text = lines_text(alloc, &types, constants, names, &declared.programs)?;
    Ok(text)
}

/// The same as one JSON value (RFC 8259) on a line. An error is that memory was refused.
pub fn list_json(alloc: Global, declared: &Declared) -> Result<Vec<u8>, NoMemory>
    ensures { IfOk result (λ v. IsListing json_listing (declared_of declared.now) v.items) }
{
    let bounds = Bounds::of(alloc, &declared.schema)?;
    let firsts = first_names(alloc, declared.schema.names())?;
    let types = Types {
        schema: &declared.schema,
        bounds: &bounds,
        firsts: &firsts,
    };
    let constants = own_constants(declared);
    let names = own_types(declared);
    let text = json_text(alloc, &types, constants, names, &declared.programs)?;
    Ok(text)
}

// The lines of all that is declared.
fn lines_text(
    alloc: Global,
    types: &Types<'_>,
    constants: &[(String, i128)],
    names: &[(String, KindId)],
    programs: &[Program],
) -> Result<Vec<u8>, NoMemory>
    ensures { IfOk result (λ v. v.items ≡ pieces (types_of types.now) (map constant_of constants.now)
        (map name_of names.now) (map program_of programs.now)) }
{
    let mut out = Vec::new(alloc);
    push_constants(&mut out, constants)?;
    push_types(&mut out, types, names)?;
    push_programs(&mut out, types, programs)?;
    Ok(out)
}

// The constants of the text, those behind TRUE and FALSE.
#[tactic(auto, using(crate::proofs::Places::behind))]
fn own_constants(declared: &Declared) -> &[(String, i128)]
    ensures { map constant_of result.now ≡ own_constants (declared_of declared.now) }
{
    let all = declared.constants.as_slice();
    &all[BASIC_CONSTANTS.min(all.len())..]
}

// The types of the text, those behind the basic ones.
#[tactic(auto, using(crate::proofs::Places::behind))]
fn own_types(declared: &Declared) -> &[(String, KindId)]
    ensures { map name_of result.now ≡ own_types (declared_of declared.now) }
{
    let all = declared.schema.names();
    &all[BASIC_NAMES.min(all.len())..]
}

//! The basic schema: the kinds without declarations, and their names.
ghost use Rattle.std.specs.Prelude.{◌≡◌, map, IfOk};
ghost use Rattle.xdr_types.specs.KindViews.{kind_view, name_of};
ghost use Rattle.xdr_types.specs.Named.{basic, named};

use crate::kind::{Kind, KindId};
use std::alloc::Global;
use std::string::String;
use xdr_units::NoMemory;

/// The kinds of the basic schema at places 0 to 7, as `Schema::basic` lists them: what a list for `Schema::build` may
/// begin with. `NoMemory` comes where a growth was refused.
pub fn basic_kinds(alloc: Global) -> Result<Vec<Kind>, NoMemory>
    ensures { IfOk result (λ v. map kind_view v.items ≡ basic.kinds) }
{
    Ok(vec![in alloc;
        Kind::Int,
        Kind::Unsigned,
        Kind::Hyper,
        Kind::UnsignedHyper,
        Kind::Bool,
        Kind::Nothing,
        Kind::OpaqueUpTo { max: 4294967295 },
        Kind::Text { max: 4294967295 },
    ]?)
}

/// The names of the basic schema, of all its kinds but the void one at place 5: what a list for `Schema::build` may
/// begin with, beside `basic_kinds`. `NoMemory` comes where a growth was refused.
pub fn basic_names(alloc: Global) -> Result<Vec<(String, KindId)>, NoMemory>
    ensures { IfOk result (λ v. map name_of v.items ≡ basic.names) }
{
    let rows = [
        ("int", 0),
        ("unsigned", 1),
        ("hyper", 2),
        ("unsigned-hyper", 3),
        ("bool", 4),
        ("opaque", 6),
        ("string", 7),
    ];
    names_of(alloc, &rows)
}

// Names and the places that they name, of these rows.
fn names_of(alloc: Global, rows: &[(&str, u32)]) -> Result<Vec<(String, KindId)>, NoMemory>
    ensures { IfOk result (λ v. map name_of v.items ≡ map (λ r. named r.0.now r.1) rows.now) }
{
    let mut names = Vec::new(alloc);
    for row in rows {
        names.push((String::from_str(alloc, row.0)?, KindId { place: row.1 }))?;
    }
    Ok(names)
}

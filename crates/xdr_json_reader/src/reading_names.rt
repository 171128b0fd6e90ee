//! Long enumerations by name (RFC 4506 section 4.3): a table of each that a text meets, made once a call.
ghost use Rattle.std.specs.Prelude.{◌≡◌, map, IfOk};
ghost use Rattle.xdr_types.specs.Kinds.{kind_at};
ghost use Rattle.xdr_types.specs.KindViews.{constant_of};
ghost use Rattle.xdr_json_reader.specs.Private.Names.{IsTable, MayBeTable, AreTables, names_of};

use std::alloc::Global;
use std::collections::BTreeMap;
use std::string::String;
use xdr_types::{Kind, KindId, NoMemory, Schema};

/// The number of each name of an enumeration.
pub type Names<'s> = BTreeMap<&'s str, i32>;

/// The names of the enumerations that were met, by their places.
pub type Tables<'s> = BTreeMap<u32, BTreeMap<&'s str, i32>>;

// So many names are looked through one by one, with no table.
const FEW: usize = 8;

/// Notes the names that a node of a kind may tell, of a long enumeration that was not met before.
pub fn note_names<'s>(
    alloc: Global,
    schema: &'s Schema,
    id: KindId,
    tables: &mut Tables<'s>,
) -> Result<(), NoMemory>
    requires { AreTables schema.now.kinds tables.old }
    ensures { AreTables schema.now.kinds tables.new }
{
    if !schema.has(id) {
        return Ok(());
    }
    match schema.kind(id) {
        Kind::Choice {
            tag,
            arms: _,
            other: _,
        } => note_members(alloc, schema, *tag, tables),
        _ => note_members(alloc, schema, id, tables),
    }
}

// The same of the enumeration itself.
fn note_members<'s>(
    alloc: Global,
    schema: &'s Schema,
    id: KindId,
    tables: &mut Tables<'s>,
) -> Result<(), NoMemory>
    requires { AreTables schema.now.kinds tables.old }
    ensures { AreTables schema.now.kinds tables.new }
{
    if !schema.has(id) || tables.contains_key(&id.place) {
        return Ok(());
    }
    match schema.kind(id) {
        Kind::Numbered { members } => {
            if members.len() > FEW {
                let numbers = numbers_of(alloc, members)?;
                tables.insert(id.place, numbers)?;
            }
            Ok(())
        }
        _ => Ok(()),
    }
}

/// The table of the names that a node of a kind may tell, where one was made.
pub fn names_for<'n, 's>(
    schema: &Schema,
    id: KindId,
    tables: &'n Tables<'s>,
) -> Option<&'n Names<'s>>
    requires { AreTables schema.now.kinds tables.now }
    ensures { MayBeTable (names_of schema.now.kinds (kind_at schema.now.kinds id.place)) result }
{
    if !schema.has(id) {
        return None;
    }
    match schema.kind(id) {
        Kind::Numbered { members: _ } => tables.get(&id.place),
        Kind::Choice {
            tag,
            arms: _,
            other: _,
        } => tables.get(&tag.place),
        _ => None,
    }
}

// The number of each name; of a name that stands twice, the first.
fn numbers_of<'s>(alloc: Global, members: &'s Vec<(String, i32)>) -> Result<Names<'s>, NoMemory>
    ensures { IfOk result (λ m. IsTable (map constant_of members.now.items) m) }
{
    let mut numbers = BTreeMap::new(alloc);
    let mut left = members.len();
    while left > 0 {
        left -= 1;
        let member = &members[left];
        numbers.insert(member.0.as_str(), member.1)?;
    }
    Ok(numbers)
}

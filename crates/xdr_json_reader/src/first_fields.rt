//! Long structures by name (RFC 4506 section 4.14): a table of the fields of each that is met, made once a call.
ghost use Rattle.std.specs.Prelude.{◌≡◌, List, map, option_map, IfOk};
ghost use Rattle.xdr_types.specs.Kinds.{KindView, kind_at};
ghost use Rattle.xdr_types.specs.KindViews.{part_of_member};
ghost use Rattle.xdr_json_reader.specs.Reasons.{kind_under};
ghost use Rattle.xdr_json_reader.specs.Private.Wanted.{IsFieldTable, MayBeFieldTable, AreFieldTables, fields_of};

use std::alloc::Global;
use std::collections::BTreeMap;
use xdr_types::{Kind, KindId, Member, NoMemory, Schema};

/// The place of the kind of each field, by its name.
pub type Fields<'s> = BTreeMap<&'s str, u32>;

/// The fields of the structures that were met, by their places.
pub type Groups<'s> = BTreeMap<u32, BTreeMap<&'s str, u32>>;

// So many fields are looked through one by one, with no table.
const FEW: usize = 8;

/// Notes the fields of a long structure that was not met before.
pub fn note_fields<'s>(
    alloc: Global,
    schema: &'s Schema,
    id: KindId,
    groups: &mut Groups<'s>,
) -> Result<(), NoMemory>
    requires { AreFieldTables schema.now.kinds groups.old }
    ensures { AreFieldTables schema.now.kinds groups.new }
{
    if !schema.has(id) || groups.contains_key(&id.place) {
        return Ok(());
    }
    match schema.kind(id) {
        Kind::Structure { fields } => {
            if fields.len() > FEW {
                let places = places_of(alloc, fields)?;
                groups.insert(id.place, places)?;
            }
            Ok(())
        }
        _ => Ok(()),
    }
}

/// The table of the fields of the structure at a place, where one was made.
pub fn fields_for<'n, 's>(id: KindId, groups: &'n Groups<'s>) -> Option<&'n Fields<'s>>
    ensures { (kinds : List KindView) → AreFieldTables kinds groups.now
        → MayBeFieldTable (fields_of (kind_at kinds id.place)) result }
{
    groups.get(&id.place)
}

// The place of the kind of each field; of a name that stands twice, the first.
fn places_of<'s>(alloc: Global, fields: &'s Vec<Member>) -> Result<Fields<'s>, NoMemory>
    ensures { IfOk result (λ m. IsFieldTable (map part_of_member fields.now.items) m) }
{
    let mut places = BTreeMap::new(alloc);
    let mut left = fields.len();
    while left > 0 {
        left -= 1;
        let field = &fields[left];
        places.insert(field.name.as_str(), field.kind.place)?;
    }
    Ok(places)
}

/// The kind of the field with a name, from the table where there is one; none where no field has it.
pub fn field_named(places: Option<&Fields<'_>>, fields: &Vec<Member>, name: &str) -> Option<KindId>
    ensures { MayBeFieldTable (map part_of_member fields.now.items) places.entry
        → option_map (λ k. k.place) result ≡ kind_under (map part_of_member fields.now.items) name.now }
{
    match places {
        Some(places) => match places.get(name) {
            Some(place) => Some(KindId { place: *place }),
            None => None,
        },
        None => field_listed(fields, name),
    }
}

// The same, looked for one by one.
fn field_listed(fields: &Vec<Member>, name: &str) -> Option<KindId>
    ensures { option_map (λ k. k.place) result ≡ kind_under (map part_of_member fields.now.items) name.now }
{
    for field in fields {
        if field.name.as_str() == name {
            return Some(field.kind);
        }
    }
    None
}

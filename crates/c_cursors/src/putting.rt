//! A part put where C lends a place for it.
ghost use Rattle.std.specs.Prelude.{◌≤◌, ℕ, List, [], length};
ghost use Rattle.xdr_parts.specs.Lent.{entry_of, IsLentFrom};
ghost use Rattle.c_answers.specs.Buffers.{AreAtFront};
ghost use Rattle.c_values.specs.Parts.{IsPart};

use c_answers::put;
use c_paths::part_alone;
use c_values::ValuePart;
use xdr_parts::Lent;
use xdr_types::Schema;

/// The part that is lent from an input, with the count of bytes of its name.
fn part_named(schema: &Schema, lent: &Lent) -> ValuePart
    ensures { (input : List ℕ) → IsLentFrom input lent.now
        → IsPart schema.now.kinds input lent.now.name.now [] (entry_of lent.now) result }
{
    ValuePart {
        name_count: lent.name.len(),
        ..part_alone(schema, lent)
    }
}

/// Puts a name at the front of the buffer, where that has room for it.
fn put_name(name: &str, buffer: &mut [u8])
    ensures { length name.now ≤ length buffer.old → AreAtFront name.now buffer.old buffer.new }
{
    let _fits = put(name.as_bytes(), buffer);
}

/// Puts the part that is lent from an input, and its name at the front of the buffer, where that has room for it.
pub fn put_part(schema: &Schema, lent: &Lent, part: &mut ValuePart, buffer: &mut [u8])
    ensures part { (input : List ℕ) → IsLentFrom input lent.now
        → IsPart schema.now.kinds input lent.now.name.now [] (entry_of lent.now) part.new }
    ensures name { length lent.now.name.now ≤ length buffer.old
        → AreAtFront lent.now.name.now buffer.old buffer.new }
{
    put_name(lent.name, buffer);
    *part = part_named(schema, lent);
}

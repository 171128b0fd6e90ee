//! What is told of kinds that are known.
ghost use Rattle.std.specs.Prelude.{◌≡◌, ◌≤◌, length, Some, None, IfOk};
ghost use Rattle.example_values.specs.Rfc.{file_kinds, list_kinds};

use std::alloc::Global;
use xdr_bounds::{Bounds, Greatest, Range};
use xdr_types::{KindId, NoMemory, Schema};

/// The file of RFC 4506 section 7: four times a length at least, and 66,100 bytes at most.
pub fn file(alloc: Global, schema: &Schema) -> Result<Option<Range>, NoMemory>
    requires { schema.now.kinds ≡ file_kinds }
    ensures { IfOk result (λ r. r ≡ Some (record { least = Some 16; greatest = Greatest.Bytes 66100 })) }
{
    let bounds = Bounds::of(alloc, schema)?;
    Ok(bounds.range(KindId { place: 6 }))
}

/// Its union has a void arm, so the discriminant stands alone at least (RFC 4506 sections 4.15 and 4.16).
pub fn union_with_a_void_arm(alloc: Global, schema: &Schema) -> Result<Option<Range>, NoMemory>
    requires { schema.now.kinds ≡ file_kinds }
    ensures { IfOk result (λ r. r ≡ Some (record { least = Some 4; greatest = Greatest.Bytes 264 })) }
{
    let bounds = Bounds::of(alloc, schema)?;
    Ok(bounds.range(KindId { place: 4 }))
}

/// A list has no greatest count: one more entry makes it longer (RFC 4506 section 4.19).
pub fn list(alloc: Global, schema: &Schema) -> Result<Option<Range>, NoMemory>
    requires { schema.now.kinds ≡ list_kinds }
    ensures { IfOk result (λ r. r ≡ Some (record { least = Some 8; greatest = Greatest.Unbounded })) }
{
    let bounds = Bounds::of(alloc, schema)?;
    Ok(bounds.range(KindId { place: 2 }))
}

/// Of a kind that the schema does not have nothing is told.
pub fn no_kind(alloc: Global, schema: &Schema, id: KindId) -> Result<Option<Range>, NoMemory>
    requires { length schema.now.kinds ≤ id.place }
    ensures { IfOk result (λ r. r ≡ None) }
{
    let bounds = Bounds::of(alloc, schema)?;
    Ok(bounds.range(id))
}

//! What the examples of schemas are made of.
ghost use Rattle.std.specs.Prelude.{◌≡◌, ◌∷◌, [], IfOk};
ghost use Rattle.xdr_types.specs.KindViews.{part_of_member, branch_of};

use std::alloc::Global;
use std::string::String;
use xdr_types::{Arm, KindId, Member, NoMemory};

/// A field or a part with this name, of the kind at a place.
pub fn member(alloc: Global, name: &str, place: u32) -> Result<Member, NoMemory>
    ensures { IfOk result (λ m. part_of_member m ≡ record { name = name.now; kind = place }) }
{
    let name = String::from_str(alloc, name)?;
    Ok(Member {
        name,
        kind: KindId { place },
    })
}

/// An arm that stands under two cases.
pub fn arm(alloc: Global, first: i64, second: i64, member: Member) -> Result<Arm, NoMemory>
    ensures { IfOk result (λ a. branch_of a ≡ record { cases = first ∷ second ∷ []; part = part_of_member member }) }
{
    let cases = vec![in alloc; first, second]?;
    Ok(Arm { cases, member })
}

//! The first name of each kind, found once for all.
ghost use Rattle.std.specs.Prelude.{◌≡◌, ◌<◌, ◌∷◌, ℕ, List, None, IfOk, OnOk, length, map, slice_index_or};
ghost use Rattle.xdr_types.specs.Kinds.{Part};
ghost use Rattle.xdr_types.specs.KindViews.{name_of};
ghost use Rattle.xdr_listing.specs.Private.Firsts.{AreFirst};

use std::alloc::{AllocError, Global};
use xdr_types::KindId;

/// The first name of each kind at the place of the kind, none past the end. It takes memory by the highest place.
pub fn first_names<'a>(
    alloc: Global,
    names: &'a [(String, KindId)],
) -> Result<Vec<Option<&'a str>>, AllocError>
    ensures { IfOk result (λ v. AreFirst (map name_of names.now) v.items) }
{
    let mut firsts = Vec::new(alloc);
    for index in (0..names.len()).rev() {
        let name = &names[index];
        put_first(&mut firsts, name)?;
    }
    Ok(firsts)
}

// Puts a name at the place of its kind, where another may stand that comes later.
#[tactic(auto, using(crate::proofs::Firsts::in_front))]
fn put_first<'a>(
    firsts: &mut Vec<Option<&'a str>>,
    name: &'a (String, KindId),
) -> Result<(), AllocError>
    ensures { (rest : List Part) → AreFirst rest firsts.old.items
        → OnOk result (AreFirst (name_of name.now ∷ rest) firsts.new.items) }
{
    reach(firsts, name.1)?;
    firsts[name.1.place as usize] = Some(name.0.as_str());
    Ok(())
}

// Lengthens the list until it has the place of a kind.
fn reach<'a>(firsts: &mut Vec<Option<&'a str>>, id: KindId) -> Result<(), AllocError>
    ensures within { OnOk result (id.place < length firsts.new.items) }
    ensures same { OnOk result ((q : ℕ)
        → slice_index_or firsts.new.items q None ≡ slice_index_or firsts.old.items q None) }
{
    for _more in firsts.len()..id.place as usize + 1 {
        firsts.push(None)?;
    }
    Ok(())
}

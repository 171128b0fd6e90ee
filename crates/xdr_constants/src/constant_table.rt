//! The constants so far, and the first with each name.
ghost use Rattle.std.specs.Prelude.{◌≡◌, OnOk, OnErr, IfOk, true, false, List, [], ◌∷◌, ◌++◌, length, take};
ghost use Rattle.std.specs.List.{list_any};
ghost use Rattle.std.specs.Str.{bytes_eq};
ghost use Rattle.xdr_constants.specs.Views.{known_of, knowns};
ghost use Rattle.xdr_constants.specs.Constants.{known};
ghost use Rattle.xdr_constants.specs.Constants.{Known as KnownSpec};
ghost use Rattle.xdr_constants.specs.Tables.{HasFirst};
ghost use Rattle.xdr_constants.specs.Names.{names, repeat_after};

use crate::constants::Known;
use std::alloc::{AllocError, Global};
use std::collections::BTreeMap;

/// The constants so far, and for each name the first: its place, its number, and whether `const`
/// declares it.
#[derive(Drop)]
pub struct ConstantTable<'a> {
    /// The constants, in text order.
    pub list: Vec<Known<'a>>,
    first: BTreeMap<&'a str, (usize, i128, bool)>,
    /// False where a name came again.
    apart: bool,
    ghost is_first: { HasFirst first (knowns list.items) },
    ghost are_apart: { apart ≡ true → repeat_after [] (names (knowns list.items)) ≡ false },
}

/// Keeps the constant after `place` others, where it is the first with its name, and tells whether it is. An earlier
/// one comes out, and is put back.
fn keep_first<'a>(
    first: &mut BTreeMap<&'a str, (usize, i128, bool)>,
    place: usize,
    known: Known<'a>,
) -> Result<bool, AllocError>
    ensures retained { (ks : List KnownSpec) → HasFirst first.old ks → length ks ≡ place
        → OnOk result (HasFirst first.new (ks ++ known_of known.entry ∷ [])) }
    // Where it is the first, no other has its name.
    ensures alone { (ks : List KnownSpec) → HasFirst first.old ks
        → IfOk result (λ b. b ≡ true → list_any (bytes_eq (known_of known.entry).name) (names ks) ≡ false) }
    ensures unchanged { OnErr result (first.new.entries ≡ first.old.entries) }
{
    let one = (place, known.value, known.by_const);
    if let Some(earlier) = first.insert(known.name.text, one)? {
        first.insert(known.name.text, earlier)?;
        return Ok(false);
    }
    Ok(true)
}

impl<'a> ConstantTable<'a> {
    /// No constants.
    pub fn new(alloc: Global) -> ConstantTable<'a>
        ensures { knowns result.list.items ≡ [] }
    {
        ConstantTable {
            list: Vec::new(alloc),
            first: BTreeMap::new(alloc),
            apart: true,
        }
    }

    /// One more constant. Its place in the list is reserved before its name is retained, so that the constants stay
    /// where memory is refused at either.
    pub fn push(&mut self, known: Known<'a>) -> Result<(), AllocError>
        ensures added { OnOk result
            (knowns self.new.list.items ≡ knowns self.old.list.items ++ known_of known.entry ∷ []) }
        ensures stays { OnErr result (knowns self.new.list.items ≡ knowns self.old.list.items) }
    {
        let place = self.list.len();
        self.list.reserve(1)?;
        let is_first = keep_first(&mut self.first, place, known)?;
        self.list.push_reserved(known);
        self.apart = self.apart && is_first;
        Ok(())
    }

    /// Each constant has a name of its own.
    pub fn are_apart(&self) -> bool
        ensures { result ≡ true → repeat_after [] (names (knowns self.now.list.items)) ≡ false }
    {
        self.apart
    }

    /// The number of the constant with that name among the first `before`, and whether `const`
    /// declares it.
    pub fn named(&self, name: &str, before: usize) -> Option<(i128, bool)>
        ensures { result ≡ known name.now (take before (knowns self.now.list.items)) }
    {
        match self.first.get(name) {
            Some((place, value, by_const)) if *place < before => Some((*value, *by_const)),
            _ => None,
        }
    }
}

//! The types, what each name is declared as, and the places of kinds that are known.
ghost use Rattle.std.specs.Prelude.{◌≡◌, true, false, Some, None, List, [], ◌∷◌, ◌++◌, option_map, IfOk, IfSome, OnOk};
ghost use Rattle.std.specs.List.{list_any};
ghost use Rattle.std.specs.Str.{bytes_eq};
ghost use Rattle.xdr_grammar.specs.Outline as out;
ghost use Rattle.xdr_grammar.specs.View.{part_of, field_of};
ghost use Rattle.xdr_lang.specs.Distinct.{repeats};
ghost use Rattle.xdr_lang.specs.LookUp.{type_named, place_of};
ghost use Rattle.xdr_lang.specs.Views.{types_of};
ghost use Rattle.xdr_lang.specs.Private.Tables.{HasParts, HasPlaces, HasNoPlaces, IsPlacedAt, stays_in};
ghost use Rattle.xdr_lang.specs.Private.Tables.{all_stay, is_in, type_names};

use crate::places::{basic_place, own_place, struct_place};
use std::alloc::{AllocError, Global};
use std::collections::{BTreeMap, BTreeSet};
use xdr_grammar::{Field, Part};

/// The types in text order, and what the first with each name is declared as. `places` has the places that names stand
/// for, as far as they are known, and through how many names. The names of `endless` lead to one another alone. `apart`
/// is false where a name came again.
#[derive(Drop)]
pub struct TypeTable<'a> {
    pub list: Vec<Field<'a>>,
    parts: BTreeMap<&'a str, Part<'a>>,
    places: BTreeMap<&'a str, (u32, usize)>,
    endless: BTreeSet<&'a str>,
    apart: bool,
    ghost has_parts: { HasParts parts (types_of list.items) },
    ghost has_places: { HasPlaces places (types_of list.items) },
    ghost has_none: { HasNoPlaces endless (types_of list.items) },
    ghost are_apart: { apart ≡ true → repeats bytes_eq [] (type_names (types_of list.items)) ≡ false },
}

/// Keeps what the type is declared as, where it is the first with its name, and tells whether it is. What an earlier
/// one is declared as comes out, and is put back.
fn keep_part<'a>(
    parts: &mut BTreeMap<&'a str, Part<'a>>,
    field: &Field<'a>,
) -> Result<bool, AllocError>
    ensures retained { (ts : List out.Field) → HasParts parts.old ts
        → OnOk result (HasParts parts.new (ts ++ field_of field.now ∷ [])) }
    // Where it is the first, no other has its name.
    ensures alone { (ts : List out.Field) → HasParts parts.old ts
        → IfOk result (λ b. b ≡ true → list_any (bytes_eq (field_of field.now).name) (type_names ts) ≡ false) }
{
    if let Some(earlier) = parts.insert(field.name.text, field.part)? {
        parts.insert(field.name.text, earlier)?;
        return Ok(false);
    }
    Ok(true)
}

/// What each name is declared as first. False where a name came again.
fn parts_of<'a>(
    alloc: Global,
    types: &[Field<'a>],
) -> Result<(BTreeMap<&'a str, Part<'a>>, bool), AllocError>
    ensures parts { IfOk result (λ x. HasParts x.0 (types_of types.now)) }
    ensures apart { IfOk result (λ x. x.1 ≡ true → repeats bytes_eq [] (type_names (types_of types.now)) ≡ false) }
{
    let mut parts = BTreeMap::new(alloc);
    let mut apart = true;
    for field in types {
        let is_first = keep_part(&mut parts, field)?;
        apart = apart && is_first;
    }
    Ok((parts, apart))
}

/// The same types.
fn copied<'a>(alloc: Global, types: &[Field<'a>]) -> Result<Vec<Field<'a>>, AllocError>
    ensures { IfOk result (λ v. types_of v.items ≡ types_of types.now) }
{
    Vec::from_slice(alloc, types)
}

/// Keeps the place that a name stands for.
fn keep_place<'a>(
    places: &mut BTreeMap<&'a str, (u32, usize)>,
    name: &'a str,
    found: (u32, usize),
) -> Result<(), AllocError>
    ensures { (types : List out.Field) → HasPlaces places.old types → IsPlacedAt types name.now found.0 found.1
        → HasPlaces places.new types }
{
    places.insert(name, found)?;
    Ok(())
}

impl<'a> TypeTable<'a> {
    /// The place that a name stands for, and through how many names, where its part's is known.
    fn one_step(&self, name: &str) -> Option<(u32, usize)>
        ensures { IfSome result (λ x. IsPlacedAt (types_of self.now.list.items) name.now x.0 x.1) }
    {
        match self.parts.get(name) {
            None => None,
            Some(Part::Basic(basic)) => Some((basic_place(*basic), 1)),
            Some(Part::Text) => Some((7, 1)),
            Some(Part::Void) => Some((5, 1)),
            Some(Part::Made(made)) => match own_place(*made) {
                Ok(place) => Some((place, 1)),
                Err(_) => None,
            },
            Some(Part::StructMade(made)) => match own_place(*made) {
                Ok(place) => Some((place, 1)),
                Err(_) => None,
            },
            Some(Part::Struct(named)) => match struct_place(self, *named) {
                Ok(place) => Some((place, 1)),
                Err(_) => None,
            },
            Some(Part::Named(next)) => match self.places.get(next.text) {
                Some((place, steps)) if *steps < self.list.len() => Some((*place, *steps + 1)),
                _ => None,
            },
        }
    }

    /// Keeps the place that a name stands for, where its part's is known.
    fn learn(&mut self, name: &'a str) -> Result<(), AllocError>
        ensures { types_of self.new.list.items ≡ types_of self.old.list.items }
    {
        if let Some(found) = self.one_step(name) {
            keep_place(&mut self.places, name, found)?;
        }
        Ok(())
    }

    /// The names that lead from one to a place, as far as none of them was met before or has its place.
    fn path(
        &self,
        alloc: Global,
        name: &'a str,
        met: &mut BTreeSet<&'a str>,
    ) -> Result<Vec<&'a str>, AllocError> {
        let mut path = Vec::new(alloc);
        let mut name = name;
        for _ in 0..self.list.len().saturating_add(1) {
            if self.places.contains_key(name) || !met.insert(name)? {
                break;
            }
            path.push(name)?;
            match self.parts.get(name) {
                Some(Part::Named(next)) => name = next.text,
                _ => break,
            }
        }
        Ok(path)
    }

    /// Keeps the places of names, the last first.
    fn learn_path(&mut self, path: &[&'a str]) -> Result<(), AllocError>
        ensures { types_of self.new.list.items ≡ types_of self.old.list.items }
    {
        for name in path.iter().rev() {
            self.learn(*name)?;
        }
        Ok(())
    }

    /// Adds the names whose places are not known.
    fn add_lost(&self, lost: &mut BTreeSet<&'a str>, path: &[&'a str]) -> Result<(), AllocError> {
        for name in path {
            if !self.places.contains_key(*name) {
                lost.insert(*name)?;
            }
        }
        Ok(())
    }

    /// Keeps the place of a type, through the names that lead to it, or adds these to the lost ones.
    fn follow(
        &mut self,
        alloc: Global,
        field: &Field<'a>,
        met: &mut BTreeSet<&'a str>,
        lost: &mut BTreeSet<&'a str>,
    ) -> Result<(), AllocError>
        ensures { types_of self.new.list.items ≡ types_of self.old.list.items }
    {
        let path = self.path(alloc, field.name.text, met)?;
        self.learn_path(&path)?;
        self.add_lost(lost, &path)
    }

    /// Keeps the place of each type that is another name and has one, and the names that have none. A type that is no
    /// other name has its place where it is looked up, so that it is kept only where another name leads to it.
    pub fn learn_all(&mut self, alloc: Global, types: &[Field<'a>]) -> Result<(), AllocError>
        ensures { types_of self.new.list.items ≡ types_of self.old.list.items }
    {
        let mut met = BTreeSet::new(alloc);
        let mut lost = BTreeSet::new(alloc);
        for field in types {
            match field.part {
                Part::Named(_) | Part::Struct(_) => {
                    self.follow(alloc, field, &mut met, &mut lost)?
                }
                _ => {}
            }
        }
        self.keep_endless(lost);
        Ok(())
    }

    /// Keeps names that lead to one another alone.
    fn keep_endless(&mut self, names: BTreeSet<&'a str>)
        ensures { types_of self.new.list.items ≡ types_of self.old.list.items }
    {
        if all_stay(&self.list, &names) {
            self.endless = names;
        }
    }

    /// Each type has a name of its own.
    pub fn are_apart(&self) -> bool
        ensures { result ≡ true → repeats bytes_eq [] (type_names (types_of self.now.list.items)) ≡ false }
    {
        self.apart
    }

    /// What the type with that name was declared as.
    pub fn named(&self, name: &str) -> Option<Part<'a>>
        ensures { option_map part_of result ≡ type_named name.now (types_of self.now.list.items) }
    {
        match self.parts.get(name) {
            Some(part) => Some(*part),
            None => None,
        }
    }

    /// The place of the kind that a name stands for, where it is known.
    pub fn place(&self, name: &str) -> Option<u32>
        ensures { IfSome result (λ p. place_of (types_of self.now.list.items) (out.IsNamed name.now) ≡ Some p) }
    {
        match self.places.get(name) {
            Some((place, steps)) if *steps <= self.list.len() => Some(*place),
            _ => None,
        }
    }

    /// The name leads to other names alone, as far as it is known.
    pub fn is_endless(&self, name: &str) -> bool
        ensures { result ≡ true → place_of (types_of self.now.list.items) (out.IsNamed name.now) ≡ None }
    {
        is_in(&self.endless, name)
    }
}

/// The name is among these.
fn is_in(names: &BTreeSet<&str>, name: &str) -> bool
    ensures { result ≡ is_in names.now name.now }
{
    names.contains(name)
}

/// A type whose name is among these is another name for one of them.
#[tactic(auto, unfolding(crate::specs::Private::Tables::stays_in))]
fn stays(field: &Field<'_>, names: &BTreeSet<&str>) -> bool
    ensures { result ≡ stays_in names.now (field_of field.now) }
{
    if !is_in(names, field.name.text) {
        return true;
    }
    match &field.part {
        Part::Named(next) => is_in(names, next.text),
        _ => false,
    }
}

/// The same of all types.
#[tactic(auto, unfolding(crate::specs::Private::Tables::all_stay))]
fn all_stay(types: &[Field<'_>], names: &BTreeSet<&str>) -> bool
    ensures { result ≡ all_stay names.now (types_of types.now) }
{
    for field in types {
        if !stays(field, names) {
            return false;
        }
    }
    true
}

/// The types, of which no place is known yet.
pub fn type_table<'a>(alloc: Global, types: &[Field<'a>]) -> Result<TypeTable<'a>, AllocError>
    ensures { IfOk result (λ t. types_of t.list.items ≡ types_of types.now) }
{
    let endless = BTreeSet::new(alloc);
    let list = copied(alloc, types)?;
    let (parts, apart) = parts_of(alloc, types)?;
    let table = TypeTable {
        list,
        parts,
        places: BTreeMap::new(alloc),
        endless,
        apart,
    };
    Ok(table)
}

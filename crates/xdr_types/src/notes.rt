//! What is noted of each kind when a schema is built.
ghost use Rattle.std.specs.Prelude.{◌<◌, length, map, IfOk};
ghost use Rattle.xdr_types.specs.KindViews.{kind_view};
ghost use Rattle.xdr_types.specs.Private.Notes.{AreNotes};

use crate::decided::{Decided, decided_of};
use crate::extent::{Extent, extent_of};
use crate::kind::Kind;
use crate::levels::levels_of;
use crate::lookups::lookup_of;
use std::alloc::{AllocError, Global};
use std::fmt;
use std::fmt::{Debug, Formatter, Write};

/// What is noted of a kind. `{:?}` prints the numbers alone.
#[derive(Drop)]
pub struct Noted {
    /// The numbers of a long enumeration or union in order, with the indices of its members or arms.
    pub numbers: Option<Vec<(i64, usize)>>,
    /// What its values share, where their size does not vary.
    pub extent: Option<Extent>,
    /// Which unit decides of so many bytes, where one does alone.
    pub decided: Option<Decided>,
    /// How many levels its values have at most, where these are few.
    pub levels: Option<u32>,
}

// Numbers that are printed as a map from each to its index.
#[derive(Drop)]
struct AsMap<'n> {
    numbers: &'n Vec<(i64, usize)>,
}

impl<'n> Debug for AsMap<'n> {
    fn fmt<W: Write>(&self, f: &mut Formatter<W>) -> fmt::Result {
        let mut map = f.debug_map();
        for (number, index) in self.numbers {
            map.entry(number, index);
        }
        map.finish()
    }
}

impl Debug for Noted {
    fn fmt<W: Write>(&self, f: &mut Formatter<W>) -> fmt::Result {
        self.numbers
            .as_ref()
            .map(|numbers| AsMap { numbers })
            .fmt(f)
    }
}

/// The notes of the kinds, each at the place of its kind. An error is an allocation failure.
pub fn notes_of(alloc: Global, kinds: &Vec<Kind>) -> Result<Vec<Noted>, AllocError>
    ensures { IfOk result (λ v. AreNotes (map kind_view kinds.now.items) v.items) }
{
    let mut notes = numbers_of(alloc, kinds)?;
    // No kind that is noted has more levels than these, and each round is for a level at least. Parts stand mostly
    // before what is made of them, and where a text has it the other way, the second round finds them.
    for round in 0..16 {
        if !note_kinds(kinds, &mut notes, round % 2 == 1) {
            break;
        }
    }
    Ok(notes)
}

// The notes of the kinds, the numbers of each alone. An error is an allocation failure.
fn numbers_of(alloc: Global, kinds: &Vec<Kind>) -> Result<Vec<Noted>, AllocError>
    ensures { IfOk result (λ v. AreNotes (map kind_view kinds.now.items) v.items) }
{
    let mut notes = Vec::with_capacity(alloc, kinds.len())?;
    for kind in kinds {
        notes.push(Noted {
            numbers: lookup_of(alloc, kind)?,
            extent: None,
            decided: None,
            levels: None,
        })?;
    }
    Ok(notes)
}

// Notes the extents, the deciding units and the levels of kinds whose parts have theirs, from the first place to the
// last or the other way. Whether one more round may find more: some kind got its levels, and some kind has none.
fn note_kinds(kinds: &Vec<Kind>, notes: &mut Vec<Noted>, is_backward: bool) -> bool
    requires { AreNotes (map kind_view kinds.now.items) notes.old.items }
    ensures { AreNotes (map kind_view kinds.now.items) notes.new.items }
{
    let mut found = false;
    let mut waits = false;
    for done in 0..kinds.len() {
        let place = if is_backward {
            kinds.len() - 1 - done
        } else {
            done
        };
        if notes[place].levels.is_some() {
            continue;
        }
        if note_kind(kinds, notes, place) {
            found = true;
        } else {
            waits = true;
        }
    }
    found && waits
}

// Notes the levels of the kind at a place, its extent and the unit that decides of it, if its parts have their levels.
// Whether it did. The latter two are looked for once: parts whose levels are noted have theirs, or never will.
fn note_kind(kinds: &Vec<Kind>, notes: &mut Vec<Noted>, place: usize) -> bool
    requires within { place < length kinds.now.items }
    requires notes { AreNotes (map kind_view kinds.now.items) notes.old.items }
    ensures { AreNotes (map kind_view kinds.now.items) notes.new.items }
{
    match levels_of(notes, &kinds[place]) {
        Some(levels) => {
            let extent = extent_of(notes, &kinds[place]);
            let decided = decided_of(notes, place, &kinds[place]);
            notes[place].extent = extent;
            notes[place].decided = decided;
            notes[place].levels = Some(levels);
            true
        }
        None => false,
    }
}

//! A schema: kinds that name one another by place, and names for some.
ghost use Rattle.std.specs.Prelude.{◌≡◌, ◌<◌, ◌≤◌, ◌↔◌, IsTrue, length, map, option_map, IfOk, IfSome};
ghost use Rattle.std.specs.Prelude.{MatchOption, MatchResult};
ghost use Rattle.xdr_types.specs.Kinds.{kind_at};
ghost use Rattle.xdr_types.specs.KindViews.{kind_view, name_of, lists_of};
ghost use Rattle.xdr_types.specs.Faults.{IsWellFormed};
ghost use Rattle.xdr_types.specs.Refused.{IsRefused};
ghost use Rattle.xdr_types.specs.Sound.{IsSound};
ghost use Rattle.xdr_types.specs.Height.{AreHigher};
ghost use Rattle.xdr_types.specs.Laws.{EachKindHasAValue, EachPartIsKnown};
ghost use Rattle.std.specs.Cmp.{partial_equiv_from_equiv};
ghost use Rattle.xdr_types.specs.Alike.{same_lists};
ghost use Rattle.xdr_types.specs.Private.Alike.{lists_equivalence};
ghost use Rattle.xdr_types.specs.Named.{basic, named, place_named};
ghost use Rattle.xdr_types.specs.Extent.{IsExtent};
ghost use Rattle.xdr_types.specs.Decided.{IsDecided};
ghost use Rattle.xdr_types.specs.Levels.{IsMostLevels};
ghost use Rattle.xdr_types.specs.Private.Lookups.{Finds};

use crate::basic::{basic_kinds, basic_names};
use crate::decided::Decided;
use crate::extent::Extent;
use crate::fault::{Flaw, SchemaFault};
use crate::faults::first_in_kinds;
use crate::heights::lowest_without_height;
use crate::kind::{Kind, KindId};
use crate::names::first_in_names;
use crate::notes::{Noted, notes_of};
use std::alloc::Global;
use std::fmt;
use std::fmt::{Debug, Formatter, Write};
use std::marker::Model;
use std::string::String;
use xdr_units::NoMemory;

/// Kinds that name one another by place, and names for some of them: well formed and sound.
pub struct Schema {
    kinds: Vec<Kind>,
    // What is known of each kind beside it.
    notes: Vec<Noted>,
    names: Vec<(String, KindId)>,
}

// Written out, and not derived: so its proof is made here alone, and not in each crate that drops a schema.
impl Drop for Schema {
    fn drop(self) {
        let Schema {
            kinds: _kinds,
            notes: _notes,
            names: _names,
        } = self;
    }
}

impl Model for Schema {
    ghost use Rattle.xdr_types.specs.Kinds.{Lists};

    ghost Value = { Lists };

    ghost use Rattle.std.specs.Prelude.{map};
    ghost use Rattle.xdr_types.specs.KindViews.{kind_view, lists_of};
    ghost use Rattle.xdr_types.specs.Sound.{IsSound};
    ghost use Rattle.xdr_types.specs.Faults.{IsWellFormed};
    ghost use Rattle.xdr_types.specs.Height.{AreHigher};
    ghost use Rattle.xdr_types.specs.Private.Notes.{AreNotes};

    ghost view = { λ s. lists_of s.kinds.items s.names.items };

    ghost invariant = { λ s. record {
      well_formed : IsWellFormed (lists_of s.kinds.items s.names.items);
      sound : IsSound
          (map kind_view s.kinds.items);
      higher : AreHigher (map kind_view s.kinds.items);
      notes : AreNotes (map kind_view s.kinds.items) s.notes.items;
    } };
}

// Of what is known of each kind the numbers of long enumerations and unions are printed, under the name `lookups`.
impl Debug for Schema {
    fn fmt<W: Write>(&self, f: &mut Formatter<W>) -> fmt::Result {
        f.debug_struct("Schema")
            .field("kinds", &self.kinds)
            .field("lookups", &self.notes)
            .field("names", &self.names)
            .finish()
    }
}

impl PartialEq for Schema {
    ghost eq = { same_lists };

    ghost laws = { partial_equiv_from_equiv lists_equivalence };

    fn eq(&self, other: &Schema) -> bool {
        self.kinds == other.kinds && self.names == other.names
    }
}

impl Eq for Schema {
    ghost laws = { lists_equivalence };
}

/// Whether two schemas are the same, `a == b`: they are, exactly where their lists are.
pub fn is_same_schema(a: &Schema, b: &Schema) -> bool
    ensures { IsTrue result ↔ (a.now ≡ b.now) }
{
    a == b
}

// The first fault of the two lists, or an allocation failure; none of lists that are well formed and sound.
fn first_fault(
    alloc: Global,
    kinds: &Vec<Kind>,
    names: &Vec<(String, KindId)>,
) -> Option<SchemaFault>
    ensures { let lists = lists_of kinds.now.items names.now.items in
        MatchOption result (IsWellFormed lists × IsSound lists.kinds × AreHigher lists.kinds) (IsRefused lists) }
{
    if kinds.len() > 1024 {
        return Some(SchemaFault {
            why: Flaw::TooManyKinds,
            place: 0,
        });
    }
    if let Some(fault) = first_in_kinds(alloc, kinds) {
        return Some(fault);
    }
    if let Some(fault) = first_in_names(alloc, kinds, names) {
        return Some(fault);
    }
    match lowest_without_height(alloc, kinds) {
        Ok(None) => None,
        Ok(Some(place)) => Some(SchemaFault {
            why: Flaw::NoFiniteValue,
            place,
        }),
        Err(_) => Some(SchemaFault {
            why: Flaw::NoMemory,
            place: 0,
        }),
    }
}

impl Schema {
    /// The schema of the two lists, where they are well formed and sound: each kind is a legal one, and has a finite
    /// value (RFC 4506 sections 4.3 to 4.19).
    ///
    /// Else the first fault in this order: more than 1024 kinds; each kind by its place, the first of `UnknownKind`,
    /// `ZeroSize`, `VoidMember`, `BadDiscriminant`, `CaseTwice`, `CaseNotLegal`, `EmptyList`, `NameTwice`. Then each
    /// name in turn, the first of `UnknownKind`, `VoidMember`, `NameTwice`; then `NoFiniteValue` at the lowest place
    /// that has none. `NoMemory` comes where a growth was refused.
    pub fn build(
        alloc: Global,
        kinds: Vec<Kind>,
        names: Vec<(String, KindId)>,
    ) -> Result<Schema, SchemaFault>
        ensures { MatchResult result
            (λ s. (s ≡ lists_of kinds.items names.items) × IsWellFormed s × IsSound s.kinds)
            (λ e. IsRefused (lists_of kinds.items names.items) e) }
    {
        if let Some(fault) = first_fault(alloc, &kinds, &names) {
            return Err(fault);
        }
        match notes_of(alloc, &kinds) {
            Ok(notes) => Ok(Schema {
                kinds,
                notes,
                names,
            }),
            Err(_) => Err(SchemaFault {
                why: Flaw::NoMemory,
                place: 0,
            }),
        }
    }

    /// How many kinds there are, 1024 at most. Its contract has what is known of every schema.
    pub fn len(&self) -> usize
        ensures value { result ≡ length self.now.kinds }
        // No fault applies anywhere,
        ensures well_formed { IsWellFormed self.now }
        // each kind has a finite value,
        ensures sound { IsSound self.now.kinds }
        // each structure and each fixed array is higher than its parts,
        ensures higher { AreHigher self.now.kinds }
        // the parts of all nodes are kinds of the schema,
        ensures known { EachPartIsKnown self.now.kinds }
        // and each kind has a value.
        ensures valued { EachKindHasAValue self.now.kinds }
    {
        self.kinds.len()
    }

    /// The basic schema, of the kinds without declarations (RFC 4506 sections 4.1, 4.2, 4.4, 4.5, 4.10, 4.11, 4.16). At
    /// places 0 to 7 it has `int`, `unsigned`, `hyper`, `unsigned-hyper`, `bool`, a void kind without a name, `opaque`
    /// and `string`.
    pub fn basic(alloc: Global) -> Result<Schema, NoMemory>
        ensures { IfOk result (λ s. s ≡ basic) }
    {
        let kinds = basic_kinds(alloc)?;
        let names = basic_names(alloc)?;
        Schema::build(alloc, kinds, names).map_err(|_| NoMemory)
    }

    /// The kind that a name names; none where the schema does not have the name.
    pub fn named(&self, name: &str) -> Option<KindId>
        ensures { option_map (λ k. k.place) result ≡ place_named self.now.names name.now }
    {
        for entry in &self.names {
            if entry.0.as_str() == name {
                return Some(entry.1);
            }
        }
        None
    }

    /// The names with the kinds that they name (RFC 4506 section 6.3), each name once, in their order: those of the
    /// basic schema (`basic_names`), then those that were declared.
    pub fn names(&self) -> &[(String, KindId)]
        ensures { map name_of result.now ≡ self.now.names }
    {
        &self.names
    }

    /// Whether the schema has the kind: its place is below `len`.
    pub fn has(&self, id: KindId) -> bool
        ensures { IsTrue result ↔ id.place < length self.now.kinds }
    {
        (id.place as usize) < self.kinds.len()
    }

    /// The list that places are indices of, for look-ups that want no `has`.
    pub(crate) fn kinds(&self) -> &Vec<Kind>
        ensures { map kind_view result.now.items ≡ self.now.kinds }
    {
        &self.kinds
    }

    /// The numbers of a long enumeration or union in order, with the indices of its members or arms.
    pub(crate) fn lookup(&self, id: KindId) -> Option<&Vec<(i64, usize)>>
        ensures { IfSome result (λ v. Finds (kind_at self.now.kinds id.place) v.now.items) }
    {
        let place = id.place as usize;
        if place >= self.notes.len() {
            return None;
        }
        self.notes[place].numbers.as_ref()
    }

    /// What all values of the kind share (RFC 4506 sections 4.1 to 4.5, 4.9, 4.12, 4.14). There is an extent of a
    /// number, a boolean, an enumeration, an opaque of fixed size, and a fixed array or a structure of these. But there
    /// is one only where a value has 65536 bytes and 16 levels at most. There is none of any other kind, also where all
    /// its values have one size, as of a void, and none of a kind that the schema does not have. The contract speaks of
    /// an extent that is there, and not of which kinds have one.
    pub fn extent(&self, id: KindId) -> Option<Extent>
        ensures { IfSome result (IsExtent self.now.kinds id.place) }
    {
        let place = id.place as usize;
        if place >= self.notes.len() {
            return None;
        }
        self.notes[place].extent
    }

    /// Which unit decides whether as many bytes as a value of the kind has are those of one (RFC 4506 sections 4.3,
    /// 4.4, 4.14). There is one of a boolean, of an enumeration, and of a structure of 16 levels at most whose fields
    /// have extents, all of them free but one, which has such a unit. There is none of any other kind, as of a fixed
    /// array of one boolean, and none of a kind that the schema does not have. The contract speaks of a unit that is
    /// there, and not of which kinds have one.
    pub fn decided(&self, id: KindId) -> Option<Decided>
        ensures { IfSome result (IsDecided self.now.kinds id.place) }
    {
        let place = id.place as usize;
        if place >= self.notes.len() {
            return None;
        }
        self.notes[place].decided
    }

    /// A count of levels, 1 to 16, that no value of the kind passes (RFC 4506 sections 4.1 to 4.19). It is 1 where a
    /// kind has no parts, and else one more than the most of its parts; a default that no number reaches is counted
    /// too. There is none where that is above 16 or has no end, as of a linked list. There is none of an array of
    /// varying length and of what has one inside it, and none of a kind that the schema does not have. The contract
    /// speaks of a count that is there, and not of which kinds have one.
    pub fn levels(&self, id: KindId) -> Option<u32>
        ensures { IfSome result (IsMostLevels self.now.kinds id.place) }
    {
        let place = id.place as usize;
        if place >= self.notes.len() {
            return None;
        }
        self.notes[place].levels
    }

    /// The kind at a place that the schema has.
    pub fn kind(&self, id: KindId) -> &Kind
        requires has { id.place < length self.now.kinds }
        ensures { kind_view result.now ≡ kind_at self.now.kinds id.place }
    {
        &self.kinds[id.place as usize]
    }
}

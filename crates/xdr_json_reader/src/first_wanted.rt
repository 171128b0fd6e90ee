//! The members that an object is to have, each with the kind of its value: the fields of a structure, or the
//! discriminant of a union with its arm (RFC 4506 sections 4.14, 4.15).
ghost use Rattle.std.specs.Prelude.{◌≡◌, List, length, map, option_map, MatchResult, MatchOption};
ghost use Rattle.json.specs.Json.{object};
ghost use Rattle.xdr_types.specs.Kinds.{KindView, Part, kind_at};
ghost use Rattle.xdr_types.specs.KindViews.{part_of_member};
ghost use Rattle.xdr_json_reader.specs.Tape.{json_in, members_of};
ghost use Rattle.xdr_json_reader.specs.Reasons.{Wants, WantsNone, kind_under, arm_parts};
ghost use Rattle.xdr_json_reader.specs.Private.Look.{pairs};
ghost use Rattle.xdr_json_reader.specs.Private.Names.{MayBeTable, names_of};
ghost use Rattle.xdr_json_reader.specs.Private.Wanted.{AreFieldTables, IsWanted, IsLoneWrong};

use crate::fault::JsonFault;
use crate::first_fields::{Fields, Groups, field_named, fields_for};
use crate::reading_entry::Turn;
use crate::reading_union::{Union, is_nothing, key_of, told_arm};
use crate::tape::{Key, Node};
use std::vec::Vec;
use xdr_types::{Kind, KindId, Member, Schema};

/// The members that an object is to have.
#[derive(Clone, Copy)]
pub enum Wanted<'n, 's> {
    /// The fields of a structure, with a table of them where one was made.
    Fields {
        fields: &'s Vec<Member>,
        places: Option<&'n Fields<'s>>,
    },
    /// The discriminant of a union, by its kind.
    Case {
        tag: KindId,
    },
    /// The discriminant, and an arm that is not void.
    CaseAndArm {
        tag: KindId,
        arm: &'s Member,
    },
}

impl Wanted<'_, '_> {
    /// How many there are.
    pub fn len(self) -> usize
        ensures { (ps : List Part) → IsWanted self.entry ps → result ≡ length ps }
    {
        match self {
            Wanted::Fields { fields, places: _ } => fields.len(),
            Wanted::Case { tag: _ } => 1,
            Wanted::CaseAndArm { tag: _, arm: _ } => 2,
        }
    }

    /// The kind of the value under a key; none where no such member is wanted.
    pub fn kind_under(self, key: &str) -> Option<KindId>
        ensures { (ps : List Part) → IsWanted self.entry ps
            → option_map (λ k. k.place) result ≡ kind_under ps key.now }
    {
        match self {
            Wanted::Fields { fields, places } => field_named(places, fields, key),
            Wanted::Case { tag } => (key == "case").then_some(tag),
            Wanted::CaseAndArm { tag, arm } => {
                if key == "case" {
                    return Some(tag);
                }
                (key == key_of(arm)).then_some(arm.kind)
            }
        }
    }
}

// The discriminant and the arm; a void one has no member.
fn with_arm<'n, 's>(schema: &Schema, tag: KindId, arm: &'s Member) -> Wanted<'n, 's>
    ensures { IsWanted result (arm_parts schema.now.kinds tag.place (part_of_member arm.now)) }
{
    if is_nothing(schema, arm.kind) {
        return Wanted::Case { tag };
    }
    Wanted::CaseAndArm { tag, arm }
}

/// The members that an object is to have as a node of its kind; none of a kind whose objects have no such members. A
/// union's are not known where its discriminant is missing, wrong or without an arm, which is refused.
pub fn wanted_of<'v, 'a, 'n, 's>(
    schema: &'s Schema,
    turn: Turn<'v, 'a, '_, 's>,
    members: &'v Vec<(Key<'a>, Node<'a>)>,
    groups: &'n Groups<'s>,
) -> Result<Option<Wanted<'n, 's>>, JsonFault>
    requires is { json_in turn.next.node.now ≡ object (members_of (pairs members.now.items)) }
    requires names { MayBeTable (names_of schema.now.kinds (kind_at schema.now.kinds turn.next.kind.place))
        turn.names }
    requires tables { AreFieldTables schema.now.kinds groups.now }
    ensures { MatchResult result
        (λ o. MatchOption o
        (WantsNone schema.now.kinds (kind_at schema.now.kinds turn.entry.next.kind.place)
        (json_in turn.entry.next.node.now))
        (λ w. (ps : List Part) × IsWanted w ps
        × Wants schema.now.kinds (kind_at schema.now.kinds turn.entry.next.kind.place)
        (json_in turn.entry.next.node.now) ps))
        (λ f. IsLoneWrong schema.now.kinds (kind_at schema.now.kinds turn.entry.next.kind.place)
        (json_in turn.entry.next.node.now) f.why) }
{
    let id = turn.next.kind;
    if !schema.has(id) {
        return Ok(None);
    }
    match schema.kind(id) {
        Kind::Structure { fields } => {
            let places = fields_for(id, groups);
            Ok(Some(Wanted::Fields { fields, places }))
        }
        Kind::Choice { tag, arms, other } => {
            let among = Union {
                id,
                tag: *tag,
                arms,
                other,
            };
            match told_arm(schema, among, members, turn) {
                Ok((_, arm)) => Ok(Some(with_arm(schema, *tag, arm))),
                Err(fault) => Err(fault),
            }
        }
        _ => Ok(None),
    }
}

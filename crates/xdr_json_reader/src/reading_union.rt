//! Unions (RFC 4506 section 4.15).
ghost use Rattle.std.specs.Prelude.{◌≡◌, ◌++◌, ◌∷◌, ◌≤ℤ◌, pos, negsuc, map, option_map, MatchResult};
ghost use Rattle.json.specs.Json.{object, no_members};
ghost use Rattle.xdr_types.specs.Kinds.{kind_at, choice};
ghost use Rattle.xdr_types.specs.KindViews.{part_of_member, branch_of};
ghost use Rattle.xdr_units.specs.Numbers.{num4};
ghost use Rattle.xdr_types.specs.Faults.{is_void};
ghost use Rattle.xdr_json.specs.Mapping.{arm_key};
ghost use Rattle.xdr_json_reader.specs.Tape.{json_in, members_of};
ghost use Rattle.xdr_json_reader.specs.Reasons.{Wrong};
ghost use Rattle.xdr_json_reader.specs.Private.Look.{pairs};
ghost use Rattle.xdr_json_reader.specs.Private.Entries.{dues};
ghost use Rattle.xdr_json_reader.specs.Private.Groups.{ArmRead, ReadAt};
ghost use Rattle.xdr_json_reader.specs.Private.Chosen.{IsChosen, IsTold};
ghost use Rattle.xdr_json_reader.specs.Private.Wanted.{IsLoneWrong};
ghost use Rattle.xdr_json_reader.specs.Private.Names.{MayBeTable, constants_in};
ghost use Rattle.xdr_json_reader.specs.declared.fault.JsonReason.TheVariants.{NoMemory};

use crate::fault::{JsonFault, JsonReason};
use crate::reading_bytes::put_tag;
use crate::reading_entry::{Entry, Turn, push_node};
use crate::reading_look::{Shape, look};
use crate::reading_member::{member_at, other_members};
use crate::reading_tag::tag_at;
use crate::tape::{Key, Node};
use xdr_types::{Arm, Kind, KindId, Member, Schema, part_in};

/// Whether the kind at a place is void.
pub fn is_nothing(schema: &Schema, id: KindId) -> bool
    ensures { result ≡ is_void schema.now.kinds id.place }
{
    if !schema.has(id) {
        return false;
    }
    match schema.kind(id) {
        Kind::Nothing => true,
        _ => false,
    }
}

/// The key of an arm: its name, and `case_` for an arm that is itself called `case`.
pub fn key_of(arm: &Member) -> &str
    ensures { result.now ≡ arm_key (part_of_member arm.now).name }
{
    let name = arm.name.as_str();
    if name == "case" { "case_" } else { name }
}

// The node of an arm: the value under its key, or the empty object for a void one.
fn arm_node<'v, 'a>(
    schema: &Schema,
    arm: &Member,
    members: &'v Vec<(Key<'a>, Node<'a>)>,
    turn: Turn<'v, 'a, '_, '_>,
) -> Result<&'v Node<'a>, JsonFault>
    requires { json_in turn.empty.now ≡ object no_members }
    ensures { ArmRead schema.now.kinds (part_of_member arm.now) (members_of (pairs members.now.items)) result }
{
    let at = turn.next.node.at();
    if is_nothing(schema, arm.kind) {
        if members.len() != 1 {
            return Err(other_members(at));
        }
        return Ok(turn.empty);
    }
    let key = key_of(arm);
    match member_at(members, key) {
        Some(node) => {
            if members.len() != 2 {
                return Err(other_members(at));
            }
            Ok(node)
        }
        None => Err(other_members(at)),
    }
}

/// A union of a schema, by its place, and what is declared of it.
#[derive(Clone, Copy)]
pub struct Union<'s> {
    pub id: KindId,
    pub tag: KindId,
    pub arms: &'s Vec<Arm>,
    pub other: &'s Option<Member>,
}

// An arm that was chosen: the discriminant, the arm's kind and its node.
#[derive(Clone, Copy)]
pub struct Chosen<'v, 'a> {
    number: i64,
    kind: KindId,
    node: &'v Node<'a>,
}

/// The discriminant that the members tell, and its arm. Other members are not looked at.
pub fn told_arm<'v, 'a, 's>(
    schema: &'s Schema,
    among: Union<'_>,
    members: &'v Vec<(Key<'a>, Node<'a>)>,
    turn: Turn<'v, 'a, '_, '_>,
) -> Result<(i64, &'s Member), JsonFault>
    requires kind { kind_at schema.now.kinds among.id.place
        ≡ choice among.tag.place (map branch_of among.arms.now.items) (option_map part_of_member among.other.now) }
    requires names { MayBeTable (constants_in (kind_at schema.now.kinds among.tag.place)) turn.names }
    ensures { MatchResult result
        (λ t. IsTold schema.now.kinds among.entry.tag.place (map branch_of among.entry.arms.now.items)
        (option_map part_of_member among.entry.other.now) (members_of (pairs members.now.items)) t.0
        (part_of_member t.1.now))
        (λ f. IsLoneWrong schema.now.kinds (kind_at schema.now.kinds among.entry.id.place)
        (object (members_of (pairs members.now.items))) f.why) }
{
    let _known = schema.len();
    let Some(case) = member_at(members, "case") else {
        return Err(JsonFault {
            why: JsonReason::MissingMember,
            at: turn.next.node.at(),
        });
    };
    let at = case.at();
    let number = match tag_at(schema, turn.names, among.tag, look(case)) {
        Ok(number) => number,
        Err(why) => return Err(JsonFault { why, at }),
    };
    match part_in(schema, among.id, number) {
        Some(arm) => Ok((number, arm)),
        None => Err(JsonFault {
            why: JsonReason::NoArm,
            at,
        }),
    }
}

// The discriminant that the members tell, and the arm that they have under it.
fn chosen_arm<'v, 'a>(
    schema: &Schema,
    among: Union<'_>,
    members: &'v Vec<(Key<'a>, Node<'a>)>,
    turn: Turn<'v, 'a, '_, '_>,
) -> Result<Chosen<'v, 'a>, JsonFault>
    requires kind { kind_at schema.now.kinds among.id.place
        ≡ choice among.tag.place (map branch_of among.arms.now.items) (option_map part_of_member among.other.now) }
    requires names { MayBeTable (constants_in (kind_at schema.now.kinds among.tag.place)) turn.names }
    requires empty { json_in turn.empty.now ≡ object no_members }
    ensures { MatchResult result
        (λ c. IsChosen schema.now.kinds among.entry.tag.place (map branch_of among.entry.arms.now.items)
        (option_map part_of_member among.entry.other.now) (members_of (pairs members.now.items)) c)
        (λ f. Wrong schema.now.kinds (kind_at schema.now.kinds among.entry.id.place)
        (object (members_of (pairs members.now.items))) f.why) }
{
    let _known = schema.len();
    let (number, arm) = match told_arm(schema, among, members, turn) {
        Ok(told) => told,
        Err(fault) => return Err(fault),
    };
    match arm_node(schema, arm, members, turn) {
        Ok(node) => Ok(Chosen {
            number,
            kind: arm.kind,
            node,
        }),
        Err(fault) => Err(fault),
    }
}

/// Reads a union, whose arm is read next.
pub fn read_choice<'v, 'a>(
    schema: &Schema,
    among: Union<'_>,
    turn: Turn<'v, 'a, '_, '_>,
    out: &mut Vec<u8>,
    due: &mut Vec<Entry<'v, 'a>>,
) -> Result<(), JsonFault>
    requires kind { kind_at schema.now.kinds among.id.place
        ≡ choice among.tag.place (map branch_of among.arms.now.items) (option_map part_of_member among.other.now) }
    requires names { MayBeTable (constants_in (kind_at schema.now.kinds among.tag.place)) turn.names }
    requires empty { json_in turn.empty.now ≡ object no_members }
    ensures { ReadAt schema.now.kinds (kind_at schema.now.kinds among.entry.id.place) (json_in turn.entry.next.node.now)
        out.old.items out.new.items (dues due.old.items) (dues due.new.items) result }
{
    let node = turn.next.node;
    match look(node) {
        Shape::Object(members) => match chosen_arm(schema, among, members, turn) {
            Ok(chosen) => put_arm(chosen, out, due),
            Err(fault) => Err(fault),
        },
        _ => Err(JsonFault {
            why: JsonReason::WrongType,
            at: node.at(),
        }),
    }
}

// Writes the discriminant, and has the arm read next.
fn put_arm<'v, 'a>(
    chosen: Chosen<'v, 'a>,
    out: &mut Vec<u8>,
    due: &mut Vec<Entry<'v, 'a>>,
) -> Result<(), JsonFault>
    requires low { negsuc 2147483647 ≤ℤ chosen.number }
    requires high { chosen.number ≤ℤ pos 4294967295 }
    ensures { MatchResult result (λ _. (out.new.items ≡ out.old.items ++ num4 chosen.entry.number)
        × (dues due.new.items ≡ (chosen.entry.kind.place, json_in chosen.entry.node.now) ∷ dues due.old.items))
        (λ f. f.why ≡ NoMemory) }
{
    match put_tag(out, chosen.number) {
        Ok(()) => match push_node(due, chosen.kind, chosen.node) {
            Ok(()) => Ok(()),
            Err(_) => Err(JsonFault {
                why: JsonReason::NoMemory,
                at: 0,
            }),
        },
        Err(_) => Err(JsonFault {
            why: JsonReason::NoMemory,
            at: 0,
        }),
    }
}

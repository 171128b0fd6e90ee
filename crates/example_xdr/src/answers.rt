//! What a schema and its kinds answer: which kinds it has, what stands where, which names it knows, which discriminants
//! a union may have, and when two are the same.
//!
//! Each function calls the library, and its `ensures` is what the library's contract makes certain about the answer.
ghost use Rattle.std.specs.Prelude.{◌≡◌, ◌≢◌, ◌<◌, ◌∷◌, [], pos, length, map, codes, true, false, Some, IsSome, IfOk};
ghost use Rattle.xdr_types.specs.Kinds as xdr;
ghost use Rattle.xdr_types.specs.Kinds.{kind_at};
ghost use Rattle.xdr_types.specs.KindViews.{branch_of, constant_of, part_of_member};
ghost use Rattle.xdr_types.specs.Named.{named};
ghost use Rattle.xdr_types.specs.Refused.{IsFirstFault};
ghost use Rattle.xdr_types.specs.Tree.{Tree};
ghost use Rattle.xdr_types.specs.declared.fault.SchemaFault.{SchemaFault};
ghost use Rattle.xdr_types.specs.Fits.{Fits};
ghost use Rattle.example_xdr.specs.Rfc.{constant};

use std::alloc::Global;
use std::string::String;
use xdr_types::{
    Arm, Flaw, Kind, KindId, Member, NoMemory, Schema, is_legal_tag, is_number_of, is_same_schema,
    no_schema_has_a_fault, part_under,
};

/// The basic schema has eight kinds.
pub fn basic_has_eight_kinds(alloc: Global) -> Result<usize, NoMemory>
    ensures { IfOk result (λ n. n ≡ 8) }
{
    let basic = Schema::basic(alloc)?;
    Ok(basic.len())
}

/// Its `opaque` stands at place 6.
pub fn place_of_opaque(alloc: Global) -> Result<Option<u32>, NoMemory>
    ensures { IfOk result (λ place. place ≡ Some 6) }
{
    let basic = Schema::basic(alloc)?;
    Ok(basic.named("opaque").map(|id| id.place))
}

/// It has no name for the void kind.
pub fn void_has_no_name(alloc: Global) -> Result<bool, NoMemory>
    ensures { IfOk result (λ found. found ≡ false) }
{
    let basic = Schema::basic(alloc)?;
    Ok(basic.named("void").is_some())
}

/// A name is found by all of its bytes: one as long as another is not that one.
pub fn name_of_the_same_length(schema: &Schema) -> bool
    requires { schema.now.names ≡ named (codes "abc") 3 ∷ [] }
    ensures { result ≡ false }
{
    schema.named("int").is_some()
}

/// A place that is the number of kinds names none: they count from 0.
pub fn no_kind_at_the_length(schema: &Schema, id: KindId) -> bool
    requires { id.place ≡ length schema.now.kinds }
    ensures { result ≡ false }
{
    schema.has(id)
}

/// The kind that is answered is the one at the place.
pub fn kind_at_its_place(schema: &Schema, id: KindId) -> bool
    requires has { id.place < length schema.now.kinds }
    requires hyper { kind_at schema.now.kinds id.place ≡ xdr.hyper }
    ensures { result ≡ true }
{
    matches!(schema.kind(id), Kind::Hyper)
}

/// Two is no value of a bool (RFC 4506 section 4.4).
pub fn two_is_no_bool(schema: &Schema, id: KindId) -> bool
    requires { kind_at schema.now.kinds id.place ≡ xdr.boolean }
    ensures { result ≡ false }
{
    is_legal_tag(schema, id, 2)
}

/// The greatest unsigned int is a legal discriminant (RFC 4506 section 4.15).
pub fn greatest_unsigned(schema: &Schema, id: KindId) -> bool
    requires { kind_at schema.now.kinds id.place ≡ xdr.unsigned }
    ensures { result ≡ true }
{
    is_legal_tag(schema, id, 4294967295)
}

/// One more is none.
pub fn more_than_an_unsigned(schema: &Schema, id: KindId) -> bool
    requires { kind_at schema.now.kinds id.place ≡ xdr.unsigned }
    ensures { result ≡ false }
{
    is_legal_tag(schema, id, 4294967296)
}

/// A hyper is no discriminant, so not even 0 is a legal one.
pub fn hyper_is_no_discriminant(schema: &Schema, id: KindId) -> bool
    requires { kind_at schema.now.kinds id.place ≡ xdr.hyper }
    ensures { result ≡ false }
{
    is_legal_tag(schema, id, 0)
}

/// A number is one of an enumeration where a member has that very number, and neither one more nor one less.
pub fn number_of_no_member(members: &Vec<(String, i32)>) -> bool
    requires { map constant_of members.now.items ≡ constant (codes "ONE") 1 ∷ [] }
    ensures { result ≡ false }
{
    is_number_of(members, 2) || is_number_of(members, 0)
}

/// A union without an arm and without a default has no part.
pub fn no_part_without_an_arm(alloc: Global, number: i64) -> bool
    ensures { result ≡ false }
{
    part_under(&Vec::new(alloc), &None, number).is_some()
}

/// Without arms, the default stands under every discriminant (RFC 4506 section 4.15).
pub fn default_without_arms(alloc: Global, other: &Option<Member>, number: i64) -> bool
    requires { IsSome other.now }
    ensures { result ≡ true }
{
    part_under(&Vec::new(alloc), other, number).is_some()
}

/// An arm is not taken under a number that it does not list.
pub fn arm_under_another_number(arms: &Vec<Arm>, part: &Member) -> bool
    requires { map branch_of arms.now.items ≡ record { cases = pos 1 ∷ []; part = part_of_member part.now } ∷ [] }
    ensures { result ≡ false }
{
    part_under(arms, &None, 2).is_some()
}

/// Schemas that differ are not the same.
pub fn differing_schemas(a: &Schema, b: &Schema) -> bool
    requires { a.now ≢ b.now }
    ensures { result ≡ false }
{
    is_same_schema(a, b)
}

/// Members that differ in their names or their kinds are not the same.
pub fn differing_members(a: &Member, b: &Member) -> bool
    requires { part_of_member a.now ≢ part_of_member b.now }
    ensures { result ≡ false }
{
    a == b
}

/// Arms under other cases are not the same, also where their parts are.
pub fn differing_cases(a: &Arm, b: &Arm) -> bool
    requires first { a.now.cases.items ≡ pos 1 ∷ [] }
    requires second { b.now.cases.items ≡ pos 2 ∷ [] }
    ensures { result ≡ false }
{
    a == b
}

/// Bounds that differ make kinds that differ, whichever is greater.
pub fn differing_bounds() -> bool
    ensures { result ≡ false }
{
    Kind::OpaqueUpTo { max: 1 } == Kind::OpaqueUpTo { max: 2 }
}

/// The fault of an empty list has number 9.
pub fn number_of_an_empty_list() -> u8
    ensures { result ≡ 9 }
{
    Flaw::EmptyList.number()
}

/// Every kind of a schema has a value.
pub fn every_kind_has_a_value(schema: &Schema, id: KindId)
    requires { id.place < length schema.now.kinds }
    ensures { (t : Tree) × Fits schema.now.kinds id.place t }
{
    let _count = schema.len();
}

/// The lists of a schema have no fault: `Schema::build` refuses none that it could take.
pub fn no_fault_in_a_schema(schema: &Schema)
    ensures { (e : SchemaFault) → IsFirstFault schema.now e → ⊥ }
{
    no_schema_has_a_fault();
    let _count = schema.len();
}

//! Numbers that are looked for among the members of a long enumeration and the arms of long unions (RFC 4506 sections
//! 4.3 and 4.15).
//!
//! Each function calls the library, and its `ensures` is what the library's contract makes certain about the answer.
//! The enumeration and the unions are those of `specs/LookUps.antt`: their numbers are many, and in no order.
ghost use Rattle.std.specs.Prelude.{◌≡◌, true, false, pos, negsuc, option_map, map, codes, Some, None, IfSome};
ghost use Rattle.xdr_types.specs.KindViews.{kind_view, constant_of, part_of_member};
ghost use Rattle.example_xdr.specs.Rfc.{part};
ghost use Rattle.example_xdr.specs.LookUps.{member, many_numbers};

use crate::schemas::only_memory;
use std::alloc::Global;
use std::string::String;
use xdr_types::{
    Flaw, Kind, KindId, Member, Schema, SchemaFault, is_legal_tag, member_in, part_in,
};

/// Lists with these kinds are a schema: an allocation failure alone refuses them.
pub fn many_numbers_are_a_schema(alloc: Global, kinds: Vec<Kind>) -> Option<SchemaFault>
    requires { map kind_view kinds.items ≡ many_numbers }
    ensures { IfSome result (λ e. e.why ≡ Flaw.NoMemory) }
{
    only_memory(alloc, kinds, Vec::new(alloc))
}

/// A member is found by its number, name and all.
pub fn finds_a_member(schema: &Schema) -> Option<&(String, i32)>
    requires { schema.now.kinds ≡ many_numbers }
    ensures { option_map (λ m. constant_of m.now) result ≡ Some (member (codes "GREY") (pos 7)) }
{
    member_in(schema, KindId { place: 0 }, 7)
}

/// The least number of an int is one like any other.
pub fn finds_the_least_number(schema: &Schema) -> Option<&(String, i32)>
    requires { schema.now.kinds ≡ many_numbers }
    ensures { option_map (λ m. constant_of m.now) result ≡ Some (member (codes "PINK") (negsuc 2147483647)) }
{
    member_in(schema, KindId { place: 0 }, -2147483648)
}

/// Of two members with one number the first is found.
pub fn finds_the_first_of_two(schema: &Schema) -> Option<&(String, i32)>
    requires { schema.now.kinds ≡ many_numbers }
    ensures { option_map (λ m. constant_of m.now) result ≡ Some (member (codes "RED") (pos 4)) }
{
    member_in(schema, KindId { place: 0 }, 4)
}

/// A number between those of two members is none.
pub fn finds_no_member(schema: &Schema) -> Option<&(String, i32)>
    requires { schema.now.kinds ≡ many_numbers }
    ensures { result ≡ None }
{
    member_in(schema, KindId { place: 0 }, 5)
}

/// Nor is a number of more than 32 bits, whose low ones are those of RED.
pub fn finds_no_member_by_low_bits(schema: &Schema) -> Option<&(String, i32)>
    requires { schema.now.kinds ≡ many_numbers }
    ensures { result ≡ None }
{
    member_in(schema, KindId { place: 0 }, 4294967300)
}

/// A discriminant of the enumeration may have a member's number.
pub fn member_is_legal(schema: &Schema) -> bool
    requires { schema.now.kinds ≡ many_numbers }
    ensures { result ≡ true }
{
    is_legal_tag(schema, KindId { place: 0 }, 3)
}

/// It may have no other.
pub fn other_number_is_not_legal(schema: &Schema) -> bool
    requires { schema.now.kinds ≡ many_numbers }
    ensures { result ≡ false }
{
    is_legal_tag(schema, KindId { place: 0 }, -3)
}

/// A number that is one of nine cases picks their arm: its name and its kind.
pub fn finds_an_arm_of_nine_cases(schema: &Schema) -> Option<&Member>
    requires { schema.now.kinds ≡ many_numbers }
    ensures { option_map (λ m. part_of_member m.now) result ≡ Some (part (codes "text") 2) }
{
    part_in(schema, KindId { place: 5 }, 41)
}

/// The arm behind it is picked by its own cases, void as it is.
pub fn finds_a_void_arm(schema: &Schema) -> Option<&Member>
    requires { schema.now.kinds ≡ many_numbers }
    ensures { option_map (λ m. part_of_member m.now) result ≡ Some (part (codes "") 4) }
{
    part_in(schema, KindId { place: 5 }, 1)
}

/// A number that no arm lists picks the default.
pub fn falls_to_the_default(schema: &Schema) -> Option<&Member>
    requires { schema.now.kinds ≡ many_numbers }
    ensures { option_map (λ m. part_of_member m.now) result ≡ Some (part (codes "other") 1) }
{
    part_in(schema, KindId { place: 5 }, 21)
}

/// One of nine arms is found by its number.
pub fn finds_one_of_nine_arms(schema: &Schema) -> Option<&Member>
    requires { schema.now.kinds ≡ many_numbers }
    ensures { option_map (λ m. part_of_member m.now) result ≡ Some (part (codes "d") 2) }
{
    part_in(schema, KindId { place: 6 }, -1)
}

/// Where there is no default, a number that no arm lists picks nothing.
pub fn finds_no_arm(schema: &Schema) -> Option<&Member>
    requires { schema.now.kinds ≡ many_numbers }
    ensures { result ≡ None }
{
    part_in(schema, KindId { place: 6 }, 7)
}

/// An enumeration has no parts, whatever the number.
pub fn enumeration_has_no_parts(schema: &Schema, number: i64) -> Option<&Member>
    requires { schema.now.kinds ≡ many_numbers }
    ensures { result ≡ None }
{
    part_in(schema, KindId { place: 0 }, number)
}

/// A union has no members.
pub fn union_has_no_members(schema: &Schema, number: i64) -> Option<&(String, i32)>
    requires { schema.now.kinds ≡ many_numbers }
    ensures { result ≡ None }
{
    member_in(schema, KindId { place: 5 }, number)
}

/// What is found has the number, in each schema.
pub fn found_member_has_the_number(
    schema: &Schema,
    id: KindId,
    number: i64,
) -> Option<&(String, i32)>
    ensures { IfSome result (λ m. m.now.1 ≡ number) }
{
    member_in(schema, id, number)
}

/// A union with a default has a part under each number.
pub fn default_has_each_number(schema: &Schema, number: i64) -> bool
    requires { schema.now.kinds ≡ many_numbers }
    ensures { result ≡ true }
{
    part_in(schema, KindId { place: 5 }, number).is_some()
}

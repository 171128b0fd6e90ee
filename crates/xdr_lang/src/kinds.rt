//! The kinds that an outline declares.
ghost use Rattle.std.specs.Prelude.{◌≡◌, Some, None, IfOk, List, [], map, option_map};
ghost use Rattle.xdr_tokens.specs.Due.{Gives};
ghost use Rattle.xdr_grammar.specs.View.{late_of, field_of, member_of, arm_of, draft_of};
ghost use Rattle.xdr_types.specs.KindViews.{constant_of, part_of_member, branch_of, kind_view};
ghost use Rattle.xdr_types.specs.Named.{basic};
ghost use Rattle.xdr_constants.specs.Views.{knowns};
ghost use Rattle.xdr_lang.specs.Views.{types_of};
ghost use Rattle.xdr_lang.specs.Kinds.{each, each_onto, where_given, one_member, one_case, one_field, one_arm};
ghost use Rattle.xdr_lang.specs.Kinds.{one_kind};

use crate::places::kind_of;
use crate::type_table::TypeTable;
use std::alloc::Global;
use std::string::String;
use xdr_constants::{
    ConstantTable, case_number, limit, looked_up, member_number, place_of_value, size,
};
use xdr_grammar::{Arm, Draft, Field, Late, Member as EnumMember, Shape};
use xdr_tokens::Fault;
use xdr_types::{Arm as Branch, Kind, Member, basic_kinds};

/// A member of an enum.
#[tactic(auto, unfolding(crate::specs::Kinds::one_member))]
fn one_member(
    alloc: Global,
    constants: &ConstantTable<'_>,
    member: &EnumMember<'_>,
) -> Result<(String, i32), Fault>
    ensures { Gives constant_of result (one_member (knowns constants.now.list.items) (member_of member.now)) }
{
    let value = looked_up(constants, &member.value)?;
    let number = member_number(value, place_of_value(&member.value))?;
    let name = String::from_str(alloc, member.name.text)?;
    Ok((name, number))
}

/// A number of a case.
#[tactic(auto, unfolding(crate::specs::Kinds::one_case))]
fn one_case(constants: &ConstantTable<'_>, value: &Late<'_>) -> Result<i64, Fault>
    ensures { Gives (λ x. x) result (one_case (knowns constants.now.list.items) (late_of value.now)) }
{
    let number = looked_up(constants, value)?;
    case_number(number, place_of_value(value))
}

/// A field, an arm or a type.
#[tactic(auto, unfolding(crate::specs::Kinds::one_field))]
fn one_field(alloc: Global, types: &TypeTable<'_>, field: &Field<'_>) -> Result<Member, Fault>
    ensures { Gives part_of_member result (one_field (types_of types.now.list.items) (field_of field.now)) }
{
    let kind = kind_of(types, field.part)?;
    let name = String::from_str(alloc, field.name.text)?;
    Ok(Member { name, kind })
}

/// A field, where there is one.
#[tactic(auto, unfolding(crate::specs::Kinds::where_given))]
fn given_field(
    alloc: Global,
    types: &TypeTable<'_>,
    field: &Option<Field<'_>>,
) -> Result<Option<Member>, Fault>
    ensures { Gives (λ x. option_map part_of_member x) result
        (where_given (one_field (types_of types.now.list.items)) (option_map field_of field.now)) }
{
    let Some(field) = field else {
        return Ok(None);
    };
    let member = one_field(alloc, types, field)?;
    Ok(Some(member))
}

/// An arm.
#[tactic(auto, unfolding(crate::specs::Kinds::one_arm))]
fn one_arm(
    alloc: Global,
    constants: &ConstantTable<'_>,
    types: &TypeTable<'_>,
    arm: &Arm<'_>,
) -> Result<Branch, Fault>
    ensures { Gives branch_of result
        (one_arm (knowns constants.now.list.items) (types_of types.now.list.items) (arm_of arm.now)) }
{
    let cases = all_cases(alloc, constants, &arm.cases)?;
    let member = one_field(alloc, types, &arm.member)?;
    Ok(Branch { cases, member })
}

/// A kind.
#[tactic(auto, unfolding(crate::specs::Kinds::one_kind))]
fn one_kind(
    alloc: Global,
    constants: &ConstantTable<'_>,
    types: &TypeTable<'_>,
    draft: &Draft<'_>,
) -> Result<Kind, Fault>
    ensures { Gives kind_view result (one_kind (knowns constants.now.list.items) (types_of types.now.list.items)
        (draft_of draft.now)) }
{
    match &draft.shape {
        Shape::Numbered(members) => Ok(Kind::Numbered {
            members: all_members(alloc, constants, members)?,
        }),
        Shape::Opaque(value) => Ok(Kind::Opaque {
            size: size(constants, value)?,
        }),
        Shape::OpaqueUpTo(value) => Ok(Kind::OpaqueUpTo {
            max: limit(constants, value)?,
        }),
        Shape::Text(value) => Ok(Kind::Text {
            max: limit(constants, value)?,
        }),
        Shape::Fixed(part, value) => {
            let item = kind_of(types, *part)?;
            let size = size(constants, value)?;
            Ok(Kind::Fixed { item, size })
        }
        Shape::UpTo(part, value) => {
            let item = kind_of(types, *part)?;
            let max = limit(constants, value)?;
            Ok(Kind::UpTo { item, max })
        }
        Shape::Structure(fields) => Ok(Kind::Structure {
            fields: all_fields(alloc, types, fields)?,
        }),
        Shape::Choice(tag, arms, other) => {
            let tag = kind_of(types, *tag)?;
            let arms = all_arms(alloc, constants, types, arms)?;
            let other = given_field(alloc, types, other)?;
            Ok(Kind::Choice { tag, arms, other })
        }
        Shape::Maybe(part) => Ok(Kind::Maybe {
            item: kind_of(types, *part)?,
        }),
    }
}

/// The members of an enum.
#[tactic(auto, unfolding(crate::specs::Kinds::each_onto))]
fn all_members(
    alloc: Global,
    constants: &ConstantTable<'_>,
    items: &[EnumMember<'_>],
) -> Result<Vec<(String, i32)>, Fault>
    ensures { Gives (λ x. map constant_of x.items) result
        (each (one_member (knowns constants.now.list.items)) (map member_of items.now)) }
{
    let mut found = Vec::with_capacity(alloc, items.len())?;
    for member in items {
        let one = one_member(alloc, constants, member)?;
        found.push(one)?;
    }
    Ok(found)
}

/// The numbers of an arm.
#[tactic(auto, unfolding(crate::specs::Kinds::each_onto))]
fn all_cases(
    alloc: Global,
    constants: &ConstantTable<'_>,
    items: &[Late<'_>],
) -> Result<Vec<i64>, Fault>
    ensures { Gives (λ x. x.items) result (each (one_case (knowns constants.now.list.items)) (map late_of items.now)) }
{
    let mut found = Vec::with_capacity(alloc, items.len())?;
    for value in items {
        let one = one_case(constants, value)?;
        found.push(one)?;
    }
    Ok(found)
}

/// Fields or types.
#[tactic(auto, unfolding(crate::specs::Kinds::each_onto))]
fn all_fields(
    alloc: Global,
    types: &TypeTable<'_>,
    items: &[Field<'_>],
) -> Result<Vec<Member>, Fault>
    ensures { Gives (λ x. map part_of_member x.items) result
        (each (one_field (types_of types.now.list.items)) (map field_of items.now)) }
{
    let mut found = Vec::with_capacity(alloc, items.len())?;
    for field in items {
        let one = one_field(alloc, types, field)?;
        found.push(one)?;
    }
    Ok(found)
}

/// The arms of a union.
#[tactic(auto, unfolding(crate::specs::Kinds::each_onto))]
fn all_arms(
    alloc: Global,
    constants: &ConstantTable<'_>,
    types: &TypeTable<'_>,
    items: &[Arm<'_>],
) -> Result<Vec<Branch>, Fault>
    ensures { Gives (λ x. map branch_of x.items) result
        (each (one_arm (knowns constants.now.list.items) (types_of types.now.list.items)) (map arm_of items.now)) }
{
    let mut found = Vec::with_capacity(alloc, items.len())?;
    for arm in items {
        let one = one_arm(alloc, constants, types, arm)?;
        found.push(one)?;
    }
    Ok(found)
}

/// The kinds, after the basic ones.
#[tactic(auto, unfolding(crate::specs::Kinds::each_onto))]
pub fn all_kinds(
    alloc: Global,
    constants: &ConstantTable<'_>,
    types: &TypeTable<'_>,
    items: &[Draft<'_>],
) -> Result<Vec<Kind>, Fault>
    ensures { Gives (λ x. map kind_view x.items) result
        (each_onto (one_kind (knowns constants.now.list.items) (types_of types.now.list.items))
        (map draft_of items.now) basic.kinds) }
{
    let mut found = basic_kinds(alloc).map_err(|_| Fault::NoMemory)?;
    found.reserve(items.len())?;
    for draft in items {
        let one = one_kind(alloc, constants, types, draft)?;
        found.push(one)?;
    }
    Ok(found)
}

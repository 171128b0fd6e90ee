//! Which lists of kinds and names make a schema, and what a schema answers (RFC 4506 section 4).
//!
//! Each function calls the library, and its `ensures` is what the library's contract makes certain about the answer.
ghost use Rattle.std.specs.Prelude.{◌≡◌, ◌<◌, ◌≤◌, ℕ, length, map, Some, None, IfOk, IfSome};
ghost use Rattle.xdr_types.specs.KindViews.{kind_view, lists_of};
ghost use Rattle.xdr_types.specs.Faults.{fault, IsWellFormed};
ghost use Rattle.xdr_types.specs.Sound.{IsSound};
ghost use Rattle.example_xdr.specs.Refusal.{first_flaw, IsRefusedFor, IsNoFlaw};

use crate::made::{arm, member};
use std::alloc::Global;
use std::string::String;
use xdr_types::{Flaw, Kind, KindId, NoMemory, Schema, SchemaFault, no_schema_has_a_fault};

/// Why lists make no schema; none where they do. It is the first flaw that they have, or an allocation failure.
pub fn refusal(alloc: Global, kinds: Vec<Kind>, names: Vec<(String, KindId)>) -> Option<SchemaFault>
    requires { length kinds.items ≤ 1024 }
    ensures first { (why : Flaw) (place : ℕ) → first_flaw (lists_of kinds.items names.items) ≡ Some (fault why place)
        → IsRefusedFor result why place }
    ensures none { first_flaw (lists_of kinds.items names.items) ≡ None → IsNoFlaw result }
{
    match Schema::build(alloc, kinds, names) {
        Ok(_) => None,
        Err(fault) => Some(fault),
    }
}

/// Why lists that make a schema are refused: an allocation failure alone.
pub fn only_memory(
    alloc: Global,
    kinds: Vec<Kind>,
    names: Vec<(String, KindId)>,
) -> Option<SchemaFault>
    requires well { IsWellFormed (lists_of kinds.items names.items) }
    requires sound { IsSound (map kind_view kinds.items) }
    ensures { IfSome result (λ e. e.why ≡ Flaw.NoMemory) }
{
    no_schema_has_a_fault();
    Schema::build(alloc, kinds, names).err()
}

/// An int and a structure of one are a schema: an allocation failure alone refuses them (RFC 4506 section 4.14).
pub fn structure_of_an_int(alloc: Global) -> Result<Option<SchemaFault>, NoMemory>
    ensures { IfOk result (λ r. IfSome r (λ e. e.why ≡ Flaw.NoMemory)) }
{
    let field = member(alloc, "x", 0)?;
    let fields = vec![in alloc; field]?;
    let kinds = vec![in alloc; Kind::Int, Kind::Structure { fields }]?;
    Ok(only_memory(alloc, kinds, Vec::new(alloc)))
}

/// An opaque of size 0 is no kind (RFC 4506 section 4.9).
pub fn opaque_of_size_zero(alloc: Global) -> Result<Option<SchemaFault>, NoMemory>
    ensures { IfOk result (λ r. IsRefusedFor r Flaw.ZeroSize 0) }
{
    let kinds = vec![in alloc; Kind::Opaque { size: 0 }]?;
    Ok(refusal(alloc, kinds, Vec::new(alloc)))
}

/// The void kind can be no item of an optional (RFC 4506 section 4.16).
pub fn optional_void(alloc: Global) -> Result<Option<SchemaFault>, NoMemory>
    ensures { IfOk result (λ r. IsRefusedFor r Flaw.VoidMember 1) }
{
    let kinds = vec![in alloc;
        Kind::Nothing,
        Kind::Maybe {
            item: KindId { place: 0 }
        },
    ]?;
    Ok(refusal(alloc, kinds, Vec::new(alloc)))
}

/// Nor can it have a name.
pub fn name_of_nothing(alloc: Global) -> Result<Option<SchemaFault>, NoMemory>
    ensures { IfOk result (λ r. IsRefusedFor r Flaw.VoidMember 0) }
{
    let kinds = vec![in alloc; Kind::Nothing]?;
    let name = String::from_str(alloc, "n")?;
    let names = vec![in alloc; (name, KindId { place: 0 })]?;
    Ok(refusal(alloc, kinds, names))
}

/// Also where another name stands before it.
pub fn second_name_of_nothing(alloc: Global) -> Result<Option<SchemaFault>, NoMemory>
    ensures { IfOk result (λ r. IsRefusedFor r Flaw.VoidMember 1) }
{
    let kinds = vec![in alloc; Kind::Int, Kind::Nothing]?;
    let first = String::from_str(alloc, "a")?;
    let second = String::from_str(alloc, "b")?;
    let names = vec![in alloc; (first, KindId { place: 0 }), (second, KindId { place: 1 })]?;
    Ok(refusal(alloc, kinds, names))
}

/// One name stands once.
pub fn name_twice(alloc: Global) -> Result<Option<SchemaFault>, NoMemory>
    ensures { IfOk result (λ r. IsRefusedFor r Flaw.NameTwice 1) }
{
    let kinds = vec![in alloc; Kind::Int]?;
    let first = String::from_str(alloc, "n")?;
    let second = String::from_str(alloc, "n")?;
    let names = vec![in alloc; (first, KindId { place: 0 }), (second, KindId { place: 0 })]?;
    Ok(refusal(alloc, kinds, names))
}

/// Two fields have two names (RFC 4506 section 4.14).
pub fn field_twice(alloc: Global) -> Result<Option<SchemaFault>, NoMemory>
    ensures { IfOk result (λ r. IsRefusedFor r Flaw.NameTwice 1) }
{
    let first = member(alloc, "x", 0)?;
    let second = member(alloc, "x", 0)?;
    let fields = vec![in alloc; first, second]?;
    let kinds = vec![in alloc; Kind::Int, Kind::Structure { fields }]?;
    Ok(refusal(alloc, kinds, Vec::new(alloc)))
}

/// A case stands once among the cases of an arm (RFC 4506 section 4.15).
pub fn case_twice_in_one_arm(alloc: Global) -> Result<Option<SchemaFault>, NoMemory>
    ensures { IfOk result (λ r. IsRefusedFor r Flaw.CaseTwice 1) }
{
    let part = member(alloc, "x", 0)?;
    let only = arm(alloc, 1, 1, part)?;
    let choice = Kind::Choice {
        tag: KindId { place: 0 },
        arms: vec![in alloc; only]?,
        other: None,
    };
    let kinds = vec![in alloc; Kind::Bool, choice]?;
    Ok(refusal(alloc, kinds, Vec::new(alloc)))
}

/// And in one arm only.
pub fn case_in_two_arms(alloc: Global) -> Result<Option<SchemaFault>, NoMemory>
    ensures { IfOk result (λ r. IsRefusedFor r Flaw.CaseTwice 1) }
{
    let first = arm(alloc, 0, 1, member(alloc, "x", 0)?)?;
    let second = arm(alloc, 2, 0, member(alloc, "y", 0)?)?;
    let choice = Kind::Choice {
        tag: KindId { place: 0 },
        arms: vec![in alloc; first, second]?,
        other: None,
    };
    let kinds = vec![in alloc; Kind::Int, choice]?;
    Ok(refusal(alloc, kinds, Vec::new(alloc)))
}

/// Arms without a name do not share one: these two are no flaw.
pub fn arms_without_names(alloc: Global) -> Result<Option<SchemaFault>, NoMemory>
    ensures { IfOk result (λ r. IsNoFlaw r) }
{
    let first = arm(alloc, 0, 1, member(alloc, "", 0)?)?;
    let second = arm(alloc, 2, 3, member(alloc, "", 0)?)?;
    let choice = Kind::Choice {
        tag: KindId { place: 0 },
        arms: vec![in alloc; first, second]?,
        other: None,
    };
    let kinds = vec![in alloc; Kind::Int, choice]?;
    Ok(refusal(alloc, kinds, Vec::new(alloc)))
}

/// A case is a number that the discriminant may have: a bool is 0 or 1 (RFC 4506 section 4.15).
pub fn case_that_is_not_legal(alloc: Global) -> Result<Option<SchemaFault>, NoMemory>
    ensures { IfOk result (λ r. IsRefusedFor r Flaw.CaseNotLegal 1) }
{
    let part = member(alloc, "x", 0)?;
    let only = arm(alloc, 1, 2, part)?;
    let choice = Kind::Choice {
        tag: KindId { place: 0 },
        arms: vec![in alloc; only]?,
        other: None,
    };
    let kinds = vec![in alloc; Kind::Bool, choice]?;
    Ok(refusal(alloc, kinds, Vec::new(alloc)))
}

/// An array of a kind that is not there, and of size 0: the unknown kind is said first.
pub fn two_faults_of_one_kind(alloc: Global) -> Result<Option<SchemaFault>, NoMemory>
    ensures { IfOk result (λ r. IsRefusedFor r Flaw.UnknownKind 1) }
{
    let array = Kind::Fixed {
        item: KindId { place: 7 },
        size: 0,
    };
    let kinds = vec![in alloc; Kind::Int, array]?;
    Ok(refusal(alloc, kinds, Vec::new(alloc)))
}

/// Two kinds with a fault: that of the lower place is said.
pub fn two_kinds_with_a_fault(alloc: Global) -> Result<Option<SchemaFault>, NoMemory>
    ensures { IfOk result (λ r. IsRefusedFor r Flaw.ZeroSize 0) }
{
    let optional = Kind::Maybe {
        item: KindId { place: 9 },
    };
    let kinds = vec![in alloc; Kind::Opaque { size: 0 }, optional]?;
    Ok(refusal(alloc, kinds, Vec::new(alloc)))
}

/// A kind's fault is said before a name's.
pub fn kind_before_name(alloc: Global) -> Result<Option<SchemaFault>, NoMemory>
    ensures { IfOk result (λ r. IsRefusedFor r Flaw.ZeroSize 0) }
{
    let kinds = vec![in alloc; Kind::Opaque { size: 0 }]?;
    let name = String::from_str(alloc, "n")?;
    let names = vec![in alloc; (name, KindId { place: 5 })]?;
    Ok(refusal(alloc, kinds, names))
}

/// More than 1024 kinds are too many, whatever else is wrong with them.
pub fn too_many_kinds(
    alloc: Global,
    kinds: Vec<Kind>,
    names: Vec<(String, KindId)>,
) -> Option<SchemaFault>
    requires { 1024 < length kinds.items }
    ensures { IsRefusedFor result Flaw.TooManyKinds 0 }
{
    match Schema::build(alloc, kinds, names) {
        Ok(_) => None,
        Err(fault) => Some(fault),
    }
}

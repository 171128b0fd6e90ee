//! What an outline means: names looked up, and the schema built.
ghost use Rattle.std.specs.Prelude.{◌≡◌, Some, None, IfOk, true, false};
ghost use Rattle.xdr_tokens.specs.Due.{Gives};
ghost use Rattle.xdr_grammar.specs.View.{outline_of};
ghost use Rattle.xdr_types.specs.Faults.{IsWellFormed};
ghost use Rattle.xdr_types.specs.Sound.{IsSound};
ghost use Rattle.xdr_types.specs.declared.fault.Flaw.TheVariants as flaw;
ghost use Rattle.xdr_lang.specs.Declarations.{Declared as DeclaredSpec};
ghost use Rattle.xdr_lang.specs.Meaning.{meaning};
ghost use Rattle.xdr_constants.specs.Views.{knowns};
ghost use Rattle.xdr_lang.specs.Private.Meaning.{distinct_meaning, meaning_with};
ghost use Rattle.xdr_lang.specs.Means.{IsMeant};
ghost use Rattle.xdr_lang.specs.Views.{declared_of, listed_of, types_of};

use crate::apart::are_apart;
use crate::declarations::{Declared, Program};
use crate::distinct::has_twice;
use crate::first_fault::first_fault;
use crate::kinds::all_kinds;
use crate::lists::{all_constants, all_types};
use crate::programs::all_programs;
use crate::schema_fault::schema_fault;
use crate::type_table::{TypeTable, type_table};
use std::alloc::Global;
use std::string::String;
use xdr_constants::{ConstantTable, numbers};
use xdr_grammar::Outline;
use xdr_tokens::{Fault, Wrong};
use xdr_types::{Kind, KindId, Schema};

/// What an outline declares, before its kinds are a schema.
#[derive(Drop)]
struct Listed {
    kinds: Vec<Kind>,
    names: Vec<(String, KindId)>,
    constants: Vec<(String, i128)>,
    programs: Vec<Program>,
}

/// What an outline declares, with what the names of its constants and types stand for.
#[tactic(auto, unfolding(crate::specs::Private::Meaning::meaning_with))]
fn resolved(
    alloc: Global,
    known: &ConstantTable<'_>,
    types: &TypeTable<'_>,
    outline: &Outline<'_>,
) -> Result<Listed, Fault>
    ensures { Gives listed_of result
        (meaning_with (knowns known.now.list.items) (types_of types.now.list.items) (outline_of outline.now)) }
{
    let kinds = all_kinds(alloc, known, types, &outline.drafts)?;
    let names = all_types(alloc, types)?;
    let programs = all_programs(alloc, types, &outline.programs)?;
    let constants = all_constants(alloc, &known.list)?;
    Ok(Listed {
        kinds,
        names,
        constants,
        programs,
    })
}

/// The same, where no name is there twice. Where other names lead to is learnt once that is known.
#[tactic(auto, unfolding(crate::specs::Private::Meaning::distinct_meaning))]
fn resolved_once(alloc: Global, outline: &Outline<'_>) -> Result<Listed, Fault>
    ensures { Gives listed_of result (distinct_meaning (outline_of outline.now)) }
{
    let known = numbers(alloc, &outline.constants)?;
    let mut types = type_table(alloc, &outline.types)?;
    let apart = are_apart(alloc, &known, &types, &outline.programs)?;
    if has_twice(alloc, outline, apart)? {
        return Err(Fault::Refused {
            wrong: Wrong::NameTwice,
            left: 0,
        });
    }
    types.learn_all(alloc, &outline.types)?;
    resolved(alloc, &known, &types, outline)
}

/// Builds the schema.
fn built(alloc: Global, outline: &Outline<'_>, listed: Listed) -> Result<Declared, Fault>
    ensures same { IfOk result (λ v. declared_of v ≡ listed_of listed) }
    ensures well_formed { IfOk result (λ v. IsWellFormed (declared_of v).schema) }
    ensures sound { IfOk result (λ v. IsSound (declared_of v).schema.kinds) }
    ensures only { IsWellFormed (listed_of listed).schema → IsSound (listed_of listed).schema.kinds
        → Gives declared_of result (Some (listed_of listed)) }
{
    let Listed {
        kinds,
        names,
        constants,
        programs,
    } = listed;
    match Schema::build(alloc, kinds, names) {
        Ok(schema) => Ok(Declared {
            schema,
            constants,
            programs,
        }),
        Err(fault) => Err(schema_fault(outline, fault)),
    }
}

/// What an outline means.
pub fn meaning(alloc: Global, outline: &Outline<'_>) -> Result<Declared, Fault>
    ensures found { IfOk result (λ v. IsMeant (outline_of outline.now) (declared_of v)) }
    ensures only { (d : DeclaredSpec) → IsMeant (outline_of outline.now) d → Gives declared_of result (Some d) }
{
    match resolved_once(alloc, outline) {
        Ok(listed) => built(alloc, outline, listed),
        Err(fault) => Err(first_fault(alloc, outline, fault)),
    }
}

//! Whether a name or a number is there twice.
ghost use Rattle.std.specs.Prelude.{◌≡◌, true, false, ◌&&◌, OnOk, IfOk, [], map, option_map};
ghost use Rattle.std.specs.List.{list_any};
ghost use Rattle.std.specs.Ordering.{int_eq};
ghost use Rattle.std.specs.Str.{bytes_eq};
ghost use Rattle.xdr_grammar.specs.Outline as out;
ghost use Rattle.xdr_grammar.specs.View.{field_of, draft_of, procedure_of, version_of, program_of, outline_of};
ghost use Rattle.xdr_lang.specs.Views.{texts};
ghost use Rattle.xdr_lang.specs.Distinct.{repeats, is_name, names_repeat, same_pair, declared_names, other_name};
ghost use Rattle.xdr_lang.specs.Distinct.{kind_repeats, version_repeats, program_repeats, pairs_of, pairs, has_twice};

use crate::names::add_names;
use std::alloc::{AllocError, Global};
use std::collections::BTreeSet;
use xdr_grammar::{Draft, Field, Name, Outline, Procedure, Program, Shape, Version};

/// Up to so many names are compared with one another; more are put into a set.
const FEW: usize = 16;

/// The name is among these.
fn is_among(names: &[Name<'_>], name: &str) -> bool
    ensures { result ≡ list_any (bytes_eq name.now) (texts names.now) }
{
    for other in names {
        if name == other.text {
            return true;
        }
    }
    false
}

/// The name is among those before it. The empty name, that of void, is none.
fn is_again(before: &[Name<'_>], name: &str) -> bool
    ensures { result ≡ (is_name name.now && list_any (bytes_eq name.now) (texts before.now)) }
{
    name != "" && is_among(before, name)
}

/// Some of few names is there twice: each is compared with those before it.
#[tactic(auto, unfolding(crate::specs::Distinct::repeats, crate::specs::Distinct::names_repeat))]
fn few_repeat(names: &[Name<'_>]) -> bool
    ensures { result ≡ names_repeat (texts names.now) }
{
    for at in 0..names.len() {
        if is_again(&names[..at], names[at].text) {
            return true;
        }
    }
    false
}

/// The names are few, and none is there twice.
pub fn are_few_and_apart(names: &[Name<'_>]) -> bool
    ensures { result ≡ true → names_repeat (texts names.now) ≡ false }
{
    names.len() <= FEW && !few_repeat(names)
}

/// Some of many names is there twice. The empty name, that of void, is none.
#[tactic(auto, unfolding(crate::specs::Distinct::repeats, crate::specs::Distinct::names_repeat))]
fn many_repeat(alloc: Global, names: &[Name<'_>]) -> Result<bool, AllocError>
    ensures { IfOk result (λ b. b ≡ names_repeat (texts names.now)) }
{
    let mut before = BTreeSet::new(alloc);
    for name in names {
        if name.text == "" {
            continue;
        }
        if !before.insert(name.text)? {
            return Ok(true);
        }
    }
    Ok(false)
}

/// Some name is there twice.
pub fn names_repeat(alloc: Global, names: &[Name<'_>]) -> Result<bool, AllocError>
    ensures { IfOk result (λ b. b ≡ names_repeat (texts names.now)) }
{
    if names.len() <= FEW {
        Ok(few_repeat(names))
    } else {
        many_repeat(alloc, names)
    }
}

/// Some number of a procedure is there twice.
#[tactic(auto, unfolding(crate::specs::Distinct::repeats))]
fn numbers_repeat(alloc: Global, procedures: &[Procedure<'_>]) -> Result<bool, AllocError>
    ensures { IfOk result
        (λ b. b ≡ repeats int_eq [] (map (λ (p : out.Procedure). p.number) (map procedure_of procedures.now))) }
{
    let mut before = BTreeSet::new(alloc);
    for procedure in procedures {
        if !before.insert(procedure.number.value)? {
            return Ok(true);
        }
    }
    Ok(false)
}

/// Some pair is there twice.
#[tactic(auto, unfolding(crate::specs::Distinct::repeats))]
fn pairs_repeat(alloc: Global, pairs: &[(i128, i128)]) -> Result<bool, AllocError>
    ensures { IfOk result (λ b. b ≡ repeats same_pair [] pairs.now) }
{
    let mut before = BTreeSet::new(alloc);
    for pair in pairs {
        if !before.insert(*pair)? {
            return Ok(true);
        }
    }
    Ok(false)
}

/// The number of a program with each of its versions'.
#[tactic(auto, unfolding(crate::specs::Distinct::pairs_of))]
fn pairs_of(
    found: &mut Vec<(i128, i128)>,
    prog: i128,
    versions: &[Version<'_>],
) -> Result<(), AllocError>
    ensures { OnOk result (found.new.items ≡ pairs_of found.old.items prog (map version_of versions.now)) }
{
    for version in versions {
        found.push((prog, version.number.value))?;
    }
    Ok(())
}

/// The same of all programs.
#[tactic(auto, unfolding(crate::specs::Distinct::pairs))]
fn all_pairs(alloc: Global, programs: &[Program<'_>]) -> Result<Vec<(i128, i128)>, AllocError>
    ensures { IfOk result (λ v. v.items ≡ pairs [] (map program_of programs.now)) }
{
    let mut found = Vec::new(alloc);
    for program in programs {
        pairs_of(&mut found, program.number.value, &program.versions)?;
    }
    Ok(found)
}

/// The name of a union's default, where there is one.
fn other_name<'a>(alloc: Global, other: &Option<Field<'a>>) -> Result<Vec<Name<'a>>, AllocError>
    ensures { IfOk result (λ v. texts v.items ≡ other_name (option_map field_of other.now)) }
{
    let mut names = Vec::new(alloc);
    let Some(field) = other else {
        return Ok(names);
    };
    names.push(field.name)?;
    Ok(names)
}

/// A name of a kind is there twice in its scope.
#[tactic(auto, unfolding(crate::specs::Distinct::kind_repeats))]
fn kind_repeats(alloc: Global, draft: &Draft<'_>) -> Result<bool, AllocError>
    ensures { IfOk result (λ b. b ≡ kind_repeats (draft_of draft.now)) }
{
    match &draft.shape {
        Shape::Structure(fields) => {
            let mut names = Vec::new(alloc);
            add_names(&mut names, fields)?;
            names_repeat(alloc, &names)
        }
        Shape::Choice(_, arms, other) => {
            let mut names = other_name(alloc, other)?;
            add_names(&mut names, arms)?;
            names_repeat(alloc, &names)
        }
        _ => Ok(false),
    }
}

/// The same in some kind.
fn kinds_repeat(alloc: Global, drafts: &[Draft<'_>]) -> Result<bool, AllocError>
    ensures { IfOk result (λ b. b ≡ list_any kind_repeats (map draft_of drafts.now)) }
{
    for draft in drafts {
        if kind_repeats(alloc, draft)? {
            return Ok(true);
        }
    }
    Ok(false)
}

/// A name or a number of the procedures of a version is there twice.
#[tactic(auto, unfolding(crate::specs::Distinct::version_repeats))]
fn version_repeats(alloc: Global, version: &Version<'_>) -> Result<bool, AllocError>
    ensures { IfOk result (λ b. b ≡ version_repeats (version_of version.now)) }
{
    let mut names = Vec::new(alloc);
    add_names(&mut names, &version.procedures)?;
    if names_repeat(alloc, &names)? {
        return Ok(true);
    }
    numbers_repeat(alloc, &version.procedures)
}

/// The same in some version.
fn versions_repeat(alloc: Global, versions: &[Version<'_>]) -> Result<bool, AllocError>
    ensures { IfOk result (λ b. b ≡ list_any version_repeats (map version_of versions.now)) }
{
    for version in versions {
        if version_repeats(alloc, version)? {
            return Ok(true);
        }
    }
    Ok(false)
}

/// A name of the versions of a program is there twice, or one inside them.
#[tactic(auto, unfolding(crate::specs::Distinct::program_repeats))]
fn program_repeats(alloc: Global, program: &Program<'_>) -> Result<bool, AllocError>
    ensures { IfOk result (λ b. b ≡ program_repeats (program_of program.now)) }
{
    let mut names = Vec::new(alloc);
    add_names(&mut names, &program.versions)?;
    if names_repeat(alloc, &names)? {
        return Ok(true);
    }
    versions_repeat(alloc, &program.versions)
}

/// The same in some program.
fn programs_repeat(alloc: Global, programs: &[Program<'_>]) -> Result<bool, AllocError>
    ensures { IfOk result (λ b. b ≡ list_any program_repeats (map program_of programs.now)) }
{
    for program in programs {
        if program_repeats(alloc, program)? {
            return Ok(true);
        }
    }
    Ok(false)
}

/// The names of constants, types and programs, after TRUE and FALSE.
fn declared_names<'a>(alloc: Global, outline: &Outline<'a>) -> Result<Vec<Name<'a>>, AllocError>
    ensures { IfOk result (λ v. texts v.items ≡ declared_names (outline_of outline.now)) }
{
    let mut names = Vec::new(alloc);
    names.push(Name {
        text: "TRUE",
        left: 0,
    })?;
    names.push(Name {
        text: "FALSE",
        left: 0,
    })?;
    add_names(&mut names, &outline.constants)?;
    add_names(&mut names, &outline.types)?;
    add_names(&mut names, &outline.programs)?;
    Ok(names)
}

/// Some name of constants, types and programs is there twice. They may be known to be apart.
fn declared_repeat(alloc: Global, outline: &Outline<'_>, apart: bool) -> Result<bool, AllocError>
    requires { apart ≡ true → names_repeat (declared_names (outline_of outline.now)) ≡ false }
    ensures { IfOk result (λ b. b ≡ names_repeat (declared_names (outline_of outline.now))) }
{
    if apart {
        return Ok(false);
    }
    let names = declared_names(alloc, outline)?;
    names_repeat(alloc, &names)
}

/// Some name, number of a procedure, or pair of a program's and a version's number is there twice. The names of
/// constants, types and programs may be known to be apart.
#[tactic(auto, unfolding(crate::specs::Distinct::has_twice))]
pub fn has_twice(alloc: Global, outline: &Outline<'_>, apart: bool) -> Result<bool, AllocError>
    requires { apart ≡ true → names_repeat (declared_names (outline_of outline.now)) ≡ false }
    ensures { IfOk result (λ b. b ≡ has_twice (outline_of outline.now)) }
{
    if declared_repeat(alloc, outline, apart)? {
        return Ok(true);
    }
    if kinds_repeat(alloc, &outline.drafts)? {
        return Ok(true);
    }
    if programs_repeat(alloc, &outline.programs)? {
        return Ok(true);
    }
    let pairs = all_pairs(alloc, &outline.programs)?;
    pairs_repeat(alloc, &pairs)
}

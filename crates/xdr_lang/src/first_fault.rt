//! Which fault of names and numbers comes first in the text. What is refused, and that something is, is
//! decided elsewhere; this finds the place.
ghost use Rattle.std.specs.Prelude.{◌≡◌};

use crate::distinct::are_few_and_apart;
use crate::names::add_names;
use crate::noted::FirstFault;
use crate::places::kind_of;
use crate::type_names::{TypeNames, given, type_names};
use crate::type_table::{TypeTable, type_table};
use std::alloc::{AllocError, Global};
use std::collections::{BTreeMap, BTreeSet};
use xdr_constants::ConstantTable;
use xdr_grammar::{Arm, Draft, Field, Name, Outline, Part, Procedure, Program, Shape};
use xdr_tokens::{Fault, Wrong};

impl FirstFault {
    /// The cases of an arm.
    fn cases(&mut self, known: &ConstantTable<'_>, arm: &Arm<'_>) {
        for value in &arm.cases {
            self.case(known, value);
        }
    }

    /// A name that is used as a type, or after `struct`.
    fn part(&mut self, types: &TypeNames<'_>, part: &Part<'_>) {
        let (name, is_known) = match part {
            Part::Named(name) => (name, types.has(name.text)),
            Part::Struct(name) => (name, types.has_struct(name.text)),
            _ => return,
        };
        if !is_known {
            self.note(Wrong::NameUnknown, name.left);
        }
    }

    /// The types and names of fields.
    fn fields(&mut self, types: &TypeNames<'_>, fields: &[Field<'_>]) {
        for field in fields {
            self.part(types, &field.part);
        }
    }

    /// The types and cases of arms.
    fn arms(&mut self, types: &TypeNames<'_>, known: &ConstantTable<'_>, arms: &[Arm<'_>]) {
        for arm in arms {
            self.part(types, &arm.member.part);
            self.cases(known, arm);
        }
    }

    /// What stands in a kind.
    fn kind(&mut self, types: &TypeNames<'_>, known: &ConstantTable<'_>, draft: &Draft<'_>) {
        match &draft.shape {
            Shape::Numbered(_) => {}
            Shape::Opaque(value) => self.size(known, value),
            Shape::OpaqueUpTo(value) => self.limit(known, value),
            Shape::Text(value) => self.limit(known, value),
            Shape::Fixed(part, value) => {
                self.part(types, part);
                self.size(known, value);
            }
            Shape::UpTo(part, value) => {
                self.part(types, part);
                self.limit(known, value);
            }
            Shape::Structure(fields) => self.fields(types, fields),
            Shape::Choice(tag, arms, other) => {
                self.part(types, tag);
                self.arms(types, known, arms);
                if let Some(field) = other {
                    self.part(types, &field.part);
                }
            }
            Shape::Maybe(part) => self.part(types, part),
        }
    }

    /// A name is there twice at the second. An earlier one of two comes out, or goes back in.
    fn names(&mut self, alloc: Global, names: &[Name<'_>]) -> Result<(), AllocError> {
        if are_few_and_apart(names) {
            return Ok(());
        }
        let mut earliest = BTreeMap::new(alloc);
        for name in names {
            if name.text == "" {
                continue;
            }
            if let Some(left) = earliest.insert(name.text, name.left)? {
                earliest.insert(name.text, left.max(name.left))?;
                self.note(Wrong::NameTwice, left.min(name.left));
            }
        }
        Ok(())
    }

    /// The names of the arms of a union.
    fn arm_names<'a>(
        &mut self,
        alloc: Global,
        arms: &[Arm<'a>],
        other: &Option<Field<'a>>,
    ) -> Result<(), AllocError> {
        let mut names = Vec::new(alloc);
        add_names(&mut names, arms)?;
        if let Some(field) = other {
            names.push(field.name)?;
        }
        self.names(alloc, &names)
    }

    /// The names of the fields of a struct.
    fn field_names(&mut self, alloc: Global, fields: &[Field<'_>]) -> Result<(), AllocError> {
        let mut names = Vec::new(alloc);
        add_names(&mut names, fields)?;
        self.names(alloc, &names)
    }

    /// All kinds.
    fn kinds(
        &mut self,
        alloc: Global,
        types: &TypeNames<'_>,
        known: &ConstantTable<'_>,
        drafts: &[Draft<'_>],
    ) -> Result<(), AllocError> {
        for draft in drafts {
            self.kind(types, known, draft);
            match &draft.shape {
                Shape::Structure(fields) => self.field_names(alloc, fields)?,
                Shape::Choice(_, arms, other) => self.arm_names(alloc, arms, other)?,
                _ => {}
            }
        }
        Ok(())
    }

    /// The types of arguments.
    fn parts(&mut self, types: &TypeNames<'_>, parts: &[Part<'_>]) {
        for part in parts {
            self.part(types, part);
        }
    }

    /// The procedures of a version. One number twice is a fault of the second.
    fn procedures(
        &mut self,
        alloc: Global,
        types: &TypeNames<'_>,
        procedures: &[Procedure<'_>],
    ) -> Result<(), AllocError> {
        let mut names = Vec::new(alloc);
        let mut numbers = BTreeSet::new(alloc);
        for procedure in procedures {
            let number = procedure.number;
            self.parts(types, &procedure.arguments);
            if let Some(part) = &procedure.result {
                self.part(types, part);
            }
            self.number(number);
            if !numbers.insert(number.value)? {
                self.note(Wrong::NameTwice, number.left);
            }
            names.push(procedure.name)?;
        }
        self.names(alloc, &names)
    }

    /// The versions of a program. A pair of numbers that is there already is a fault of the second.
    fn versions(
        &mut self,
        alloc: Global,
        types: &TypeNames<'_>,
        program: &Program<'_>,
        pairs: &mut BTreeSet<(i128, i128)>,
    ) -> Result<(), AllocError> {
        let mut names = Vec::new(alloc);
        for version in &program.versions {
            let number = version.number;
            self.procedures(alloc, types, &version.procedures)?;
            self.number(number);
            if !pairs.insert((program.number.value, number.value))? {
                self.note(Wrong::NameTwice, number.left);
            }
            names.push(version.name)?;
        }
        self.names(alloc, &names)
    }

    /// All programs.
    fn programs(
        &mut self,
        alloc: Global,
        types: &TypeNames<'_>,
        programs: &[Program<'_>],
    ) -> Result<(), AllocError> {
        let mut pairs = BTreeSet::new(alloc);
        for program in programs {
            self.versions(alloc, types, program, &mut pairs)?;
            self.number(program.number);
        }
        Ok(())
    }

    /// The names of constants, types and programs.
    fn declared(&mut self, alloc: Global, outline: &Outline<'_>) -> Result<(), AllocError> {
        let names = all_names(alloc, outline)?;
        self.names(alloc, &names)
    }
}

/// The names of constants, types and programs, TRUE and FALSE before all.
fn all_names<'a>(alloc: Global, outline: &Outline<'a>) -> Result<Vec<Name<'a>>, AllocError> {
    let mut names = Vec::new(alloc);
    names.push(given("TRUE"))?;
    names.push(given("FALSE"))?;
    add_names(&mut names, &outline.constants)?;
    add_names(&mut names, &outline.types)?;
    add_names(&mut names, &outline.programs)?;
    Ok(names)
}

/// The first typedef that never ends, at its new name.
fn endless_typedef(types: &TypeTable<'_>) -> Option<usize> {
    for field in &types.list {
        if let Err(Fault::Refused { .. }) = kind_of(types, field.part) {
            return Some(field.name.left);
        }
    }
    None
}

/// The fault of names and numbers that stands first in the text.
fn first_of(alloc: Global, outline: &Outline<'_>) -> Result<Option<(Wrong, usize)>, AllocError> {
    let mut first = FirstFault::new();
    let types = type_names(alloc, outline)?;
    let known = first.constants(alloc, &outline.constants)?;
    first.kinds(alloc, &types, &known, &outline.drafts)?;
    first.fields(&types, &outline.types);
    first.programs(alloc, &types, &outline.programs)?;
    first.declared(alloc, outline)?;
    Ok(first.fault)
}

/// The same, else the first typedef that never ends.
fn earliest(alloc: Global, outline: &Outline<'_>, fault: Fault) -> Result<Fault, AllocError> {
    if let Some((wrong, left)) = first_of(alloc, outline)? {
        return Ok(Fault::Refused { wrong, left });
    }
    let mut types = type_table(alloc, &outline.types)?;
    types.learn_all(alloc, &outline.types)?;
    match endless_typedef(&types) {
        Some(left) => Ok(Fault::Refused {
            wrong: Wrong::TypedefLoop,
            left,
        }),
        None => Ok(fault),
    }
}

/// What is reported of an outline that means nothing: of names and numbers, the fault that stands first in
/// the text; else the first typedef that never ends.
pub fn first_fault(alloc: Global, outline: &Outline<'_>, fault: Fault) -> Fault
    ensures { fault ≡ Fault.NoMemory → result ≡ Fault.NoMemory }
{
    match fault {
        Fault::NoMemory => Fault::NoMemory,
        Fault::Refused { .. } => earliest(alloc, outline, fault).unwrap_or(Fault::NoMemory),
    }
}

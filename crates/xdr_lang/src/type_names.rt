//! Where each name is declared first, and whether as a type.

use std::alloc::{AllocError, Global};
use std::collections::BTreeMap;
use xdr_grammar::{Name, Outline, Part};

/// A name that is declared before the text.
pub fn given(text: &'static str) -> Name<'static> {
    Name {
        text,
        left: usize::MAX,
    }
}

/// What a name is declared as.
#[derive(Clone, Copy, PartialEq, Eq)]
enum Declares {
    /// A constant or a program.
    Other,
    Type,
    /// A type, by a definition `struct NAME {..}`.
    Struct,
}

/// Where each name is declared first, and as what.
#[derive(Drop)]
pub struct TypeNames<'a> {
    first: BTreeMap<&'a str, (usize, Declares)>,
}

impl<'a> TypeNames<'a> {
    /// The first declaration of the name is a type's.
    pub fn has(&self, name: &str) -> bool {
        self.first
            .get(name)
            .is_some_and(|first| first.1 != Declares::Other)
    }

    /// The first declaration of the name is a struct's definition.
    pub fn has_struct(&self, name: &str) -> bool {
        self.first
            .get(name)
            .is_some_and(|first| first.1 == Declares::Struct)
    }

    /// A declaration. One that stands before it in the text comes out, and is put back.
    fn add(&mut self, name: Name<'a>, declares: Declares) -> Result<(), AllocError> {
        if let Some(known) = self.first.insert(name.text, (name.left, declares))? {
            if known.0 >= name.left {
                self.first.insert(name.text, known)?;
            }
        }
        Ok(())
    }
}

/// What a type is declared as.
fn declared_as(part: Part<'_>) -> Declares {
    match part {
        Part::StructMade(_) => Declares::Struct,
        _ => Declares::Type,
    }
}

/// The names of constants, types and programs, TRUE and FALSE before all, and which are types.
pub fn type_names<'a>(alloc: Global, outline: &Outline<'a>) -> Result<TypeNames<'a>, AllocError> {
    let mut names = TypeNames {
        first: BTreeMap::new(alloc),
    };
    names.add(given("TRUE"), Declares::Other)?;
    names.add(given("FALSE"), Declares::Other)?;
    for entry in &outline.constants {
        names.add(entry.name, Declares::Other)?;
    }
    for field in &outline.types {
        names.add(field.name, declared_as(field.part))?;
    }
    for program in &outline.programs {
        names.add(program.name, Declares::Other)?;
    }
    Ok(names)
}

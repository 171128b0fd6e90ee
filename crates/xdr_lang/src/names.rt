//! The names of what an outline declares.
ghost use Rattle.std.specs.Prelude.{◌≡◌, ℕ, OnOk, List, map, ◌++◌};
ghost use Rattle.xdr_grammar.specs.Outline as out;
ghost use Rattle.xdr_grammar.specs.View.{entry_of, field_of, arm_of, procedure_of, version_of, program_of};
ghost use Rattle.xdr_lang.specs.Views.{texts};

use std::alloc::AllocError;
use xdr_grammar::{Arm, Entry, Field, Name, Procedure, Program, Version};

/// What an outline declares by a name.
pub trait Declaration<'a> {
    ghost View: { Type 0 };

    ghost view: { Self → View };

    ghost name_of: { View → List ℕ };

    /// The name.
    fn name(&self) -> Name<'a>
        ensures { result.text.now ≡ name_of (view self.now) };
}

impl<'a> Declaration<'a> for Entry<'a> {
    ghost View = { out.Entry };

    ghost view = { entry_of };

    ghost name_of = { λ e. e.name };

    fn name(&self) -> Name<'a> {
        self.name
    }
}

impl<'a> Declaration<'a> for Field<'a> {
    ghost View = { out.Field };

    ghost view = { field_of };

    ghost name_of = { λ f. f.name };

    fn name(&self) -> Name<'a> {
        self.name
    }
}

impl<'a> Declaration<'a> for Arm<'a> {
    ghost View = { out.Arm };

    ghost view = { arm_of };

    ghost name_of = { λ a. a.member.name };

    fn name(&self) -> Name<'a> {
        self.member.name
    }
}

impl<'a> Declaration<'a> for Procedure<'a> {
    ghost View = { out.Procedure };

    ghost view = { procedure_of };

    ghost name_of = { λ p. p.name };

    fn name(&self) -> Name<'a> {
        self.name
    }
}

impl<'a> Declaration<'a> for Version<'a> {
    ghost View = { out.Version };

    ghost view = { version_of };

    ghost name_of = { λ v. v.name };

    fn name(&self) -> Name<'a> {
        self.name
    }
}

impl<'a> Declaration<'a> for Program<'a> {
    ghost View = { out.Program };

    ghost view = { program_of };

    ghost name_of = { λ p. p.name };

    fn name(&self) -> Name<'a> {
        self.name
    }
}

/// Adds the names of all items.
pub fn add_names<'a, T: Declaration<'a>>(
    found: &mut Vec<Name<'a>>,
    items: &[T],
) -> Result<(), AllocError>
    ensures { OnOk result (texts found.new.items ≡ texts found.old.items ++ map T.name_of (map T.view items.now)) }
{
    found.reserve(items.len())?;
    for item in items {
        found.push(item.name())?;
    }
    Ok(())
}

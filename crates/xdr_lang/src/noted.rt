//! The first fault so far, and the numbers that may be one. Which fault is found is shown by tests alone. So a function
//! that looks for faults in a number or a list has no contract. It notes them by `note`, which says which stays.
ghost use Rattle.std.specs.Prelude.{◌≡◌, None};
ghost use Rattle.xdr_lang.specs.Private.Noted.{first_with, first_with_fault};

use std::alloc::{AllocError, Global};
use xdr_constants::{
    ConstantTable, Known, case_number, entry_number, looked_up, place_of_value, size, unsigned,
};
use xdr_grammar::{Entry, Late, Number};
use xdr_tokens::{Fault, Wrong};

/// The first fault so far.
#[derive(Clone, Copy)]
pub struct FirstFault {
    /// What is wrong, and how many bytes there are from there to the end.
    pub fault: Option<(Wrong, usize)>,
}

impl FirstFault {
    /// No fault so far.
    pub fn new() -> FirstFault
        ensures { result.fault ≡ None }
    {
        FirstFault { fault: None }
    }

    /// Keeps the fault, where it stands before the one that is kept. At one token the first that is noted stays: a
    /// number that is there twice and out of its range is out of its range at an earlier token.
    pub fn note(&mut self, wrong: Wrong, left: usize)
        ensures { self.new.fault ≡ first_with self.old.fault wrong left }
    {
        if let Some((_, at)) = self.fault {
            if at >= left {
                return;
            }
        }
        self.fault = Some((wrong, left));
    }

    /// Keeps the fault of a look-up.
    pub fn note_fault(&mut self, fault: Fault)
        ensures { self.new.fault ≡ first_with_fault self.old.fault fault }
    {
        if let Fault::Refused { wrong, left } = fault {
            self.note(wrong, left);
        }
    }

    /// A number of a program, a version or a procedure.
    pub fn number(&mut self, number: Number) {
        if let Err(fault) = unsigned(number.value, number.left) {
            self.note_fault(fault);
        }
    }

    /// A size. One that is negative is no size.
    pub fn size(&mut self, known: &ConstantTable<'_>, value: &Late<'_>) {
        match looked_up(known, value) {
            Ok(number) if number < 0 => self.note(Wrong::NotASize, place_of_value(value)),
            _ => {
                if let Err(fault) = size(known, value) {
                    self.note_fault(fault);
                }
            }
        }
    }

    /// A size, where there is one.
    pub fn limit(&mut self, known: &ConstantTable<'_>, value: &Option<Late<'_>>) {
        if let Some(value) = value {
            self.size(known, value);
        }
    }

    /// A case of a union.
    pub fn case(&mut self, known: &ConstantTable<'_>, value: &Late<'_>) {
        match looked_up(known, value) {
            Ok(number) => {
                if let Err(fault) = case_number(number, place_of_value(value)) {
                    self.note_fault(fault);
                }
            }
            Err(fault) => self.note_fault(fault),
        }
    }

    /// The numbers of constants, as far as the first that has a fault. What uses a later one comes
    /// after that fault.
    pub fn constants<'a>(
        &mut self,
        alloc: Global,
        entries: &[Entry<'a>],
    ) -> Result<ConstantTable<'a>, AllocError> {
        let mut known = ConstantTable::new(alloc);
        for entry in entries {
            match entry_number(&known, entry) {
                Ok(value) => known.push(Known {
                    name: entry.name,
                    value,
                    by_const: entry.by_const,
                })?,
                Err(fault) => {
                    self.note_fault(fault);
                    break;
                }
            }
        }
        Ok(known)
    }
}

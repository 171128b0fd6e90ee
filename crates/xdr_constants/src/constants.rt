//! The numbers of constants, and what values stand for.
ghost use Rattle.std.specs.Prelude.{◌≡◌, true, false, Some, None, IfOk, length, List, [], ◌∷◌, map, option_map, ◌≤◌};
ghost use Rattle.std.specs.Prelude.{◌<◌, take};
ghost use Rattle.xdr_tokens.specs.Due.{Gives};
ghost use Rattle.xdr_grammar.specs.View.{late_of, entry_of};
ghost use Rattle.xdr_constants.specs.Views.{known_of, knowns, place_of};
ghost use Rattle.xdr_constants.specs.Constants.{unsigned, member_number, case_number, known, earlier, looked_up};
ghost use Rattle.xdr_constants.specs.Constants.{size, limit, entry_number, numbers};

use crate::constant_table::ConstantTable;
use std::alloc::Global;
use xdr_grammar::{Entry, Late, Name};
use xdr_tokens::{Fault, Wrong};

/// A constant with its number.
#[derive(Clone, Copy)]
pub struct Known<'a> {
    /// Its spelling, and the place where it is declared.
    pub name: Name<'a>,
    /// From -2^63 to 2^64 - 1; of a member of an enumeration from -2^31 to 2^31 - 1.
    pub value: i128,
    /// Whether `const` declares it, and not an enumeration: no other may be a size.
    pub by_const: bool,
}

/// A number from 0 to 2^32 - 1.
pub fn unsigned(value: i128, left: usize) -> Result<u32, Fault>
    ensures { Gives (λ x. x) result (unsigned value) }
{
    if 0 <= value && value < 1 << 32 {
        Ok(value as u32)
    } else {
        Err(Fault::Refused {
            wrong: Wrong::OutOfRange,
            left,
        })
    }
}

/// A number of a member of an enum.
pub fn member_number(value: i128, left: usize) -> Result<i32, Fault>
    ensures { Gives (λ x. x) result (member_number value) }
{
    if -(1 << 31) <= value && value < 1 << 31 {
        Ok(value as i32)
    } else {
        Err(Fault::Refused {
            wrong: Wrong::OutOfRange,
            left,
        })
    }
}

/// A number of a case of a union.
pub fn case_number(value: i128, left: usize) -> Result<i64, Fault>
    ensures { Gives (λ x. x) result (case_number value) }
{
    if -(1 << 31) <= value && value < 1 << 32 {
        Ok(value as i64)
    } else {
        Err(Fault::Refused {
            wrong: Wrong::OutOfRange,
            left,
        })
    }
}

/// The number of the constant with that name, and whether `const` declares it: among the first
/// `before` of them and the two that are declared before the text.
#[tactic(auto, unfolding(crate::specs::Constants::earlier))]
fn earlier(constants: &ConstantTable<'_>, name: &str, before: usize) -> Option<(i128, bool)>
    ensures { result ≡ earlier name.now (take before (knowns constants.now.list.items)) }
{
    if name == "TRUE" {
        return Some((1, false));
    }
    if name == "FALSE" {
        return Some((0, false));
    }
    constants.named(name, before)
}

/// The number that a value stands for.
#[tactic(auto, unfolding(crate::specs::Constants::looked_up))]
pub fn looked_up(constants: &ConstantTable<'_>, value: &Late<'_>) -> Result<i128, Fault>
    ensures { Gives (λ x. x) result (looked_up (knowns constants.now.list.items) (late_of value.now)) }
{
    match value {
        Late::Given(number) => Ok(number.value),
        Late::Earlier { name, before } => match earlier(constants, name.text, *before) {
            Some((value, _)) => Ok(value),
            None => Err(Fault::Refused {
                wrong: Wrong::NameUnknown,
                left: name.left,
            }),
        },
    }
}

/// The size that a value stands for.
#[tactic(auto, unfolding(crate::specs::Constants::size))]
pub fn size(constants: &ConstantTable<'_>, value: &Late<'_>) -> Result<u32, Fault>
    ensures { Gives (λ x. x) result (size (knowns constants.now.list.items) (late_of value.now)) }
{
    match value {
        Late::Given(number) => unsigned(number.value, number.left),
        Late::Earlier { name, before } => match earlier(constants, name.text, *before) {
            Some((value, true)) => unsigned(value, name.left),
            Some((_, false)) => Err(Fault::Refused {
                wrong: Wrong::NotASize,
                left: name.left,
            }),
            None => Err(Fault::Refused {
                wrong: Wrong::NameUnknown,
                left: name.left,
            }),
        },
    }
}

/// The greatest length that a declaration allows.
#[tactic(auto, unfolding(crate::specs::Constants::limit))]
pub fn limit(constants: &ConstantTable<'_>, value: &Option<Late<'_>>) -> Result<u32, Fault>
    ensures { Gives (λ x. x) result (limit (knowns constants.now.list.items) (option_map late_of value.now)) }
{
    match value {
        Some(value) => size(constants, value),
        None => Ok(4294967295),
    }
}

/// Where a value stands, as the count of bytes of the text from there on.
pub fn place_of_value(value: &Late<'_>) -> usize
    ensures { result ≡ place_of value.now }
{
    match value {
        Late::Given(number) => number.left,
        Late::Earlier { name, .. } => name.left,
    }
}

/// The number of one more constant.
#[tactic(auto, unfolding(crate::specs::Constants::entry_number))]
pub fn entry_number(constants: &ConstantTable<'_>, entry: &Entry<'_>) -> Result<i128, Fault>
    ensures { Gives (λ x. x) result (entry_number (knowns constants.now.list.items) (entry_of entry.now)) }
{
    let value = looked_up(constants, &entry.value)?;
    if entry.by_const {
        return Ok(value);
    }
    let number = member_number(value, place_of_value(&entry.value))?;
    Ok(number as i128)
}

/// The constants with their numbers.
#[tactic(auto, unfolding(crate::specs::Constants::numbers))]
pub fn numbers<'a>(alloc: Global, entries: &[Entry<'a>]) -> Result<ConstantTable<'a>, Fault>
    ensures { Gives (λ x. knowns x.list.items) result (numbers (map entry_of entries.now) []) }
{
    let mut constants = ConstantTable::new(alloc);
    for entry in entries {
        let value = entry_number(&constants, entry)?;
        constants.push(Known {
            name: entry.name,
            value,
            by_const: entry.by_const,
        })?;
    }
    Ok(constants)
}

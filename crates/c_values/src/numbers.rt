//! The numbers with which items begin.
ghost use Rattle.std.specs.Prelude.{◌≤◌, ℕ, List, length, take, IfSome};
ghost use Rattle.xdr_writer.specs.Items as told;
ghost use Rattle.xdr_writer.specs.Runs.{as_items};
ghost use Rattle.c_values.specs.Items.{Tells, AreTold};

use super::item::ValueItem;

/// How many numbers are put at once, at most.
pub const MOST: usize = 64;

/// The number that the item tells; none, where it tells no number.
fn number_of(item: &ValueItem) -> Option<i128>
    ensures { IfSome result (λ z. (bytes : List ℕ) → Tells bytes item.now (told.number z)) }
{
    match item.form {
        1 => Some(item.signed_number as i128),
        2 => Some(item.number as i128),
        _ => None,
    }
}

/// Copies the numbers with which the items begin, as many as there is room for.
pub fn copy_numbers(items: &[ValueItem], numbers: &mut [i128]) -> usize
    ensures few { result ≤ length items.now }
    ensures room { result ≤ length numbers.new }
    ensures told { (bytes : List ℕ) → AreTold bytes (take result items.now) (as_items (take result numbers.new)) }
{
    let mut count = 0;
    while count < items.len() && count < numbers.len() {
        match number_of(&items[count]) {
            Some(number) => numbers[count] = number,
            None => return count,
        }
        count += 1;
    }
    count
}

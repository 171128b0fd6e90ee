//! Sums, products, the least and the greatest of counts, none from 2^64 on.
ghost use Rattle.std.specs.Prelude.{◌≡◌, ℕ, ◌+◌, ◌*◌, min, replicate, None, IfOk};
ghost use Rattle.xdr_bounds.specs.Private.Amounts.{Amounts, amount_at, Shows, places_of, total, highest, lowest};

use std::alloc::{AllocError, Global};
use xdr_types::KindId;

/// The amount that is noted for a place; none past the end.
pub fn noted(amounts: &Vec<Option<u64>>, place: usize) -> Option<u64>
    ensures { result ≡ amount_at amounts.now.items place }
{
    if place >= amounts.len() {
        return None;
    }
    amounts[place]
}

/// The same for the place of a kind.
pub fn amount_at(amounts: &Vec<Option<u64>>, id: KindId) -> Option<u64>
    ensures { result ≡ amount_at amounts.now.items id.place }
{
    noted(amounts, id.place as usize)
}

/// The sum over places.
pub fn sum_over(amounts: &Vec<Option<u64>>, ids: &Vec<KindId>) -> Option<u64>
    ensures { (f : ℕ → ℕ) → Shows amounts.now.items f → Amounts result (total f (places_of ids.now.items)) }
{
    let mut sum: u64 = 0;
    for id in ids {
        let amount = amount_at(amounts, *id)?;
        sum = sum.checked_add(amount)?;
    }
    Some(sum)
}

/// The highest over places, 0 where there are none.
pub fn highest_over(amounts: &Vec<Option<u64>>, ids: &Vec<KindId>) -> Option<u64>
    ensures { (f : ℕ → ℕ) → Shows amounts.now.items f → Amounts result (highest f (places_of ids.now.items)) }
{
    let mut most: u64 = 0;
    for id in ids {
        let amount = amount_at(amounts, *id)?;
        most = most.max(amount);
    }
    Some(most)
}

/// The lowest over places, none where there are none.
pub fn lowest_over(amounts: &Vec<Option<u64>>, ids: &Vec<KindId>) -> Option<u64>
    ensures { (f : ℕ → ℕ) → Shows amounts.now.items f → Amounts result (lowest f (places_of ids.now.items)) }
{
    let mut least = None;
    for id in ids {
        least = lesser(least, amount_at(amounts, *id));
    }
    least
}

// The lesser of two.
fn lesser(first: Option<u64>, second: Option<u64>) -> Option<u64>
    ensures { (m n : ℕ) → Amounts first m → Amounts second n → Amounts result (min m n) }
{
    match (first, second) {
        (None, _) => second,
        (_, None) => first,
        (Some(a), Some(b)) => Some(a.min(b)),
    }
}

/// So many times an amount.
pub fn times(amount: Option<u64>, count: u32) -> Option<u64>
    ensures { (n : ℕ) → Amounts amount n → Amounts result (n * count) }
{
    if count == 0 {
        return Some(0);
    }
    amount?.checked_mul(u64::from(count))
}

/// An amount and four bytes more.
pub fn with_unit(amount: Option<u64>) -> Option<u64>
    ensures { (n : ℕ) → Amounts amount n → Amounts result (n + 4) }
{
    amount?.checked_add(4)
}

/// So many places without amounts. An error is an allocation failure.
pub fn no_amounts(alloc: Global, count: usize) -> Result<Vec<Option<u64>>, AllocError>
    ensures { IfOk result (λ v. v.items ≡ replicate count None) }
{
    let mut amounts = Vec::with_capacity(alloc, count)?;
    for _i in 0..count {
        amounts.push(None)?;
    }
    Ok(amounts)
}

//! The least counts, found in rounds.
ghost use Rattle.std.specs.Prelude.{◌≡◌, ◌^◌, ◌<◌, ◌≤◌, ℕ, List, length, IsTrue, true, false, unwrap_or, IfOk};
ghost use Rattle.xdr_types.specs.Kinds.{KindView};
ghost use Rattle.xdr_bounds.specs.Bounds.{IsLeastAnswer};
ghost use Rattle.xdr_bounds.specs.Private.Amounts.{Amounts, Shows, amount_at};
ghost use Rattle.xdr_bounds.specs.Private.Shapes.{AreShapes, least_over};
ghost use Rattle.xdr_bounds.specs.Private.Rounds.{Keeps, IsLowAt, AreLow, weight};

use crate::amounts::{amount_at, lowest_over, no_amounts, noted, sum_over, times, with_unit};
use crate::order::Waits;
use crate::shape::Shape;
use std::alloc::{AllocError, Global};
use std::cmp::Reverse;
use std::collections::BinaryHeap;

// The fewest bytes of a shape, by those of the kinds of its parts.
fn least_of(amounts: &Vec<Option<u64>>, shape: &Shape) -> Option<u64>
    ensures { (f : ℕ → ℕ) → Shows amounts.now.items f → Amounts result (least_over f shape.now) }
{
    match shape {
        Shape::Alone { least, greatest: _ } => Some(*least),
        Shape::Items { item, count } => times(amount_at(amounts, *item), *count),
        Shape::Fields { fields } => sum_over(amounts, fields),
        Shape::OneOf { parts } => with_unit(lowest_over(amounts, parts)),
        Shape::UpTo { item: _, most: _ } => Some(4),
    }
}

// Lowers the amount at a place to what its shape has at least. Whether it fell.
fn lower(shapes: &Vec<Shape>, amounts: &mut Vec<Option<u64>>, place: usize) -> bool
    requires within { place < length shapes.now.items }
    requires all { length amounts.old.items ≡ length shapes.now.items }
    ensures keeps { Keeps shapes.now.items amounts.old.items amounts.new.items }
    ensures falls { IsTrue result → weight amounts.new.items < weight amounts.old.items }
    ensures low { result ≡ false
        → (amounts.new.items ≡ amounts.old.items) × IsLowAt shapes.now.items amounts.new.items place }
{
    let shape = &shapes[place];
    let amount = least_of(amounts, shape);
    if !is_below(amount, noted(amounts, place)) {
        return false;
    }
    amounts[place] = amount;
    true
}

// Whether the first amount is below the second.
fn is_below(first: Option<u64>, second: Option<u64>) -> bool
    ensures some { result ≡ true → unwrap_or first (2 ^ 64) < 2 ^ 64 }
    ensures below { result ≡ true → unwrap_or first (2 ^ 64) < unwrap_or second (2 ^ 64) }
    ensures not_below { result ≡ false → unwrap_or second (2 ^ 64) ≤ unwrap_or first (2 ^ 64) }
{
    match (first, second) {
        (None, _) => false,
        (Some(_), None) => true,
        (Some(a), Some(b)) => a < b,
    }
}

// One round over all places. Whether an amount fell.
#[tactic(auto, using(crate::proofs::Lowering::keeps_trans))]
fn round(shapes: &Vec<Shape>, amounts: &mut Vec<Option<u64>>) -> bool
    requires all { length amounts.old.items ≡ length shapes.now.items }
    ensures keeps { Keeps shapes.now.items amounts.old.items amounts.new.items }
    ensures falls { IsTrue result → weight amounts.new.items < weight amounts.old.items }
    ensures low { result ≡ false → AreLow shapes.now.items amounts.new.items }
{
    let mut fell = false;
    for place in 0..shapes.len() {
        if lower(shapes, amounts, place) {
            fell = true;
        }
    }
    fell
}

// How many parts a place waits for before its least count is looked for: all fields, an item, the first part of a union
// to come.
fn awaited(alloc: Global, shapes: &Vec<Shape>) -> Result<Vec<usize>, AllocError> {
    let mut counts = Vec::with_capacity(alloc, shapes.len())?;
    for shape in shapes {
        let count = match shape {
            Shape::Alone {
                least: _,
                greatest: _,
            } => 0,
            Shape::Items { item: _, count: _ } => 1,
            Shape::Fields { fields } => fields.len(),
            Shape::OneOf { parts: _ } => 1,
            Shape::UpTo { item: _, most: _ } => 0,
        };
        counts.push(count)?;
    }
    Ok(counts)
}

// Lowers the amount at a place, and puts it among the others that fell.
#[tactic(auto, using(crate::proofs::Lowering::keeps_refl))]
fn offer(
    shapes: &Vec<Shape>,
    amounts: &mut Vec<Option<u64>>,
    place: usize,
    fallen: &mut BinaryHeap<Reverse<(u64, usize)>>,
) -> Result<(), AllocError>
    requires { length amounts.old.items ≡ length shapes.now.items }
    ensures { Keeps shapes.now.items amounts.old.items amounts.new.items }
{
    if place >= shapes.len() {
        return Ok(());
    }
    if !lower(shapes, amounts, place) {
        return Ok(());
    }
    match noted(amounts, place) {
        Some(amount) => {
            fallen.push(Reverse((amount, place)))?;
            Ok(())
        }
        None => Ok(()),
    }
}

// The same for each of the places, which are taken out of their list.
#[tactic(auto, using(crate::proofs::Lowering::keeps_trans))]
fn offer_all(
    shapes: &Vec<Shape>,
    amounts: &mut Vec<Option<u64>>,
    places: &mut Vec<usize>,
    fallen: &mut BinaryHeap<Reverse<(u64, usize)>>,
) -> Result<(), AllocError>
    requires { length amounts.old.items ≡ length shapes.now.items }
    ensures { Keeps shapes.now.items amounts.old.items amounts.new.items }
{
    while let Some(place) = places.pop() {
        offer(shapes, amounts, place, fallen)?;
    }
    Ok(())
}

// Lowers the amounts from the lowest on, each once, when those are known that a place waits for: a search for shortest
// ways. What it notes are the least counts, so that a round finds none to lower; that is not proved, and the rounds
// prove what they leave.
#[tactic(auto, using(crate::proofs::Lowering::keeps_trans))]
fn lower_in_order(
    alloc: Global,
    shapes: &Vec<Shape>,
    amounts: &mut Vec<Option<u64>>,
) -> Result<(), AllocError>
    requires { length amounts.old.items ≡ length shapes.now.items }
    ensures { Keeps shapes.now.items amounts.old.items amounts.new.items }
{
    let mut waits = Waits::start(alloc, shapes, awaited(alloc, shapes)?)?;
    let mut ready = waits.ready(alloc)?;
    let mut fallen = BinaryHeap::new(alloc);
    for _place in 0..shapes.len() {
        offer_all(shapes, amounts, &mut ready, &mut fallen)?;
        match fallen.pop() {
            Some(Reverse((_, lowest))) => waits.free(lowest, &mut ready)?,
            None => return Ok(()),
        }
    }
    Ok(())
}

/// The least counts for all places. An error is an allocation failure.
pub fn least_amounts(alloc: Global, shapes: &Vec<Shape>) -> Result<Vec<Option<u64>>, AllocError>
    ensures all { IfOk result (λ v. length v.items ≡ length shapes.now.items) }
    ensures least { IfOk result (λ v. (kinds : List KindView) (place : ℕ) → AreShapes kinds shapes.now.items
        → IsLeastAnswer kinds place (amount_at v.items place)) }
{
    let mut amounts = no_amounts(alloc, shapes.len())?;
    lower_in_order(alloc, shapes, &mut amounts)?;
    while round(shapes, &mut amounts) {}
    Ok(amounts)
}

//! The greatest counts, each found once those of its parts are.
ghost use Rattle.std.specs.Prelude.{◌≡◌, ◌<◌, ◌⊎◌, ℕ, length, replicate, IsTrue, true, false, IfOk};
ghost use Rattle.xdr_bounds.specs.Private.Amounts.{Amounts, Shows, amount_at, places_of};
ghost use Rattle.xdr_bounds.specs.Private.Shapes.{greatest_over, item_needed, needs};
ghost use Rattle.xdr_bounds.specs.Private.Rounds.{is_done, all_done, undone, KeepsKnown, IsSettledAt, told};
ghost use Rattle.xdr_bounds.specs.Private.Rounds.{AreSettled, AreGreatest};

use crate::amounts::{amount_at, highest_over, no_amounts, noted, sum_over, times, with_unit};
use crate::greatest::Greatest;
use crate::order::Waits;
use crate::shape::Shape;
use std::alloc::{AllocError, Global};
use xdr_types::KindId;

// Whether the place is done.
fn is_at(done: &Vec<bool>, place: usize) -> bool
    ensures { result ≡ is_done done.now.items place }
{
    if place >= done.len() {
        return false;
    }
    done[place]
}

// The same for the place of a kind.
fn is_done(done: &Vec<bool>, id: KindId) -> bool
    ensures { result ≡ is_done done.now.items id.place }
{
    is_at(done, id.place as usize)
}

// Whether all the places are done.
fn all_done(done: &Vec<bool>, ids: &Vec<KindId>) -> bool
    ensures { result ≡ all_done done.now.items (places_of ids.now.items) }
{
    for id in ids {
        if !is_done(done, *id) {
            return false;
        }
    }
    true
}

// Whether the kind of so many items is done, where there are some.
fn are_done(done: &Vec<bool>, item: KindId, count: u32) -> bool
    ensures { result ≡ all_done done.now.items (item_needed item.place count) }
{
    if count == 0 {
        return true;
    }
    is_done(done, item)
}

// Whether all places that a shape needs are done.
fn is_ready(done: &Vec<bool>, shape: &Shape) -> bool
    ensures { result ≡ all_done done.now.items (needs shape.now) }
{
    match shape {
        Shape::Alone {
            least: _,
            greatest: _,
        } => true,
        Shape::Items { item, count } => are_done(done, *item, *count),
        Shape::Fields { fields } => all_done(done, fields),
        Shape::OneOf { parts } => all_done(done, parts),
        Shape::UpTo { item, most } => are_done(done, *item, *most),
    }
}

// The most bytes of a shape, by those of the kinds of its parts.
fn greatest_of(amounts: &Vec<Option<u64>>, shape: &Shape) -> Option<u64>
    ensures { (f : ℕ → ℕ) → Shows amounts.now.items f → Amounts result (greatest_over f shape.now) }
{
    match shape {
        Shape::Alone { least: _, greatest } => Some(*greatest),
        Shape::Items { item, count } => times(amount_at(amounts, *item), *count),
        Shape::Fields { fields } => sum_over(amounts, fields),
        Shape::OneOf { parts } => with_unit(highest_over(amounts, parts)),
        Shape::UpTo { item, most } => with_unit(times(amount_at(amounts, *item), *most)),
    }
}

// Whether a place is not done, and all are that its shape needs.
fn is_due(done: &Vec<bool>, place: usize, shape: &Shape) -> bool
    ensures waiting { result ≡ true → is_done done.now.items place ≡ false }
    ensures ready { result ≡ true → all_done done.now.items (needs shape.now) ≡ true }
    ensures settled { result ≡ false
        → (is_done done.now.items place ≡ true) ⊎ (all_done done.now.items (needs shape.now) ≡ false) }
{
    if is_at(done, place) {
        return false;
    }
    is_ready(done, shape)
}

// A place that is not done, where all are that it needs, is done: its amount is what its shape has at most. Whether it
// was so.
fn settle(
    shapes: &Vec<Shape>,
    amounts: &mut Vec<Option<u64>>,
    done: &mut Vec<bool>,
    place: usize,
) -> bool
    requires within { place < length shapes.now.items }
    requires all { (length amounts.old.items ≡ length shapes.now.items)
        × (length done.old.items ≡ length shapes.now.items) }
    ensures keeps { KeepsKnown shapes.now.items amounts.old.items done.old.items amounts.new.items done.new.items }
    ensures falls { IsTrue result → undone done.new.items < undone done.old.items }
    ensures settled { result ≡ false → (done.new.items ≡ done.old.items)
        × IsSettledAt shapes.now.items done.new.items place }
{
    let shape = &shapes[place];
    if !is_due(done, place, shape) {
        return false;
    }
    amounts[place] = greatest_of(amounts, shape);
    done[place] = true;
    true
}

// One round over all places. Whether one more is done.
#[tactic(auto, using(crate::proofs::Settling::known_trans))]
fn round(shapes: &Vec<Shape>, amounts: &mut Vec<Option<u64>>, done: &mut Vec<bool>) -> bool
    requires all { (length amounts.old.items ≡ length shapes.now.items)
        × (length done.old.items ≡ length shapes.now.items) }
    ensures keeps { KeepsKnown shapes.now.items amounts.old.items done.old.items amounts.new.items done.new.items }
    ensures falls { IsTrue result → undone done.new.items < undone done.old.items }
    ensures settled { result ≡ false → AreSettled shapes.now.items done.new.items }
{
    let mut found = false;
    for place in 0..shapes.len() {
        if settle(shapes, amounts, done, place) {
            found = true;
        }
    }
    found
}

// How many places each place needs.
fn awaited(alloc: Global, shapes: &Vec<Shape>) -> Result<Vec<usize>, AllocError> {
    let mut counts = Vec::with_capacity(alloc, shapes.len())?;
    for shape in shapes {
        let count = match shape {
            Shape::Alone {
                least: _,
                greatest: _,
            } => 0,
            Shape::Items { item: _, count } => { if *count == 0 { 0 } else { 1 } },
            Shape::Fields { fields } => fields.len(),
            Shape::OneOf { parts } => parts.len(),
            Shape::UpTo { item: _, most } => { if *most == 0 { 0 } else { 1 } },
        };
        counts.push(count)?;
    }
    Ok(counts)
}

// Settles a place, and frees those that wait for it alone.
#[tactic(auto, using(crate::proofs::Settling::known_refl))]
fn settle_next(
    shapes: &Vec<Shape>,
    amounts: &mut Vec<Option<u64>>,
    done: &mut Vec<bool>,
    place: usize,
    waits: &mut Waits,
    ready: &mut Vec<usize>,
) -> Result<(), AllocError>
    requires all { (length amounts.old.items ≡ length shapes.now.items)
        × (length done.old.items ≡ length shapes.now.items) }
    ensures { KeepsKnown shapes.now.items amounts.old.items done.old.items amounts.new.items done.new.items }
{
    if place >= shapes.len() {
        return Ok(());
    }
    if !settle(shapes, amounts, done, place) {
        return Ok(());
    }
    waits.free(place, ready)
}

// Settles each place once those are that it needs. So a round finds none that it settles; that is not proved, and the
// rounds prove what they leave.
#[tactic(auto, using(crate::proofs::Settling::known_trans))]
fn settle_in_order(
    alloc: Global,
    shapes: &Vec<Shape>,
    amounts: &mut Vec<Option<u64>>,
    done: &mut Vec<bool>,
) -> Result<(), AllocError>
    requires all { (length amounts.old.items ≡ length shapes.now.items)
        × (length done.old.items ≡ length shapes.now.items) }
    ensures { KeepsKnown shapes.now.items amounts.old.items done.old.items amounts.new.items done.new.items }
{
    let mut waits = Waits::start(alloc, shapes, awaited(alloc, shapes)?)?;
    let mut ready = waits.ready(alloc)?;
    for _place in 0..shapes.len() {
        match ready.pop() {
            Some(place) => settle_next(shapes, amounts, done, place, &mut waits, &mut ready)?,
            None => return Ok(()),
        }
    }
    Ok(())
}

// So many places that are not done.
fn none_done(alloc: Global, count: usize) -> Result<Vec<bool>, AllocError>
    ensures { IfOk result (λ v. v.items ≡ replicate count false) }
{
    let mut done = Vec::with_capacity(alloc, count)?;
    for _i in 0..count {
        done.push(false)?;
    }
    Ok(done)
}

// What is told of a place.
fn told(amounts: &Vec<Option<u64>>, done: &Vec<bool>, place: usize) -> Greatest
    ensures { result ≡ told (amount_at amounts.now.items place) (is_done done.now.items place) }
{
    if !is_at(done, place) {
        return Greatest::Unbounded;
    }
    match noted(amounts, place) {
        Some(bytes) => Greatest::Bytes(bytes),
        None => Greatest::MoreThanU64,
    }
}

/// The greatest counts for all places. An error is an allocation failure.
pub fn greatest_counts(alloc: Global, shapes: &Vec<Shape>) -> Result<Vec<Greatest>, AllocError>
    ensures { IfOk result (λ v. AreGreatest shapes.now.items v.items) }
{
    let mut amounts = no_amounts(alloc, shapes.len())?;
    let mut done = none_done(alloc, shapes.len())?;
    settle_in_order(alloc, shapes, &mut amounts, &mut done)?;
    while round(shapes, &mut amounts, &mut done) {}
    let mut counts = Vec::with_capacity(alloc, shapes.len())?;
    for place in 0..shapes.len() {
        let count = told(&amounts, &done, place);
        counts.push(count)?;
    }
    Ok(counts)
}

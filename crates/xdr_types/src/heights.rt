//! Heights of kinds, found in rounds.
ghost use Rattle.std.specs.Prelude.{◌≡◌, ◌<◌, ◌≤◌, ◌↔◌, length, map, option_map, None, IsTrue, IfOk, MatchOption};
ghost use Rattle.std.specs.Prelude.{false, replicate};
ghost use Rattle.xdr_types.specs.Kinds.{Part};
ghost use Rattle.xdr_types.specs.KindViews.{kind_view, part_of_member, branch_of};
ghost use Rattle.xdr_types.specs.Faults.{some_optional};
ghost use Rattle.xdr_types.specs.Sound.{IsSound, IsLowestWithout, Asks};
ghost use Rattle.xdr_types.specs.Height.{AreHigher};
ghost use Rattle.xdr_types.specs.Private.Rounds.{are_marked, some_marked, is_marked, IsMarked, IsClosed};
ghost use Rattle.xdr_types.specs.Private.Rounds.{BetweenSteps, Settles, AreAllMarked, IsFirstUnmarked};
ghost use Rattle.xdr_types.specs.Private.Sets.{IsReached};

use crate::kind::{Arm, Kind, KindId, Member};
use crate::reach::reached_defaults;
use std::alloc::{AllocError, Global};

// Whether the place has a number.
fn is_marked(heights: &Vec<Option<u32>>, id: KindId) -> bool
    ensures { result ≡ is_marked heights.now.items id.place }
{
    let place = id.place as usize;
    place < heights.len() && heights[place].is_some()
}

// Whether all the members have numbers.
fn all_marked(heights: &Vec<Option<u32>>, members: &Vec<Member>) -> bool
    ensures { result ≡ are_marked heights.now.items (map part_of_member members.now.items) }
{
    for member in members {
        if !is_marked(heights, member.kind) {
            return false;
        }
    }
    true
}

// The first of the members from an index on that has no number, or else their count.
fn next_unmarked(heights: &Vec<Option<u32>>, members: &Vec<Member>, from: usize) -> usize
    ensures { result < length members.now.items
        → are_marked heights.now.items (map part_of_member members.now.items) ≡ false }
{
    for i in from..members.len() {
        if !is_marked(heights, members[i].kind) {
            return i;
        }
    }
    members.len()
}

// The same as `all_marked`, where `wait` is the index of a member that had no number when it was last asked: while that
// one has none, no other is looked at.
fn are_settled(heights: &Vec<Option<u32>>, wait: &mut usize, members: &Vec<Member>) -> bool
    ensures { result ≡ are_marked heights.now.items (map part_of_member members.now.items) }
{
    let next = next_unmarked(heights, members, *wait);
    if next < members.len() {
        *wait = next;
        return false;
    }
    all_marked(heights, members)
}

// Whether a place that has no number has what it asks; it then gets the next number.
fn settle(
    kinds: &Vec<Kind>,
    reached: &Vec<bool>,
    waits: &mut Vec<usize>,
    heights: &mut Vec<Option<u32>>,
    next: &mut u32,
    place: usize,
) -> bool
    requires within { place < length kinds.now.items }
    requires between { BetweenSteps kinds.now.items reached.now.items waits.old.items heights.old.items next.old }
    ensures between { BetweenSteps kinds.now.items reached.now.items waits.new.items heights.new.items next.new }
    ensures settles { Settles (map kind_view kinds.now.items) place heights.old.items next.old heights.new.items
        next.new result }
{
    if heights[place].is_some()
        || !is_met(
            kinds,
            reached[place],
            heights,
            &mut waits[place],
            &kinds[place],
        )
    {
        return false;
    }
    heights[place] = Some(*next);
    *next += 1;
    true
}

// One round: each place that has what it asks gets a number. Whether one did.
fn round(
    kinds: &Vec<Kind>,
    reached: &Vec<bool>,
    waits: &mut Vec<usize>,
    heights: &mut Vec<Option<u32>>,
    next: &mut u32,
) -> bool
    requires { BetweenSteps kinds.now.items reached.now.items waits.old.items heights.old.items next.old }
    ensures between { BetweenSteps kinds.now.items reached.now.items waits.new.items heights.new.items next.new }
    ensures grows { IsTrue result → next.old < next.new }
    ensures closed { result ≡ false → IsClosed (map kind_view kinds.now.items) heights.new.items }
{
    let mut changed = false;
    for place in 0..kinds.len() {
        if settle(kinds, reached, waits, heights, next, place) {
            changed = true;
        }
    }
    changed
}

/// The lowest place without a height, where there is one.
pub fn lowest_without_height(alloc: Global, kinds: &Vec<Kind>) -> Result<Option<usize>, AllocError>
    requires { length kinds.now.items ≤ 1024 }
    ensures { IfOk result
        (λ r. MatchOption r (IsSound (map kind_view kinds.now.items) × AreHigher (map kind_view kinds.now.items))
        (IsLowestWithout (map kind_view kinds.now.items))) }
{
    let reached = reached_defaults(alloc, kinds)?;
    let mut waits = no_waits(alloc, kinds.len())?;
    let mut heights = no_heights(alloc, kinds.len())?;
    let mut next = 0;
    while round(kinds, &reached, &mut waits, &mut heights, &mut next) {}
    Ok(first_unmarked(&heights))
}

// The first place without a number, where there is one.
fn first_unmarked(heights: &Vec<Option<u32>>) -> Option<usize>
    ensures { MatchOption result (AreAllMarked heights.now.items) (IsFirstUnmarked heights.now.items) }
{
    for place in 0..heights.len() {
        if heights[place].is_none() {
            return Some(place);
        }
    }
    None
}

// For so many places, that their first member is to be asked first.
fn no_waits(alloc: Global, count: usize) -> Result<Vec<usize>, AllocError>
    ensures { IfOk result (λ v. length v.items ≡ count) }
{
    vec![in alloc; 0usize; count]
}

// So many places without numbers.
fn no_heights(alloc: Global, count: usize) -> Result<Vec<Option<u32>>, AllocError>
    ensures { IfOk result (λ v. v.items ≡ replicate count None) }
{
    let mut heights = Vec::with_capacity(alloc, count)?;
    for _i in 0..count {
        heights.push(None)?;
    }
    Ok(heights)
}

// Whether the kind has what it asks among the places with numbers.
fn is_met(
    kinds: &Vec<Kind>,
    is_reached: bool,
    heights: &Vec<Option<u32>>,
    wait: &mut usize,
    kind: &Kind,
) -> bool
    requires { IsReached (map kind_view kinds.now.items) (kind_view kind.now) is_reached }
    ensures { IsTrue result ↔ Asks (map kind_view kinds.now.items) (IsMarked heights.now.items) (kind_view kind.now) }
{
    match kind {
        Kind::Fixed { item, size: _ } => is_marked(heights, *item),
        Kind::Structure { fields } => are_settled(heights, wait, fields),
        Kind::Choice {
            tag: _,
            arms,
            other,
        } => any_marked(heights, arms) || (is_reached && is_other_marked(heights, other)),
        _ => true,
    }
}

// Whether an arm's part has a number.
fn any_marked(heights: &Vec<Option<u32>>, arms: &Vec<Arm>) -> bool
    ensures { result ≡ some_marked heights.now.items (map branch_of arms.now.items) }
{
    for arm in arms {
        if is_marked(heights, arm.member.kind) {
            return true;
        }
    }
    false
}

// Whether there is a default, and its part has a number.
fn is_other_marked(heights: &Vec<Option<u32>>, other: &Option<Member>) -> bool
    ensures { result
        ≡ some_optional (λ (part : Part). is_marked heights.now.items part.kind) (option_map part_of_member other.now) }
{
    match other {
        Some(member) => is_marked(heights, member.kind),
        None => false,
    }
}

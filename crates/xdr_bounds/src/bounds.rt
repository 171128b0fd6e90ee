//! How many bytes the values of the kinds of a schema have at least and at most.
ghost use Rattle.std.specs.Prelude.{◌≡◌, ◌≤◌, ◌<◌, List, length, slice_index_or, MatchOption, IfOk, IfSome};
ghost use Rattle.xdr_types.specs.Kinds.{KindView};
ghost use Rattle.xdr_bounds.specs.Bounds.{AreRanges, IsRange};
ghost use Rattle.xdr_bounds.specs.Private.Rounds.{AreJoined};

use crate::amounts::noted;
use crate::fewest::least_amounts;
use crate::greatest::Greatest;
use crate::most::greatest_counts;
use crate::range::Range;
use crate::shaping::shapes_of;
use std::alloc::{AllocError, Global};
use std::marker::Model;
use xdr_types::{KindId, NoMemory, Schema};

/// How many bytes the values of each kind of a schema have at least and at most (RFC 4506 sections 3 and 4). The type
/// alone decides that: no limit on depth or on bytes plays a part.
#[derive(Debug, Drop)]
pub struct Bounds {
    ranges: Vec<Range>,
}

impl Model for Bounds {
    ghost use Rattle.std.specs.Prelude.{List};
    ghost use Rattle.xdr_bounds.specs.declared.range.Range.{Range};

    ghost Value = { List Range };

    ghost view = { λ b. b.ranges.items };
}

impl Bounds {
    /// The bounds of all kinds of a schema, in time and memory by the size of its declarations. An error is that memory
    /// was refused.
    pub fn of(alloc: Global, schema: &Schema) -> Result<Bounds, NoMemory>
        ensures { IfOk result (λ b. AreRanges schema.now.kinds b) }
    {
        let _kinds = schema.len();
        let shapes = shapes_of(alloc, schema)?;
        let least = least_amounts(alloc, &shapes)?;
        let greatest = greatest_counts(alloc, &shapes)?;
        let ranges = ranges_of(alloc, &least, &greatest)?;
        Ok(Bounds { ranges })
    }

    /// How many bytes the values of a kind have (RFC 4506 sections 3 and 4). No value has fewer than the least count or
    /// more than the greatest, and each of the two is the count of some value. None of a kind that the schema does not
    /// have.
    #[tactic(auto, using(crate::proofs::Joined::range_at))]
    pub fn range(&self, id: KindId) -> Option<Range>
        // It is the one at the place of the kind,
        ensures at { MatchOption result (length self.now ≤ id.place)
            (λ r. (id.place < length self.now) × (r ≡ slice_index_or self.now id.place r)) }
        // and right of the kind, where these are the bounds of its list.
        ensures right { (kinds : List KindView) → AreRanges kinds self.now → IfSome result (IsRange kinds id.place) }
    {
        let place = id.place as usize;
        if place >= self.ranges.len() {
            return None;
        }
        Some(self.ranges[place])
    }
}

// Both counts of each kind.
fn ranges_of(
    alloc: Global,
    least: &Vec<Option<u64>>,
    greatest: &Vec<Greatest>,
) -> Result<Vec<Range>, AllocError>
    requires { length greatest.now.items ≡ length least.now.items }
    ensures { IfOk result (λ v. AreJoined least.now.items greatest.now.items v.items) }
{
    let mut ranges = Vec::with_capacity(alloc, least.len())?;
    for place in 0..least.len() {
        let range = Range {
            least: noted(least, place),
            greatest: greatest[place],
        };
        ranges.push(range)?;
    }
    Ok(ranges)
}

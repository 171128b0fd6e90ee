//! Cases that strictly rise, as those of a union mostly do. None of them is there twice, which one pass tells without
//! memory.
ghost use Rattle.std.specs.Prelude.{◌≡◌, map, IsTrue, IfSome, false};
ghost use Rattle.xdr_types.specs.KindViews.{branch_of};
ghost use Rattle.xdr_types.specs.Faults.{arms_case_twice};
ghost use Rattle.xdr_types.specs.Private.Rising.{RiseTo};

use crate::kind::Arm;

// The last case, or `low` where there is none, if the first is above `low` and each other above the one before it.
fn last_of_rising(cases: &[i64], low: i64) -> Option<i64>
    ensures { IfSome result (RiseTo low cases.now) }
{
    let mut last = low;
    for case in cases {
        if *case <= last {
            return None;
        }
        last = *case;
    }
    Some(last)
}

/// Whether each case is above all those before it, in its arm and in earlier arms. Then none is there twice.
pub fn cases_rise(arms: &[Arm]) -> bool
    ensures { IsTrue result → arms_case_twice (map branch_of arms.now) ≡ false }
{
    let mut last = -9223372036854775808;
    for arm in arms {
        match last_of_rising(&arm.cases, last) {
            Some(next) => last = next,
            None => return false,
        }
    }
    true
}

//! A header above the limit (RFC 5531 section 11).
ghost use Rattle.std.specs.Prelude.{◌≡◌, [], ◌∷◌, IfOk};
ghost use Rattle.capture_records.specs.Carried.{HasTooLong};
ghost use Rattle.capture_records.specs.Exact.{arrival_of};
ghost use Rattle.capture_records.specs.declared.step.Step.TheVariants.{Record};
ghost use Rattle.example_records.specs.Bytes.{long_header};

use crate::begun::{Stop, begin_by, take_all};
use capture_records::{Side, Step};
use capture_streams::{handed_is_the_stream, one_stream};
use rpc_record::too_long_ends_the_stream;
use std::alloc::Global;

/// A header of one byte more than the limit is one that no record has.
pub fn is_above_the_limit()
    ensures { HasTooLong 0 (arrival_of 0 0 long_header ∷ []) [] }
{}

/// Of such a header no record comes.
pub fn none_above_the_limit(alloc: Global) -> Result<Step, Stop>
    ensures { IfOk result (λ step. step ≡ Record → ⊥) }
{
    one_stream();
    handed_is_the_stream();
    too_long_ends_the_stream();
    let mut side = Side::new(alloc);
    begin_by(&mut side, 4294967295);
    take_all(&mut side, 0, &[129, 0, 16, 1])?;
    let mut buffer = Vec::new(alloc);
    let step = side.next(true, &mut buffer)?;
    Ok(step)
}

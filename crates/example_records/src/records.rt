//! Records that come in segments (RFC 9293 section 3.4, RFC 5531 section 11).
ghost use Rattle.std.specs.Prelude.{◌≡◌, IfOk};
ghost use Rattle.capture_records.specs.declared.step.Step.TheVariants.{Record, Waits};
ghost use Rattle.example_records.specs.Bytes.{content};

use crate::begun::{Stop, begin_by, take_all};
use capture_records::{Side, Step};
use capture_streams::{handed_is_the_stream, one_stream};
use rpc_record::{no_record_begins_another, too_long_ends_the_stream};
use std::alloc::Global;

/// A record in one segment behind a SYN with the number 2^32 - 1 is told, and then nothing more.
pub fn in_one_segment(alloc: Global) -> Result<(Step, Vec<u8>, Step), Stop>
    ensures { IfOk result (λ r. (r.0 ≡ Record) × (r.1.items ≡ content) × (r.2 ≡ Waits)) }
{
    one_stream();
    handed_is_the_stream();
    no_record_begins_another();
    too_long_ends_the_stream();
    let mut side = Side::new(alloc);
    begin_by(&mut side, 4294967295);
    take_all(&mut side, 0, &[128, 0, 0, 4, 1, 2, 3, 4])?;
    let mut record = Vec::new(alloc);
    let step = side.next(true, &mut record)?;
    let mut rest = Vec::new(alloc);
    let then = side.next(true, &mut rest)?;
    Ok((step, record, then))
}

/// Its second half comes first: nothing is told before the first half came.
pub fn out_of_order(alloc: Global) -> Result<(Step, Step, Vec<u8>), Stop>
    ensures { IfOk result (λ r. (r.0 ≡ Waits) × (r.1 ≡ Record) × (r.2.items ≡ content)) }
{
    one_stream();
    handed_is_the_stream();
    no_record_begins_another();
    too_long_ends_the_stream();
    let mut side = Side::new(alloc);
    begin_by(&mut side, 4294967295);
    take_all(&mut side, 4, &[1, 2, 3, 4])?;
    let mut none = Vec::new(alloc);
    let before = side.next(true, &mut none)?;
    take_all(&mut side, 0, &[128, 0, 0, 4])?;
    let mut record = Vec::new(alloc);
    let step = side.next(true, &mut record)?;
    Ok((before, step, record))
}

/// Other bytes for places that have one already change nothing: the first one wins.
pub fn first_one_wins(alloc: Global) -> Result<(Step, Vec<u8>, Step), Stop>
    ensures { IfOk result (λ r. (r.0 ≡ Record) × (r.1.items ≡ content) × (r.2 ≡ Waits)) }
{
    one_stream();
    handed_is_the_stream();
    no_record_begins_another();
    too_long_ends_the_stream();
    let mut side = Side::new(alloc);
    begin_by(&mut side, 4294967295);
    take_all(&mut side, 0, &[128, 0, 0, 4, 1, 2])?;
    take_all(&mut side, 4, &[9, 9, 3, 4])?;
    let mut record = Vec::new(alloc);
    let step = side.next(true, &mut record)?;
    let mut rest = Vec::new(alloc);
    let then = side.next(true, &mut rest)?;
    Ok((step, record, then))
}

/// A direction that is let go, in the midst of a header, begins anew with the next SYN.
pub fn begins_anew(alloc: Global) -> Result<(Step, Vec<u8>), Stop>
    ensures { IfOk result (λ r. (r.0 ≡ Record) × (r.1.items ≡ content)) }
{
    one_stream();
    handed_is_the_stream();
    no_record_begins_another();
    too_long_ends_the_stream();
    let mut side = Side::new(alloc);
    begin_by(&mut side, 1000);
    take_all(&mut side, 1001, &[128, 0, 0])?;
    let _left = side.let_go();
    begin_by(&mut side, 4294967295);
    take_all(&mut side, 0, &[128, 0, 0, 4, 1, 2, 3, 4])?;
    let mut record = Vec::new(alloc);
    let step = side.next(true, &mut record)?;
    Ok((step, record))
}

//! What is said on the stream of faults.
ghost use Rattle.oncrpc_tasks.specs.Checked.{IsSaid};

use xdr_io::{Sink, write_whole};

/// Writes a line, where that can be done: a write that fails fails nothing else.
#[tactic(auto, using(crate::proofs::Saying::whole_or_cut))]
pub fn say_line<F: Sink>(line: &str, faults: &mut F)
    ensures { IsSaid (record { taken = F.taken; lost = F.failures }) faults.old faults.new line.now }
{
    let _ = write_whole(faults, line.as_bytes());
}

//! What is said where memory was refused.
ghost use Rattle.std.specs.Prelude.{◌≡◌, codes};
ghost use Rattle.oncrpc_tasks.specs.Checked.{IsSaid};
ghost use Rattle.oncrpc_call.specs.Asked.{CanBeMade};

use oncrpc_call::{Asked, call_over};
use std::alloc::Global;
use xdr_io::{Sink, Source};

/// Status 4 has the line that memory was refused, whatever the server does, and nothing is printed.
pub fn says_that_memory_was_refused<R: Source, W: Sink, O: Sink, F: Sink>(
    alloc: Global,
    asked: &Asked,
    reader: &mut R,
    writer: &mut W,
    output: &mut O,
    faults: &mut F,
) -> u8
    requires { CanBeMade asked.now }
    ensures said { result ≡ 4 → IsSaid (record { taken = F.taken; lost = F.failures }) faults.old faults.new
        (codes "out of memory\n") }
    ensures unprinted { result ≡ 4 → output.new ≡ output.old }
{
    call_over(alloc, asked, reader, writer, output, faults)
}

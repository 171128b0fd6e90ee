//! What is said where a device failed or memory was refused.
ghost use Rattle.std.specs.Prelude.{◌≡◌};
ghost use Rattle.oncrpc_answers.specs.Lines.{failure_line};
ghost use Rattle.oncrpc_answers.specs.Status.{failure_status};
ghost use Rattle.oncrpc_tasks.specs.Checked.{IsSaid};

use oncrpc_answers::Failure;
use oncrpc_tasks::say_line;
use xdr_io::Sink;

/// Writes the line of a failure to `faults`, where that can be done, and gives the exit status: 3 for a device and too
/// many reads, 4 for an allocation failure.
pub fn say_failure<F: Sink>(failure: Failure, faults: &mut F) -> u8
    ensures status { result ≡ failure_status failure }
    ensures said { IsSaid (record { taken = F.taken; lost = F.failures }) faults.old faults.new
        (failure_line failure) }
{
    say_line(failure.line(), faults);
    failure.status()
}

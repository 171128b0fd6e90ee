//! The messages of both directions of a connection.
ghost use Rattle.std.specs.Prelude.{◌≡◌, true, IfErr, OnOk};
ghost use Rattle.oncrpc_watch.specs.Private.Steps.{IsStanding, StopsBoth, StopsOn, TellsBoth, TellsOn, reached, sunk};

use crate::stream::{Stream, WAY};
use crate::watch::Watch;
use oncrpc_answers::Failure;
use xdr_io::{Sink, Source};

/// Prints the messages of both directions, each reply behind its call: for that calls are read on while at most 65536
/// of them wait.
pub fn tell_both<I: Source, R: Source, O: Sink>(
    watch: &mut Watch<'_>,
    calls: &mut Stream<I>,
    replies: &mut Stream<R>,
    output: &mut O,
) -> Result<(), Failure>
    requires calls { IsStanding (reached I.left I.failures I.reads calls.old) }
    requires replies { IsStanding (reached R.left R.failures R.reads replies.old) }
    ensures tells { OnOk result (TellsBoth
        (reached I.left I.failures I.reads calls.old) (reached I.left I.failures I.reads calls.new)
        (reached R.left R.failures R.reads replies.old) (reached R.left R.failures R.reads replies.new)
        watch.old watch.new (sunk O.taken O.failures output.old) (sunk O.taken O.failures output.new)) }
    ensures ended { OnOk result ((calls.new.ended ≡ true) × (replies.new.ended ≡ true)) }
    ensures stops { IfErr result (λ f. StopsBoth
        (reached I.left I.failures I.reads calls.old) (reached I.left I.failures I.reads calls.new)
        (reached R.left R.failures R.reads replies.old) (reached R.left R.failures R.reads replies.new)
        watch.old (sunk O.taken O.failures output.old) (sunk O.taken O.failures output.new) f) }
{
    'replies: loop {
        match replies.next(watch, output) {
            Ok(true) => {}
            Ok(false) => {
                calls.tell_all(watch, output)?;
                return Ok(());
            }
            Err(failure) => return Err(failure),
        }
        read_on(watch, calls, &replies.record, output)?;
        replies.tell(watch, output)?;
    }
}

// Reads on until the call of this reply is known, no more can be kept, or there are no more.
fn read_on<I: Source, O: Sink>(
    watch: &mut Watch<'_>,
    calls: &mut Stream<I>,
    reply: &[u8],
    output: &mut O,
) -> Result<(), Failure>
    requires { IsStanding (reached I.left I.failures I.reads calls.old) }
    ensures tells { OnOk result (TellsOn
        (reached I.left I.failures I.reads calls.old) (reached I.left I.failures I.reads calls.new)
        watch.old watch.new (sunk O.taken O.failures output.old) (sunk O.taken O.failures output.new)) }
    ensures stops { IfErr result (λ f. StopsOn
        (reached I.left I.failures I.reads calls.old) (reached I.left I.failures I.reads calls.new)
        watch.old (sunk O.taken O.failures output.old) (sunk O.taken O.failures output.new) f) }
{
    'calls: loop {
        if watch.spare() == 0 || !watch.is_unasked(WAY, reply) {
            return Ok(());
        }
        match calls.tell_next(watch, output) {
            Ok(true) => {}
            Ok(false) => return Ok(()),
            Err(failure) => return Err(failure),
        }
    }
}

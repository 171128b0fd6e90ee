//! Programs that are called.
ghost use Rattle.std.specs.Prelude.{◌≤◌, IfOk};
ghost use Rattle.oncrpc_call.specs.Asked.{CanBeMade};

use crate::asking::asked_by;
use crate::reaching::{addresses_of, call_at, places_of};
use crate::timed::Until;
use crate::unmade::say_unmade;
use crate::unreached::{Unreached, say_unreached};
use oncrpc_call::Asked;
use oncrpc_words::{CallTask, Peer};
use xdr_io::Sink;

/// Calls a procedure of a program, prints its result, and gives the exit status.
pub fn call<O: Sink, F: Sink>(
    rt: &HostRuntime,
    what: &CallTask,
    output: &mut O,
    faults: &mut F,
) -> u8
    ensures { result ≤ 4 }
{
    let asked = match asked_by(rt, what) {
        Ok(asked) => asked,
        Err(why) => return say_unmade(rt.alloc(), why, &what.types, faults),
    };
    match make(rt, &what.peer, &asked, output, faults) {
        Ok(status) => status,
        Err(why) => say_unreached(rt.alloc(), why, &what.peer, faults),
    }
}

fn make<O: Sink, F: Sink>(
    rt: &HostRuntime,
    peer: &Peer,
    asked: &Asked,
    output: &mut O,
    faults: &mut F,
) -> Result<u8, Unreached>
    requires { CanBeMade asked.now }
    ensures { IfOk result (λ status. status ≤ 4) }
{
    let places = addresses_of(rt, peer)?;
    let until = Until::start(rt, Some(peer.timeout))?;
    let places = places_of(places, peer, until, asked.call.prog, asked.call.vers)?;
    call_at(&places, peer, until, asked, output, faults)
}

//! Programs that are called by their procedure without arguments and results (RFC 5531 section 12.1).
ghost use Rattle.std.specs.Prelude.{◌≤◌, IfOk};

use crate::asking::pinged_by;
use crate::reaching::{addresses_of, call_at, places_of};
use crate::timed::Until;
use crate::unmade::say_unmade;
use crate::unreached::{Unreached, say_unreached};
use oncrpc_answers::{Failure, report};
use oncrpc_call::ask_null;
use oncrpc_procedures::NamedProgram;
use oncrpc_words::{Peer, PingTask};
use std::alloc::{AllocError, Global};
use std::net::SocketAddr;
use std::thread;
use std::time::{Duration, Instant};
use xdr_io::{MemorySink, Sink, write_whole};

/// What begins the line of a program that does not have a version.
const MISMATCH: &[u8] = b"refused PROG_MISMATCH ";

/// Calls procedure 0 of a program, prints a line for each call, and gives the exit status.
pub fn ping<O: Sink, F: Sink>(
    rt: &HostRuntime,
    what: &PingTask,
    output: &mut O,
    faults: &mut F,
) -> u8
    ensures { result ≤ 4 }
{
    let pinged = match pinged_by(rt, what) {
        Ok(pinged) => pinged,
        Err(why) => return say_unmade(rt.alloc(), why, &what.types, faults),
    };
    match ping_each(rt, what, pinged, output, faults) {
        Ok(status) => status,
        Err(why) => say_unreached(rt.alloc(), why, &what.peer, faults),
    }
}

// So many calls a second apart, up to the first that has no answer.
fn ping_each<O: Sink, F: Sink>(
    rt: &HostRuntime,
    what: &PingTask,
    pinged: NamedProgram,
    output: &mut O,
    faults: &mut F,
) -> Result<u8, Unreached>
    ensures { IfOk result (λ status. status ≤ 4) }
{
    let version = pinged.version.unwrap_or(0);
    let places = addresses_of(rt, &what.peer)?;
    let until = Until::start(rt, Some(what.peer.timeout))?;
    let places = places_of(places, &what.peer, until, pinged.program, version)?;
    for before in 0..what.count {
        if before > 0 {
            thread::sleep(rt, Duration::from_secs(1));
        }
        let status = ping_once(rt, &what.peer, pinged, &places, output, faults)?;
        if status > 0 {
            return Ok(status);
        }
    }
    Ok(0)
}

fn ping_once<O: Sink, F: Sink>(
    rt: &HostRuntime,
    peer: &Peer,
    pinged: NamedProgram,
    places: &[SocketAddr],
    output: &mut O,
    faults: &mut F,
) -> Result<u8, Unreached>
    ensures { IfOk result (λ status. status ≤ 4) }
{
    let alloc = rt.alloc();
    let asked = ask_null(alloc, pinged.program, pinged.version.unwrap_or(0))?;
    let (mut printed, mut said) = ([0u8; 16], [0u8; 256]);
    let mut result = MemorySink::new(&mut printed, 16, None);
    let mut line = MemorySink::new(&mut said, 256, None);
    let begun = Instant::now(rt)?;
    let until = Until::start(rt, Some(peer.timeout))?;
    let status = call_at(places, peer, until, &asked, &mut result, &mut line)?;
    let took = begun.elapsed(rt)?.as_micros();
    match answered(alloc, pinged, status, line.written())? {
        Some(versions) => {
            let text = format!(in alloc;
                "{} {} answered in {took} microseconds\n",
                pinged.program,
                versions.as_str()
            )?;
            match write_whole(output, text.as_bytes()) {
                Ok(()) => Ok(0),
                Err(_) => Ok(report(Failure::Write, faults)),
            }
        }
        None => {
            let _ = write_whole(faults, line.written());
            Ok(status)
        }
    }
}

// The version that answered, or those that a program has of which none was named; none where that is no answer.
fn answered(
    alloc: Global,
    pinged: NamedProgram,
    status: u8,
    line: &[u8],
) -> Result<Option<String>, AllocError> {
    if status == 0 {
        let version = pinged.version.unwrap_or(0);
        return Ok(Some(format!(in alloc; "{version}")?));
    }
    match line.strip_prefix(MISMATCH) {
        Some(range) if pinged.version.is_none() => Ok(Some(range_of(alloc, range)?)),
        _ => Ok(None),
    }
}

// LOW and HIGH of the line as `LOW to HIGH`.
fn range_of(alloc: Global, range: &[u8]) -> Result<String, AllocError> {
    let range = String::from_utf8_lossy(alloc, range)?;
    let (low, high) = range.trim_end().split_once(' ').unwrap_or(("", ""));
    format!(in alloc; "{low} to {high}")
}

//! The registry for many clients at once, for as long as the program runs.
ghost use Rattle.std.specs.Prelude.{◌≤◌};

use oncrpc_answers::{Failure, report};
use oncrpc_sessions::{Bounds, Place, Shortage, Sockets, Unheard};
use oncrpc_tasks::say_line;
use oncrpc_words::KeepTask;
use registry_rows::PROGRAM;
use registry_sessions::SessionTable;
use rpc_directory::{Directory, NoMemory};
use std::alloc::Global;
use std::collections::hash_map::RandomState;
use std::hash::BuildHasher;
use std::net::{IpAddr, SocketAddr};
use std::time::Duration;
use xdr_io::{Sink, write_whole};

/// With more bytes of its replies waiting than these a connection is not read.
const MOST_WAITING: u32 = 8192;

/// Serves a registry to many clients at once, over TCP and UDP at one port, and gives the exit status: it ends where a
/// socket fails that it cannot do without. Its own rows have the port that is really listened at.
pub fn keep<O: Sink, F: Sink>(
    rt: &HostRuntime,
    what: &KeepTask,
    output: &mut O,
    faults: &mut F,
) -> u8
    ensures { result ≤ 4 }
{
    let alloc = rt.alloc();
    let (mut sockets, mut directory) = match begin(rt, what) {
        Ok(begun) => begun,
        Err(why) => return report_unheard(alloc, why, what, faults),
    };
    print_shortage(alloc, what, faults);
    if let Err(failure) = print_begun(alloc, what, sockets.port(), output) {
        return report(failure, faults);
    }
    let mut table = SessionTable::start(alloc, bounds_of(what).most(), MOST_WAITING);
    for _ in 0..u64::MAX {
        if let Err(error) = sockets.round(rt, &mut table, &mut directory) {
            let why = Unheard::by(Place::Waiting, &error);
            return report_unheard(alloc, why, what, faults);
        }
        print_ended(alloc, &mut sockets, faults);
    }
    0
}

// The sockets that listen, and the registry with its own rows. Random bytes are had first, so that no socket's file is
// made without them.
fn begin(rt: &HostRuntime, what: &KeepTask) -> Result<(Sockets, Directory<RandomState>), Unheard> {
    let hasher = match RandomState::new(rt) {
        Ok(hasher) => hasher,
        Err(error) => return Err(Unheard::by(Place::Random, &error)),
    };
    let sockets = bind(rt, what)?;
    let mut directory = Directory::start(rt.alloc(), hasher, sockets.port())?;
    set_local(rt.alloc(), what, &mut directory)?;
    Ok((sockets, directory))
}

// Says why the registry is not heard, and gives the exit status: 4 where memory was refused, also for the line, else 3.
fn report_unheard<F: Sink>(alloc: Global, why: Unheard, what: &KeepTask, faults: &mut F) -> u8
    ensures { result ≤ 4 }
{
    if why == Unheard::NoMemory {
        return report(Failure::NoMemory, faults);
    }
    match why.line(alloc, what.local.as_deref().unwrap_or("")) {
        Ok(line) => {
            say_line(&line, faults);
            3
        }
        Err(_) => report(Failure::NoMemory, faults),
    }
}

// The registry's own rows over a Unix socket, where one is asked for: versions 3 and 4, as rpcbind has them.
fn set_local<S: BuildHasher>(
    alloc: Global,
    what: &KeepTask,
    directory: &mut Directory<S>,
) -> Result<(), NoMemory> {
    if let Some(path) = &what.local {
        for vers in 3..=4 {
            directory.set(
                alloc,
                PROGRAM,
                vers,
                b"local",
                path.as_bytes(),
                b"superuser",
            )?;
        }
    }
    Ok(())
}

// The sockets, at the address and the path that are asked for.
fn bind(rt: &HostRuntime, what: &KeepTask) -> Result<Sockets, Unheard> {
    let address = SocketAddr::new(IpAddr::V4(what.address), what.port);
    let local = what.local.as_deref();
    Sockets::bind(
        rt,
        rt.alloc(),
        address,
        local,
        bounds_of(what),
        what.verbose,
    )
}

// What the sockets hold at most.
fn bounds_of(what: &KeepTask) -> Bounds {
    Bounds {
        connections: what.connections as usize,
        idle: Duration::from_secs(what.idle as u64),
        trusts_remote: what.insecure,
    }
}

// A line where fewer files may be open than connections need, where it can be written.
fn print_shortage<F: Sink>(alloc: Global, what: &KeepTask, faults: &mut F) {
    let Some(shortage) = Shortage::of(bounds_of(what)) else {
        return;
    };
    if let Ok(line) = shortage.line(alloc) {
        let _ = write_whole(faults, line.as_bytes());
    }
}

// Prints at which address and port both listen, and at which path.
fn print_begun<O: Sink>(
    alloc: Global,
    what: &KeepTask,
    port: u16,
    output: &mut O,
) -> Result<(), Failure> {
    let line = format!(in alloc; "listening on {} {port}\n", what.address)?;
    write_whole(output, line.as_bytes())?;
    if let Some(path) = &what.local {
        let line = format!(in alloc; "listening on {path}\n")?;
        write_whole(output, line.as_bytes())?;
    }
    Ok(())
}

// A line for each connection that has ended, where it can be written.
fn print_ended<F: Sink>(alloc: Global, sockets: &mut Sockets, faults: &mut F) {
    let endings = sockets.endings();
    for ending in endings.iter() {
        if let Ok(line) = ending.line(alloc) {
            let _ = write_whole(faults, line.as_bytes());
        }
    }
    endings.clear();
}

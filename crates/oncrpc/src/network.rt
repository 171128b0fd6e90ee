//! The registry over TCP and UDP.
ghost use Rattle.std.specs.Prelude.{◌≤◌};

use crate::reaching::{addresses, connect, open_port};
use crate::repeating::RepeatingPort;
use crate::timed::{TimedReader, TimedWriter, Until};
use crate::unreached::say_late;
use oncrpc_answers::{Failure, report};
use oncrpc_service::{
    Listener, Loopback, LoopbackPort, datagrams_on, info_datagram, info_over, report_socket,
    serve_on,
};
use oncrpc_words::{InfoTask, ServeTask};
use rpc_directory::Directory;
use std::collections::hash_map::RandomState;
use std::io;
use std::net::SocketAddr;
use xdr_io::{MemorySink, Sink, write_whole};

/// For how many seconds an answer over UDP is waited for where no time is named: a datagram may be lost, or come from
/// another address than the one that was asked.
const DATAGRAM_SECONDS: u32 = 10;

/// Asks a registry for its rows, over TCP or over UDP, and gives the exit status.
pub fn info<O: Sink, F: Sink>(
    rt: &HostRuntime,
    what: &InfoTask,
    output: &mut O,
    faults: &mut F,
) -> u8
    ensures { result ≤ 4 }
{
    let seconds = seconds_of(what);
    let (places, until) = match begin(rt, what, seconds) {
        Ok(begun) => begun,
        Err(error) => return report_unconnected(&error, faults),
    };
    let mut said = [0u8; 256];
    let mut line = MemorySink::new(&mut said, 256, None);
    let (status, is_late) = info_at(&places, what, until, output, &mut line);
    match seconds {
        Some(seconds) if status == 3 && is_late => say_late(rt.alloc(), seconds, faults),
        _ => {
            let _ = write_whole(faults, line.written());
            status
        }
    }
}

// For how many seconds an answer is waited for, where that has an end.
fn seconds_of(what: &InfoTask) -> Option<u32> {
    match what.timeout {
        None if what.udp => Some(DATAGRAM_SECONDS),
        seconds => seconds,
    }
}

// The addresses of the host, and then until when is waited: the look-up of its name is not counted.
fn begin<'a>(
    rt: &'a HostRuntime,
    what: &InfoTask,
    seconds: Option<u32>,
) -> io::Result<(Vec<SocketAddr>, Until<'a>)> {
    let places = addresses(rt, &what.host, what.port)?;
    Ok((places, Until::start(rt, seconds)?))
}

// The exit status of what one of these addresses answers, and whether it failed because the time was up.
fn info_at<O: Sink, F: Sink>(
    places: &[SocketAddr],
    what: &InfoTask,
    until: Until<'_>,
    output: &mut O,
    faults: &mut F,
) -> (u8, bool)
    ensures { result.0 ≤ 4 }
{
    if what.udp {
        info_by_datagram(places, what.vers, until, output, faults)
    } else {
        info_by_connection(places, what.vers, until, output, faults)
    }
}

// The same over the first address that takes a connection.
fn info_by_connection<O: Sink, F: Sink>(
    places: &[SocketAddr],
    vers: u32,
    until: Until<'_>,
    output: &mut O,
    faults: &mut F,
) -> (u8, bool)
    ensures { result.0 ≤ 4 }
{
    let stream = match connect(places, until) {
        Ok(stream) => stream,
        Err(error) => return (report_unconnected(&error, faults), until.is_why(&error)),
    };
    let mut reader = TimedReader::new(until, &stream);
    let mut writer = TimedWriter::new(until, &stream);
    let alloc = until.runtime().alloc();
    let status = info_over(alloc, &mut reader, &mut writer, output, faults, vers);
    (status, reader.is_late() || writer.is_late())
}

// The same over the first address to which there is a way for datagrams, once a second as long as there is time.
fn info_by_datagram<O: Sink, F: Sink>(
    places: &[SocketAddr],
    vers: u32,
    until: Until<'_>,
    output: &mut O,
    faults: &mut F,
) -> (u8, bool)
    ensures { result.0 ≤ 4 }
{
    let mut port = match open_repeating(places, until) {
        Ok(port) => port,
        Err(error) => return (report_unconnected(&error, faults), until.is_why(&error)),
    };
    let alloc = until.runtime().alloc();
    let status = info_datagram(alloc, &mut port, output, faults, vers);
    (status, port.is_late())
}

// A port that asks again, to the first address to which there is a way for datagrams.
fn open_repeating<'a>(places: &[SocketAddr], until: Until<'a>) -> io::Result<RepeatingPort<'a>> {
    let port = open_port(places, until)?;
    Ok(RepeatingPort::over(until.runtime().alloc(), port)?)
}

// The status where there is no way to the host: 4 where memory was refused, else 3.
fn report_unconnected<F: Sink>(error: &io::Error, faults: &mut F) -> u8
    ensures { result ≤ 4 }
{
    if error.kind() == io::ErrorKind::OutOfMemory {
        report(Failure::NoMemory, faults)
    } else {
        report_socket(faults)
    }
}

/// Serves a registry on 127.0.0.1, connections over TCP and then datagrams over UDP at the same port, and gives the
/// exit status. Its own rows have the port that is really listened at.
pub fn serve<O: Sink, F: Sink>(
    rt: &HostRuntime,
    what: &ServeTask,
    output: &mut O,
    faults: &mut F,
) -> u8
    ensures { result ≤ 4 }
{
    let alloc = rt.alloc();
    let (mut listener, mut port, hasher) = match (bind(rt, what.port), RandomState::new(rt)) {
        (Ok((listener, port)), Ok(hasher)) => (listener, port, hasher),
        _ => return report_socket(faults),
    };
    let mut directory = match Directory::start(alloc, hasher, listener.port()) {
        Ok(directory) => directory,
        Err(_) => return report(Failure::NoMemory, faults),
    };
    match serve_on(
        alloc,
        &mut listener,
        what.count,
        &mut directory,
        output,
        faults,
    ) {
        0 => datagrams_on(
            alloc,
            &mut port,
            what.datagrams,
            &mut directory,
            output,
            faults,
        ),
        status => status,
    }
}

// Both sockets: that of TCP, and that of UDP at the port which it has.
fn bind(rt: &HostRuntime, port: u16) -> io::Result<(Loopback, LoopbackPort)> {
    let listener = Loopback::bind(rt, port)?;
    let datagrams = LoopbackPort::bind(rt, listener.port())?;
    Ok((listener, datagrams))
}

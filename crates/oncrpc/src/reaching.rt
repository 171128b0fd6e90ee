//! The way to a program: its host, its port, and calls over TCP and UDP that end in time.
ghost use Rattle.std.specs.Prelude.{◌≤◌, IfOk};
ghost use Rattle.oncrpc_call.specs.Asked.{CanBeMade};

use crate::ports::port_of;
use crate::timed::{TimedPort, TimedReader, TimedWriter, Until};
use crate::unreached::Unreached;
use oncrpc_call::{Asked, call_datagram, call_over};
use oncrpc_words::Peer;
use std::io;
use std::net::{SocketAddr, TcpStream, ToSocketAddrs};
use xdr_io::{MemorySink, Sink, write_whole};

/// The addresses of a host, those of IPv4 first, since a registry of this program listens at 127.0.0.1 alone.
pub fn addresses(rt: &HostRuntime, host: &str, port: u16) -> io::Result<Vec<SocketAddr>> {
    let found = (host, port).to_socket_addrs(rt)?;
    let mut first = Vec::new(rt.alloc());
    let mut others = Vec::new(rt.alloc());
    for address in found {
        if address.is_ipv4() {
            first.push(address)?;
        } else {
            others.push(address)?;
        }
    }
    first.append(&mut others)?;
    Ok(first)
}

/// The addresses of a peer's host, with the port that is given, or else that of a registry.
pub fn addresses_of(rt: &HostRuntime, peer: &Peer) -> io::Result<Vec<SocketAddr>> {
    addresses(rt, &peer.host, peer.port.unwrap_or(111))
}

/// Where a version of a program may be: at each of these addresses of its host where a port is given, or at the first
/// whose registry answers, with the port that it tells.
pub fn places_of(
    places: Vec<SocketAddr>,
    peer: &Peer,
    until: Until<'_>,
    program: u32,
    version: u32,
) -> Result<Vec<SocketAddr>, Unreached> {
    if peer.port.is_some() {
        return Ok(places);
    }
    for registry in places.iter() {
        match port_of(until, *registry, peer.udp, program, version) {
            Ok(port) => {
                let mut place = *registry;
                place.set_port(port);
                return Ok(Vec::from_slice(until.runtime().alloc(), &[place])?);
            }
            Err(Unreached::Socket) => {}
            Err(why) => return Err(why),
        }
    }
    Err(Unreached::Socket)
}

/// Makes a call at the first of these places to which there is a way, and gives the exit status.
pub fn call_at<O: Sink, F: Sink>(
    places: &[SocketAddr],
    peer: &Peer,
    until: Until<'_>,
    asked: &Asked,
    output: &mut O,
    faults: &mut F,
) -> Result<u8, Unreached>
    requires { CanBeMade asked.now }
    ensures { IfOk result (λ status. status ≤ 4) }
{
    let mut said = [0u8; 256];
    let mut line = MemorySink::new(&mut said, 256, None);
    let (status, is_late) = call_in_time(places, peer, until, asked, output, &mut line)?;
    if status == 3 && is_late {
        return Err(Unreached::Late);
    }
    let _ = write_whole(faults, line.written());
    Ok(status)
}

// The same, and whether it failed because the time was up.
fn call_in_time<O: Sink, F: Sink>(
    places: &[SocketAddr],
    peer: &Peer,
    until: Until<'_>,
    asked: &Asked,
    output: &mut O,
    faults: &mut F,
) -> Result<(u8, bool), Unreached>
    requires { CanBeMade asked.now }
    ensures { IfOk result (λ r. r.0 ≤ 4) }
{
    if peer.udp {
        let mut port = port_to(places, until)?;
        call_by_datagrams(&mut port, peer.timeout, asked, output, faults)
    } else {
        let stream = stream_to(places, until)?;
        let mut reader = TimedReader::new(until, &stream);
        let mut writer = TimedWriter::new(until, &stream);
        let alloc = until.runtime().alloc();
        let status = call_over(alloc, asked, &mut reader, &mut writer, output, faults);
        Ok((status, reader.is_late() || writer.is_late()))
    }
}

/// A connection to the first of these places that takes one in time, or why there is none.
pub fn stream_to(places: &[SocketAddr], until: Until<'_>) -> Result<TcpStream, Unreached> {
    match connect(places, until) {
        Ok(stream) => Ok(stream),
        Err(error) => Err(Unreached::by(&error, until)),
    }
}

/// A port for datagrams, from which one is sent again after a second, to the first of these places to which there is a
/// way, or why there is none.
pub fn port_to<'a>(places: &[SocketAddr], until: Until<'a>) -> Result<TimedPort<'a>, Unreached> {
    match open_port(places, until) {
        Ok(port) => Ok(port),
        Err(error) => Err(Unreached::by(&error, until)),
    }
}

/// A connection to the first of these places that takes one in time.
pub fn connect(places: &[SocketAddr], until: Until<'_>) -> io::Result<TcpStream> {
    let mut refused = io::Error::from(io::ErrorKind::NotFound);
    for place in places {
        match connect_to(*place, until) {
            Ok(stream) => return Ok(stream),
            Err(error) => refused = error,
        }
    }
    Err(refused)
}

fn connect_to(place: SocketAddr, until: Until<'_>) -> io::Result<TcpStream> {
    let rt = until.runtime();
    match until.left()? {
        Some(left) => TcpStream::connect_timeout(rt, &place, left),
        None => TcpStream::connect(rt, place),
    }
}

/// A port for datagrams to the first of these places to which there is a way.
pub fn open_port<'a>(places: &[SocketAddr], until: Until<'a>) -> io::Result<TimedPort<'a>> {
    let mut refused = io::Error::from(io::ErrorKind::NotFound);
    for place in places {
        match TimedPort::connect(until, *place) {
            Ok(port) => return Ok(port),
            Err(error) => refused = error,
        }
    }
    Err(refused)
}

// Once a second, as long as there is time.
fn call_by_datagrams<O: Sink, F: Sink>(
    port: &mut TimedPort<'_>,
    seconds: u32,
    asked: &Asked,
    output: &mut O,
    faults: &mut F,
) -> Result<(u8, bool), Unreached>
    requires { CanBeMade asked.now }
    ensures { IfOk result (λ r. r.0 ≤ 4) }
{
    let alloc = port.runtime().alloc();
    let status = call_datagram(alloc, asked, seconds.max(1), port, output, faults);
    if status == 3 && port.is_closed() {
        return Err(Unreached::Socket);
    }
    Ok((status, port.is_late()))
}

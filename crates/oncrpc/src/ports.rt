//! The port of a program, from the registry of its host.
ghost use Rattle.std.specs.Prelude.{◌≤◌, length};
ghost use Rattle.rpc_message.specs.Spelling.{call as call_bytes};
ghost use Rattle.rpc_message.specs.View.{call_view};

use crate::reaching::{port_to, stream_to};
use crate::timed::{TimedReader, TimedWriter, Until};
use crate::unreached::Unreached;
use oncrpc_call::{Transport, ask_by_datagrams, port_question, told_port};
use rpc_engine::{ClientFault, exchange};
use rpc_message::{Call, Reply, Status};
use std::net::SocketAddr;

/// How often the registry is asked over UDP, a second apart.
const TIMES: u32 = 4294967295;

/// The port of a version of a program, as the registry at this address has it. It is asked by GETADDR of version 4,
/// then of version 3, and over IPv4 then by GETPORT of version 2 (RFC 1833 sections 2.2.1 and 3.2). A version that
/// refuses the call, or has no row, leaves the question to the next.
pub fn port_of(
    until: Until<'_>,
    registry: SocketAddr,
    udp: bool,
    program: u32,
    version: u32,
) -> Result<u16, Unreached> {
    let over = transport_to(registry, udp);
    for asking in over.registries() {
        let call = port_question(until.runtime().alloc(), *asking, program, version, over)?;
        if let Some(results) = asked(until, registry, udp, &call)? {
            if let Some(port) = told_port(*asking, over, &results) {
                return Ok(port);
            }
        }
    }
    Err(Unreached::Unregistered)
}

// The transport over which an address is reached: IPv4 also where it is written within one of IPv6 (RFC 4291 section
// 2.5.5.2).
fn transport_to(place: SocketAddr, udp: bool) -> Transport {
    match (place.ip().to_canonical().is_ipv4(), udp) {
        (true, false) => Transport::Tcp,
        (true, true) => Transport::Udp,
        (false, false) => Transport::Tcp6,
        (false, true) => Transport::Udp6,
    }
}

// What the registry answers over a connection.
fn asked_over(
    until: Until<'_>,
    registry: SocketAddr,
    call: &Call,
) -> Result<Result<Reply, ClientFault>, Unreached>
    requires cred { length call.now.cred.body.items ≤ 400 }
    requires verf { length call.now.verf.body.items ≤ 400 }
    requires short { length (call_bytes (call_view call.now)) ≤ 2147483647 }
{
    let stream = stream_to(&[registry], until)?;
    let mut reader = TimedReader::new(until, &stream);
    let mut writer = TimedWriter::new(until, &stream);
    Ok(exchange(until.runtime().alloc(), &mut reader, &mut writer, call))
}

// What the registry answers, where it answers with success.
fn asked(
    until: Until<'_>,
    registry: SocketAddr,
    udp: bool,
    call: &Call,
) -> Result<Option<Vec<u8>>, Unreached>
    requires cred { length call.now.cred.body.items ≤ 400 }
    requires verf { length call.now.verf.body.items ≤ 400 }
    requires short { length (call_bytes (call_view call.now)) ≤ 2147483647 }
{
    let answer = if udp {
        let mut port = port_to(&[registry], until)?;
        ask_by_datagrams(until.runtime().alloc(), &mut port, call, TIMES)
    } else {
        asked_over(until, registry, call)?
    };
    match answer {
        Ok(reply) => Ok(results_of(reply)),
        Err(ClientFault::NoMemory) => Err(Unreached::NoMemory),
        Err(ClientFault::Read | ClientFault::Write { .. }) if until.is_over() => {
            Err(Unreached::Late)
        }
        Err(ClientFault::Read | ClientFault::Write { .. } | ClientFault::TooManyReads) => {
            Err(Unreached::Socket)
        }
        Err(_) => Ok(None),
    }
}

// The results of a call that ended with success.
fn results_of(reply: Reply) -> Option<Vec<u8>> {
    match reply {
        Reply::Accepted { status, .. } => match status {
            Status::Success(results) => Some(results),
            _ => None,
        },
        _ => None,
    }
}

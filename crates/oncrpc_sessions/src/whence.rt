//! Where a connection or a datagram comes from (this project's own, after rpcbind).
ghost use Rattle.std.specs.Prelude.{◌≡◌, IfSome, IsSome, Some};
ghost use Rattle.std.specs.Net.Socket.{socket_ip};
ghost use Rattle.oncrpc_sessions.specs.Callers.{host_at, host_of, is_called, peer_at};

use registry_answer::Transport;
use registry_callers::{Caller, Peer};
use registry_sessions::Origin;
use std::io;
use std::net::{IpAddr, Ipv4Addr, Net, SocketAddr, UdpSocket};

/// Where a connection came from.
#[derive(Clone, Copy, Debug, PartialEq, Eq)]
pub enum Whence {
    /// An address and a port, over TCP.
    Address(SocketAddr),
    /// This host, over its Unix socket.
    Local,
}

/// Someone of this host over its Unix socket, which no more than its own user and the superuser can reach.
pub const LOCAL: Origin = Origin {
    caller: Caller {
        peer: Peer::Local,
        host: None,
        trusts_remote: false,
    },
    transport: Transport::Local,
};

/// Who calls from an address, to a socket at this address of the host, where it is known. Someone of this host calls
/// from 127.0.0.0/8, or from the very address that is called. The host is not known where that is 0.0.0.0.
pub fn caller_at(from: SocketAddr, to: Option<SocketAddr>, trusts_remote: bool) -> Caller
    ensures host { result.host ≡ host_at to }
    ensures peer { result.peer ≡ peer_at (host_of (socket_ip from)) (host_at to) }
    ensures trusts { result.trusts_remote ≡ trusts_remote }
{
    let host = match to {
        Some(address) => host_of(address.ip()),
        None => None,
    };
    Caller {
        peer: peer_of(from.ip(), host),
        host,
        trusts_remote,
    }
}

/// The address that was called at a socket which is bound at `bound`. Where that is every one of this host, 0.0.0.0, it
/// is the one by which the system would answer the caller.
pub fn called_at<R: Net>(rt: &R, bound: SocketAddr, from: SocketAddr) -> Option<SocketAddr>
    // A socket at one address is called there, whoever calls.
    ensures one { IfSome (host_of (socket_ip bound)) (λ octets. result ≡ Some bound) }
    ensures host { IfSome result (λ called. IsSome (host_of (socket_ip called))) }
{
    match host_of(bound.ip()) {
        Some(_) => Some(bound),
        None => address_towards(rt, from),
    }
}

/// The address of this host by which the system would send to a peer. None: it has no way there, or no socket could be
/// had. Nothing is sent.
pub fn address_towards<R: Net>(rt: &R, peer: SocketAddr) -> Option<SocketAddr>
    // It is an address of one host, and never 0.0.0.0.
    ensures { IfSome result (λ own. IsSome (host_of (socket_ip own))) }
{
    let own = own_end(rt, peer).ok()?;
    match host_of(own.ip()) {
        Some(_) => Some(own),
        None => None,
    }
}

/// The own end of a fresh socket for datagrams that is connected to a peer: this alone has the system choose it.
fn own_end<R: Net>(rt: &R, peer: SocketAddr) -> io::Result<SocketAddr> {
    let socket = UdpSocket::bind(rt, (Ipv4Addr::UNSPECIFIED, 0))?;
    socket.connect(peer)?;
    socket.local_addr()
}

fn peer_of(from: IpAddr, host: Option<[u8; 4]>) -> Peer
    ensures { result ≡ peer_at (host_of from) host }
{
    match host_of(from) {
        Some(octets) if octets[0] == 127 || is_called(octets, host) => Peer::Local,
        _ => Peer::Remote,
    }
}

/// Whether these are the octets that were called.
fn is_called(octets: [u8; 4], host: Option<[u8; 4]>) -> bool
    ensures { result ≡ is_called octets host }
{
    match host {
        Some(called) => octets.as_slice() == called.as_slice(),
        None => false,
    }
}

/// The octets of an address of one host over IPv4.
fn host_of(address: IpAddr) -> Option<[u8; 4]>
    ensures { result ≡ host_of address }
{
    match address {
        IpAddr::V4(v4) => {
            let octets = v4.octets();
            if octets.as_slice() == [0u8; 4].as_slice() {
                None
            } else {
                Some(octets)
            }
        }
        IpAddr::V6(_) => None,
    }
}

//! What listens for connections: a port over TCP, and a Unix socket where one is asked for.
use crate::bounds::Room;
use crate::local::listen_at;
use crate::stream::Stream;
use crate::whence::{LOCAL, Whence, caller_at};
use mio::net::{TcpListener, UnixListener};
use mio::{Interest, Registry, Token};
use registry_answer::Transport;
use registry_sessions::Origin;
use std::alloc::Global;
use std::fs::Files;
use std::io;
use std::io::ErrorKind;
use std::net::{Net, SocketAddr};

/// A connection that was accepted.
#[derive(Drop)]
pub struct Accepted {
    pub stream: Stream,
    pub origin: Origin,
    pub whence: Whence,
}

/// Sockets that listen. Readiness is told once: each stays noted until a call would block.
#[derive(Drop)]
pub struct Listeners {
    tcp: TcpListener,
    local: Option<UnixListener>,
    /// SET and UNSET of callers of other hosts are taken.
    trusts_remote: bool,
    may_accept: bool,
    may_accept_local: bool,
    /// The last connection could not be accepted, as where all descriptors are in use.
    is_short: bool,
}

impl Listeners {
    /// Listens at an address, whose port is 0 for any free one.
    pub fn bind<R: Net>(rt: &R, address: SocketAddr, trusts_remote: bool) -> io::Result<Listeners> {
        Ok(Listeners {
            tcp: TcpListener::bind(rt, address)?,
            local: None,
            trusts_remote,
            may_accept: true,
            may_accept_local: true,
            is_short: false,
        })
    }

    /// Listens at a path, too.
    pub fn listen_at<R: Files + Net>(
        &mut self,
        rt: &R,
        alloc: Global,
        path: &str,
    ) -> io::Result<()> {
        self.local = Some(listen_at(rt, alloc, path)?);
        Ok(())
    }

    /// The port at which it listens over TCP.
    pub fn port(&self) -> io::Result<u16> {
        Ok(self.tcp.local_addr()?.port())
    }

    /// Has a poll tell when a connection comes over TCP.
    pub fn register(&mut self, registry: &Registry, token: Token) -> io::Result<()> {
        registry.register(&mut self.tcp, token, Interest::READABLE)
    }

    /// The same at the Unix socket, where there is one.
    pub fn register_local(&mut self, registry: &Registry, token: Token) -> io::Result<()> {
        match &mut self.local {
            Some(listener) => registry.register(listener, token, Interest::READABLE),
            None => Ok(()),
        }
    }

    /// Notes that a connection may wait over TCP.
    pub fn note(&mut self) {
        self.may_accept = true;
    }

    /// Notes that one may wait at the Unix socket.
    pub fn note_local(&mut self) {
        self.may_accept_local = true;
    }

    /// One may wait that can be accepted where there is room.
    pub fn is_busy(&self, room: Room) -> bool {
        let over_tcp = room.tcp && self.may_accept;
        let over_local = room.local && self.may_accept_local;
        !self.is_short && (over_tcp || over_local)
    }

    /// The last one could not be accepted.
    pub fn is_short(&self) -> bool {
        self.is_short
    }

    /// Has it tried again.
    pub fn try_again(&mut self) {
        self.is_short = false;
    }

    /// One connection that waits where there is room, first of those at the Unix socket. One that could not be accepted
    /// ends nothing.
    pub fn accept(&mut self, room: Room) -> Option<Accepted> {
        match self.accept_local(room.local) {
            Some(accepted) => Some(accepted),
            None => self.accept_tcp(room.tcp),
        }
    }

    fn accept_local(&mut self, has_room: bool) -> Option<Accepted> {
        if !has_room || !self.may_accept_local {
            return None;
        }
        let Some(listener) = &self.local else {
            self.may_accept_local = false;
            return None;
        };
        match listener.accept() {
            Ok((stream, _peer)) => Some(Accepted {
                stream: Stream::Local(stream),
                origin: LOCAL,
                whence: Whence::Local,
            }),
            Err(fault) => {
                self.may_accept_local = self.goes_on(fault.kind());
                None
            }
        }
    }

    // Replies are sent as they are written, without waiting for more.
    fn accept_tcp(&mut self, has_room: bool) -> Option<Accepted> {
        if !has_room || !self.may_accept {
            return None;
        }
        match self.tcp.accept() {
            Ok((stream, peer)) => {
                let _at_once = stream.set_nodelay(true);
                let here = stream.local_addr().ok();
                Some(Accepted {
                    stream: Stream::Tcp(stream),
                    origin: Origin {
                        caller: caller_at(peer, here, self.trusts_remote),
                        transport: Transport::Tcp,
                    },
                    whence: Whence::Address(peer),
                })
            }
            Err(fault) => {
                self.may_accept = self.goes_on(fault.kind());
                None
            }
        }
    }

    // Whether another connection may wait after one that could not be accepted.
    fn goes_on(&mut self, kind: ErrorKind) -> bool {
        match kind {
            ErrorKind::WouldBlock => false,
            ErrorKind::Interrupted | ErrorKind::ConnectionAborted => true,
            _ => {
                self.is_short = true;
                true
            }
        }
    }
}

//! The datagrams of a registry, over a socket that does not block.
ghost use Rattle.oncrpc_sessions.specs.Loops.{Goes};

use crate::whence::{called_at, caller_at};
use mio::net::UdpSocket;
use mio::{Interest, Registry, Token};
use registry_answer::Appended;
use registry_sessions::SessionTable;
use rpc_directory::Directory;
use rpc_message::system_error;
use std::alloc::Global;
use std::hash::BuildHasher;
use std::io;
use std::io::ErrorKind;
use std::net::{Net, SocketAddr};

/// How many datagrams are answered at most, before what else is ready is looked at.
const MOST_AT_ONCE: u32 = 64;

/// The most bytes of a datagram.
const MOST_DATAGRAM: usize = 65536;

/// A socket for datagrams. Readiness is told once: it stays noted until a call would block.
#[derive(Drop)]
pub struct Datagrams {
    socket: UdpSocket,
    /// The address at which it is bound, 0.0.0.0 for every one of this host.
    bound: SocketAddr,
    trusts_remote: bool,
    may_receive: bool,
    datagram: Vec<u8>,
    reply: Vec<u8>,
}

impl Datagrams {
    /// Binds a socket at this address.
    pub fn bind<R: Net>(
        rt: &R,
        alloc: Global,
        address: SocketAddr,
        trusts_remote: bool,
    ) -> io::Result<Datagrams> {
        let datagram = Vec::from_elem(alloc, 0, MOST_DATAGRAM)?;
        let socket = UdpSocket::bind(rt, address)?;
        Ok(Datagrams {
            socket,
            bound: address,
            trusts_remote,
            may_receive: true,
            datagram,
            reply: Vec::new(alloc),
        })
    }

    /// Has a poll tell when a datagram comes.
    pub fn register(&mut self, registry: &Registry, token: Token) -> io::Result<()> {
        registry.register(&mut self.socket, token, Interest::READABLE)
    }

    /// Notes that one may wait.
    pub fn note(&mut self) {
        self.may_receive = true;
    }

    /// One may wait.
    pub fn is_busy(&self) -> bool {
        self.may_receive
    }

    /// Answers those that wait.
    pub fn receive<R: Net, S: BuildHasher>(
        &mut self,
        rt: &R,
        table: &SessionTable,
        directory: &mut Directory<S>,
    )
        ensures { Goes table.now table.now directory.old directory.new }
    {
        for _ in 0..MOST_AT_ONCE {
            self.receive_one(rt, table, directory);
        }
    }

    /// Answers one datagram, where one may wait.
    fn receive_one<R: Net, S: BuildHasher>(
        &mut self,
        rt: &R,
        table: &SessionTable,
        directory: &mut Directory<S>,
    )
        ensures { Goes table.now table.now directory.old directory.new }
    {
        if !self.is_busy() {
            return;
        }
        let (n, sender) = match self.socket.recv_from(&mut self.datagram) {
            Ok(received) => received,
            Err(fault) => {
                self.may_receive = fault.kind() != ErrorKind::WouldBlock;
                return;
            }
        };
        let caller = caller_at(
            sender,
            called_at(rt, self.bound, sender),
            self.trusts_remote,
        );
        let appended = table.receive(&self.datagram[..n], caller, directory, &mut self.reply);
        self.send(appended, sender);
    }

    /// Sends what is said for a datagram, once.
    fn send(&self, appended: Appended, to: SocketAddr) {
        match appended {
            Appended::Nothing => {}
            Appended::Reply => {
                let _sent = self.socket.send_to(&self.reply, to);
            }
            Appended::OutOfMemory { xid } => {
                let _sent = self.socket.send_to(&system_error(xid), to);
            }
        }
    }
}

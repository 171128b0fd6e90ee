//! Datagrams over UDP.
use rpc_engine::{DatagramPort, PortFault};
use std::io;
use std::net::{Ipv4Addr, Net, SocketAddr, UdpSocket};

/// A port of 127.0.0.1 over UDP, for a server: what it sends goes to the sender of the last datagram that it received.
/// Its contract says nothing of them.
#[derive(Drop)]
pub struct LoopbackPort {
    socket: UdpSocket,
    sender: Option<SocketAddr>,
}

impl LoopbackPort {
    /// Takes a port of 127.0.0.1, or a free one for 0.
    pub fn bind<R: Net>(rt: &R, port: u16) -> io::Result<LoopbackPort> {
        let socket = UdpSocket::bind(rt, (Ipv4Addr::LOCALHOST, port))?;
        Ok(LoopbackPort {
            socket,
            sender: None,
        })
    }
}

impl DatagramPort for LoopbackPort {
    fn receive(&mut self, array: &mut [u8; 65536]) -> Result<u32, PortFault> {
        match self.socket.recv_from(array) {
            Ok((n, sender)) => {
                self.sender = Some(sender);
                Ok(n as u32)
            }
            Err(_) => Err(PortFault),
        }
    }

    fn send(&mut self, datagram: &[u8]) -> Result<(), PortFault> {
        match self.sender {
            Some(sender) => sent(self.socket.send_to(datagram, sender)),
            None => Err(PortFault),
        }
    }
}

// A datagram goes out whole, or not at all.
fn sent(count: io::Result<usize>) -> Result<(), PortFault> {
    match count {
        Ok(_) => Ok(()),
        Err(_) => Err(PortFault),
    }
}

//! Connections over TCP of this host alone.
use crate::listener::{AcceptFault, Listener};
use std::io;
use std::net::{Ipv4Addr, Net, SocketAddr, TcpListener, TcpStream};
use xdr_io::{FromRead, IntoWrite};

/// Waits for clients at a port of 127.0.0.1 over TCP. Its contract says nothing of them.
#[derive(Drop)]
pub struct Loopback {
    listener: TcpListener,
    port: u16,
}

impl Loopback {
    /// Listens at a port, or at a free one for 0.
    pub fn bind<R: Net<Listener = TcpListener, Stream = TcpStream>>(
        rt: &R,
        port: u16,
    ) -> io::Result<Loopback> {
        let listener = TcpListener::bind(rt, (Ipv4Addr::LOCALHOST, port))?;
        let port = listener.local_addr()?.port();
        Ok(Loopback { listener, port })
    }
}

impl Listener for Loopback {
    type Reader = FromRead<TcpStream>;

    type Writer = IntoWrite<TcpStream>;

    ghost port_of = { λ s. s.port };

    fn port(&self) -> u16 {
        self.port
    }

    fn accept(&mut self) -> Result<(FromRead<TcpStream>, IntoWrite<TcpStream>), AcceptFault> {
        match accepted(&self.listener) {
            Ok(connection) => Ok(connection),
            Err(_) => Err(AcceptFault),
        }
    }

    fn close(&mut self, _reader: FromRead<TcpStream>, _writer: IntoWrite<TcpStream>) {}
}

fn accepted(listener: &TcpListener) -> io::Result<(FromRead<TcpStream>, IntoWrite<TcpStream>)> {
    let (stream, _peer) = listener.accept()?;
    let reader = FromRead::new(stream.try_clone()?);
    Ok((reader, IntoWrite::new(stream)))
}

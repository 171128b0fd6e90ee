//! A connected socket that does not block.
ghost use Rattle.std.specs.Io.{ReadsAtMost, WritesAtMost};

use mio::net::{TcpStream, UnixStream};
use mio::{Interest, Registry, Token};
use std::io;
use std::io::{Read, Write};

/// A connected socket that does not block: over TCP, or a Unix socket of this host.
#[derive(Drop)]
pub enum Stream {
    Tcp(TcpStream),
    Local(UnixStream),
}

impl Stream {
    /// Has a poll tell what it is ready for.
    pub fn register(&mut self, registry: &Registry, token: Token) -> io::Result<()> {
        let both = Interest::READABLE | Interest::WRITABLE;
        match self {
            Stream::Tcp(stream) => registry.register(stream, token, both),
            Stream::Local(stream) => registry.register(stream, token, both),
        }
    }

    /// Reads once.
    pub fn read(&mut self, array: &mut [u8]) -> io::Result<usize>
        ensures { ReadsAtMost result array.new }
    {
        match self {
            Stream::Tcp(stream) => stream.read(array),
            Stream::Local(stream) => stream.read(array),
        }
    }

    /// Writes once.
    pub fn write(&mut self, bytes: &[u8]) -> io::Result<usize>
        ensures { WritesAtMost result bytes.now }
    {
        match self {
            Stream::Tcp(stream) => stream.write(bytes),
            Stream::Local(stream) => stream.write(bytes),
        }
    }
}

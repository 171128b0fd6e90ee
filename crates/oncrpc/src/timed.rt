//! Connections and datagrams that are waited for until a moment, and no longer. Their contracts say nothing of what
//! they do.
ghost use Rattle.std.specs.Prelude.{◌≤◌, IfOk, length};

use rpc_engine::{DatagramPort, PortFault};
use std::io::{self, Read, Write};
use std::net::{Ipv4Addr, Ipv6Addr, SocketAddr, TcpStream, UdpSocket};
use std::time::{Duration, Instant};
use xdr_io::{ReadFault, Sink, SinkFault, Source};

/// Until when is waited, where that has an end.
#[derive(Clone, Copy)]
pub struct Until<'a> {
    rt: &'a HostRuntime,
    end: Option<Instant>,
}

impl<'a> Until<'a> {
    /// Until so many seconds from now have gone, or without an end.
    pub fn start(rt: &'a HostRuntime, seconds: Option<u32>) -> io::Result<Self> {
        let end = match seconds {
            Some(seconds) => after(rt, seconds)?,
            None => None,
        };
        Ok(Until { rt, end })
    }

    /// What waits.
    pub fn runtime(&self) -> &'a HostRuntime {
        self.rt
    }

    /// The same for at most so many seconds from now.
    pub fn within(&self, seconds: u32) -> io::Result<Self> {
        self.left()?;
        let end = match (self.end, after(self.rt, seconds)?) {
            (Some(end), Some(other)) if end < other => Some(end),
            (end, None) => end,
            (_, other) => other,
        };
        Ok(Until { rt: self.rt, end })
    }

    /// How long that still is, in whole milliseconds from 1, or none without an end. The error is that it is over.
    pub fn left(&self) -> io::Result<Option<Duration>> {
        let Some(end) = self.end else {
            return Ok(None);
        };
        let left = end.duration_since(Instant::now(self.rt)?);
        if left.is_zero() {
            return Err(io::Error::from(io::ErrorKind::TimedOut));
        }
        let millis = left.as_secs().saturating_mul(1000);
        let more = left.subsec_millis() as u64;
        let whole = millis.saturating_add(more).saturating_add(1);
        Ok(Some(Duration::from_millis(whole)))
    }

    /// Whether it is over.
    pub fn is_over(&self) -> bool {
        self.left().is_err()
    }

    /// Whether an error says that the time was up, and that is so. The system gives up a connection in its own time.
    pub fn is_why(&self, error: &io::Error) -> bool {
        is_of_time(error) && self.is_over()
    }

    // Whether the system ended a wait too early, as where its ticks came late before it.
    fn is_early<T>(&self, tried: &io::Result<T>) -> bool {
        match tried {
            Ok(_) => false,
            Err(error) => is_of_time(error) && !self.is_over(),
        }
    }
}

// How often in turn a wait may end too early before its error is taken for what it says.
const EARLY: u32 = 1000;

// So many seconds from now, where the clock has that moment.
fn after(rt: &HostRuntime, seconds: u32) -> io::Result<Option<Instant>> {
    Ok(Instant::now(rt)?.checked_add(Duration::from_secs(seconds as u64)))
}

/// What comes over a connection in time.
#[derive(Drop)]
pub struct TimedReader<'a> {
    until: Until<'a>,
    stream: &'a TcpStream,
    is_late: bool,
}

impl<'a> TimedReader<'a> {
    /// Reads of a connection, none of which waits beyond that time. None was late so far.
    pub fn new(until: Until<'a>, stream: &'a TcpStream) -> Self {
        TimedReader {
            until,
            stream,
            is_late: false,
        }
    }

    /// Whether a read failed because the time was up.
    pub fn is_late(&self) -> bool {
        self.is_late
    }

    fn read_in_time(&self, array: &mut [u8; 4096]) -> io::Result<usize>
        ensures { IfOk result (λ n. n ≤ 4096) }
    {
        for _ in 0..EARLY {
            let read = self.read_once(array);
            if !self.until.is_early(&read) {
                return read;
            }
        }
        self.read_once(array)
    }

    fn read_once(&self, array: &mut [u8; 4096]) -> io::Result<usize>
        ensures { IfOk result (λ n. n ≤ 4096) }
    {
        self.stream.set_read_timeout(self.until.left()?)?;
        let mut stream = self.stream;
        stream.read(array)
    }
}

impl Source for TimedReader<'_> {
    fn read(&mut self, array: &mut [u8; 4096]) -> Result<usize, ReadFault> {
        match self.read_in_time(array) {
            Ok(n) => Ok(n),
            Err(error) => {
                self.is_late |= self.until.is_why(&error);
                Err(ReadFault)
            }
        }
    }
}

/// What goes out over a connection in time.
#[derive(Drop)]
pub struct TimedWriter<'a> {
    until: Until<'a>,
    stream: &'a TcpStream,
    is_late: bool,
}

impl<'a> TimedWriter<'a> {
    /// Writes to a connection, none of which waits beyond that time. None was late so far.
    pub fn new(until: Until<'a>, stream: &'a TcpStream) -> Self {
        TimedWriter {
            until,
            stream,
            is_late: false,
        }
    }

    /// Whether a write failed because the time was up.
    pub fn is_late(&self) -> bool {
        self.is_late
    }

    fn write_in_time(&self, piece: &[u8]) -> io::Result<usize>
        ensures { IfOk result (λ n. n ≤ length piece.now) }
    {
        for _ in 0..EARLY {
            let written = self.write_once(piece);
            if !self.until.is_early(&written) {
                return written;
            }
        }
        self.write_once(piece)
    }

    fn write_once(&self, piece: &[u8]) -> io::Result<usize>
        ensures { IfOk result (λ n. n ≤ length piece.now) }
    {
        self.stream.set_write_timeout(self.until.left()?)?;
        let mut stream = self.stream;
        stream.write(piece)
    }
}

impl Sink for TimedWriter<'_> {
    fn write(&mut self, piece: &[u8]) -> Result<usize, SinkFault> {
        match self.write_in_time(piece) {
            Ok(n) => Ok(n),
            Err(error) => {
                self.is_late |= self.until.is_why(&error);
                Err(SinkFault)
            }
        }
    }
}

/// A client's port over UDP. After a send it waits for a second.
#[derive(Drop)]
pub struct TimedPort<'a> {
    until: Until<'a>,
    turn: Until<'a>,
    socket: UdpSocket,
    is_closed: bool,
    is_late: bool,
}

impl<'a> TimedPort<'a> {
    /// Takes a free port, whose peer is at this address.
    pub fn connect(until: Until<'a>, peer: SocketAddr) -> io::Result<Self> {
        let socket = match peer {
            SocketAddr::V4(_) => UdpSocket::bind(until.rt, (Ipv4Addr::UNSPECIFIED, 0))?,
            SocketAddr::V6(_) => UdpSocket::bind(until.rt, (Ipv6Addr::UNSPECIFIED, 0))?,
        };
        socket.connect(peer)?;
        Ok(TimedPort {
            until,
            turn: until,
            socket,
            is_closed: false,
            is_late: false,
        })
    }

    /// Whether a receive failed otherwise than by its time, as where nobody has the port. Nothing is sent from then on.
    pub fn is_closed(&self) -> bool {
        self.is_closed
    }

    /// Whether the last receive, or a send behind it, failed because the time was up.
    pub fn is_late(&self) -> bool {
        self.is_late
    }

    /// What waits.
    pub fn runtime(&self) -> &'a HostRuntime {
        self.until.rt
    }

    fn receive_in_time(&self, array: &mut [u8; 65536]) -> io::Result<usize>
        ensures { IfOk result (λ n. n ≤ 65536) }
    {
        for _ in 0..EARLY {
            let received = self.receive_once(array);
            if !self.turn.is_early(&received) {
                return received;
            }
        }
        self.receive_once(array)
    }

    fn receive_once(&self, array: &mut [u8; 65536]) -> io::Result<usize>
        ensures { IfOk result (λ n. n ≤ 65536) }
    {
        self.socket.set_read_timeout(self.turn.left()?)?;
        self.socket.recv(array)
    }

    fn send_in_time(&mut self, datagram: &[u8]) -> io::Result<usize> {
        self.turn = self.until.within(1)?;
        self.socket.send(datagram)
    }
}

// Whether an error says that the time was up.
fn is_of_time(error: &io::Error) -> bool {
    matches!(
        error.kind(),
        io::ErrorKind::WouldBlock | io::ErrorKind::TimedOut
    )
}

impl DatagramPort for TimedPort<'_> {
    fn receive(&mut self, array: &mut [u8; 65536]) -> Result<u32, PortFault> {
        match self.receive_in_time(array) {
            Ok(n) => {
                self.is_late = false;
                Ok(n as u32)
            }
            Err(error) => {
                self.is_late = self.until.is_why(&error);
                self.is_closed |= !is_of_time(&error);
                Err(PortFault)
            }
        }
    }

    fn send(&mut self, datagram: &[u8]) -> Result<(), PortFault> {
        if self.is_closed {
            return Err(PortFault);
        }
        match self.send_in_time(datagram) {
            Ok(_) => Ok(()),
            Err(error) => {
                self.is_late = self.until.is_why(&error);
                Err(PortFault)
            }
        }
    }
}

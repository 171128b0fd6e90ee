//! A client's port over UDP that asks again. Its contract says nothing of what it does.
ghost use Rattle.std.specs.Prelude.{◌≤◌, IfOk};

use crate::timed::TimedPort;
use rpc_engine::{DatagramPort, PortFault};
use std::alloc::{AllocError, Global};
use xdr_units::first_word;

/// The bytes for which there is memory from the start: the call for all rows has 40.
const SPACE: usize = 64;

/// A client's port over UDP. After each second without an answer it sends its last datagram again. It passes over what
/// begins with another word, as a reply to another call does (RFC 5531 section 9). A receive fails once the time is up,
/// or where nobody has the port.
#[derive(Drop)]
pub struct RepeatingPort<'a> {
    port: TimedPort<'a>,
    /// What was sent last.
    sent: Vec<u8>,
}

impl<'a> RepeatingPort<'a> {
    /// The same port, which asks again.
    pub fn over(alloc: Global, port: TimedPort<'a>) -> Result<Self, AllocError> {
        Ok(RepeatingPort {
            port,
            sent: Vec::with_capacity(alloc, SPACE)?,
        })
    }

    /// Whether the last receive, or a send behind it, failed because the time was up.
    pub fn is_late(&self) -> bool {
        self.port.is_late()
    }

    // Receives what begins as the datagram did that was sent last, which is sent again where a receive fails.
    fn receive_own(&mut self, array: &mut [u8; 65536]) -> Result<u32, PortFault>
        ensures { IfOk result (λ n. n ≤ 65536) }
    {
        for _ in 0..u64::MAX {
            match self.port.receive(array) {
                Ok(n) => {
                    if self.is_own(&array[..n as usize]) {
                        return Ok(n);
                    }
                }
                Err(PortFault) => self.port.send(&self.sent)?,
            }
        }
        Err(PortFault)
    }

    // Whether a datagram begins with no other word than the last one that was sent. One of fewer than four bytes does.
    fn is_own(&self, datagram: &[u8]) -> bool {
        match (first_word(datagram), first_word(&self.sent)) {
            (Some((got, _)), Some((asked, _))) => got == asked,
            _ => true,
        }
    }
}

impl DatagramPort for RepeatingPort<'_> {
    fn receive(&mut self, array: &mut [u8; 65536]) -> Result<u32, PortFault> {
        self.receive_own(array)
    }

    fn send(&mut self, datagram: &[u8]) -> Result<(), PortFault> {
        self.sent.clear();
        match self.sent.extend_from_slice(datagram) {
            Ok(()) => self.port.send(datagram),
            Err(_) => Err(PortFault),
        }
    }
}

//! A port for datagrams, and what it reports.
ghost use Rattle.std.specs.Prelude.{ℕ, ◌≤◌, [], Option, None, IfOk};
ghost use Rattle.xdr_io.specs.Reported.{Counts};
ghost use Rattle.rpc_engine.specs.Ports.{Reported, Receives, Sends, ReceiveMoves, SendMoves, failures_of};

use thiserror::Error;

/// A datagram could not be received or sent, for whatever reason.
#[derive(Clone, Copy, Debug, PartialEq, Eq, Error)]
#[error("a datagram could not be received or sent")]
pub struct PortFault;

/// Where datagrams come from and where they go: a message is one datagram, without a mark (RFC 5531 section 11).
pub trait DatagramPort {
    /// The datagrams that are left to be received, where they are reported.
    ghost left: { Self → Reported } = { λ _. None };

    /// The datagrams that were sent, where they are reported.
    ghost sent: { Self → Reported } = { λ _. None };

    /// How many receives failed, where that is reported.
    ghost receive_failures: { Self → Option ℕ } = { λ _. None };

    /// How many sends failed, where that is reported.
    ghost send_failures: { Self → Option ℕ } = { λ _. None };

    /// Moves the next datagram to the front of the array, and says how many bytes it has: 65536 at most. What stands
    /// behind them has no meaning. A fault moves none.
    fn receive(&mut self, array: &mut [u8; 65536]) -> Result<u32, PortFault>
        ensures bound { IfOk result (λ n. n ≤ 65536) }
        // The next datagram is at the front of the array, or none was received;
        ensures received { ReceiveMoves (left self.old) (left self.new) result array.new }
        // none was sent.
        ensures unsent { Sends (sent self.old) (sent self.new) [] }
        // A fault is one failed receive, and no failed send.
        ensures failed { Counts (failures_of result) (receive_failures self.old) (receive_failures self.new) }
        ensures none_failed { Counts 0 (send_failures self.old) (send_failures self.new) };

    /// Sends the datagram: a server's port to the sender of the last one that was received, a client's to its peer. A
    /// fault sends none.
    fn send(&mut self, datagram: &[u8]) -> Result<(), PortFault>
        // The datagram was sent whole, or not at all;
        ensures sent { SendMoves (sent self.old) (sent self.new) result datagram.now }
        // none was received.
        ensures unreceived { Receives (left self.old) (left self.new) [] }
        // A fault is one failed send, and no failed receive.
        ensures failed { Counts (failures_of result) (send_failures self.old) (send_failures self.new) }
        ensures none_failed { Counts 0 (receive_failures self.old) (receive_failures self.new) };
}

impl<P: DatagramPort> DatagramPort for &mut P {
    ghost left = { λ s. P.left s.now };

    ghost sent = { λ s. P.sent s.now };

    ghost receive_failures = { λ s. P.receive_failures s.now };

    ghost send_failures = { λ s. P.send_failures s.now };

    fn receive(&mut self, array: &mut [u8; 65536]) -> Result<u32, PortFault> {
        (**self).receive(array)
    }

    fn send(&mut self, datagram: &[u8]) -> Result<(), PortFault> {
        (**self).send(datagram)
    }
}

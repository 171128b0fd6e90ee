//! A port over lent memory, which reports all.
ghost use Rattle.std.specs.Prelude.{◌≡◌, ◌≤◌, [], Some, take, map, sum, length, IfOk, IfSome};
ghost use Rattle.std.specs.List.{concat};
ghost use Rattle.xdr_io.specs.Reported.{Counts, reported_count};
ghost use Rattle.rpc_engine.specs.Ports.{Receives, Sends, ReceiveMoves, SendMoves, failures_of, pieces, received_from};

use crate::port::{DatagramPort, PortFault};

/// A port that gives lent datagrams in their order, each cut to 65536 bytes, and keeps what it sends one behind the
/// other in a lent slice, with their sizes in another. The call of number `failing`, from 1, receives and sends counted
/// together, fails; so does a receive where no datagram is left, and a send that a slice has no space for.
#[derive(Drop)]
pub struct MemoryPort<'a> {
    waiting: &'a [&'a [u8]],
    next: usize,
    buffer: &'a mut [u8],
    sizes: &'a mut [usize],
    used: usize,
    count: usize,
    failing: Option<u64>,
    calls: u64,
    failed_receives: u64,
    failed_sends: u64,
    ghost left: { next ≤ length waiting.now },
    ghost fits: { used ≤ length buffer.now },
    ghost few: { count ≤ length sizes.now },
    ghost joined: { sum (take count sizes.now) ≡ used },
}

impl<'a> MemoryPort<'a> {
    ghost use Rattle.rpc_engine.specs.MemoryPorts.{IsFresh};

    /// A port before its first call.
    pub fn new(
        datagrams: &'a [&'a [u8]],
        buffer: &'a mut [u8],
        sizes: &'a mut [usize],
        failing: Option<u64>,
    ) -> Self
        // All datagrams are left, none was sent, and no call has failed.
        ensures left { ⟦<MemoryPort<'a> as DatagramPort>⟧.left result
            ≡ Some (received_from 0 datagrams.now) }
        ensures sent { ⟦<MemoryPort<'a> as DatagramPort>⟧.sent result ≡ Some [] }
        ensures receives { ⟦<MemoryPort<'a> as DatagramPort>⟧.receive_failures result ≡ Some 0 }
        ensures sends { ⟦<MemoryPort<'a> as DatagramPort>⟧.send_failures result ≡ Some 0 }
        ensures fresh { IsFresh result buffer.old sizes.old failing }
    {
        MemoryPort {
            waiting: datagrams,
            next: 0,
            buffer,
            sizes,
            used: 0,
            count: 0,
            failing,
            calls: 0,
            failed_receives: 0,
            failed_sends: 0,
        }
    }

    /// How many bytes each datagram has that was sent.
    pub fn sent_sizes(&self) -> &[usize]
        ensures { IfSome (⟦<MemoryPort<'a> as DatagramPort>⟧.sent self.now) (λ ds. result.now ≡ map length ds) }
    {
        &self.sizes[..self.count]
    }

    /// The bytes of the datagrams that were sent, joined.
    pub fn sent_bytes(&self) -> &[u8]
        ensures { IfSome (⟦<MemoryPort<'a> as DatagramPort>⟧.sent self.now) (λ ds. result.now ≡ concat ds) }
    {
        &self.buffer[..self.used]
    }
}

impl<'a> DatagramPort for MemoryPort<'a> {
    ghost use Rattle.rpc_engine.specs.MemoryPorts.{ReceiveAnswers, SendAnswers, SamePort};

    ghost left = { λ p. Some (received_from p.next p.waiting.now) };

    ghost sent = { λ p. Some (pieces (take p.count p.sizes.now) p.buffer.now) };

    ghost receive_failures = { λ p. reported_count p.failed_receives };

    ghost send_failures = { λ p. reported_count p.failed_sends };

    fn receive(&mut self, array: &mut [u8; 65536]) -> Result<u32, PortFault>
        ensures bound { IfOk result (λ n. n ≤ 65536) }
        ensures received { ReceiveMoves (Some (received_from self.old.next self.old.waiting.now))
            (Some (received_from self.new.next self.new.waiting.now)) result array.new }
        ensures unsent { Sends (Some (pieces (take self.old.count self.old.sizes.now) self.old.buffer.now))
            (Some (pieces (take self.new.count self.new.sizes.now) self.new.buffer.now)) [] }
        ensures failed { Counts (failures_of result) (reported_count self.old.failed_receives)
            (reported_count self.new.failed_receives) }
        ensures none_failed { Counts 0 (reported_count self.old.failed_sends) (reported_count self.new.failed_sends) }
        // It fails exactly where it is due to or no datagram is left,
        ensures gives { ReceiveAnswers self.old result }
        // and what was lent stays lent.
        ensures same { SamePort self.old self.new }
    {
        self.calls = self.calls.saturating_add(1);
        if self.failing == Some(self.calls) || self.next == self.waiting.len() {
            self.failed_receives = self.failed_receives.saturating_add(1);
            return Err(PortFault);
        }
        let datagram = self.waiting[self.next];
        let n = datagram.len().min(65536);
        array[..n].copy_from_slice(&datagram[..n]);
        self.next += 1;
        Ok(n as u32)
    }

    fn send(&mut self, datagram: &[u8]) -> Result<(), PortFault>
        ensures sent { SendMoves (Some (pieces (take self.old.count self.old.sizes.now) self.old.buffer.now))
            (Some (pieces (take self.new.count self.new.sizes.now) self.new.buffer.now)) result datagram.now }
        ensures unreceived { Receives (Some (received_from self.old.next self.old.waiting.now))
            (Some (received_from self.new.next self.new.waiting.now)) [] }
        ensures failed { Counts (failures_of result) (reported_count self.old.failed_sends)
            (reported_count self.new.failed_sends) }
        ensures none_failed { Counts 0 (reported_count self.old.failed_receives)
            (reported_count self.new.failed_receives) }
        // It fails exactly where it is due to or there is no space for the datagram,
        ensures takes { SendAnswers self.old result datagram.now }
        // and what was lent stays lent.
        ensures same { SamePort self.old self.new }
    {
        self.calls = self.calls.saturating_add(1);
        let used = self.used;
        let is_full = self.buffer.len() - used < datagram.len() || self.sizes.len() == self.count;
        if self.failing == Some(self.calls) || is_full {
            self.failed_sends = self.failed_sends.saturating_add(1);
            return Err(PortFault);
        }
        let end = used + datagram.len();
        self.buffer[used..end].copy_from_slice(datagram);
        self.sizes[self.count] = datagram.len();
        self.count += 1;
        self.used = end;
        Ok(())
    }
}

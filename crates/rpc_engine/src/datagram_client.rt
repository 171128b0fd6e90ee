//! The exchange of a call for a reply over datagrams.
ghost use Rattle.std.specs.Prelude.{◌≡◌, ◌≤◌, length};
ghost use Rattle.xdr_io.specs.Reported.{Counts};
ghost use Rattle.rpc_message.specs.Spelling.{call as call_bytes};
ghost use Rattle.rpc_message.specs.View.{call_view};
ghost use Rattle.rpc_engine.specs.DatagramExchange.{ExchangesDatagram};
ghost use Rattle.rpc_engine.specs.Exchanged.{read_failures, write_failures};

use crate::client::reply_to;
use crate::fault::ClientFault;
use crate::port::{DatagramPort, PortFault};
use rpc_message::{Call, Reply, write_call};
use std::alloc::Global;

/// Sends the call in one datagram, and reads the next one that comes as its reply (RFC 5531 section 9). The call's
/// credential and verifier have bodies of at most 400 bytes, and the call has at most 65507, the most of a datagram
/// over IPv4. After `Write`, of 0 bytes, nothing was sent; after `NoMemory` the call was sent and a datagram received,
/// or neither. `Read` comes only where a receive failed, and `Write` only where a send did. The faults `Record` and
/// `TooManyReads` do not come.
pub fn exchange_datagram<P: DatagramPort>(
    alloc: Global,
    port: &mut P,
    call: &Call,
) -> Result<Reply, ClientFault>
    requires cred { length call.now.cred.body.items ≤ 400 }
    requires verf { length call.now.verf.body.items ≤ 400 }
    requires short { length (call_bytes (call_view call.now)) ≤ 65507 }
    // What was sent, what was received, and that the answer is what that datagram is to this call.
    ensures answer { ExchangesDatagram call.now.xid (call_bytes (call_view call.now)) (P.left port.old)
        (P.left port.new) (P.sent port.old) (P.sent port.new) result }
    // One receive failed where the answer is `Read`, and else none; one send where it is `Write`, and else none.
    ensures read { Counts (read_failures result) (P.receive_failures port.old) (P.receive_failures port.new) }
    ensures write { Counts (write_failures result) (P.send_failures port.old) (P.send_failures port.new) }
{
    let Ok(bytes) = write_call(alloc, call) else {
        return Err(ClientFault::NoMemory);
    };
    match port.send(&bytes) {
        Ok(()) => {}
        Err(PortFault) => return Err(ClientFault::Write { written: 0 }),
    }
    let mut array = [0u8; 65536];
    match port.receive(&mut array) {
        Ok(n) => reply_to(alloc, call.xid, &array[..n as usize]),
        Err(PortFault) => Err(ClientFault::Read),
    }
}

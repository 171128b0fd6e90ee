//! A call made by datagrams: it is sent again while no reply comes, and datagrams of other calls are passed over.
ghost use Rattle.std.specs.Prelude.{◌≡◌, ◌≤◌, [], Err, MatchBool, length};
ghost use Rattle.xdr_io.specs.Reported.{Counts};
ghost use Rattle.rpc_message.specs.Spelling.{call as call_bytes};
ghost use Rattle.rpc_message.specs.View.{call_view};
ghost use Rattle.rpc_engine.specs.Exchanged.{read_failures, write_failures};
ghost use Rattle.rpc_engine.specs.Ports.{Sends};
ghost use Rattle.rpc_engine.specs.declared.fault.ClientFault.TheVariants as faults;
ghost use Rattle.oncrpc_call.specs.Datagrams.{Answered, AsksByDatagrams, IsOther, most_passed, report_of};

use rpc_engine::{ClientFault, DatagramPort, PortFault, reply_to};
use rpc_message::{Call, Reply, write_call};
use std::alloc::Global;
use xdr_units::first_word;

/// How many datagrams of other calls are passed over after each sending.
pub const MOST_PASSED: u32 = 1048576;

/// Sends the call in one datagram, and receives until a datagram comes that does not begin with another xid (RFC 5531
/// section 9). Where a receive fails, as it does where none came in time, the call is sent once more, so many times in
/// all. Each has the same xid, so that the reply to any of them is one. `Read` comes where the last receive failed, and
/// `Write`, of 0 bytes, where a send failed. For each sending at most 1048576 datagrams of other calls are passed over,
/// and `TooManyReads` comes after as many. `WrongXid` and `Record` do not come.
///
/// Credential and verifier have at most 400 bytes each. A call of more than 65507 bytes, the most of a datagram over
/// IPv4, is for the port to refuse: then a send fails.
pub fn ask_by_datagrams<P: DatagramPort>(
    alloc: Global,
    port: &mut P,
    call: &Call,
    times: u32,
) -> Result<Reply, ClientFault>
    requires cred { length call.now.cred.body.items ≤ 400 }
    requires verf { length call.now.verf.body.items ≤ 400 }
    requires some { 1 ≤ times }
    ensures { AsksByDatagrams (report_of P.left P.sent P.receive_failures P.send_failures)
        call.now.xid (call_bytes (call_view call.now)) times port.old port.new result }
{
    let Ok(bytes) = write_call(alloc, call) else {
        return Err(ClientFault::NoMemory);
    };
    'asking: for _sent in 0..times {
        match port.send(&bytes) {
            Ok(()) => {}
            Err(PortFault) => return Err(ClientFault::Write { written: 0 }),
        }
        let answer = receive_reply(alloc, port, call.xid);
        if is_answered(&answer) {
            return answer;
        }
    }
    Err(ClientFault::Read)
}

// Receives until a datagram comes that does not begin with another xid.
fn receive_reply<P: DatagramPort>(
    alloc: Global,
    port: &mut P,
    xid: u32,
) -> Result<Reply, ClientFault>
    ensures answered { Answered xid most_passed (P.left port.old) (P.left port.new) result }
    ensures unsent { Sends (P.sent port.old) (P.sent port.new) [] }
    ensures read { Counts (read_failures result) (P.receive_failures port.old) (P.receive_failures port.new) }
    ensures write { Counts 0 (P.send_failures port.old) (P.send_failures port.new) }
    ensures unwritten { write_failures result ≡ 0 }
{
    let mut array = [0u8; 65536];
    'passing: for _passed in 0..MOST_PASSED {
        let n = match port.receive(&mut array) {
            Ok(n) => n as usize,
            Err(PortFault) => return Err(ClientFault::Read),
        };
        if is_own(xid, &array[..n]) {
            return reply_to(alloc, xid, &array[..n]);
        }
    }
    Err(ClientFault::TooManyReads)
}

// Whether a message begins with no other xid. It takes no memory.
fn is_own(xid: u32, message: &[u8]) -> bool
    ensures { MatchBool result (IsOther xid message.now → ⊥) (IsOther xid message.now) }
{
    match first_word(message) {
        Some((got, _rest)) => got == xid,
        None => true,
    }
}

// Whether no receive failed.
fn is_answered(answer: &Result<Reply, ClientFault>) -> bool
    ensures { MatchBool result (answer.now ≡ Err faults.Read → ⊥) (answer.now ≡ Err faults.Read) }
{
    match answer {
        Err(ClientFault::Read) => false,
        _ => true,
    }
}

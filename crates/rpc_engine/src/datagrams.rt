//! The registry as a server over datagrams.
ghost use Rattle.std.specs.Prelude.{[], IfOk, IfErr, OnOk, OnErr};
ghost use Rattle.xdr_io.specs.Reported.{Counts};
ghost use Rattle.rpc_engine.specs.Datagrams.{ServesDatagrams, StopsDatagrams, receives_failed, sends_failed};
ghost use Rattle.rpc_engine.specs.Ports.{Receives, failures_of};
ghost use Rattle.rpc_engine.specs.Private.Replying.{RepliesTo};

use crate::fault::{DatagramFault, Served};
use crate::port::{DatagramPort, PortFault};
use registry_answer::{Appended, Transport, append_answer};
use rpc_directory::Directory;
use rpc_message::system_error;
use std::alloc::Global;
use std::hash::BuildHasher;

/// Answers a datagram, with the reply made in this buffer, and says whether it was a call, which wants a
/// reply.
fn answer_datagram<P: DatagramPort, S: BuildHasher>(
    alloc: Global,
    port: &mut P,
    directory: &mut Directory<S>,
    datagram: &[u8],
    buffer: &mut Vec<u8>,
) -> Result<bool, PortFault>
    ensures replies { RepliesTo directory.old datagram.now directory.new (P.sent port.old) (P.sent port.new) result }
    ensures unreceived { Receives (P.left port.old) (P.left port.new) [] }
    ensures failed { Counts (failures_of result) (P.send_failures port.old) (P.send_failures port.new) }
    ensures none_failed { Counts 0 (P.receive_failures port.old) (P.receive_failures port.new) }
{
    buffer.clear();
    match append_answer(alloc, directory, Transport::Udp, datagram, buffer) {
        Appended::Nothing => return Ok(false),
        Appended::Reply => port.send(buffer)?,
        Appended::OutOfMemory { xid } => port.send(&system_error(xid))?,
    }
    Ok(true)
}

/// Receives so many datagrams and answers each over UDP, its reply sent before the next is received; a datagram that
/// is no call has none (RFC 5531 section 9). A datagram for whose answer memory is refused gets the reply SYSTEM_ERR,
/// and the rows stay. After `Read` the rows are those of the datagrams before; after `Write` they are those after the
/// datagram that was being answered, whose reply was not sent. `Read` comes only where a receive failed, and `Write`
/// only where a send did.
pub fn serve_datagrams<P: DatagramPort, S: BuildHasher>(
    alloc: Global,
    port: &mut P,
    count: u64,
    directory: &mut Directory<S>,
) -> Result<Served, DatagramFault>
    // All were received, and rows and replies are those of the registry's run along them.
    ensures ok { IfOk result (λ served. ServesDatagrams count directory.old directory.new
        (P.left port.old) (P.left port.new) (P.sent port.old) (P.sent port.new) served) }
    // Fewer were, and the rows are those of a run along them.
    ensures fault { IfErr result (λ f. StopsDatagrams count directory.old directory.new
        (P.left port.old) (P.left port.new) (P.sent port.old) (P.sent port.new) f) }
    ensures none_failed { OnOk result (Counts 0 (P.receive_failures port.old) (P.receive_failures port.new)
        × Counts 0 (P.send_failures port.old) (P.send_failures port.new)) }
    // `Read` is one failed receive, and `Write` one failed send.
    ensures one_failed { IfErr result (λ f.
        Counts (receives_failed f) (P.receive_failures port.old) (P.receive_failures port.new)
        × Counts (sends_failed f) (P.send_failures port.old) (P.send_failures port.new)) }
{
    let mut buffer = Vec::new(alloc);
    let mut array = [0u8; 65536];
    let mut replies = 0u64;
    for done in 0..count {
        let n = match port.receive(&mut array) {
            Ok(n) => n as usize,
            Err(PortFault) => return Err(DatagramFault::Read { done }),
        };
        let is_call = match answer_datagram(alloc, port, directory, &array[..n], &mut buffer) {
            Ok(is_call) => is_call,
            Err(PortFault) => return Err(DatagramFault::Write { done }),
        };
        if is_call {
            replies += 1;
        }
    }
    Ok(Served {
        records: count,
        replies,
    })
}

//! What serving datagrams and exchanging a call over them come to (RFC 5531 section 9).
ghost use Rattle.std.specs.Prelude.{◌≡◌, ◌≢◌, ◌≤◌, ℕ, [], length, Ok, Err, IsErr, IsOk, IfOk, OnOk};
ghost use Rattle.rpc_message.specs.Spelling.{call as call_bytes};
ghost use Rattle.rpc_message.specs.View.{call_view};
ghost use Rattle.rpc_engine.specs.Ports.{Receives, Sends};
ghost use Rattle.rpc_engine.specs.declared.fault.ClientFault.TheVariants as fault;
ghost use Rattle.rpc_engine.specs.declared.fault.DatagramFault.TheVariants as datagram_fault;

use rpc_directory::Directory;
use rpc_engine::{
    ClientFault, DatagramFault, DatagramPort, MemoryPort, Served, exchange_datagram,
    messages_have_one_case, serve_datagrams,
};
use rpc_message::{Call, Reply, ReplyFault, five_cases};
use std::alloc::Global;
use std::hash::BuildHasher;

/// To serve no datagram receives none and sends none, and the rows stay.
pub fn serves_no_datagram<P: DatagramPort, S: BuildHasher>(
    alloc: Global,
    port: &mut P,
    directory: &mut Directory<S>,
) -> Result<Served, DatagramFault>
    ensures well { IsOk result }
    ensures counted { IfOk result (λ served. (served.records ≡ 0) × (served.replies ≡ 0)) }
    ensures rows { directory.new ≡ directory.old }
    ensures received { Receives (P.left port.old) (P.left port.new) [] }
    ensures sent { Sends (P.sent port.old) (P.sent port.new) [] }
{
    serve_datagrams(alloc, port, 0, directory)
}

/// An empty datagram is answered by silence, and the rows stay.
pub fn is_silent_to_an_empty_datagram<S: BuildHasher>(
    alloc: Global,
    directory: &mut Directory<S>,
) -> Result<Served, DatagramFault>
    ensures counted { IfOk result (λ served. (served.records ≡ 1) × (served.replies ≡ 0)) }
    ensures rows { OnOk result (directory.new ≡ directory.old) }
{
    five_cases();
    let mut buffer = [0u8; 64];
    let mut sizes = [0usize; 1];
    let datagram: &[u8] = &[];
    let waiting = [datagram];
    let mut port = MemoryPort::new(&waiting, &mut buffer, &mut sizes, None);
    serve_datagrams(alloc, &mut port, 1, directory)
}

/// Where the first receive fails nothing was received or sent, and the rows stay.
pub fn keeps_the_rows_where_none_comes<P: DatagramPort, S: BuildHasher>(
    alloc: Global,
    port: &mut P,
    directory: &mut Directory<S>,
) -> Result<Served, DatagramFault>
    ensures { result ≡ Err (datagram_fault.Read 0) → (directory.new ≡ directory.old)
        × Receives (P.left port.old) (P.left port.new) [] × Sends (P.sent port.old) (P.sent port.new) [] }
{
    serve_datagrams(alloc, port, 2, directory)
}

/// A reply to a call with xid 2 is not handed out to one with xid 1.
pub fn hands_out_no_other_datagram(alloc: Global, call: &Call) -> Result<Reply, ClientFault>
    requires cred { length call.now.cred.body.items ≤ 400 }
    requires verf { length call.now.verf.body.items ≤ 400 }
    requires short { length (call_bytes (call_view call.now)) ≤ 65507 }
    requires xid { call.now.xid ≡ 1 }
    ensures none { IsErr result }
    ensures other { (got : ℕ) → result ≡ Err (fault.WrongXid got) → got ≡ 2 }
    ensures reply { (f : ReplyFault) → result ≢ Err (fault.Reply f) }
{
    messages_have_one_case();
    let mut buffer = [0u8; 64];
    let mut sizes = [0usize; 1];
    let datagram: &[u8] = &[
        0, 0, 0, 2, 0, 0, 0, 1, 0, 0, 0, 0, 0, 0, 0, 0, 0, 0, 0, 0, 0, 0, 0, 0,
    ];
    let waiting = [datagram];
    let mut port = MemoryPort::new(&waiting, &mut buffer, &mut sizes, None);
    exchange_datagram(alloc, &mut port, call)
}

/// A call that was answered was sent in one datagram, of just its bytes.
pub fn sends_one_datagram(
    alloc: Global,
    waiting: &[&[u8]],
    buffer: &mut [u8],
    call: &Call,
) -> Result<(usize, usize), ClientFault>
    requires cred { length call.now.cred.body.items ≤ 400 }
    requires verf { length call.now.verf.body.items ≤ 400 }
    requires short { length (call_bytes (call_view call.now)) ≤ 65507 }
    ensures { IfOk result (λ sent. sent ≡ (1, length (call_bytes (call_view call.now)))) }
{
    let mut sizes = [0usize; 4];
    let mut port = MemoryPort::new(waiting, buffer, &mut sizes, None);
    exchange_datagram(alloc, &mut port, call)?;
    Ok((port.sent_sizes().len(), port.sent_bytes().len()))
}

//! What serving a stream and exchanging a call come to (RFC 5531 sections 9 and 11).
ghost use Rattle.std.specs.Prelude.{◌≡◌, ◌≢◌, ◌≤◌, ℕ, [], length, Ok, Err, IsErr, IfOk, OnOk};
ghost use Rattle.rpc_message.specs.Spelling.{call as call_bytes};
ghost use Rattle.rpc_message.specs.View.{call_view};
ghost use Rattle.rpc_engine.specs.declared.fault.ClientFault.TheVariants as fault;

use rpc_directory::Directory;
use rpc_engine::{
    ClientFault, ServeFault, Served, Transport, exchange, exchanges_have_one_outcome, serve,
};
use rpc_message::{Call, Reply, ReplyFault};
use rpc_record::{RecordFault, no_record_begins_another, too_long_ends_the_stream};
use std::alloc::Global;
use std::hash::BuildHasher;
use xdr_io::{Gathered, MemorySource, Sink};

/// A stream of no bytes has no records: none is answered, and the rows stay.
pub fn serves_nothing<W: Sink, S: BuildHasher>(
    alloc: Global,
    writer: &mut W,
    directory: &mut Directory<S>,
) -> Result<Served, ServeFault>
    ensures counted { IfOk result (λ served. (served.records ≡ 0) × (served.replies ≡ 0)) }
    ensures rows { OnOk result (directory.new ≡ directory.old) }
{
    no_record_begins_another();
    let mut reader = MemorySource::new(&[], 4096, None);
    let served = serve(alloc, &mut reader, writer, directory, Transport::Tcp)?;
    Ok(served)
}

/// Nothing is written for a stream of no bytes.
pub fn writes_nothing_for_nothing<S: BuildHasher>(
    alloc: Global,
    directory: &mut Directory<S>,
) -> Result<Vec<u8>, ServeFault>
    ensures { IfOk result (λ written. written.items ≡ []) }
{
    no_record_begins_another();
    let mut reader = MemorySource::new(&[], 4096, None);
    let mut writer = Gathered::new(alloc);
    serve(alloc, &mut reader, &mut writer, directory, Transport::Tcp)?;
    Ok(writer.into_bytes())
}

/// A header of more than 65536 bytes, `80010001`, is never served, and is not reported as an input that is cut.
pub fn refuses_a_record_above_the_limit<W: Sink, S: BuildHasher>(
    alloc: Global,
    writer: &mut W,
    directory: &mut Directory<S>,
    place: u64,
) -> Result<Served, ServeFault>
    ensures refused { IsErr result }
    ensures whole { result ≡ Err (ServeFault.Record (RecordFault.Truncated place)) → ⊥ }
{
    too_long_ends_the_stream();
    let mut reader = MemorySource::new(&[0x80, 1, 0, 1], 4096, None);
    serve(alloc, &mut reader, writer, directory, Transport::Tcp)
}

/// Where no bytes come there is no reply: the input is cut at 0.
pub fn exchanges_for_nothing<W: Sink>(
    alloc: Global,
    writer: &mut W,
    call: &Call,
) -> Result<Reply, ClientFault>
    requires cred { length call.now.cred.body.items ≤ 400 }
    requires verf { length call.now.verf.body.items ≤ 400 }
    requires short { length (call_bytes (call_view call.now)) ≤ 2147483647 }
    ensures none { IsErr result }
    ensures unanswered { (got : ℕ) → result ≢ Err (fault.WrongXid got) }
{
    exchanges_have_one_outcome();
    no_record_begins_another();
    too_long_ends_the_stream();
    let mut reader = MemorySource::new(&[], 4096, None);
    exchange(alloc, &mut reader, writer, call)
}

/// A reply to a call with xid 2 is not handed out to one with xid 1.
pub fn hands_out_no_other_reply<W: Sink>(
    alloc: Global,
    writer: &mut W,
    call: &Call,
) -> Result<Reply, ClientFault>
    requires cred { length call.now.cred.body.items ≤ 400 }
    requires verf { length call.now.verf.body.items ≤ 400 }
    requires short { length (call_bytes (call_view call.now)) ≤ 2147483647 }
    requires xid { call.now.xid ≡ 1 }
    ensures none { IsErr result }
    ensures other { (got : ℕ) → result ≡ Err (fault.WrongXid got) → got ≡ 2 }
{
    exchanges_have_one_outcome();
    let bytes = [
        0x80, 0, 0, 24, 0, 0, 0, 2, 0, 0, 0, 1, 0, 0, 0, 0, 0, 0, 0, 0, 0, 0, 0, 0, 0, 0, 0, 0,
    ];
    let mut reader = MemorySource::new(&bytes, 4096, None);
    exchange(alloc, &mut reader, writer, call)
}

/// The reply to a call with xid 2 is a reply, and the reply to that call.
pub fn finds_its_reply<W: Sink>(
    alloc: Global,
    writer: &mut W,
    call: &Call,
) -> Result<Reply, ClientFault>
    requires cred { length call.now.cred.body.items ≤ 400 }
    requires verf { length call.now.verf.body.items ≤ 400 }
    requires short { length (call_bytes (call_view call.now)) ≤ 2147483647 }
    requires xid { call.now.xid ≡ 2 }
    ensures reply { (f : ReplyFault) → result ≢ Err (fault.Reply f) }
    ensures xid { (got : ℕ) → result ≢ Err (fault.WrongXid got) }
{
    exchanges_have_one_outcome();
    let bytes = [
        0x80, 0, 0, 24, 0, 0, 0, 2, 0, 0, 0, 1, 0, 0, 0, 0, 0, 0, 0, 0, 0, 0, 0, 0, 0, 0, 0, 0,
    ];
    let mut reader = MemorySource::new(&bytes, 4096, None);
    exchange(alloc, &mut reader, writer, call)
}

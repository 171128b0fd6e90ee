//! Replies over a connection to a call with xid 2.
ghost use Rattle.std.specs.Prelude.{◌≡◌, ◌≢◌, [], Some, codes};
ghost use Rattle.xdr_types.specs.Named.{basic};
ghost use Rattle.oncrpc_tasks.specs.Checked.{IsSaid};
ghost use Rattle.oncrpc_call.specs.Asked.{CanBeMade};

use oncrpc_call::{Asked, Form, call_over, results_have_one_ending};
use rpc_engine::exchanges_have_one_outcome;
use rpc_record::{no_record_begins_another, too_long_ends_the_stream};
use std::alloc::Global;
use xdr_io::{MemorySource, Sink};

/// A success whose result is the unsigned number 2049 is not refused, and as hexadecimal its bytes are printed, a line
/// feed, and nothing else.
pub fn prints_the_bytes_of_a_number<W: Sink, O: Sink, F: Sink>(
    alloc: Global,
    asked: &Asked,
    writer: &mut W,
    output: &mut O,
    faults: &mut F,
) -> u8
    requires made { CanBeMade asked.now }
    requires xid { asked.now.call.xid ≡ 2 }
    requires kinds { asked.now.schema.kinds ≡ basic.kinds }
    requires unsigned { asked.now.result.place ≡ 1 }
    requires form { asked.now.form ≡ Form.Hex }
    requires fresh { O.taken output.old ≡ Some [] }
    ensures printed { result ≡ 0 → O.taken output.new ≡ Some (codes "00000801\n") }
    ensures shown { result ≢ 1 }
{
    exchanges_have_one_outcome();
    results_have_one_ending();
    let _in_range = asked.limits.depth();
    let bytes = [
        0x80, 0, 0, 28, 0, 0, 0, 2, 0, 0, 0, 1, 0, 0, 0, 0, 0, 0, 0, 0, 0, 0, 0, 0, 0, 0, 0, 0, 0,
        0, 8, 1,
    ];
    let mut reader = MemorySource::new(&bytes, 4096, None);
    call_over(alloc, asked, &mut reader, writer, output, faults)
}

/// With one more byte behind that number nothing is printed.
pub fn takes_no_byte_behind<W: Sink, O: Sink, F: Sink>(
    alloc: Global,
    asked: &Asked,
    writer: &mut W,
    output: &mut O,
    faults: &mut F,
) -> u8
    requires made { CanBeMade asked.now }
    requires xid { asked.now.call.xid ≡ 2 }
    requires kinds { asked.now.schema.kinds ≡ basic.kinds }
    requires unsigned { asked.now.result.place ≡ 1 }
    ensures none { result ≢ 0 }
    ensures unprinted { result ≡ 1 → output.new ≡ output.old }
{
    exchanges_have_one_outcome();
    results_have_one_ending();
    let _in_range = asked.limits.depth();
    let bytes = [
        0x80, 0, 0, 29, 0, 0, 0, 2, 0, 0, 0, 1, 0, 0, 0, 0, 0, 0, 0, 0, 0, 0, 0, 0, 0, 0, 0, 0, 0,
        0, 8, 1, 0,
    ];
    let mut reader = MemorySource::new(&bytes, 4096, None);
    call_over(alloc, asked, &mut reader, writer, output, faults)
}

/// A reply to a call with xid 3 is none to this call, whatever the result is to be, and nothing is printed.
pub fn takes_no_other_reply<W: Sink, O: Sink, F: Sink>(
    alloc: Global,
    asked: &Asked,
    writer: &mut W,
    output: &mut O,
    faults: &mut F,
) -> u8
    requires made { CanBeMade asked.now }
    requires xid { asked.now.call.xid ≡ 2 }
    ensures none { result ≢ 0 }
    ensures said { result ≡ 1 → IsSaid (record { taken = F.taken; lost = F.failures }) faults.old faults.new
        (codes "refused WrongXid 3\n") }
    ensures unprinted { result ≡ 1 → output.new ≡ output.old }
{
    exchanges_have_one_outcome();
    let bytes = [
        0x80, 0, 0, 24, 0, 0, 0, 3, 0, 0, 0, 1, 0, 0, 0, 0, 0, 0, 0, 0, 0, 0, 0, 0, 0, 0, 0, 0,
    ];
    let mut reader = MemorySource::new(&bytes, 4096, None);
    call_over(alloc, asked, &mut reader, writer, output, faults)
}

/// A program that has the versions 2 to 4 says so, and nothing is printed.
pub fn tells_the_versions<W: Sink, O: Sink, F: Sink>(
    alloc: Global,
    asked: &Asked,
    writer: &mut W,
    output: &mut O,
    faults: &mut F,
) -> u8
    requires made { CanBeMade asked.now }
    requires xid { asked.now.call.xid ≡ 2 }
    ensures none { result ≢ 0 }
    ensures said { result ≡ 1 → IsSaid (record { taken = F.taken; lost = F.failures }) faults.old faults.new
        (codes "refused PROG_MISMATCH 2 4\n") }
    ensures unprinted { result ≡ 1 → output.new ≡ output.old }
{
    exchanges_have_one_outcome();
    let bytes = [
        0x80, 0, 0, 32, 0, 0, 0, 2, 0, 0, 0, 1, 0, 0, 0, 0, 0, 0, 0, 0, 0, 0, 0, 0, 0, 0, 0, 2, 0,
        0, 0, 2, 0, 0, 0, 4,
    ];
    let mut reader = MemorySource::new(&bytes, 4096, None);
    call_over(alloc, asked, &mut reader, writer, output, faults)
}

/// A credential that is too weak is told by its name, and nothing is printed.
pub fn tells_why_it_is_denied<W: Sink, O: Sink, F: Sink>(
    alloc: Global,
    asked: &Asked,
    writer: &mut W,
    output: &mut O,
    faults: &mut F,
) -> u8
    requires made { CanBeMade asked.now }
    requires xid { asked.now.call.xid ≡ 2 }
    ensures none { result ≢ 0 }
    ensures said { result ≡ 1 → IsSaid (record { taken = F.taken; lost = F.failures }) faults.old faults.new
        (codes "refused AUTH_ERROR AUTH_TOOWEAK\n") }
    ensures unprinted { result ≡ 1 → output.new ≡ output.old }
{
    exchanges_have_one_outcome();
    let bytes = [
        0x80, 0, 0, 20, 0, 0, 0, 2, 0, 0, 0, 1, 0, 0, 0, 1, 0, 0, 0, 1, 0, 0, 0, 5,
    ];
    let mut reader = MemorySource::new(&bytes, 4096, None);
    call_over(alloc, asked, &mut reader, writer, output, faults)
}

/// A server that closes the connection at once has not answered, and nothing is printed.
pub fn is_cut_at_once<W: Sink, O: Sink, F: Sink>(
    alloc: Global,
    asked: &Asked,
    writer: &mut W,
    output: &mut O,
    faults: &mut F,
) -> u8
    requires { CanBeMade asked.now }
    ensures none { result ≢ 0 }
    ensures said { result ≡ 1 → IsSaid (record { taken = F.taken; lost = F.failures }) faults.old faults.new
        (codes "refused Truncated at 0\n") }
    ensures unprinted { result ≡ 1 → output.new ≡ output.old }
{
    exchanges_have_one_outcome();
    no_record_begins_another();
    too_long_ends_the_stream();
    let mut reader = MemorySource::new(&[], 4096, None);
    call_over(alloc, asked, &mut reader, writer, output, faults)
}

//! Asks a server by one call, and prints its result.
ghost use Rattle.std.specs.Prelude.{◌≡◌, ◌<◌, ◌≤◌, length};
ghost use Rattle.oncrpc_call.specs.Asked.{CanBeMade, wanted_of};
ghost use Rattle.oncrpc_call.specs.CallEnds.{AnswerEnds, CallEnds, DatagramCallEnds, Prints};
ghost use Rattle.oncrpc_service.specs.DatagramEnds.{desk_of};
ghost use Rattle.oncrpc_tasks.specs.Checked.{IsSaid};

use crate::asked::Asked;
use crate::datagrams::ask_by_datagrams;
use crate::failing::say_failure;
use crate::page::{Page, page_of};
use oncrpc_answers::Failure;
use rpc_engine::{ClientFault, DatagramPort, exchange};
use rpc_message::Reply;
use std::alloc::Global;
use xdr_io::{Sink, Source, write_whole};

/// Sends the call to the server behind a connection, and reads its reply, of at most 16777216 bytes (RFC 5531 sections
/// 9 and 11). Where it is a success, and the results are a value of their kind to the last byte, the value is printed,
/// status 0. Any other reply, bytes that are none, results that are no value and bytes after it are status 1, and then
/// the line goes to `faults`, where that can be done. A device that fails or too many reads are status 3, an allocation
/// failure is status 4; then `faults` gets the line. The output gets the value alone: nothing where the status is not
/// 0, but what came before a write that failed.
///
/// The schema has the kind of the result, credential and verifier have at most 400 bytes each, and the call at most
/// 2147483647.
pub fn call_over<R: Source, W: Sink, O: Sink, F: Sink>(
    alloc: Global,
    asked: &Asked,
    reader: &mut R,
    writer: &mut W,
    output: &mut O,
    faults: &mut F,
) -> u8
    requires { CanBeMade asked.now }
    ensures { CallEnds asked.now (record {
      left = R.left;
      reads = R.reads;
      unread = R.failures;
      sent = W.taken;
      unsent = W.failures;
      taken = O.taken;
      lost = O.failures;
    }) (record { taken = F.taken; lost = F.failures })
        reader.old reader.new writer.old writer.new output.old output.new faults.old faults.new result }
{
    let answer = exchange(alloc, reader, writer, &asked.call);
    end_with(alloc, asked, answer, output, faults)
}

/// Makes the call by datagrams, and prints what `call_over` prints of the reply. It is sent once more where a receive
/// fails, as it does where none came in time, so many times in all. Datagrams that begin with another xid are passed
/// over. A port or an output that fails is status 3.
///
/// The schema has the kind of the result, credential and verifier have at most 400 bytes each. A call of more than
/// 65507 bytes, the most of a datagram over IPv4, is for the port to refuse.
pub fn call_datagram<P: DatagramPort, O: Sink, F: Sink>(
    alloc: Global,
    asked: &Asked,
    times: u32,
    port: &mut P,
    output: &mut O,
    faults: &mut F,
) -> u8
    requires ready { CanBeMade asked.now }
    requires some { 1 ≤ times }
    ensures { DatagramCallEnds asked.now times
        (desk_of P.left P.sent P.receive_failures P.send_failures O.taken O.failures)
        (record { taken = F.taken; lost = F.failures })
        port.old port.new output.old output.new faults.old faults.new result }
{
    let answer = ask_by_datagrams(alloc, port, &asked.call, times);
    end_with(alloc, asked, answer, output, faults)
}

// Prints what the answer says, or why that cannot be done, and gives the status.
fn end_with<O: Sink, F: Sink>(
    alloc: Global,
    asked: &Asked,
    answer: Result<Reply, ClientFault>,
    output: &mut O,
    faults: &mut F,
) -> u8
    requires { asked.now.result.place < length asked.now.schema.kinds }
    ensures { AnswerEnds (wanted_of asked.now) answer O.taken O.failures
        (record { taken = F.taken; lost = F.failures }) output.old output.new faults.old faults.new result }
{
    let page = match page_of(alloc, asked, answer) {
        Ok(page) => page,
        Err(failure) => return say_failure(failure, faults),
    };
    match page {
        Page::Value(text) => print_value(&text, output, faults),
        Page::Refusal(line) => say_refusal(&line, faults),
    }
}

// Prints a value, and gives the status.
fn print_value<O: Sink, F: Sink>(text: &[u8], output: &mut O, faults: &mut F) -> u8
    ensures { Prints text.now O.taken O.failures (record { taken = F.taken; lost = F.failures })
        output.old output.new faults.old faults.new result }
{
    match write_whole(output, text) {
        Ok(()) => 0,
        Err(_cut) => say_failure(Failure::Write, faults),
    }
}

// Says why there is no value, where that can be done, and gives the status.
fn say_refusal<F: Sink>(line: &[u8], faults: &mut F) -> u8
    ensures status { result ≡ 1 }
    ensures said { IsSaid (record { taken = F.taken; lost = F.failures }) faults.old faults.new line.now }
{
    let _ = write_whole(faults, line);
    1
}

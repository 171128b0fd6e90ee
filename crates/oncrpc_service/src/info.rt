//! Asks a registry for its rows, and prints them.
ghost use Rattle.std.specs.Prelude.{◌≡◌, ◌≢◌, ◌⊎◌, ◌++◌, ℕ, ◌≤◌, List, [], Some, IfOk, IfErr, OnOk, string_bytes};
ghost use Rattle.std.specs.Io.KnownBytes.{Appends};
ghost use Rattle.xdr_types.specs.View.{tree};
ghost use Rattle.xdr_io.specs.Reported.{Counts};
ghost use Rattle.rpc_message.specs.View.{auth_view, call_view, reply_view, status_view};
ghost use Rattle.registry_dumps.specs.Dumps.{dump_limits};
ghost use Rattle.oncrpc_answers.specs.Lines.{line};
ghost use Rattle.oncrpc_service.specs.DatagramEnds.{desk_of};
ghost use Rattle.oncrpc_service.specs.InfoEnds.{AnswerEnds, DatagramInfoEnds, InfoEnds, ReportsInPart};
ghost use Rattle.oncrpc_service.specs.Infos.{Reports, ReportsReply, ReportsRows, ReportsStatus, dump_call, failure_of};
ghost use Rattle.oncrpc_service.specs.Infos.{list_place};
ghost use Rattle.oncrpc_service.specs.Rows.{header};
ghost use Rattle.oncrpc_service.specs.Private.Nodes.{list_lines};

use crate::refusal::{denied_line, fault_line, status_line};
use crate::rows::push_rows;
use oncrpc_answers::{Answer, Failure, line_of, report};
use registry_rows::PROGRAM;
use rpc_directory::directory_schema;
use rpc_engine::{ClientFault, DatagramPort, exchange, exchange_datagram};
use rpc_message::{Call, OpaqueAuth, Reply, Status};
use std::alloc::Global;
use xdr_codec::{DecodeFault, Reason, decode};
use xdr_io::{Sink, Source, write_whole};
use xdr_types::{KindId, Limits, NoMemory, Value};

/// The procedure that gives all rows (RFC 1833 sections 2.2.1 and 3.2).
const DUMP: u32 = 4;

/// Asks the registry behind a connection for all its rows in a version of its program, 2, 3 or 4, and prints a header
/// and a line for each row, status 0. A reply without rows, and bytes that are no reply or no rows, are one line
/// `refused ..`, status 1. A device that fails or too many reads are status 3, an allocation failure is status 4; then
/// `faults` gets the line, and of the rows nothing or a beginning is printed.
pub fn info_over<R: Source, W: Sink, O: Sink, F: Sink>(
    alloc: Global,
    reader: &mut R,
    writer: &mut W,
    output: &mut O,
    faults: &mut F,
    vers: u32,
) -> u8
    ensures { InfoEnds vers (record {
      left = R.left;
      reads = R.reads;
      unread = R.failures;
      sent = W.taken;
      unsent = W.failures;
      taken = O.taken;
      lost = O.failures;
    })
        reader.old reader.new writer.old writer.new output.old output.new faults.old faults.new result }
{
    let answer = exchange(alloc, reader, writer, &dump_call(alloc, vers));
    end_with(alloc, output, faults, vers, answer)
}

/// Asks the registry behind a port for all its rows by one datagram, and prints what `info_over` prints of the answer.
/// That is a header and a line for each row, status 0, or one line `refused ..`, status 1. A port or an output that
/// fails is status 3, and an allocation failure is status 4. Then `faults` gets the line, and of the rows nothing or a
/// beginning is printed.
pub fn info_datagram<P: DatagramPort, O: Sink, F: Sink>(
    alloc: Global,
    port: &mut P,
    output: &mut O,
    faults: &mut F,
    vers: u32,
) -> u8
    ensures { DatagramInfoEnds vers
        (desk_of P.left P.sent P.receive_failures P.send_failures O.taken O.failures)
        port.old port.new output.old output.new faults.old faults.new result }
{
    let answer = exchange_datagram(alloc, port, &dump_call(alloc, vers));
    end_with(alloc, output, faults, vers, answer)
}

// Prints what the answer says, or why that cannot be done, and gives the status.
fn end_with<O: Sink, F: Sink>(
    alloc: Global,
    output: &mut O,
    faults: &mut F,
    vers: u32,
    answer: Result<Reply, ClientFault>,
) -> u8
    ensures { AnswerEnds vers answer O.taken O.failures output.old output.new faults.old faults.new result }
{
    match print_answer(alloc, output, vers, answer) {
        Ok(status) => status,
        Err(failure) => report(failure, faults),
    }
}

// What is to be printed, and the status.
#[derive(Drop)]
struct Page {
    text: Vec<u8>,
    status: u8,
}

// Prints what the answer says, and gives the status.
fn print_answer<O: Sink>(
    alloc: Global,
    output: &mut O,
    vers: u32,
    answer: Result<Reply, ClientFault>,
) -> Result<u8, Failure>
    ensures reported { IfOk result (λ status. (text : List ℕ) × Reports vers answer status text
        × Appends (O.taken output.old) (O.taken output.new) text) }
    ensures known { IfOk result (λ status. status ≤ 1) }
    ensures none_failed { OnOk result (Counts 0 (O.failures output.old) (O.failures output.new)) }
    ensures failed { IfErr result (λ f. ((failure_of answer ≡ Some f) × (output.new ≡ output.old))
        ⊎ (((f ≡ Failure.NoMemory) × (output.new ≡ output.old)) ⊎ ((f ≡ Failure.Write)
        × ReportsInPart vers answer (O.taken output.old) (O.taken output.new)
        × Counts 1 (O.failures output.old) (O.failures output.new)))) }
{
    let page = page_of(alloc, vers, answer)?;
    write_whole(output, &page.text)?;
    Ok(page.status)
}

// The call for all rows: xid 1, and nobody's credential.
fn dump_call(alloc: Global, vers: u32) -> Call
    ensures { call_view result ≡ dump_call vers }
{
    Call {
        xid: 1,
        prog: PROGRAM,
        vers,
        proc: DUMP,
        cred: no_auth(alloc),
        verf: no_auth(alloc),
        args: Vec::new(alloc),
    }
}

// AUTH_NONE with an empty body (RFC 5531 section 10.1).
fn no_auth(alloc: Global) -> OpaqueAuth
    ensures { auth_view result ≡ record { flavor = 0; body = [] } }
{
    OpaqueAuth {
        flavor: 0,
        body: Vec::new(alloc),
    }
}

// What is printed of the answer.
fn page_of(alloc: Global, vers: u32, answer: Result<Reply, ClientFault>) -> Result<Page, Failure>
    ensures reported { IfOk result (λ p. Reports vers answer p.status p.text.items) }
    ensures known { IfOk result (λ p. p.status ≤ 1) }
    ensures failed { IfErr result (λ f. (failure_of answer ≡ Some f) ⊎ (f ≡ Failure.NoMemory)) }
{
    match answer {
        Ok(reply) => reply_page(alloc, vers, &reply),
        Err(fault) => Ok(refused(fault_line(alloc, fault)?)),
    }
}

// What is printed of a reply.
fn reply_page(alloc: Global, vers: u32, reply: &Reply) -> Result<Page, Failure>
    ensures reported { IfOk result (λ p. ReportsReply vers (reply_view reply.now) p.status p.text.items) }
    ensures known { IfOk result (λ p. p.status ≤ 1) }
    ensures memory { IfErr result (λ f. f ≡ Failure.NoMemory) }
{
    match reply {
        Reply::Accepted {
            xid: _,
            verf: _,
            status,
        } => status_page(alloc, vers, status),
        Reply::Denied { xid: _, why } => Ok(refused(denied_line(alloc, *why)?)),
    }
}

// What is printed of an accepted call.
fn status_page(alloc: Global, vers: u32, status: &Status) -> Result<Page, Failure>
    ensures reported { IfOk result (λ p. ReportsStatus vers (status_view status.now) p.status p.text.items) }
    ensures known { IfOk result (λ p. p.status ≤ 1) }
    ensures memory { IfErr result (λ f. f ≡ Failure.NoMemory) }
{
    match status {
        Status::Success(results) => rows_page(alloc, vers, results),
        _ => Ok(refused(status_line(alloc, status)?)),
    }
}

fn refused(line: String) -> Page
    ensures text { result.text.items ≡ string_bytes line }
    ensures status { result.status ≡ 1 }
{
    Page {
        text: line.into_bytes(),
        status: 1,
    }
}

// What is printed of results. What follows the rows is left out.
fn rows_page(alloc: Global, vers: u32, results: &[u8]) -> Result<Page, Failure>
    ensures reported { IfOk result (λ p. ReportsRows vers results.now p.status p.text.items) }
    ensures known { IfOk result (λ p. p.status ≤ 1) }
    ensures memory { IfErr result (λ f. f ≡ Failure.NoMemory) }
{
    let schema = directory_schema(alloc)?;
    match decode(alloc, &schema, list_kind(vers), dump_limits(), results) {
        Ok((list, _used)) => Ok(list_page(alloc, vers, &list)?),
        Err(fault) => refusal_page(alloc, fault),
    }
}

// What is printed of results that begin with no rows.
fn refusal_page(alloc: Global, fault: DecodeFault) -> Result<Page, Failure>
    ensures reported { IfOk result (λ p. (fault.why ≢ Reason.NoMemory) × (p.status ≡ 1)
        × (p.text.items ≡ line (Answer.Refused fault))) }
    ensures memory { IfErr result (λ f. f ≡ Failure.NoMemory) }
{
    if fault.why == Reason::NoMemory {
        return Err(Failure::NoMemory);
    }
    Ok(refused(line_of(alloc, Answer::Refused(fault))?))
}

// A header, and a line for each row.
fn list_page(alloc: Global, vers: u32, list: &Value) -> Result<Page, NoMemory>
    ensures { IfOk result (λ p. (p.status ≡ 0)
        × (p.text.items ≡ header vers ++ list_lines (tree list.now).0 (tree list.now).1)) }
{
    let mut text = Vec::from_slice(alloc, header(vers))?;
    push_rows(&mut text, list)?;
    Ok(Page { text, status: 0 })
}

// Within depth 4096 and 16777216 bytes.
fn dump_limits() -> Limits
    ensures { result ≡ dump_limits }
{
    Limits::new(4096, 16777216).unwrap()
}

// The kind of the rows: `pmaplist` in version 2, else `rpcblist` (RFC 1833 sections 3.1 and 2.1).
fn list_kind(vers: u32) -> KindId
    ensures { result.place ≡ list_place vers }
{
    KindId {
        place: if vers == 2 { 18 } else { 14 },
    }
}

// The line that stands over the rows.
fn header(vers: u32) -> &'static [u8]
    ensures { result.now ≡ header vers }
{
    if vers == 2 {
        b"program vers prot port\n"
    } else {
        b"program vers netid address owner\n"
    }
}

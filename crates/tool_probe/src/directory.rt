//! Calls of a registry, one after another, each a case of its own with ` ; ` between two: it has no rows before it is
//! started. What refuses a growth stands in each call.
ghost use Rattle.std.specs.Prelude.{◌≤◌, length};

use crate::registry::rows;
use rpc_directory::{Directory, NoMemory, Row, Uaddr, read_uaddr, write_uaddr};
use std::alloc::Global;
use std::env::Env;
use std::hash::BuildHasherDefault;
use test_lines::case::{Case, allow};
use test_lines::reported::Report;
use test_lines::served::Registry;
use xdr_types::Value;

// What a call answers.
#[derive(Drop)]
enum Answer<'a> {
    Done(Result<bool, NoMemory>),
    Rows(Result<Value, NoMemory>),
    Ports(Result<Value, NoMemory>),
    Number(u32),
    Text(&'a [u8]),
    At(Option<&'a Row>),
    Named(Option<Uaddr>),
    Written(Result<Vec<u8>, NoMemory>),
}

// Starts the registry at a port.
fn start<'a>(alloc: Global, directory: &'a mut Registry, port: u16) -> Answer<'a> {
    match Directory::start(alloc, BuildHasherDefault::new(), port) {
        Ok(started) => {
            *directory = started;
            Answer::Number(directory.rows())
        }
        Err(fault) => Answer::Done(Err(fault)),
    }
}

// The universal address of a call, as text.
fn written(alloc: Global, call: &Case<'_>) -> Answer<'static> {
    // (the number is read without memory, so that what is refused is what the call takes)
    let host = call.whole("host").to_be_bytes();
    let port = call.whole("port").min(65535) as u16;
    Answer::Written(write_uaddr(alloc, Uaddr { host, port }))
}

// Makes a call that changes rows.
fn changed(alloc: Global, directory: &mut Registry, call: &Case<'_>) -> Result<bool, NoMemory> {
    let (prog, vers) = (call.whole("prog"), call.whole("vers"));
    let (netid, address) = (
        call.word("netid").as_bytes(),
        call.word("address").as_bytes(),
    );
    let owner = owner_of(call);
    match call.call() {
        "set" => directory.set(alloc, prog, vers, netid, address, owner),
        "set_port" => {
            directory.set_port(
                alloc,
                prog,
                vers,
                call.whole("prot"),
                call.whole("port"),
                owner,
            )
        }
        "unset" => Ok(directory.unset(prog, vers, netid, owner)),
        _ => Ok(directory.unset_port(prog, vers, owner)),
    }
}

// Makes a call.
fn made<'a>(alloc: Global, directory: &'a mut Registry, call: &Case<'_>) -> Answer<'a> {
    match call.call() {
        "start" => start(alloc, directory, call.whole("port").min(65535) as u16),
        "set" | "set_port" | "unset" | "unset_port" => Answer::Done(changed(
            alloc, directory, call,
        )),
        "dump" => Answer::Rows(directory.dump(alloc)),
        "dump_ports" => Answer::Ports(directory.dump_ports(alloc)),
        "write_uaddr" => written(alloc, call),
        _ => found(directory, call),
    }
}

// An owner has at most ten bytes.
fn owner_of<'a>(call: &Case<'a>) -> &'a [u8]
    ensures { length result.now ≤ 10 }
{
    let owner = call.word("owner").as_bytes();
    &owner[..owner.len().min(10)]
}

// What a call that looks up finds.
fn found<'a>(directory: &'a Registry, call: &Case<'_>) -> Answer<'a> {
    let (prog, vers) = (call.whole("prog"), call.whole("vers"));
    let netid = call.word("netid").as_bytes();
    match call.call() {
        "getaddr" => Answer::Text(directory.getaddr(prog, vers, netid)),
        "getversaddr" => Answer::Text(directory.getversaddr(prog, vers, netid)),
        "get_port" => Answer::Number(directory.get_port(prog, vers, call.whole("prot"))),
        "rows" => Answer::Number(directory.rows()),
        "read_uaddr" => Answer::Named(read_uaddr(call.word("address").as_bytes())),
        _ => Answer::At(directory.row(call.whole("index"))),
    }
}

// A row as the program prints it.
fn row_words(out: &mut Report, row: &Row) {
    out.number("", u64::from(row.prog));
    out.number(" ", u64::from(row.vers));
    for text in [&row.netid, &row.address, &row.owner] {
        out.text(" ");
        out.push(text);
    }
}

// A host and a port.
fn uaddr_words(out: &mut Report, uaddr: Uaddr) {
    let host = uaddr.host;
    let [a, b, c, d] = host;
    out.number("host ", u64::from(a));
    out.number(".", u64::from(b));
    out.number(".", u64::from(c));
    out.number(".", u64::from(d));
    out.number(" port ", u64::from(uaddr.port));
}

// An address.
fn address_words(out: &mut Report, address: &[u8]) {
    out.text("address ");
    out.push(address);
}

// What a call answers, as text.
fn answer_words(out: &mut Report, answer: &Answer<'_>) {
    match answer {
        Answer::Done(Ok(true)) => out.text("true"),
        Answer::Done(Ok(false)) => out.text("false"),
        Answer::Rows(all) => rows(out, "rpcblist", all),
        Answer::Ports(all) => rows(out, "pmaplist", all),
        Answer::Number(number) => out.number("", u64::from(*number)),
        Answer::Text(address) => address_words(out, address),
        Answer::At(Some(row)) => row_words(out, row),
        Answer::At(None) => out.text("no row"),
        Answer::Named(Some(uaddr)) => uaddr_words(out, *uaddr),
        Answer::Named(None) => out.text("no address"),
        Answer::Written(Ok(text)) => address_words(out, text),
        Answer::Done(Err(_)) | Answer::Written(Err(_)) => out.text("out of memory"),
    }
}

// How many growths a call met, and what it answered.
fn call_words(out: &mut Report, rt: &impl Env, directory: &mut Registry, call: &Case<'_>) {
    let before = call.refuse(rt);
    let answer = made(call.alloc, directory, call);
    out.number("", allow(rt, before));
    out.text(" ");
    answer_words(out, &answer);
}

/// Reports the calls.
pub fn calls(out: &mut Report, rt: &impl Env, calls: &str) {
    let mut directory = Directory::new(out.alloc, BuildHasherDefault::new());
    out.answer(0);
    for (number, words) in calls.split(" ; ").enumerate() {
        out.between(number, "; ");
        let call = Case::read(out.alloc, words);
        call_words(out, rt, &mut directory, &call);
    }
    out.end();
}

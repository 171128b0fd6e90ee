//! Connections of the registry at port 111, served at once by a `SessionTable`: it is served `before`, then come the
//! `events` of the case, and then it is served `after` with all its memory. A growth that is refused is counted over
//! the calls of all events. An event is one call: `open`, or `open:CALLER`; `take:CONNECTION:BYTES`, with the bytes of
//! the reply behind what waited; `write:CONNECTION:COUNT`, with the bytes that a write took; `end:CONNECTION`;
//! `close:CONNECTION`; `came:BYTES`, a datagram; `kept:CONNECTION`, how many bytes a session keeps.
ghost use Rattle.std.specs.Prelude.{◌≤◌, length};
ghost use Rattle.std.specs.Option.{ForSome};
ghost use Rattle.registry_sessions.specs.Progress.{session_at};
ghost use Rattle.registry_sessions.specs.Represents.{output_of};

use registry_answer::{Appended, Transport};
use registry_callers::{Caller, Peer};
use registry_sessions::{OpenFault, Origin, Session, SessionFault, SessionTable, Taken};
use rpc_record::RecordFault;
use std::env::Env;
use test_lines::case::{Case, allow, digits};
use test_lines::growths::held;
use test_lines::reported::Report;
use test_lines::served::{Registry, after_word, prepared};

// Who calls: someone of this host, of whose address nothing is known.
const CALLER: Caller = Caller {
    peer: Peer::Local,
    host: None,
    trusts_remote: false,
};

// Who opens a connection, by a name: `remote`, who came to 10.0.0.7; `trusted`, a remote caller whose changes are
// taken; `user` and `superuser`, uids 7 and 0 of this host; or else someone of this host.
fn caller_named(name: &str) -> Caller {
    match name {
        "remote" => Caller {
            peer: Peer::Remote,
            host: Some([10, 0, 0, 7]),
            trusts_remote: false,
        },
        "trusted" => Caller {
            peer: Peer::Remote,
            host: None,
            trusts_remote: true,
        },
        "user" => Caller {
            peer: Peer::LocalUser(7),
            host: None,
            trusts_remote: false,
        },
        "superuser" => Caller {
            peer: Peer::LocalUser(0),
            host: None,
            trusts_remote: false,
        },
        _ => CALLER,
    }
}

// An event: its name, the number of its connection, and what else stands there.
#[derive(Clone, Copy)]
struct Event<'a> {
    name: &'a str,
    connection: u64,
    rest: &'a str,
}

// What the events go over, and how many growths and bytes of memory their calls took.
#[derive(Drop)]
struct Serving {
    table: SessionTable,
    directory: Registry,
    buffer: Vec<u8>,
    met: u64,
    held: i128,
}

// The event that a text names.
fn event_of(text: &str) -> Event<'_> {
    let (name, behind) = text.split_once(':').unwrap_or((text, ""));
    let (number, rest) = behind.split_once(':').unwrap_or((behind, ""));
    Event {
        name,
        connection: number.parse::<u64>().unwrap_or(u64::MAX),
        rest,
    }
}

// What stands before a call: how many growths were met, and how many bytes are held.
fn begun(rt: &impl Env, case: &Case<'_>, serving: &Serving) -> (u64, u64) {
    let held = held(rt).unwrap_or(0);
    (case.refuse_behind(rt, serving.met), held)
}

// Counts what a call took since then.
fn counted(rt: &impl Env, serving: &mut Serving, begun: (u64, u64)) {
    let met = allow(rt, begun.0);
    serving.met = serving.met.saturating_add(met);
    let taken = i128::from(held(rt).unwrap_or(0)).saturating_sub(i128::from(begun.1));
    serving.held = serving.held.saturating_add(taken);
}

// How many bytes of a connection's output wait; none where it is not open.
fn waiting(table: &SessionTable, connection: u64) -> usize {
    match table.session(connection) {
        Some(session) => session.output().len(),
        None => 0,
    }
}

// The bytes of a connection's output behind so many.
fn output_behind(table: &SessionTable, connection: u64, count: usize) -> &[u8] {
    match table.session(connection) {
        Some(session) => session.output().get(count..).unwrap_or(&[]),
        None => &[],
    }
}

fn record_words(out: &mut Report, fault: RecordFault) {
    match fault {
        RecordFault::TooLong { at } => out.number("refused TooLong at ", at),
        RecordFault::Truncated { at } => out.number("refused Truncated at ", at),
        other => out.name("refused ", &other),
    }
}

fn fault_words(out: &mut Report, fault: SessionFault) {
    match fault {
        SessionFault::Record(fault) => record_words(out, fault),
        SessionFault::NoMemory => out.text("out of memory"),
    }
}

// What a session took, and the reply that stands behind what waited.
fn taken_words(out: &mut Report, taken: Result<Taken, SessionFault>, reply: &[u8]) {
    match taken {
        Ok(Taken::More) => out.text("more"),
        Ok(Taken::Full) => out.text("full"),
        Ok(Taken::Answered { used }) => out.number("answered ", used as u64),
        Err(fault) => fault_words(out, fault),
    }
    if !reply.is_empty() {
        out.digits(" ", reply);
    }
}

fn opened(out: &mut Report, rt: &impl Env, case: &Case<'_>, serving: &mut Serving, name: &str) {
    let begun = begun(rt, case, serving);
    let answer = serving.table.open(Origin {
        caller: caller_named(name),
        transport: Transport::Tcp,
    });
    counted(rt, serving, begun);
    match answer {
        Ok(number) => out.number("open ", number),
        Err(OpenFault::Full) => out.text("all are open"),
        Err(OpenFault::NoMemory) => out.text("out of memory"),
    }
}

fn taken(
    out: &mut Report,
    rt: &impl Env,
    case: &Case<'_>,
    serving: &mut Serving,
    event: Event<'_>,
) {
    let piece = digits(case.alloc, event.rest);
    let before = waiting(&serving.table, event.connection);
    let begun = begun(rt, case, serving);
    let answer = serving
        .table
        .take_in(event.connection, &piece, &mut serving.directory);
    counted(rt, serving, begun);
    match answer {
        Some(answer) => {
            let reply = output_behind(&serving.table, event.connection, before);
            taken_words(out, answer, reply);
        }
        None => out.text("not open"),
    }
}

// How many bytes a write of a connection takes, at most so many.
fn writable(table: &SessionTable, connection: u64, most: usize) -> usize
    ensures { ForSome (session_at table.now connection) (λ s. result ≤ length (output_of s)) }
{
    match table.session(connection) {
        Some(session) => session.output().len().min(most),
        None => 0,
    }
}

// The bytes that a write takes of a connection's output.
fn written(
    out: &mut Report,
    rt: &impl Env,
    case: &Case<'_>,
    serving: &mut Serving,
    event: Event<'_>,
) {
    let most = event.rest.parse::<usize>().unwrap_or(0);
    let count = writable(&serving.table, event.connection, most);
    let output = output_behind(&serving.table, event.connection, 0);
    out.digits("wrote ", output.get(..count).unwrap_or(&[]));
    let begun = begun(rt, case, serving);
    serving.table.took(event.connection, count);
    counted(rt, serving, begun);
}

fn ended(
    out: &mut Report,
    rt: &impl Env,
    case: &Case<'_>,
    serving: &mut Serving,
    event: Event<'_>,
) {
    let begun = begun(rt, case, serving);
    let answer = serving.table.end(event.connection);
    counted(rt, serving, begun);
    match answer {
        Some(Ok(())) => out.text("ended"),
        Some(Err(fault)) => fault_words(out, fault),
        None => out.text("not open"),
    }
}

// How many bytes of a session's output were not written.
fn left_in(session: &Option<Session>) -> Option<usize> {
    match session {
        Some(session) => Some(session.output().len()),
        None => None,
    }
}

fn closed(
    out: &mut Report,
    rt: &impl Env,
    case: &Case<'_>,
    serving: &mut Serving,
    event: Event<'_>,
) {
    let begun = begun(rt, case, serving);
    let session = serving.table.close(event.connection);
    let left = left_in(&session);
    drop(session);
    counted(rt, serving, begun);
    match left {
        Some(left) => out.number("closed ", left as u64),
        None => out.text("not open"),
    }
}

fn came(out: &mut Report, rt: &impl Env, case: &Case<'_>, serving: &mut Serving, datagram: &str) {
    let datagram = digits(case.alloc, datagram);
    let begun = begun(rt, case, serving);
    let answer = serving.table.receive(
        &datagram,
        CALLER,
        &mut serving.directory,
        &mut serving.buffer,
    );
    counted(rt, serving, begun);
    match answer {
        Appended::Nothing => out.text("no reply"),
        Appended::Reply => out.digits("reply ", &serving.buffer),
        Appended::OutOfMemory { xid } => out.number("out of memory, xid ", u64::from(xid)),
    }
}

// How many bytes a session keeps, of how many connections that are open.
fn kept(out: &mut Report, serving: &Serving, event: Event<'_>) {
    match serving.table.session(event.connection) {
        Some(session) => out.number("kept ", session.retained() as u64),
        None => out.text("not open"),
    }
    out.number(" of ", serving.table.open_count() as u64);
}

fn happened(out: &mut Report, rt: &impl Env, case: &Case<'_>, serving: &mut Serving, text: &str) {
    let event = event_of(text);
    match event.name {
        "open" => opened(out, rt, case, serving, text.get(5..).unwrap_or("")),
        "take" => taken(out, rt, case, serving, event),
        "write" => written(out, rt, case, serving, event),
        "end" => ended(out, rt, case, serving, event),
        "close" => closed(out, rt, case, serving, event),
        "came" => came(out, rt, case, serving, text.get(5..).unwrap_or("")),
        _ => kept(out, serving, event),
    }
}

/// Reports the case: what each event is answered, the registry afterwards, and how many bytes of memory the calls took
/// that were not given back.
pub fn call(out: &mut Report, rt: &impl Env, case: &Case<'_>) {
    let mut serving = Serving {
        table: SessionTable::start(case.alloc, case.whole("most") as usize, case.whole("bound")),
        directory: prepared(case),
        buffer: Vec::new(case.alloc),
        met: 0,
        held: 0,
    };
    let mut told = Report::new(case.alloc);
    for (number, text) in case.word("events").split(',').enumerate() {
        told.between(number, "; ");
        happened(&mut told, rt, case, &mut serving, text);
    }
    out.answer(serving.met);
    out.push(told.bytes());
    out.end();
    after_word(out, &mut serving.directory, case);
    out.signed(" held=", serving.held);
}

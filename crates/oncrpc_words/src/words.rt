//! Words that ask for something.
ghost use Rattle.std.specs.Prelude.{◌≡◌, ◌⊎◌, IfOk, IfErr, [], string_bytes};
ghost use Rattle.oncrpc_words.specs.Words.{IsFirst};

use super::calls::{call_task, ping_task};
use super::command::{BYTES, CONNECTIONS, DEPTH, IDLE, VERS, command};
use super::fault::{Misfit, WordsFault, fault_of, misfit_fault, no_memory};
use super::request::{InfoTask, KeepTask, Request, ServeTask};
use super::watching::{capture_task, messages_task};
use clap::{ArgMatches, Error};
use oncrpc_answers::{Dialect, JsonTask, RecordsTask, Task, Texts, TypesTask, ValueTask};
use std::alloc::{AllocError, Global};
use std::net::Ipv4Addr;
use xdr_dialect::is_identifier;

/// Reads the words that stand after the program's own name. No words at all check an opaque in hexadecimal.
pub fn read_words(alloc: Global, words: Vec<String>) -> Result<Request, WordsFault>
    // No words ask for a check of an opaque in hexadecimal.
    ensures first { words.items ≡ [] → IfOk result IsFirst }
    // A fault has the status 0, of help, 2 or 4,
    ensures status { IfErr result (λ fault. (fault.status ≡ 0) ⊎ (fault.status ≡ 2) ⊎ (fault.status ≡ 4)) }
    // at 4 there is no text,
    ensures memory { IfErr result (λ fault. fault.status ≡ 4 → string_bytes fault.text ≡ []) }
    // and no words are refused for an allocation failure alone.
    ensures only_memory { words.items ≡ [] → IfErr result (λ fault. fault.status ≡ 4) }
{
    if words.is_empty() {
        return match first_request(alloc) {
            Ok(request) => Ok(request),
            Err(_) => Err(no_memory(alloc)),
        };
    }
    match request_of(alloc, words.as_slice()) {
        Ok(Ok(request)) => Ok(request),
        Ok(Err(misfit)) => Err(misfit_fault(alloc, misfit)),
        Err(error) => Err(fault_of(alloc, &error)),
    }
}

// What the program does when it is called with no word at all.
fn first_request(alloc: Global) -> Result<Request, AllocError>
    ensures { IfOk result IsFirst }
{
    Ok(Request::Offline(Task::Check(ValueTask {
        name: String::from_str(alloc, "opaque")?,
        types: Texts {
            files: Vec::new(alloc),
            dialect: Dialect::Rfc,
        },
        hex: true,
        depth: DEPTH,
        bytes: BYTES,
    })))
}

// The inner error is of a word that clap takes.
fn request_of(alloc: Global, words: &[String]) -> Result<Result<Request, Misfit>, Error> {
    let matches = command(alloc)?.try_get_matches_from(words)?;
    match matches.subcommand() {
        Some(("serve", options)) => Ok(served(alloc, options)?.ok_or(Misfit::Address)),
        Some((_, options)) if !defines_names(options) => Ok(Err(Misfit::Name)),
        Some(("call", options)) => match call_task(alloc, options)? {
            Some(task) => Ok(Ok(Request::Call(task))),
            None => Ok(Err(Misfit::Groups)),
        },
        Some((name, options)) => Ok(Ok(asked(alloc, name, options)?)),
        None => Ok(Ok(first_request(alloc)?)),
    }
}

// What is to be defined are names that a line `#ifdef` can ask for.
fn defines_names(options: &ArgMatches<'_>) -> bool {
    for name in options.get_strs("define").unwrap_or(&[]) {
        if !is_identifier(name.as_bytes()) {
            return false;
        }
    }
    true
}

fn asked(alloc: Global, name: &str, options: &ArgMatches<'_>) -> Result<Request, AllocError> {
    match name {
        "check" => Ok(Request::Offline(Task::Check(value_task(alloc, options)?))),
        "show" => Ok(Request::Offline(show_task(alloc, options)?)),
        "encode" => Ok(Request::Encode(value_task(alloc, options)?)),
        "types" => Ok(Request::Types(types_task(alloc, options)?)),
        "messages" => Ok(Request::Messages(messages_task(alloc, options)?)),
        "capture" => Ok(Request::Capture(capture_task(alloc, options)?)),
        "info" => Ok(Request::Info(info_task(alloc, options)?)),
        "ping" => Ok(Request::Ping(ping_task(alloc, options)?)),
        _ => Ok(Request::Offline(Task::Records(records_task(options)))),
    }
}

// With a count connections are served one after another, and without one all at once.
fn served(alloc: Global, options: &ArgMatches<'_>) -> Result<Option<Request>, AllocError> {
    if let Some(count) = options.get_one::<u32>("count") {
        return Ok(Some(Request::Serve(serve_task(options, count))));
    }
    match keep_task(alloc, options)? {
        Some(task) => Ok(Some(Request::Keep(task))),
        None => Ok(None),
    }
}

/// The number that an option has.
pub fn number(options: &ArgMatches<'_>, id: &str, otherwise: u32) -> u32 {
    options.get_one::<u32>(id).unwrap_or(otherwise)
}

fn port(options: &ArgMatches<'_>) -> u16 {
    options.get_one::<u16>("port").unwrap_or(0)
}

// All values that an option has, in their order.
fn all(alloc: Global, options: &ArgMatches<'_>, id: &str) -> Result<Vec<String>, AllocError> {
    let mut values = Vec::new(alloc);
    for value in options.get_strs(id).unwrap_or(&[]) {
        values.push(String::from_str(alloc, *value)?)?;
    }
    Ok(values)
}

// Rpcgen's dialect is the only one that has a name.
fn dialect(alloc: Global, options: &ArgMatches<'_>) -> Result<Dialect, AllocError> {
    match options.get_str("dialect") {
        Some(_) => Ok(Dialect::Rpcgen(all(alloc, options, "define")?)),
        None => Ok(Dialect::Rfc),
    }
}

/// The texts of declarations that options name.
pub fn texts(alloc: Global, options: &ArgMatches<'_>) -> Result<Texts, AllocError> {
    Ok(Texts {
        files: all(alloc, options, "types")?,
        dialect: dialect(alloc, options)?,
    })
}

fn value_task(alloc: Global, options: &ArgMatches<'_>) -> Result<ValueTask, AllocError> {
    let types = texts(alloc, options)?;
    Ok(ValueTask {
        name: String::from_str(alloc, options.get_str("name").unwrap_or("opaque"))?,
        types,
        hex: options.get_flag("hex"),
        depth: number(options, "depth", DEPTH),
        bytes: number(options, "bytes", BYTES),
    })
}

fn show_task(alloc: Global, options: &ArgMatches<'_>) -> Result<Task, AllocError> {
    let what = value_task(alloc, options)?;
    if options.get_flag("json") {
        let indented = options.get_flag("indent");
        Ok(Task::Json(JsonTask { what, indented }))
    } else {
        Ok(Task::Show(what))
    }
}

fn types_task(alloc: Global, options: &ArgMatches<'_>) -> Result<TypesTask, AllocError> {
    Ok(TypesTask {
        types: texts(alloc, options)?,
        json: options.get_flag("json"),
    })
}

fn records_task(options: &ArgMatches<'_>) -> RecordsTask {
    RecordsTask {
        limit: number(options, "limit", BYTES),
        hex: options.get_flag("hex"),
    }
}

fn info_task(alloc: Global, options: &ArgMatches<'_>) -> Result<InfoTask, AllocError> {
    Ok(InfoTask {
        host: String::from_str(alloc, options.get_str("host").unwrap_or(""))?,
        port: port(options),
        vers: number(options, "vers", VERS),
        udp: options.get_flag("udp"),
        timeout: options.get_one::<u32>("timeout"),
    })
}

fn serve_task(options: &ArgMatches<'_>, count: u32) -> ServeTask {
    ServeTask {
        port: port(options),
        count,
        datagrams: number(options, "datagrams", 0),
    }
}

// The path of a Unix socket, where one is given.
fn path(alloc: Global, options: &ArgMatches<'_>) -> Result<Option<String>, AllocError> {
    match options.get_str("local") {
        Some(path) => Ok(Some(String::from_str(alloc, path)?)),
        None => Ok(None),
    }
}

fn keep_task(alloc: Global, options: &ArgMatches<'_>) -> Result<Option<KeepTask>, AllocError> {
    let Some(address) = options.get_one::<Ipv4Addr>("bind") else {
        return Ok(None);
    };
    Ok(Some(KeepTask {
        address,
        port: port(options),
        connections: number(options, "connections", CONNECTIONS),
        idle: number(options, "idle", IDLE),
        verbose: options.get_flag("verbose"),
        insecure: options.get_flag("insecure"),
        local: path(alloc, options)?,
    }))
}

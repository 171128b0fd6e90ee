//! What the words of `call` and `ping` ask for.
use super::command::{BYTES, DEPTH};
use super::request::{CallTask, Caller, Peer, PingTask, Printing};
use super::words::{number, texts};
use clap::ArgMatches;
use std::alloc::{AllocError, Global};

fn text(alloc: Global, options: &ArgMatches<'_>, id: &str) -> Result<String, AllocError> {
    String::from_str(alloc, options.get_str(id).unwrap_or(""))
}

fn peer(alloc: Global, options: &ArgMatches<'_>) -> Result<Peer, AllocError> {
    Ok(Peer {
        host: text(alloc, options, "host")?,
        port: options.get_one::<u16>("port"),
        udp: options.get_flag("udp"),
        timeout: number(options, "timeout", 10),
    })
}

/// What `ping` is to call.
pub fn ping_task(alloc: Global, options: &ArgMatches<'_>) -> Result<PingTask, AllocError> {
    Ok(PingTask {
        peer: peer(alloc, options)?,
        name: text(alloc, options, "program")?,
        types: texts(alloc, options)?,
        count: number(options, "count", 1),
    })
}

/// What `call` is to call. None where the groups or the machine are none.
pub fn call_task(alloc: Global, options: &ArgMatches<'_>) -> Result<Option<CallTask>, AllocError> {
    let Some(caller) = caller(alloc, options)? else {
        return Ok(None);
    };
    let arguments = match options.get_str("arguments") {
        Some(given) => Some(String::from_str(alloc, given)?),
        None => None,
    };
    Ok(Some(CallTask {
        peer: peer(alloc, options)?,
        name: text(alloc, options, "procedure")?,
        types: texts(alloc, options)?,
        arguments,
        xid: options.get_one::<u32>("xid"),
        caller,
        printing: printing(options),
        depth: number(options, "depth", DEPTH),
        bytes: number(options, "bytes", BYTES),
    }))
}

fn printing(options: &ArgMatches<'_>) -> Printing {
    if options.get_flag("hex") {
        Printing::Hex
    } else if options.get_flag("text") {
        Printing::Lines
    } else if options.get_flag("indent") {
        Printing::IndentedJson
    } else {
        Printing::Json
    }
}

// Who calls. The outer None is groups that are no numbers or too many, or a machine whose name is too long.
fn caller(alloc: Global, options: &ArgMatches<'_>) -> Result<Option<Option<Caller>>, AllocError> {
    let Some(uid) = options.get_one::<u32>("uid") else {
        return Ok(Some(None));
    };
    let mut gids = Vec::new(alloc);
    if let Some(list) = options.get_str("gids") {
        for part in list.split(',') {
            let Ok(gid) = part.parse::<u32>() else {
                return Ok(None);
            };
            gids.push(gid)?;
        }
    }
    let machine = text(alloc, options, "machine")?;
    if gids.len() > 16 || machine.len() > 255 {
        return Ok(None);
    }
    Ok(Some(Some(Caller {
        uid,
        gid: number(options, "gid", 0),
        gids,
        machine,
    })))
}

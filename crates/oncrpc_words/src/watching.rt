//! What the words of `messages` and `capture` ask for.
use super::request::{CaptureTask, MessagesTask};
use super::words::texts;
use clap::ArgMatches;
use std::alloc::{AllocError, Global};

/// The messages that are to be read.
pub fn messages_task(alloc: Global, options: &ArgMatches<'_>) -> Result<MessagesTask, AllocError> {
    let replies = match options.get_str("replies") {
        Some(given) => Some(String::from_str(alloc, given)?),
        None => None,
    };
    Ok(MessagesTask {
        types: texts(alloc, options)?,
        replies,
        json: options.get_flag("json"),
        brief: options.get_flag("brief"),
    })
}

/// The capture that is to be read.
pub fn capture_task(alloc: Global, options: &ArgMatches<'_>) -> Result<CaptureTask, AllocError> {
    Ok(CaptureTask {
        file: String::from_str(alloc, options.get_str("file").unwrap_or(""))?,
        types: texts(alloc, options)?,
        ports: ports(alloc, options)?,
        json: options.get_flag("json"),
        brief: options.get_flag("brief"),
        stats: options.get_flag("stats"),
    })
}

// The ports, each of which clap has taken as one.
fn ports(alloc: Global, options: &ArgMatches<'_>) -> Result<Vec<u16>, AllocError> {
    let mut ports = Vec::new(alloc);
    for value in options.get_strs("port").unwrap_or(&[]) {
        if let Ok(port) = value.parse::<u16>() {
            ports.push(port)?;
        }
    }
    Ok(ports)
}

//! The commands and their options, as `clap` reads them.
use super::tables::{
    OF_CALL, OF_CAPTURE, OF_CHECK, OF_ENCODE, OF_INFO, OF_MESSAGES, OF_PING, OF_RECORDS, OF_SERVE,
    OF_SHOW, OF_TYPES, Taken, Word,
};
use super::{after, help};
use clap::{Arg, ArgAction, Command, value_parser};
use std::alloc::{AllocError, Global};

/// The limit on depth where none is given.
pub const DEPTH: u32 = 4096;

/// The limit on bytes where none is given, of a value or of a record.
pub const BYTES: u32 = 16777216;

/// The version of the registry's program where none is given.
pub const VERS: u32 = 4;

/// How many connections over TCP may be open at a time where nothing is said of it.
pub const CONNECTIONS: u32 = 1024;

/// For how many seconds a connection may be idle where nothing is said of it.
pub const IDLE: u32 = 60;

/// The names of dialects.
const DIALECTS: [&str; 1] = ["rpcgen"];

/// The program with its subcommands.
pub fn command<'a>(alloc: Global) -> Result<Command<'a>, AllocError> {
    let commands = commands(alloc)?;
    whole(alloc).bin_name("oncrpc")?.subcommands(commands)
}

// The program without a subcommand.
fn whole<'a>(alloc: Global) -> Command<'a> {
    Command::new(alloc, "oncrpc")
        .about(help::ABOUT)
        .long_about(help::LONG_ABOUT)
        .after_help(after::AFTER_ALL)
        .version(help::VERSION)
        .long_version(help::LONG_VERSION)
        .no_binary_name(true)
        .subcommand_required(true)
}

// The subcommands, each of which has its own table, in the order in which help lists them.
fn commands<'a>(alloc: Global) -> Result<Vec<Command<'a>>, AllocError> {
    let mut commands = Vec::new(alloc);
    commands.push(check(alloc)?)?;
    commands.push(show(alloc)?)?;
    commands.push(encode(alloc)?)?;
    commands.push(types(alloc)?)?;
    commands.push(records(alloc)?)?;
    commands.push(messages(alloc)?)?;
    commands.push(capture(alloc)?)?;
    commands.push(info(alloc)?)?;
    commands.push(call(alloc)?)?;
    commands.push(ping(alloc)?)?;
    commands.push(serve(alloc)?)?;
    Ok(commands)
}

fn check<'a>(alloc: Global) -> Result<Command<'a>, AllocError> {
    part(alloc, "check", help::CHECK, after::AFTER_CHECK, &OF_CHECK)
}

fn show<'a>(alloc: Global) -> Result<Command<'a>, AllocError> {
    part(alloc, "show", help::SHOW, after::AFTER_SHOW, &OF_SHOW)
}

fn encode<'a>(alloc: Global) -> Result<Command<'a>, AllocError> {
    part(
        alloc,
        "encode",
        help::ENCODE,
        after::AFTER_ENCODE,
        &OF_ENCODE,
    )
}

fn types<'a>(alloc: Global) -> Result<Command<'a>, AllocError> {
    part(alloc, "types", help::LIST, after::AFTER_TYPES, &OF_TYPES)
}

fn records<'a>(alloc: Global) -> Result<Command<'a>, AllocError> {
    part(
        alloc,
        "records",
        help::RECORDS,
        after::AFTER_RECORDS,
        &OF_RECORDS,
    )
}

fn messages<'a>(alloc: Global) -> Result<Command<'a>, AllocError> {
    part(
        alloc,
        "messages",
        help::MESSAGES,
        after::AFTER_MESSAGES,
        &OF_MESSAGES,
    )
}

fn capture<'a>(alloc: Global) -> Result<Command<'a>, AllocError> {
    part(
        alloc,
        "capture",
        help::CAPTURE,
        after::AFTER_CAPTURE,
        &OF_CAPTURE,
    )
}

fn info<'a>(alloc: Global) -> Result<Command<'a>, AllocError> {
    part(alloc, "info", help::INFO, after::AFTER_INFO, &OF_INFO)
}

fn call<'a>(alloc: Global) -> Result<Command<'a>, AllocError> {
    part(alloc, "call", help::CALL, after::AFTER_CALL, &OF_CALL)
}

fn ping<'a>(alloc: Global) -> Result<Command<'a>, AllocError> {
    part(alloc, "ping", help::PING, after::AFTER_PING, &OF_PING)
}

fn serve<'a>(alloc: Global) -> Result<Command<'a>, AllocError> {
    part(alloc, "serve", help::SERVE, after::AFTER_SERVE, &OF_SERVE)
}

// A subcommand by its name, what help says before and behind its options, and its words.
fn part<'a>(
    alloc: Global,
    name: &'static str,
    about: &'static str,
    after: &'static str,
    words: &[Word],
) -> Result<Command<'a>, AllocError> {
    let args = args(alloc, words)?;
    Command::new(alloc, name)
        .about(about)
        .after_help(after)
        .args(args)
}

fn args<'a>(alloc: Global, words: &[Word]) -> Result<Vec<Arg<'a>>, AllocError> {
    let mut args = Vec::new(alloc);
    for word in words {
        args.push(arg(alloc, word)?)?;
    }
    Ok(args)
}

fn arg<'a>(alloc: Global, word: &Word) -> Result<Arg<'a>, AllocError> {
    match word {
        Word::Placed(id, value, help, taken) => Ok(parsed(
            setting(alloc, *id, *value, *help).required(true),
            taken,
        )),
        Word::Required(id, value, help, taken) => {
            Ok(option(alloc, *id, *value, *help, taken).required(true))
        }
        Word::Optional(id, value, help, taken, defaults) => {
            Ok(option(alloc, *id, *value, *help, taken).default_values(*defaults))
        }
        Word::Beside(id, value, help, taken, other) => {
            option(alloc, *id, *value, *help, taken).requires_arg(*other)
        }
        Word::Repeated(id, value, help, taken, others) => {
            option(alloc, *id, *value, *help, taken)
                .action(ArgAction::Append)
                .requires_all(*others)
        }
        Word::FlagBeside(id, help, other) => flag(alloc, *id, *help).requires_arg(*other),
        Word::Without(id, value, help, taken, defaults, other) => {
            option(alloc, *id, *value, *help, taken)
                .default_values(*defaults)
                .conflicts_with(*other)
        }
        Word::Flag(id, help) => Ok(flag(alloc, *id, *help)),
        Word::FlagWithout(id, help, other) => flag(alloc, *id, *help).conflicts_with(*other),
        Word::FlagWithoutEither(id, help, first, second) => flag(alloc, *id, *help)
            .conflicts_with(*first)?
            .conflicts_with(*second),
    }
}

// An option without a value.
fn flag<'a>(alloc: Global, id: &'a str, help: &'a str) -> Arg<'a> {
    Arg::new(alloc, id)
        .long(id)
        .help(help)
        .action(ArgAction::SetTrue)
}

// An option with a value.
fn option<'a>(alloc: Global, id: &'a str, value: &'a str, help: &'a str, taken: &Taken) -> Arg<'a> {
    parsed(setting(alloc, id, value, help).long(id), taken)
}

// A word with a value.
fn setting<'a>(alloc: Global, id: &'a str, value: &'a str, help: &'a str) -> Arg<'a> {
    Arg::new(alloc, id)
        .help(help)
        .action(ArgAction::Set)
        .value_name(value)
}

// The same, whose value has to be what is taken.
fn parsed<'a>(arg: Arg<'a>, taken: &Taken) -> Arg<'a> {
    match taken {
        Taken::Text => arg,
        // (JSON may be a number below 0, which is no option)
        Taken::Json => arg.allow_negative_numbers(true),
        Taken::Dialect => arg.value_parser(DIALECTS.as_slice()),
        Taken::Port => arg.value_parser(value_parser!(u16)),
        Taken::Number => arg.value_parser(value_parser!(u32)),
        Taken::Version => arg.value_parser(value_parser!(u32).range(2..=4)),
        Taken::Connections => arg.value_parser(value_parser!(u32).range(1..=1048576)),
        Taken::Seconds => arg.value_parser(value_parser!(u32).range(1..)),
    }
}

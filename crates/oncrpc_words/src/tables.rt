//! The words of each command, one table a command.
use super::help;

/// What the value of a word has to be.
pub enum Taken {
    Text,
    Json,
    Dialect,
    Port,
    Number,
    Version,
    Connections,
    Seconds,
}

/// A word by its id, what help calls its value, what help says of it, and what the value has to be.
pub enum Word {
    /// It stands at its place, without an option before it.
    Placed(&'static str, &'static str, &'static str, Taken),
    /// An option that has to be there.
    Required(&'static str, &'static str, &'static str, Taken),
    /// An option, and its value where it is not there, if it has one then.
    Optional(&'static str, &'static str, &'static str, Taken, &'static [&'static str]),
    /// An option beside which another has to be there.
    Beside(&'static str, &'static str, &'static str, Taken, &'static str),
    /// An option beside which another may not be there, and its value where it is not there.
    Without(&'static str, &'static str, &'static str, Taken, &'static [&'static str], &'static str),
    /// An option that may come more than once, beside which others have to be there.
    Repeated(&'static str, &'static str, &'static str, Taken, &'static [&'static str]),
    /// An option without a value.
    Flag(&'static str, &'static str),
    /// The same, beside which another option has to be there.
    FlagBeside(&'static str, &'static str, &'static str),
    /// The same, beside which another may not be there.
    FlagWithout(&'static str, &'static str, &'static str),
    /// The same, beside which neither of two others may be there.
    FlagWithoutEither(&'static str, &'static str, &'static str, &'static str),
}

/// The words of `check`.
pub const OF_CHECK: [Word; 7] = [
    Word::Required("name", "NAME", help::NAME, Taken::Text),
    Word::Repeated("types", "FILE", help::TYPES, Taken::Text, &[]),
    Word::Beside("dialect", "DIALECT", help::DIALECT, Taken::Dialect, "types"),
    Word::Repeated("define", "NAME", help::DEFINE, Taken::Text, &["dialect"]),
    Word::Flag("hex", help::HEX),
    Word::Optional("depth", "N", help::DEPTH, Taken::Number, &["4096"]),
    Word::Optional("bytes", "N", help::BYTES, Taken::Number, &["16777216"]),
];

/// The words of `show`.
pub const OF_SHOW: [Word; 9] = [
    Word::Required("name", "NAME", help::NAME, Taken::Text),
    Word::Repeated("types", "FILE", help::TYPES, Taken::Text, &[]),
    Word::Beside("dialect", "DIALECT", help::DIALECT, Taken::Dialect, "types"),
    Word::Repeated("define", "NAME", help::DEFINE, Taken::Text, &["dialect"]),
    Word::Flag("hex", help::HEX),
    Word::Optional("depth", "N", help::DEPTH, Taken::Number, &["4096"]),
    Word::Optional("bytes", "N", help::BYTES, Taken::Number, &["16777216"]),
    Word::Flag("json", help::JSON),
    Word::FlagBeside("indent", help::INDENT, "json"),
];

/// The words of `encode`.
pub const OF_ENCODE: [Word; 7] = [
    Word::Required("name", "NAME", help::NAME, Taken::Text),
    Word::Repeated("types", "FILE", help::TYPES, Taken::Text, &[]),
    Word::Beside("dialect", "DIALECT", help::DIALECT, Taken::Dialect, "types"),
    Word::Repeated("define", "NAME", help::DEFINE, Taken::Text, &["dialect"]),
    Word::Flag("hex", help::HEX_WRITTEN),
    Word::Optional("depth", "N", help::DEPTH, Taken::Number, &["4096"]),
    Word::Optional("bytes", "N", help::BYTES, Taken::Number, &["16777216"]),
];

/// The words of `types`.
pub const OF_TYPES: [Word; 4] = [
    Word::Repeated("types", "FILE", help::TYPES, Taken::Text, &[]),
    Word::Beside("dialect", "DIALECT", help::DIALECT, Taken::Dialect, "types"),
    Word::Repeated("define", "NAME", help::DEFINE, Taken::Text, &["dialect"]),
    Word::Flag("json", help::JSON_LIST),
];

/// The words of `records`.
pub const OF_RECORDS: [Word; 2] = [
    Word::Optional("limit", "N", help::LIMIT, Taken::Number, &["16777216"]),
    Word::Flag("hex", help::HEX),
];

/// The words of `messages`.
pub const OF_MESSAGES: [Word; 6] = [
    Word::Repeated("types", "FILE", help::TYPES, Taken::Text, &[]),
    Word::Beside("dialect", "DIALECT", help::DIALECT, Taken::Dialect, "types"),
    Word::Repeated("define", "NAME", help::DEFINE, Taken::Text, &["dialect"]),
    Word::Optional("replies", "FILE", help::REPLIES, Taken::Text, &[]),
    Word::Flag("json", help::JSON_MESSAGES),
    Word::Flag("brief", help::BRIEF),
];

/// The words of `capture`.
pub const OF_CAPTURE: [Word; 8] = [
    Word::Placed("file", "FILE", help::CAPTURED, Taken::Text),
    Word::Repeated("types", "FILE", help::TYPES, Taken::Text, &[]),
    Word::Beside("dialect", "DIALECT", help::DIALECT, Taken::Dialect, "types"),
    Word::Repeated("define", "NAME", help::DEFINE, Taken::Text, &["dialect"]),
    Word::Repeated("port", "N", help::PORTS, Taken::Port, &[]),
    Word::Flag("json", help::JSON_MESSAGES),
    Word::Flag("stats", help::STATS),
    Word::FlagWithout("brief", help::BRIEF, "stats"),
];

/// The words of `info`.
pub const OF_INFO: [Word; 5] = [
    Word::Placed("host", "HOST", help::HOST, Taken::Text),
    Word::Placed("port", "PORT", help::REGISTRY_PORT, Taken::Port),
    Word::Optional("vers", "N", help::VERS, Taken::Version, &["4"]),
    Word::Flag("udp", help::UDP),
    Word::Optional("timeout", "SECONDS", help::WAITED, Taken::Seconds, &[]),
];

/// The words of `call`.
pub const OF_CALL: [Word; 19] = [
    Word::Placed("host", "HOST", help::HOST, Taken::Text),
    Word::Placed("procedure", "PROCEDURE", help::PROCEDURE, Taken::Text),
    Word::Repeated("types", "FILE", help::TYPES, Taken::Text, &[]),
    Word::Beside("dialect", "DIALECT", help::DIALECT, Taken::Dialect, "types"),
    Word::Repeated("define", "NAME", help::DEFINE, Taken::Text, &["dialect"]),
    Word::Optional("arguments", "JSON", help::ARGUMENTS, Taken::Json, &[]),
    Word::Optional("port", "N", help::PROGRAM_PORT, Taken::Port, &[]),
    Word::Flag("udp", help::UDP_ASKED),
    Word::Optional("timeout", "SECONDS", help::TIMEOUT, Taken::Seconds, &["10"]),
    Word::Optional("xid", "N", help::XID, Taken::Number, &[]),
    Word::Beside("uid", "N", help::UID, Taken::Number, "gid"),
    Word::Beside("gid", "N", help::GID, Taken::Number, "uid"),
    Word::Beside("gids", "NUMBERS", help::GIDS, Taken::Text, "uid"),
    Word::Beside("machine", "NAME", help::MACHINE, Taken::Text, "uid"),
    Word::Flag("text", help::TEXT),
    Word::FlagWithout("hex", help::HEX_RESULT, "text"),
    Word::FlagWithoutEither("indent", help::INDENT_RESULT, "text", "hex"),
    Word::Optional("depth", "N", help::DEPTH, Taken::Number, &["4096"]),
    Word::Optional("bytes", "N", help::BYTES, Taken::Number, &["16777216"]),
];

/// The words of `ping`.
pub const OF_PING: [Word; 9] = [
    Word::Placed("host", "HOST", help::HOST, Taken::Text),
    Word::Placed("program", "PROGRAM", help::PROGRAM, Taken::Text),
    Word::Repeated("types", "FILE", help::TYPES, Taken::Text, &[]),
    Word::Beside("dialect", "DIALECT", help::DIALECT, Taken::Dialect, "types"),
    Word::Repeated("define", "NAME", help::DEFINE, Taken::Text, &["dialect"]),
    Word::Optional("port", "N", help::PROGRAM_PORT, Taken::Port, &[]),
    Word::Flag("udp", help::UDP_ASKED),
    Word::Optional("timeout", "SECONDS", help::TIMEOUT, Taken::Seconds, &["10"]),
    Word::Optional("count", "C", help::PINGS, Taken::Number, &["1"]),
];

/// The words of `serve`.
pub const OF_SERVE: [Word; 9] = [
    Word::Required("port", "N", help::PORT, Taken::Port),
    Word::Without(
        "bind",
        "ADDR",
        help::BIND,
        Taken::Text,
        &["127.0.0.1"],
        "count",
    ),
    Word::Without(
        "connections",
        "N",
        help::CONNECTIONS,
        Taken::Connections,
        &["1024"],
        "count",
    ),
    Word::Without(
        "idle",
        "SECONDS",
        help::IDLE,
        Taken::Seconds,
        &["60"],
        "count",
    ),
    Word::FlagWithout("verbose", help::VERBOSE, "count"),
    Word::FlagWithout("insecure", help::INSECURE, "count"),
    Word::Without("local", "PATH", help::LOCAL, Taken::Text, &[], "count"),
    Word::Optional("count", "C", help::COUNT, Taken::Number, &[]),
    Word::Beside("datagrams", "D", help::DATAGRAMS, Taken::Number, "count"),
];

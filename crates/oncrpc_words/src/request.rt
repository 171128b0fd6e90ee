//! What the program's words ask for.
use oncrpc_answers::{Task, Texts, TypesTask, ValueTask};
use std::net::Ipv4Addr;

/// What the words ask for.
#[derive(PartialEq, Eq, Drop)]
pub enum Request {
    /// A task that needs no network.
    Offline(Task),
    /// Write the bytes of a value that is read as JSON. Here `hex` says whether the output is hexadecimal.
    Encode(ValueTask),
    /// Print what texts declare.
    Types(TypesTask),
    /// Print the messages of a stream of records.
    Messages(MessagesTask),
    /// Print the messages of a capture.
    Capture(CaptureTask),
    /// Print the rows of a registry.
    Info(InfoTask),
    /// Call a procedure of a server, and print its result.
    Call(CallTask),
    /// Call procedure 0 of a program, and print how long it took.
    Ping(PingTask),
    /// Serve a registry to so many connections and datagrams, one after another.
    Serve(ServeTask),
    /// Serve a registry to many clients at once, without an end.
    Keep(KeepTask),
}

/// Messages to be read from the input.
#[derive(PartialEq, Eq, Drop)]
pub struct MessagesTask {
    /// The texts that declare programs.
    pub types: Texts,
    /// The file with the other direction, where it is given.
    pub replies: Option<String>,
    /// Whether each message is a line of JSON.
    pub json: bool,
    /// Whether nothing is printed of arguments and results that are values.
    pub brief: bool,
}

/// A capture to be read.
#[derive(PartialEq, Eq, Drop)]
pub struct CaptureTask {
    /// The file, or `-` for the input.
    pub file: String,
    /// The texts that declare programs.
    pub types: Texts,
    /// The ports whose traffic is RPC. Without any it is what looks like it.
    pub ports: Vec<u16>,
    /// Whether each message is a line of JSON.
    pub json: bool,
    /// Whether nothing is printed of arguments and results that are values.
    pub brief: bool,
    /// Whether counts are printed in place of messages.
    pub stats: bool,
}

/// A registry that is asked for its rows.
#[derive(PartialEq, Eq, Drop)]
pub struct InfoTask {
    /// The name or address of its host.
    pub host: String,
    /// The port that it is asked at, over TCP or UDP; rpcbind has 111.
    pub port: u16,
    /// The version of its program, 2 to 4.
    pub vers: u32,
    /// Whether it is asked by a datagram over UDP, and not over TCP.
    pub udp: bool,
    /// How many seconds its answer may take, 1 to 4294967295, or none where that has no end.
    pub timeout: Option<u32>,
}

/// Where a program is, and how it is reached.
#[derive(PartialEq, Eq, Drop)]
pub struct Peer {
    /// The name or address of its host.
    pub host: String,
    /// Its port, or none where the registry of the host is to be asked for it.
    pub port: Option<u16>,
    /// Whether it is called by datagrams over UDP, and not over TCP.
    pub udp: bool,
    /// How many seconds an answer may take, 1 to 4294967295.
    pub timeout: u32,
}

/// Who calls, by AUTH_SYS (RFC 5531 appendix A).
#[derive(PartialEq, Eq, Drop)]
pub struct Caller {
    pub uid: u32,
    pub gid: u32,
    pub gids: Vec<u32>,
    pub machine: String,
}

/// How a result is printed.
#[derive(Clone, Copy, PartialEq, Eq)]
pub enum Printing {
    Json,
    IndentedJson,
    Lines,
    Hex,
}

/// A procedure of a server to be called.
#[derive(PartialEq, Eq, Drop)]
pub struct CallTask {
    /// Where its program is.
    pub peer: Peer,
    /// Its name, `PROGRAM.VERSION.PROCEDURE`.
    pub name: String,
    /// The texts that declare it.
    pub types: Texts,
    /// The arguments as JSON, or none where they are read from standard input.
    pub arguments: Option<String>,
    /// The number of the call, or none where any will do.
    pub xid: Option<u32>,
    /// Who calls, or nobody.
    pub caller: Option<Caller>,
    /// How the result is printed.
    pub printing: Printing,
    /// The limit on depth.
    pub depth: u32,
    /// The limit on bytes.
    pub bytes: u32,
}

/// A program whose procedure 0 is to be called.
#[derive(PartialEq, Eq, Drop)]
pub struct PingTask {
    /// Where it is.
    pub peer: Peer,
    /// Its name, `PROGRAM.VERSION`.
    pub name: String,
    /// The texts that declare it.
    pub types: Texts,
    /// How many times it is called.
    pub count: u32,
}

/// A registry to be served to so many connections and datagrams, one after another.
#[derive(PartialEq, Eq, Drop)]
pub struct ServeTask {
    /// The port to listen at, over TCP and over UDP; 0 takes one that is free over TCP.
    pub port: u16,
    /// How many connections are served.
    pub count: u32,
    /// How many datagrams are answered after them.
    pub datagrams: u32,
}

/// A registry to be served to many clients at once, without an end.
#[derive(PartialEq, Eq, Drop)]
pub struct KeepTask {
    /// The address to listen at.
    pub address: Ipv4Addr,
    /// The port to listen at, over TCP and over UDP; 0 takes one that is free over TCP.
    pub port: u16,
    /// How many connections over TCP may be open at a time, 1 to 1048576.
    pub connections: u32,
    /// For how many seconds a connection may make no call and take nothing of its replies, 1 to 4294967295.
    pub idle: u32,
    /// Whether each connection has a line on standard error once it has ended.
    pub verbose: bool,
    /// Callers of other hosts may change rows.
    pub insecure: bool,
    /// The path of a Unix socket to listen at, too.
    pub local: Option<String>,
}

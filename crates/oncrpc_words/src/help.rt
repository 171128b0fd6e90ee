//! What the program says of itself, of its commands and of their options.

/// The program in a line.
pub const ABOUT: &str =
    "Checks, shows and makes XDR values, marks ONC RPC records, calls programs, serves rpcbind";

/// The program in a paragraph.
pub const LONG_ABOUT: &str =
    "Checks, shows and makes XDR values (RFC 4506), marks ONC RPC records and calls programs (RFC 5531), and asks and
serves rpcbind, the registry of programs (RFC 1833).

Called without any word it does 'check --name opaque --hex'. 'oncrpc help COMMAND' has the words of a command, what it
prints, and examples.";

/// The product's version.
pub const VERSION: &str = "0.1.0";

/// The product's version, and the number of the program logic that its proofs are in.
pub const LONG_VERSION: &str = "0.1.0\nproved with logic dac8208d650f15bf";

/// What `check` does.
pub const CHECK: &str = "Reads one value from standard input and prints the outcome";

/// What `show` does.
pub const SHOW: &str = "Reads one value from standard input and prints its lines and the outcome";

/// What `encode` does.
pub const ENCODE: &str = "Reads one value as JSON from standard input and writes its bytes";

/// What `types` does.
pub const LIST: &str = "Prints what files declare, and how many bytes the values of types have";

/// What `records` does.
pub const RECORDS: &str = "Writes each record of standard input as one fragment";

/// What `messages` does.
pub const MESSAGES: &str = "Prints the calls and replies of standard input and judges them";

/// What `capture` does.
pub const CAPTURE: &str = "Prints the calls and replies of a capture and judges them";

/// The file with the other direction.
pub const REPLIES: &str = "The file with the other direction of the connection";

/// Messages as JSON.
pub const JSON_MESSAGES: &str = "Print an object of JSON on a line for each message";

/// Messages without their arguments and results.
pub const BRIEF: &str = "Judge arguments and results, and do not print them";

/// The file of captured packets.
pub const CAPTURED: &str = "A file of captured packets, pcap or pcapng, or - for standard input";

/// The ports of a capture.
pub const PORTS: &str = "A port whose traffic is RPC, in place of what looks like it";

/// Counts in place of messages.
pub const STATS: &str = "Print counts and the slowest replies in place of messages";

/// What `info` does.
pub const INFO: &str = "Asks the registry of a host for its rows and prints them";

/// What `call` does.
pub const CALL: &str = "Calls a procedure of a program and prints its result";

/// What `ping` does.
pub const PING: &str = "Calls procedure 0 of a program and prints how long it took";

/// What `serve` does.
pub const SERVE: &str = "Serves a registry to many clients at once, over TCP and UDP";

/// The word for a host.
pub const HOST: &str = "The name or the address of the host";

/// The word for the port of a registry.
pub const REGISTRY_PORT: &str = "The port of its registry, 0 to 65535; rpcbind has 111";

/// The option for a version of the registry's program.
pub const VERS: &str = "The version of the registry's program, 2 to 4";

/// The option for the port to listen at.
pub const PORT: &str = "The port to listen at, over TCP and UDP, 0 to 65535; 0 takes a free one";

/// The option for the address to listen at.
pub const BIND: &str = "The address to listen at, of IPv4; 0.0.0.0 is all of this host";

/// The option for how many connections may be open.
pub const CONNECTIONS: &str = "How many connections over TCP may be open at a time, 1 to 1048576";

/// The option for how long a connection may be idle.
pub const IDLE: &str =
    "How long a connection may make no call and take no reply, 1 to 4294967295 seconds";

/// The option for a line of each connection.
pub const VERBOSE: &str = "Print a line on standard error for each connection that has ended";

/// The option for changes by callers of other hosts.
pub const INSECURE: &str = "Take SET and UNSET of callers of other hosts, too";

/// The option for a Unix socket.
pub const LOCAL: &str = "Serve a Unix socket at PATH, too, for this user and the superuser alone";

/// The option for how many connections are served.
pub const COUNT: &str =
    "Serve C connections on 127.0.0.1, one after another, and end; 0 to 4294967295";

/// The option for how many datagrams are answered.
pub const DATAGRAMS: &str =
    "How many datagrams are answered after C connections, 0 to 4294967295, else none";

/// The option for asking by a datagram.
pub const UDP: &str =
    "Use UDP instead of TCP; the datagram is sent once more after each second without a reply";

/// The word for a procedure.
pub const PROCEDURE: &str = "PROGRAM.VERSION.PROCEDURE, each a number or a name that FILE declares";

/// The word for a program.
pub const PROGRAM: &str = "PROGRAM or PROGRAM.VERSION, each a number or a name that FILE declares";

/// The option for arguments.
pub const ARGUMENTS: &str =
    "The argument as JSON, or of several an array, in place of standard input";

/// The option for the port of a program.
pub const PROGRAM_PORT: &str =
    "The port of the program, where the registry of the host is not to be asked for it";

/// The option for datagrams.
pub const UDP_ASKED: &str =
    "Use UDP in place of TCP; the call is sent once more after each second without a reply";

/// The option for the time that an answer may take.
pub const TIMEOUT: &str = "How long an answer may take, 1 to 4294967295 seconds";

/// The option for the time that an answer of a registry may take.
pub const WAITED: &str =
    "How long an answer may take, 1 to 4294967295 seconds; else without an end, over UDP 10";

/// The option for the number of a call.
pub const XID: &str = "The number of the call, 0 to 4294967295; else one that the clock makes";

/// The option for a uid.
pub const UID: &str = "Call as this user, by AUTH_SYS; else by nobody";

/// The option for a gid.
pub const GID: &str = "And of this group";

/// The option for further groups.
pub const GIDS: &str = "And of these groups, at most 16, with a comma between two";

/// The option for a machine.
pub const MACHINE: &str = "And from a machine of this name, of at most 255 bytes";

/// The option for lines.
pub const TEXT: &str = "Print the lines of the result in place of JSON";

/// The option for the bytes of a result.
pub const HEX_RESULT: &str =
    "Print a line of hexadecimal, of the bytes of the result, in place of JSON";

/// The option for JSON by lines.
pub const INDENT_RESULT: &str = "Print each item and each member of JSON on a line";

/// The option for how many times a program is called.
pub const PINGS: &str = "Call C times, a second apart, 0 to 4294967295";

/// The option for a name.
pub const NAME: &str = "The type of the value:
int, unsigned, hyper, unsigned-hyper, bool, opaque or string;
a type that FILE declares;
P.V.N.K, the K-th argument, from 1, of procedure N in version V of program P of FILE;
or P.V.N.result, its result";

/// The option for a file of declarations.
pub const TYPES: &str =
    "A file of declarations in the XDR language, of at most 262144 bytes, or the name of an installed one, as mount.
More than one are one text in their order, and what is refused then has its file";

/// The option for a dialect.
pub const DIALECT: &str = "The dialect that the files are in, where it is not the RFCs' language";

/// The option for a name that is defined.
pub const DEFINE: &str =
    "A name that is defined for lines #ifdef: letters, digits and _, no digit first, and no value.
The option may come more than once";

/// The option for JSON.
pub const JSON: &str = "Print the value as JSON, and nothing else on standard output";

/// The option for declarations as JSON.
pub const JSON_LIST: &str = "Print one JSON value in place of lines";

/// The option for JSON by lines.
pub const INDENT: &str = "Print each item and each member of JSON on a line";

/// The option for the limit on depth.
pub const DEPTH: &str = "The greatest depth of a value, 1 to 4096";

/// The option for the limit on bytes.
pub const BYTES: &str = "The most bytes of a value, 4 to 16777216, a multiple of 4";

/// The option for the limit on a record.
pub const LIMIT: &str = "The most bytes of a record, 0 to 2147483647";

/// The option for hexadecimal.
pub const HEX: &str = "Read hexadecimal text, at most 1048576 bytes with its white space";

/// The option for hexadecimal that is written.
pub const HEX_WRITTEN: &str = "Write a line of hexadecimal in place of the bytes";

//! What help says behind the options of the commands that use sockets, as `after` does of the others.

/// What `info` prints, its statuses and examples of it.
pub const AFTER_INFO: &str =
    "Output: 'program vers netid address owner', or of version 2 'program vers prot
port', and then a line for each row. An answer without rows is the line
'refused ' and
  PROG_UNAVAIL           there is no registry's program at the port
  PROG_MISMATCH LOW HIGH it has the versions LOW to HIGH
  PROC_UNAVAIL           it does not list its rows
  GARBAGE_ARGS, SYSTEM_ERR
                         it could not read the call, or not answer it
  RPC_MISMATCH LOW HIGH  it speaks the versions LOW to HIGH of RPC
  AUTH_ERROR NUMBER      it refuses a call without a credential
  TooLong at N, Truncated at N
                         over TCP: no whole record came
  Truncated, NotAReply, BadStatus, BadAuth, Rest
                         what came is no reply
  WrongXid NUMBER        over TCP: what came is a reply to another call
  WHY at N               the results begin with no list of rows; 'oncrpc help
                         check' has WHY, and N is the place in them

Lines on standard error: 'socket fault' where the host is not found or no
connection is accepted, 'read fault' where no answer could be read, also where
nobody listens at a port of UDP. With --timeout, and over UDP, it is 'no answer
within SECONDS seconds' where none came in time.

Exit status:
  0  the rows are printed
  1  the reply is refused, or brings no rows
  2  words are refused
  3  a socket, a read or a write failed, or more than 1048576 reads would be needed
  4  memory was refused

Examples, of a registry that has its own rows alone:
    $ oncrpc info 127.0.0.1 111
    program vers netid address owner
    100000 2 tcp 0.0.0.0.0.111 superuser
    100000 2 udp 0.0.0.0.0.111 superuser
    100000 3 tcp 0.0.0.0.0.111 superuser
    100000 3 udp 0.0.0.0.0.111 superuser
    100000 4 tcp 0.0.0.0.0.111 superuser
    100000 4 udp 0.0.0.0.0.111 superuser
    $ oncrpc info 127.0.0.1 111 --vers 2 --udp
    program vers prot port
    100000 2 6 111
    100000 2 17 111
    100000 3 6 111
    100000 3 17 111
    100000 4 6 111
    100000 4 17 111";

/// What `serve` prints, its statuses and examples of it.
pub const AFTER_SERVE: &str =
    "Output: 'listening on ADDR PORT', once both sockets listen. Then it answers many
clients at once until a signal ends it. With --verbose each connection K, from 1,
that came from PEER has a line on standard error once it has ended:
  connection K from PEER: N records, M replies
                               N records were read, and M replies were made
  connection K from PEER: Idle it made no call and took no reply for SECONDS
and the lines below from 'TooLong at N' on, but for TooManyReads. Where as many
are open as may be, others wait; the socket of --local has 16 places of its own.

The limit on open files ('ulimit -n') has to be above --connections by 32. Where
it is lower, it goes on behind a line on standard error:
  warning: the limit on open files is L, and N may be needed

With --count C, after 'listening on 127.0.0.1 PORT', it prints a line for each
connection K, from 1, once it has ended, and after them a line for each datagram
K, from 1:
  connection K: N records, M replies
                               N records were read, and M replies were sent
  connection K: TooLong at N   a record has more than 65536 bytes
  connection K: Truncated at N the connection ended inside a record
  connection K: Read           it could not be read; or Write, not be written
  connection K: TooManyReads   more than 1048576 reads would be needed
  connection K: NoMemory       memory was refused
  datagram K: reply            a reply was sent
  datagram K: no reply         the datagram is no call
  datagram K: Read             none could be received; or Write, no reply sent
What was wrong with a connection ends that connection alone. N in 'at N' is the
count of the connection's bytes before the place.

The registry begins with its own rows, versions 2, 3 and 4 of program 100000 over
tcp and udp, and is gone when the program ends. Without --insecure a SET or UNSET
of a caller of another host is AUTH_ERROR 5, AUTH_TOOWEAK. With --count whoever
reaches the port can add rows and remove them.

With --local the line 'listening on PATH' comes second, and rows of versions 3 and
4 over local are there. PATH gets mode 0600. A socket there that nobody answers at
is replaced; any other file stays. PEER of its connections is 'local'. rpcinfo
without a host, and what registers by libtirpc, want /run/rpcbind.sock.

What cannot be had, or fails, ends it with a line on standard error, with --count
'socket fault' and else
  socket fault: ADDR PORT over tcp: WHY
  socket fault: ADDR PORT over udp: WHY
  socket fault: PATH: WHY
  socket fault: waiting: WHY   it cannot wait for clients
  socket fault: random bytes: WHY
                               the system gives none, to hash rows behind
and WHY is 'address in use', 'address not available', 'permission denied', 'no
such file', 'file exists', 'not a directory', 'name too long', 'read-only
filesystem', 'no space left', 'quota exceeded', 'error N' with the system's
number, or 'other error'.

Exit status:
  0  with --count: all connections were served, and all datagrams after them
  2  words are refused
  3  a socket or a write to standard output failed
  4  memory was refused

Examples, the second with two clients and two datagrams:
    $ oncrpc serve --port 111 --verbose
    listening on 127.0.0.1 111
    $ oncrpc serve --port 111 --count 2 --datagrams 2
    listening on 127.0.0.1 111
    connection 1: 1 records, 1 replies
    connection 2: TooLong at 0
    datagram 1: reply
    datagram 2: no reply";

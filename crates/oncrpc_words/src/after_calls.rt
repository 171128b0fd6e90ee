//! What help says behind the options of the commands that call programs.

/// What `call` prints, its statuses and examples of it.
pub const AFTER_CALL: &str =
    "Output: the result as JSON, as 'oncrpc show --json' prints a value; with --text its
lines, with --hex its bytes. Nothing else goes to standard output.

The arguments are JSON, as 'oncrpc encode' reads it: the value of the argument, or
an array with an item for each where there are several. A procedure without
arguments reads no input. Without --port the registry of HOST is asked for the
port: by GETADDR of version 4, then of version 3, then by GETPORT of version 2.

Where there is no result one line on standard error says why:
  refused PROG_UNAVAIL           the program is not at the port
  refused PROG_MISMATCH LOW HIGH it has the versions LOW to HIGH
  refused PROC_UNAVAIL           it has no such procedure
  refused GARBAGE_ARGS, refused SYSTEM_ERR
                                 it could not read the call, or not answer it
  refused RPC_MISMATCH LOW HIGH  it speaks the versions LOW to HIGH of RPC
  refused AUTH_ERROR NAME        it refuses the caller, as AUTH_TOOWEAK
  refused TooLong at N, refused Truncated at N
                                 over TCP: no whole record came
  refused Truncated, NotAReply, BadStatus, BadAuth, Rest
                                 what came is no reply
  refused WrongXid NUMBER        over TCP: what came is a reply to another call
  refused: the registry has no such program
                                 it tells no port
  result refused WHY at N        the result is no value; 'oncrpc help check' has
                                 WHY, and N is the place in it
  result ends at N, more follows a value ends there, and the reply does not
  no answer within SECONDS seconds
  socket fault                   HOST is not found, or nobody has the port

Exit status:
  0  the result is printed
  1  there is no result
  2  words, declarations, the procedure or its arguments are refused
  3  a socket, a read or a write failed, or no answer came in time
  4  memory was refused

Examples, of a registry at port 111:
    $ echo '{\"prog\":100000,\"vers\":3,\"prot\":6,\"port\":0}' > asked.json
    $ oncrpc call 127.0.0.1 100000.2.3 < asked.json
    111
    $ oncrpc call 127.0.0.1 rpcbind.V2.GETPORT --udp --hex < asked.json
    0000006f
    $ oncrpc call 127.0.0.1 rpcbind.V4.GETTIME
    refused PROC_UNAVAIL";

/// What `ping` prints, its statuses and examples of it.
pub const AFTER_PING: &str =
    "Output: for each call the line 'PROGRAM VERSION answered in N microseconds'. Where
no VERSION is given version 0 is called, and 'PROGRAM LOW to HIGH answered in N
microseconds' has the versions that the reply tells. Where there is no such answer
one line on standard error says why, as 'oncrpc help call' has it.

Exit status:
  0  each call was answered
  1  a reply is refused
  2  words, declarations or the program are refused
  3  a socket, a read or a write failed, or no answer came in time
  4  memory was refused";

//! What help says behind the options of the commands that read what peers said.

/// What `messages` prints, its statuses and an example of it.
pub const AFTER_MESSAGES: &str =
    "Output: a line for each message of the records of standard input (RFC 5531 sections
9 and 11), below it the lines of its arguments or results, as 'oncrpc show' prints
them, and a closing line of counts; with --json an object on a line for each. With
--brief arguments and results are judged and not printed.
  call XID P.V.N NAME FLAVOR      a call; of AUTH_SYS its fields follow as JSON
  reply XID P.V.N NAME STATUS     a reply to a call that was read before
  reply XID no call STATUS        a reply to none
  record                          neither
  .., N bytes                     arguments or results that no text declares
  refused WHY at N                the message is refused at byte N of its stream:
                                  'oncrpc help check' has WHY, and MoreFollows is
                                  bytes behind all that is to be there
  input refused WHY at N          the records end inside one, or one is too long

A reply is read by the type of the call of its xid. With --replies the other
direction is read beside the input, and a reply is printed behind its call.

Exit status:
  0  nothing is refused
  1  something is
  2  words or declarations are refused
  3  a read or a write failed
  4  memory was refused

Example:
    $ (printf '\\200\\0\\0(\\0\\0\\0\\7\\0\\0\\0\\0\\0\\0\\0\\2\\0\\1\\206\\240\\0\\0\\0\\2'; \
     head -c 20 /dev/zero) | oncrpc messages
    call 7 100000.2.0 NULL AUTH_NONE
    calls 1 replies 0 others 0 refused 0 unjudged 0 unasked 0";

/// What `capture` prints, and its statuses.
pub const AFTER_CAPTURE: &str =
    "Output: the lines of 'oncrpc messages' for what a file of captured packets carries
over UDP and TCP, each message behind the number of the packet that ends it, its
time, and who sent it to whom. FILE is - for standard input. With --stats there are
counts of procedures, of reasons and the slowest replies in place of messages.
  missing N bytes                 the capture does not have them
  unfinished N bytes              they are of a record whose end is not there
  passed N bytes                  so many stand before the next record that is found
  dropped N bytes                 so many were held, and all connections held too much
  unread WHY                      the packet is not read: it is a fragment, is cut, or
                                  its link or a header of it is none that is read
  refused WHY at N                the message is refused at its byte N
  record refused TooLong at 0     a header is that of no record
  file refused WHY at N           the file is none, from its byte N on

Without --port what looks like RPC is read, and over UDP a reply only to a call that
was seen. With --port all that goes from or to such a port is.

Exit status:
  0  nothing is refused
  1  something is
  2  words or declarations are refused
  3  a read or a write failed
  4  memory was refused";

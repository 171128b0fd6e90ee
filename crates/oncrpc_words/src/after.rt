//! What help says behind the options: the output of each command, its statuses, and examples with what they print.
pub use crate::after_calls::{AFTER_CALL, AFTER_PING};
pub use crate::after_network::{AFTER_INFO, AFTER_SERVE};
pub use crate::after_watching::{AFTER_CAPTURE, AFTER_MESSAGES};

/// The statuses of each command, and the lines on standard error that go with them.
pub const AFTER_ALL: &str = "Exit status:
  0  done
  1  the bytes are refused
  2  words, declarations, name or limits are refused
  3  a read, a write or a socket failed, or more than 1048576 reads would be needed
  4  memory was refused

Lines on standard error:
  declaration refused: F at L:C  'oncrpc help check' has the numbers F
  no such name: NAME             neither a basic type nor one that FILE declares
  limits refused                 --depth, --bytes or --limit is out of its range
  read fault                     FILE, standard input or a socket could not be read
  write fault                    the output could not be written
  socket fault                   a host, a connection or a port could not be had
  too many reads                 more than 1048576 reads would be needed
  out of memory                  memory was refused

Examples:
    $ printf '00000003 61626300' | oncrpc
    ok 8";

/// What `check` prints, its statuses and examples of it.
pub const AFTER_CHECK: &str = "Output, one line:
  ok N                the input is a value of N bytes
  ok N, more follows  the input begins with a value of N bytes, and goes on
  refused WHY at N    no value begins the input; N is the place, the count of
                      bytes before it
With --hex N counts the bytes that the text stands for, and the line may also be
'refused bad hex' or 'refused hex too long'.

WHY, by what stands at the place:
  BadBool      four bytes of a bool, or of the flag of optional data, that are
               neither 0 nor 1
  BadNumbered  a number that no member of the enum has
  BadCase      a discriminant for which the union has no arm
  TooLong      a length or a count above its maximum
  BadPadding   four bytes of content whose padding is not zero
  TooDeep      a part that is deeper than --depth allows
  TooLarge     the end of the bytes that --bytes allows, inside the value
  Truncated    the end of the input, inside the value

A FILE that is refused is the line 'declaration refused: F at L:C' on standard
error, and where more than one is named 'declaration refused: F at FILE:L:C'. L
is the line and C the column in bytes, both from 1. F:
   1  a byte that begins no token, or a comment that does not end
   2  a number that is badly written, or outside -2^63 to 2^64 - 1
   3  a token that cannot stand there
   4  float, double or quadruple, which are left out
   5  a name or a number that is declared twice
   6  a name that is not declared, or not as what is wanted there
   7  a size that is no const, or is negative
   8  a number outside its range
   9  typedefs that lead in a circle
  10  a fault of a type, printed as '10 (I)' with a number I
  11  more than 262144 bytes
  12  more than 32 struct, union and enum bodies inside one another
  13  memory was refused, which is the line 'out of memory'
I:
   1  a type that is not there
   2  an opaque or an array of size 0
   3  void as a field or an item
   4  a discriminant that is no int, unsigned int, bool or enum
   5  a case twice
   6  a case that is no value of the discriminant
   7  a type without a finite value
   8  more than 1016 types of its own
   9  an enum, struct, union or arm without entries
  10  a name twice
  11  memory was refused
A line that begins with % or # is of rpcgen's dialect, which --dialect rpcgen reads:
docs/LANGUAGE.md has it. So are 'unsigned' alone, names as bool_t and u_int, and
members of an enum without a number: try it where F is 1, 3, 4 or 6.

A FILE that cannot be opened, or an input that cannot be read, is the line
'read fault' on standard error.

Exit status:
  0  the input begins with a value
  1  the bytes are refused
  2  words, declarations, name or limits are refused
  3  a read or a write failed, or more than 1048576 reads would be needed
  4  memory was refused

Examples:
    $ printf '00000003 61626300' | oncrpc check --name opaque --hex
    ok 8
    $ printf '00000003 61626301' | oncrpc check --name opaque --hex
    refused BadPadding at 4
    $ printf '00000002 68690000' | oncrpc check --types ping.x --name 536870912.1.1.1 --hex
    ok 8
    $ printf '%%#include <c.h>\\ntypedef unsigned size;' > size.x
    $ printf 'struct file { size bytes; };' > more.x
    $ printf '0000002a' | oncrpc check --dialect rpcgen --types size.x --types more.x --name file --hex
    ok 4";

/// What `show` prints, its statuses and examples of it.
pub const AFTER_SHOW: &str =
    "Output: a line for each part of the value, and then the line of 'check'. A value
that is refused has that line alone. 'oncrpc help check' explains it, and the
numbers of 'declaration refused: F at L:C'.

A part that lies inside another is two spaces further in. Its line has the name
of the field or the arm, a colon, and then:
  NUMBER           an int, unsigned int, hyper or unsigned hyper
  TRUE, FALSE      a bool
  NAME = NUMBER    an enum
  \"TEXT\"           a string; a byte that is not plain is \\x and two digits
  0xDIGITS         opaque data
  struct, void     a struct; nothing
  array of N       an array of fixed size
  list of N        an array of variable size
  case VALUE       a union by its discriminant, above the arm
  present, absent  optional data

With --json the value alone is printed on one line, by docs/FORMATS.md, and with
--indent each item and each member has a line. A value that is refused prints
nothing there. The line of 'check' goes to standard error, unless it is 'ok N'.

Exit status:
  0  the input begins with a value
  1  the bytes are refused
  2  words, declarations, name or limits are refused
  3  a read or a write failed, or more than 1048576 reads would be needed
  4  memory was refused

Examples:
    $ printf 'ffffffff' | oncrpc show --name int --hex
    -1
    ok 4
    $ oncrpc show --types file.x --name file --hex < file.hex
    struct
      filename: \"sillyprog\"
      type: case EXEC = 2
        interpretor: \"lisp\"
      owner: \"john\"
      data: 0x287175697429
    ok 48
    $ printf '00000000 0000002a 00' | oncrpc show --json --name hyper --hex
    \"42\"
    ok 8, more follows";

/// What `encode` prints, its statuses and examples of it.
pub const AFTER_ENCODE: &str =
    "Output: the bytes of the value (RFC 4506), or with --hex one line of lower-case
hexadecimal. What 'oncrpc show --json' prints of a value may be read, and any JSON
that says the same, by docs/FORMATS.md: members in any order, white space, a
number in place of an enum's name. The whole input is read first, at most 16 bytes
for each of --bytes and 1048576 more.

A text that is refused is a line on standard error, and no byte is written:
  refused WHY at L:C     the text is no JSON of a value of the type; L is the
                         line and C the column in bytes, both from 1
  refused text too long  it has more bytes than are read
'oncrpc help check' has the numbers of 'declaration refused: F at L:C'.

WHY, by what stands at the place:
  NotJson        what is no JSON, or not in UTF-8
  UnknownMember  a member that the struct or the union does not have
  MemberTwice    a member that stood before
  MissingMember  an object in which a member is missing
  WrongType      JSON of another form than the type's
  OutOfRange     a number that is out of the type's range, or that no member of the
                 enum has
  NotWhole       a number with a fraction or an exponent
  UnknownName    a name that no member of the enum has
  BadHex         digits that are no pairs of hexadecimal digits
  WrongLength    more or fewer bytes or items than the type has
  NoArm          a discriminant for which the union has no arm
  TooDeep        a part that is deeper than --depth allows, or a bracket below 4096
                 others
  TooLarge       the end of the text of a value with more bytes than --bytes

Exit status:
  0  the bytes of the value are written
  1  the text is refused
  2  words, declarations, name or limits are refused
  3  a read or a write failed, or more than 1048576 reads would be needed
  4  memory was refused

Examples:
    $ echo '\"abc\"' | oncrpc encode --name string --hex
    0000000361626300
    $ echo '\"abc\"' | oncrpc encode --name string | oncrpc show --json --name string
    \"abc\"
    $ printf 'typedef int numbers<>;' > numbers.x
    $ printf '[1,\\n 2.5]' | oncrpc encode --types numbers.x --name numbers
    refused NotWhole at 2:2";

/// What `types` prints, its statuses and examples of it.
pub const AFTER_TYPES: &str =
    "Output: a line for each name that the files declare, and for each argument and
result of a procedure, of words with one space between:
  const NAME NUMBER       a constant, or a member of an enum
  type NAME KIND LEAST..GREATEST
  program NAME P          a program and its number
  version NAME P.V        a version of the program
  procedure NAME P.V.N    a procedure of the version
  argument P.V.N.K TYPE KIND LEAST..GREATEST
  result P.V.N.result TYPE KIND LEAST..GREATEST
Constants come first, then types, then programs, each in the order of the files. A
void has no line. --name of 'check' and 'show' takes the NAME of a type, P.V.N.K and
P.V.N.result. TYPE is the first name of the type, or - where it has none. KIND is
int, unsigned, hyper, unsigned-hyper, bool, enum, opaque, string, array where the
count of items is fixed, list where it is not, struct, union, optional or void.

No value has fewer bytes than LEAST or more than GREATEST, and some value has just
as many. --depth and --bytes of 'check' play no part here. In place of a number
stands
  large      the count is 2^64 or more
  unbounded  no count is the greatest: values go on, as those of a linked list

With --json it is one JSON value on a line, by docs/FORMATS.md. A file that is
refused is a line on standard error, which 'oncrpc help check' explains.

Exit status:
  0  what is declared is printed
  2  words or declarations are refused
  3  a file could not be read, or the output not be written
  4  memory was refused

Examples:
    $ oncrpc types --types file.x
    const MAXUSERNAME 32
    const MAXFILELEN 65535
    const MAXNAMELEN 255
    const TEXT 0
    const DATA 1
    const EXEC 2
    type filekind enum 4..4
    type filetype union 4..264
    type file struct 16..66100
    $ oncrpc types --types ping.x
    program PING 536870912
    version ONE 536870912.1
    procedure NIL 536870912.1.0
    procedure ECHO 536870912.1.1
    argument 536870912.1.1.1 string string 4..4294967300
    result 536870912.1.1.result string string 4..4294967300";

/// What `records` prints, its statuses and examples of it.
pub const AFTER_RECORDS: &str =
    "Output: the records, each as one final fragment (RFC 5531 section 11). With --hex
it is one line of lower-case hexadecimal.

What is refused is a line on standard error, after the whole records before it
were written:
  refused TooLong at N    the header at N brings its record above --limit
  refused Truncated at N  the input ends inside a record, after N bytes
  refused bad hex         with --hex: the text is not hexadecimal
  refused hex too long    with --hex: it has more than 1048576 bytes

Exit status:
  0  the input is a stream of records
  1  the bytes are refused, after the whole records before them were written
  2  words or limits are refused
  3  a read or a write failed, or more than 1048576 reads would be needed
  4  memory was refused

Examples:
    $ printf '00000002 6162 80000001 63' | oncrpc records --hex
    80000003616263
    $ printf '80000001 61 80000003 626364' | oncrpc records --limit 2 --hex
    8000000161
    refused TooLong at 5";

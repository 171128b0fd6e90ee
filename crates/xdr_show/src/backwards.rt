//! Texts written from their end into a line of blanks, which is then appended at once.
ghost use Rattle.std.specs.Prelude.{◌≡◌, ◌+◌, ◌<◌, ◌≤◌, length, decimal};
ghost use Rattle.std.specs.Fmt.{signed_decimal};
ghost use Rattle.xdr_show.specs.Line.{label};
ghost use Rattle.xdr_show.specs.Private.Backwards.{Puts};

use itoa::write_digits;

/// How many blanks there are, as many as no short line has bytes.
pub const ROOM: usize = 128;

/// Writes bytes before a place, and tells where they begin.
pub fn write_before(bytes: &[u8], line: &mut [u8; ROOM], end: usize) -> usize
    requires { (length bytes.now ≤ end) × (end ≤ 128) }
    ensures start { result + length bytes.now ≡ end }
    ensures written { Puts line.old end line.new result bytes.now }
{
    let start = end - bytes.len();
    line[start..end].copy_from_slice(bytes);
    start
}

/// Writes a number that is not negative before a place.
pub fn write_unsigned(number: u64, line: &mut [u8; ROOM], end: usize) -> usize
    requires { (20 ≤ end) × (end ≤ 128) }
    ensures start { (result ≤ end) × (end ≤ result + 20) }
    ensures written { Puts line.old end line.new result (decimal number) }
{
    write_digits(number, line, end)
}

/// Writes a number before a place, after a minus sign where it is negative.
pub fn write_signed(number: i64, line: &mut [u8; ROOM], end: usize) -> usize
    requires { (21 ≤ end) × (end ≤ 128) }
    ensures start { (result ≤ end) × (end ≤ result + 21) }
    ensures written { Puts line.old end line.new result (signed_decimal number) }
{
    let start = write_unsigned(number.unsigned_abs(), line, end);
    if number >= 0 {
        return start;
    }
    write_before(b"-", line, start)
}

/// Writes a name with a colon and a space after it before a place, where there is one.
pub fn write_label(name: &[u8], line: &mut [u8; ROOM], end: usize) -> usize
    requires { (length name.now + 2 ≤ end) × (end ≤ 128) }
    ensures start { (result ≤ end) × (end ≤ result + (length name.now + 2)) }
    ensures written { Puts line.old end line.new result (label name.now) }
{
    if name.is_empty() {
        return end;
    }
    let start = write_before(b": ", line, end);
    write_before(name, line, start)
}

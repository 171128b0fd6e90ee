//! The place of a fault, as line and column.
ghost use Rattle.std.specs.Prelude.{◌≡◌, ◌≤◌, ◌+◌, ◌==◌, length, take, count_by};
ghost use Rattle.xdr_json_reader.specs.Places.{last_line};

/// The line and the column of a place in a text, which lies in it or at its end. Both count from 1, columns in bytes;
/// only a line feed begins a line. It goes over the text up to the place.
pub fn line_and_column(text: &[u8], at: usize) -> (usize, usize)
    requires { at ≤ length text.now }
    ensures line { result.0 ≡ 1 + count_by (λ b. b == 10) (take at text.now) }
    ensures column { result.1 ≡ 1 + length (last_line (take at text.now)) }
{
    let mut line: usize = 1;
    let mut column: usize = 1;
    for i in 0..at {
        if text[i] == b'\n' {
            line += 1;
            column = 1;
        } else {
            column += 1;
        }
    }
    (line, column)
}

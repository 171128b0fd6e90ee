//! The header of a fragment, for its sender (RFC 5531 section 11).
ghost use Rattle.std.specs.Prelude.{◌≡◌, ◌<◌, ◌^◌};
ghost use Rattle.rpc_record.specs.Marked.{header};
ghost use Rattle.c_records.specs.Headed.{IsHeaded};

use rpc_record::last_header;

/// The greatest count of bytes of a fragment.
const MOST_CONTENT: usize = 2147483647;

/// The header of a fragment of so many bytes.
fn header_of(count: u32, is_last: bool) -> [u8; 4]
    requires { count < 2 ^ 31 }
    ensures { result ≡ header is_last count }
{
    if is_last {
        last_header(count)
    } else {
        count.to_be_bytes()
    }
}

/// Puts the header of a fragment of so many bytes into `header`, as `oncrpc_record_header` says.
pub fn put_header(count: usize, is_last: bool, header: &mut [u8; 4]) -> u32
    ensures { IsHeaded count is_last header.old header.new result }
{
    if MOST_CONTENT < count {
        return 5;
    }
    let bytes = header_of(count as u32, is_last);
    *header = bytes;
    0
}

//! A fragment's header.
ghost use Rattle.std.specs.Prelude.{◌≡◌, [], ◌∷◌, ◌^◌, ◌<◌, true, length};
ghost use Rattle.rpc_record.specs.Marked.{header};

use byteorder::{BigEndian, ByteOrder};

/// The highest bit of a header's number: the fragment is its record's last.
const LAST: u32 = 0x8000_0000;

/// What a header says.
#[derive(Clone, Copy)]
pub struct Heading {
    pub last: bool,
    pub count: u32,
}

/// The heading that four bytes spell.
pub fn heading_of(a: u8, b: u8, c: u8, d: u8) -> Heading
    ensures counted { result.count < 2 ^ 31 }
    ensures spelled { header result.last result.count ≡ a ∷ b ∷ c ∷ d ∷ [] }
{
    let number = u32::from_be_bytes([a, b, c, d]);
    if number < LAST {
        Heading {
            last: false,
            count: number,
        }
    } else {
        Heading {
            last: true,
            count: number - LAST,
        }
    }
}

/// The header of a record's last fragment.
pub fn last_header(count: u32) -> [u8; 4]
    requires { count < 2 ^ 31 }
    // The four bytes are the header.
    ensures spelled { result ≡ header true count }
    ensures len { length result ≡ 4 }
{
    let mut bytes = [0; 4];
    BigEndian::write_u32(&mut bytes, LAST + count);
    bytes
}

//! A record that is one fragment, whole in a piece.
ghost use Rattle.std.specs.Prelude.{◌≡◌, ◌+◌, ◌^◌, ◌<◌, ◌≤◌, true, length, take, IfSome};
ghost use Rattle.rpc_record.specs.Marked.{fragment};

use super::header::heading_of;

/// The content of the record at the front of the bytes, where one fragment holds it, there is space for so many bytes,
/// and its last is there.
pub fn single_record(bytes: &[u8], space: u32) -> Option<&[u8]>
    // There is space for it, and its length goes into a header.
    ensures fits { IfSome result (λ r. length r.now ≤ space) }
    ensures counted { IfSome result (λ r. length r.now < 2 ^ 31) }
    // With its header it is the front of the bytes.
    ensures front { IfSome result (λ r. take (4 + length r.now) bytes.now ≡ fragment true r.now) }
    ensures within { IfSome result (λ r. 4 + length r.now ≤ length bytes.now) }
{
    match bytes {
        [a, b, c, d, rest @ ..] => {
            let heading = heading_of(*a, *b, *c, *d);
            let count = heading.count as usize;
            if heading.last && heading.count <= space && count <= rest.len() {
                Some(&rest[..count])
            } else {
                None
            }
        }
        _ => None,
    }
}

//! From one place to the next.
ghost use Rattle.std.specs.Prelude.{◌≡◌, ◌+◌, ◌^◌, ◌<◌, ◌≤◌, List, ℕ, [], ◌∷◌, ◌++◌, length};
ghost use Rattle.rpc_record.specs.Marked.{header, fragment};
ghost use Rattle.rpc_record.specs.Reading.{Upto, capped};
ghost use Rattle.rpc_record.specs.Fields.{InHeader, InContent, StandsAt, begun_bytes, left_of};
ghost use Rattle.rpc_record.specs.Private.Steps.{IsSteppedAt};

use super::fault::RecordFault;
use super::header::{Heading, heading_of};
use super::place::{Begun, Fragment, Place};

/// The place after the next byte of a header. There is space for so many bytes in the record.
pub fn after_header(at: u64, begun: Begun, byte: u8, taken: u64, space: u32) -> Place
    // It is no refusal, or `TooLong`.
    ensures stepped { IsSteppedAt result }
    // No more content is to come than there is space for.
    ensures left { left_of result ≤ space }
    // It stands for the records and the bytes before, and this byte.
    ensures represents { (limit : ℕ) (rs : List (List ℕ)) (content bytes : List ℕ)
        → length content + space ≡ limit
        → InHeader limit rs content at (begun_bytes begun) bytes
        → taken ≡ capped (length (bytes ++ byte ∷ []))
        → StandsAt limit result content taken (bytes ++ byte ∷ []) rs }
{
    match begun {
        Begun::Nothing => Place::Header {
            at,
            begun: Begun::One(byte),
        },
        Begun::One(a) => Place::Header {
            at,
            begun: Begun::Two(a, byte),
        },
        Begun::Two(a, b) => Place::Header {
            at,
            begun: Begun::Three(a, b, byte),
        },
        Begun::Three(a, b, c) => after_heading(at, heading_of(a, b, c, byte), taken, space),
    }
}

/// The place after a whole header. There is space for so many bytes in the record.
pub fn after_heading(at: u64, heading: Heading, taken: u64, space: u32) -> Place
    requires { heading.count < 2 ^ 31 }
    // It is no refusal, or `TooLong`.
    ensures stepped { IsSteppedAt result }
    // No more content is to come than there is space for.
    ensures left { left_of result ≤ space }
    // It stands for the records and the bytes before, and this header.
    ensures represents { (limit : ℕ) (rs : List (List ℕ)) (content before : List ℕ)
        → length content + space ≡ limit
        → Upto limit rs content before
        → at ≡ capped (length before)
        → taken ≡ capped (length (before ++ header heading.last heading.count))
        → StandsAt limit result content taken (before ++ header heading.last heading.count) rs }
{
    if heading.count > space {
        Place::Broken(RecordFault::TooLong { at })
    } else if heading.count > 0 {
        Place::Content(Fragment {
            left: heading.count,
            last: heading.last,
        })
    } else {
        after_fragment(heading.last, taken)
    }
}

/// The place after a whole fragment.
fn after_fragment(last: bool, taken: u64) -> Place
    ensures stepped { IsSteppedAt result }
    ensures left { left_of result ≡ 0 }
    ensures represents { (limit : ℕ) (rs : List (List ℕ)) (first part before : List ℕ)
        → Upto limit rs first before
        → length part < 2 ^ 31
        → length (first ++ part) ≤ limit
        → taken ≡ capped (length (before ++ fragment last part))
        → StandsAt limit result (first ++ part) taken (before ++ fragment last part) rs }
{
    if last {
        Place::Whole
    } else {
        Place::Header {
            at: taken,
            begun: Begun::Nothing,
        }
    }
}

/// The place after n more bytes of a fragment.
pub fn after_content(at_work: Fragment, n: u32, taken: u64) -> Place
    requires { n ≤ at_work.left }
    // It is no refusal, or `TooLong`.
    ensures stepped { IsSteppedAt result }
    // At most what was left of the fragment, less these bytes, is to come.
    ensures left { left_of result + n ≤ at_work.left }
    // It stands for the records and the bytes before, and these.
    ensures represents { (limit : ℕ) (rs : List (List ℕ)) (content bytes more : List ℕ)
        → length more ≡ n
        → InContent limit rs content at_work.last at_work.left bytes
        → taken ≡ capped (length (bytes ++ more))
        → StandsAt limit result (content ++ more) taken (bytes ++ more) rs }
{
    let left = at_work.left - n;
    if left > 0 {
        Place::Content(Fragment {
            left,
            last: at_work.last,
        })
    } else {
        after_fragment(at_work.last, taken)
    }
}

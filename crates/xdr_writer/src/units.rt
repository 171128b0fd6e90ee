//! Items whose form is known, and their bytes.
ghost use Rattle.std.specs.Prelude.{◌≡◌, ◌≤◌, ◌<◌, ◌+◌, ◌-◌, ◌%◌, ◌++◌, length, MatchOption, OnOk, OnErr, IsOk, pos};
ghost use Rattle.std.specs.Prelude.{vec_len, vec_capacity, true, IfSome};
ghost use Rattle.xdr_units.specs.Numbers.{num4, num8, pad};
ghost use Rattle.xdr_writer.specs.Private.Bytes.{coded_bytes, head_bytes, pieces_bytes};
ghost use Rattle.xdr_writer.specs.Private.Becomes.{in_word};

use arrayvec::ArrayVec;
use byteorder::{BigEndian, ByteOrder};
use xdr_units::NoMemory;

/// An item by the bytes that it has (RFC 4506 sections 3 and 4).
#[derive(Clone, Copy, Drop)]
pub(crate) enum Coded<'a> {
    /// A number of one unit, as two's complement.
    Signed(i32),
    /// A number of one unit, a flag or a count.
    Unsigned(u32),
    /// A hyper integer.
    Hyper(i64),
    /// An unsigned hyper integer.
    UnsignedHyper(u64),
    /// Content, and the zeros after it.
    Fixed(&'a [u8]),
    /// Content with its length before it, and the zeros after it.
    Counted(&'a [u8]),
}

// So many bytes of content and the zeros after them, behind so many others; none, where that is more than the space.
fn padded_within(before: usize, len: usize, space: usize) -> Option<usize>
    requires few { before ≤ 4 }
    requires low { space ≤ 16777216 }
    ensures { MatchOption result (space < before + (len + (4 - len % 4) % 4))
        (λ n. (n ≡ before + (len + (4 - len % 4) % 4)) × (n ≤ space)) }
{
    if len > space {
        return None;
    }
    let size = before + (len + (4 - len % 4) % 4);
    if size > space { None } else { Some(size) }
}

// So many bytes; none, where that is more than the space.
fn some_within(size: usize, space: usize) -> Option<usize>
    ensures { MatchOption result (space < size) (λ n. (n ≡ size) × (n ≤ space)) }
{
    if size > space { None } else { Some(size) }
}

/// How many bytes an item has; none, where that is more than the space.
pub(crate) fn size_within(coded: Coded, space: usize) -> Option<usize>
    requires { space ≤ 16777216 }
    ensures { MatchOption result (space < length (coded_bytes coded.entry))
        (λ n. (n ≡ length (coded_bytes coded.entry)) × (n ≤ space)) }
{
    match coded {
        Coded::Signed(_) => some_within(4, space),
        Coded::Unsigned(_) => some_within(4, space),
        Coded::Hyper(_) => some_within(8, space),
        Coded::UnsignedHyper(_) => some_within(8, space),
        Coded::Fixed(bytes) => padded_within(0, bytes.len(), space),
        Coded::Counted(bytes) => padded_within(4, bytes.len(), space),
    }
}

/// What stands before the content in an item's bytes: nothing, a unit, or the two units of a hyper integer.
#[derive(Drop)]
pub(crate) enum Head {
    Nothing,
    Unit([u8; 4]),
    Wide([u8; 8]),
}

impl Head {
    /// Its bytes.
    pub(crate) fn bytes(&self) -> &[u8]
        ensures { result.now ≡ head_bytes self.now }
    {
        match self {
            Head::Nothing => &[],
            Head::Unit(bytes) => &bytes[..],
            Head::Wide(bytes) => &bytes[..],
        }
    }
}

/// An item's bytes in pieces: its head and its content. Behind the content stand the zeros that fill its last unit.
#[derive(Drop)]
pub(crate) struct Pieces<'a> {
    pub(crate) head: Head,
    pub(crate) content: &'a [u8],
}

// The zeros behind content, at most (RFC 4506 section 3).
const ZEROS: &[u8] = &[0; 3];

/// The zeros behind so many bytes of content (RFC 4506 section 3).
pub(crate) fn zeros_behind(count: usize) -> &'static [u8]
    ensures { result.now ≡ pad count }
{
    &ZEROS[..(4 - count % 4) % 4]
}

// The number's four bytes.
fn signed(number: i32) -> Head
    ensures { head_bytes result ≡ num4 number }
{
    let mut bytes = [0; 4];
    BigEndian::write_i32(&mut bytes, number);
    Head::Unit(bytes)
}

// The number's four bytes.
fn unsigned(number: u32) -> Head
    ensures { head_bytes result ≡ num4 (pos number) }
{
    let mut bytes = [0; 4];
    BigEndian::write_u32(&mut bytes, number);
    Head::Unit(bytes)
}

// The number's eight bytes.
fn hyper(number: i64) -> Head
    ensures { head_bytes result ≡ num8 number }
{
    let mut bytes = [0; 8];
    BigEndian::write_i64(&mut bytes, number);
    Head::Wide(bytes)
}

// The number's eight bytes.
fn unsigned_hyper(number: u64) -> Head
    ensures { head_bytes result ≡ num8 (pos number) }
{
    let mut bytes = [0; 8];
    BigEndian::write_u64(&mut bytes, number);
    Head::Wide(bytes)
}

/// The four bytes of a number that has one unit, signed or not.
pub(crate) fn word(signed: bool, number: i128) -> [u8; 4]
    requires { in_word signed number ≡ true }
    ensures { result ≡ num4 number }
{
    let mut bytes = [0; 4];
    if signed {
        BigEndian::write_i32(&mut bytes, number as i32);
    } else {
        BigEndian::write_u32(&mut bytes, number as u32);
    }
    bytes
}

// A head without content.
fn alone<'a>(head: Head) -> Pieces<'a>
    ensures { pieces_bytes result ≡ head_bytes head }
{
    Pieces { head, content: &[] }
}

/// An item's bytes in pieces.
pub(crate) fn pieces_of<'a>(coded: Coded<'a>) -> Pieces<'a>
    requires { length (coded_bytes coded) ≤ 16777216 }
    ensures { pieces_bytes result ≡ coded_bytes coded.entry }
{
    match coded {
        Coded::Signed(number) => alone(signed(number)),
        Coded::Unsigned(number) => alone(unsigned(number)),
        Coded::Hyper(number) => alone(hyper(number)),
        Coded::UnsignedHyper(number) => alone(unsigned_hyper(number)),
        Coded::Fixed(content) => Pieces {
            head: Head::Nothing,
            content,
        },
        Coded::Counted(content) => Pieces {
            head: unsigned(content.len() as u32),
            content,
        },
    }
}

/// How many bytes of content are few.
const FEW: usize = 112;

/// An item's bytes in one array; nothing, where its content has more than a few.
pub(crate) fn joined(pieces: &Pieces<'_>) -> Option<ArrayVec<u8, 128>>
    ensures { IfSome result (λ v. v.items ≡ pieces_bytes pieces.now) }
{
    if pieces.content.len() > FEW {
        return None;
    }
    let mut bytes = ArrayVec::new();
    bytes.try_extend_from_slice(pieces.head.bytes()).ok()?;
    bytes.try_extend_from_slice(pieces.content).ok()?;
    bytes
        .try_extend_from_slice(zeros_behind(pieces.content.len()))
        .ok()?;
    Some(bytes)
}

/// Writes an item's bytes, all of them or none.
pub(crate) fn push_pieces(out: &mut Vec<u8>, pieces: &Pieces<'_>) -> Result<(), NoMemory>
    requires { length (pieces_bytes pieces.now) ≤ 16777216 }
    ensures ok { OnOk result (out.new.items ≡ out.old.items ++ pieces_bytes pieces.now) }
    ensures retained { OnErr result (out.new.items ≡ out.old.items) }
    // Memory is wanted only where they do not go into the capacity.
    ensures granted { length out.old.items + length (pieces_bytes pieces.now) ≤ vec_capacity out.old → IsOk result }
{
    let head = pieces.head.bytes();
    let zeros = zeros_behind(pieces.content.len());
    out.reserve(head.len() + pieces.content.len() + zeros.len())?;
    out.extend_from_slice(head)?;
    out.extend_from_slice(pieces.content)?;
    out.extend_from_slice(zeros)?;
    Ok(())
}

//! Calls of a registry served from memory: WORK is `null`, `getaddr` or `dump`, ROWS is 1 to 1024, and COUNT is how
//! many reads there are, each of which brings 32 calls. An address is asked of 32 rows, which lie all over the
//! registry.
ghost use Rattle.std.specs.Prelude.{◌<◌, ◌≤◌};

use crate::directory::filled;
use rpc_engine::{Transport, serve};
use std::alloc::Global;
use xdr_io::{ReadFault, Sink, SinkFault, Source};
use xdr_units::{NoMemory, push_word};

/// How many calls a read brings.
const CALLS: u32 = 32;

// A source that gives the same bytes, at most 4096, so many times. It tells nothing of them.
#[derive(Drop)]
struct Repeated<'a> {
    bytes: &'a [u8],
    times: u32,
}

impl<'a> Source for Repeated<'a> {
    fn read(&mut self, array: &mut [u8; 4096]) -> Result<usize, ReadFault> {
        if self.times == 0 {
            return Ok(0);
        }
        self.times -= 1;
        let n = self.bytes.len().min(4096);
        array[..n].copy_from_slice(&self.bytes[..n]);
        Ok(n)
    }
}

// A sink that counts the bytes that it takes, and keeps none.
#[derive(Drop)]
struct Counting {
    bytes: u64,
}

impl Sink for Counting {
    fn write(&mut self, piece: &[u8]) -> Result<usize, SinkFault> {
        self.bytes = self.bytes.wrapping_add(piece.len() as u64);
        Ok(piece.len())
    }
}

// Writes words, each as four bytes.
fn push_words(out: &mut Vec<u8>, words: &[u32]) -> Result<(), NoMemory> {
    for word in words {
        push_word(out, *word)?;
    }
    Ok(())
}

// What is asked.
#[derive(Clone, Copy)]
enum Ask {
    Null,
    Address,
    Dump,
}

// The work with this name.
fn ask_of(name: &str) -> Option<Ask> {
    match name {
        "null" => Some(Ask::Null),
        "getaddr" => Some(Ask::Address),
        "dump" => Some(Ask::Dump),
        _ => None,
    }
}

// Writes a call as one last fragment (RFC 5531 sections 9 and 11, RFC 1833 sections 2 and 3): the null procedure of
// version 2, the address over `tcp` of version 1 of a program, or all rows, in version 4.
fn push_call(out: &mut Vec<u8>, asked: Ask, xid: u32, prog: u32) -> Result<(), NoMemory> {
    match asked {
        Ask::Null => push_words(out, &[0x80000028, xid, 0, 2, 100000, 2, 0, 0, 0, 0, 0]),
        Ask::Dump => push_words(out, &[0x80000028, xid, 0, 2, 100000, 4, 4, 0, 0, 0, 0]),
        Ask::Address => {
            push_words(out, &[0x80000040, xid, 0, 2, 100000, 4, 3, 0, 0, 0, 0])?;
            push_words(out, &[prog, 1, 3, 0x74637000, 0, 0])
        }
    }
}

// The calls of a read.
fn calls(alloc: Global, asked: Ask, rows: u32) -> Result<Vec<u8>, NoMemory>
    requires { 0 < rows }
{
    let mut out = Vec::new(alloc);
    for turn in 0..CALLS {
        push_call(&mut out, asked, turn, turn.wrapping_mul(2654435761) % rows)?;
    }
    Ok(out)
}

// How many bytes a reply has with its header: that of an address has its 13 bytes with their length and padding, that
// of all rows 48 a row.
fn reply_size(asked: Ask, rows: u32) -> u64 {
    match asked {
        Ask::Null => 28,
        Ask::Address => 48,
        Ask::Dump => 32 + 48 * u64::from(rows),
    }
}

// Serves the calls so many times, and says whether each was answered; nothing where memory is refused.
fn does(alloc: Global, asked: Ask, rows: u32, count: u32) -> Option<bool>
    requires { 0 < rows }
{
    let mut directory = filled(alloc, rows).ok()?;
    let bytes = calls(alloc, asked, rows).ok()?;
    let mut reader = Repeated {
        bytes: &bytes,
        times: count,
    };
    let mut writer = Counting { bytes: 0 };
    let served = serve(
        alloc,
        &mut reader,
        &mut writer,
        &mut directory,
        Transport::Tcp,
    );
    let wanted = u64::from(count) * u64::from(CALLS);
    match served {
        Ok(served) => {
            let size = wanted.wrapping_mul(reply_size(asked, rows));
            Some(served.replies == wanted && writer.bytes == size)
        }
        Err(_) => Some(false),
    }
}

/// Does the work over so many rows so many times, by the words WORK, ROWS and COUNT, and says whether each call was
/// answered.
pub fn work(alloc: Global, words: &[String]) -> bool {
    let [what, rows, count] = words else {
        return false;
    };
    let (Ok(rows), Ok(count)) = (rows.as_str().parse::<u32>(), count.as_str().parse::<u32>()) else {
        return false;
    };
    match ask_of(what.as_str()) {
        Some(asked) if rows > 0 => does(alloc, asked, rows, count).unwrap_or(false),
        _ => false,
    }
}

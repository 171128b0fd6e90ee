//! The bytes of messages (RFC 5531 sections 8, 9 and 11, RFC 1833 sections 2 and 3).

use crate::random::{Random, count_of};
use crate::results::push_content;
use xdr_units::{NoMemory, push_word};

/// A call of the registry: who calls, and what for.
#[derive(Clone, Copy)]
pub struct Asked {
    pub xid: u32,
    pub version: u32,
    pub procedure: u32,
    /// The uid that AUTH_SYS claims; none is AUTH_NONE.
    pub uid: Option<u32>,
}

/// An address of four numbers and a port (RFC 5665 section 5.2.3.3).
pub const ADDRESS: &[u8] = b"192.168.17.201.8.1";

const HOSTS: &[&[u8]] = &[b"client", b"fileserver-17", b"build.example.org", b"nas"];

fn push_words(out: &mut Vec<u8>, words: &[u32]) -> Result<(), NoMemory> {
    for word in words {
        push_word(out, *word)?;
    }
    Ok(())
}

// The name of a host.
fn host(random: &mut Random) -> &'static [u8] {
    match HOSTS.get(random.below(4) as usize) {
        Some(name) => *name,
        None => b"host",
    }
}

// A credential, and the verifier AUTH_NONE (RFC 5531 sections 8.2 and appendix A).
fn push_credential(
    out: &mut Vec<u8>,
    random: &mut Random,
    uid: Option<u32>,
) -> Result<(), NoMemory> {
    let Some(uid) = uid else {
        return push_words(out, &[0, 0, 0, 0]);
    };
    let name = host(random);
    let padded = count_of(name.len()).saturating_add(3) / 4 * 4;
    push_words(out, &[1, padded.saturating_add(28), 0])?;
    push_content(out, name)?;
    push_words(out, &[uid, 100, 2, 100, 27, 0, 0])
}

/// Writes the head of a call of the registry, up to its arguments.
pub fn push_call(out: &mut Vec<u8>, random: &mut Random, asked: Asked) -> Result<(), NoMemory> {
    push_words(
        out,
        &[asked.xid, 0, 2, 100000, asked.version, asked.procedure],
    )?;
    push_credential(out, random, asked.uid)
}

/// Makes four bytes at a place the header of a last fragment with what follows them (RFC 5531 section 11).
pub fn mark(out: &mut [u8], at: usize) {
    let size = count_of(out.len().saturating_sub(at).saturating_sub(4));
    let at = at.min(out.len());
    let front = &mut out[at..];
    if let [a, b, c, d, ..] = front {
        [*a, *b, *c, *d] = (size | 0x8000_0000).to_be_bytes();
    }
}

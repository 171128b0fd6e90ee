//! Arguments, as they lie in the bytes of a call. Nothing here takes memory.
ghost use Rattle.std.specs.Prelude.{◌≡◌, ◌++◌, ◌<◌, ◌^◌, length, MatchOption};
ghost use Rattle.registry_dumps.specs.Dir.{mapping_kind, rpcb_kind};
ghost use Rattle.registry_answer.specs.Answer.{AreArguments, AreGarbage};
ghost use Rattle.registry_answer.specs.Private.Parsed.{text, HasNoText, mapping_value, AreRpcb};

use xdr_laws::whole_exactly;
use xdr_units::{first_content, first_word};

/// How many bytes arguments have at most.
const MOST_BYTES: usize = 65536;

/// The argument of version 2 (RFC 1833 section 3.1).
#[derive(Clone, Copy)]
pub struct Mapping {
    pub prog: u32,
    pub vers: u32,
    pub prot: u32,
    pub port: u32,
}

/// The argument of versions 3 and 4, without its owner (RFC 1833 section 2.1).
#[derive(Clone, Copy)]
pub struct Rpcb<'a> {
    pub prog: u32,
    pub vers: u32,
    pub netid: &'a [u8],
    pub address: &'a [u8],
}

/// The text at the front, and what follows it: a length, so many bytes, and zeros to the end of their unit (RFC 4506
/// section 4.11).
fn first_text(bytes: &[u8]) -> Option<(&[u8], &[u8])>
    ensures { MatchOption result (HasNoText bytes.now)
        (λ r. (length r.0.now < 2 ^ 32) × (bytes.now ≡ text r.0.now ++ r.1.now)) }
{
    let (size, behind) = first_word(bytes)?;
    match first_content(behind, size) {
        Ok((content, rest)) => Some((content, rest)),
        Err(_) => None,
    }
}

/// The `mapping` that the arguments begin with.
pub fn mapping_at(args: &[u8]) -> Option<Mapping>
    ensures { MatchOption result (AreGarbage mapping_kind args.now)
        (λ m. AreArguments mapping_kind args.now (mapping_value m)) }
{
    // For the proof: the law says which bytes begin with a value.
    whole_exactly();
    let (prog, rest) = first_word(args)?;
    let (vers, rest) = first_word(rest)?;
    let (prot, rest) = first_word(rest)?;
    let (port, _) = first_word(rest)?;
    Some(Mapping {
        prog,
        vers,
        prot,
        port,
    })
}

/// The `rpcb` that the arguments begin with, where it has at most 65536 bytes.
pub fn rpcb_at(args: &[u8]) -> Option<Rpcb<'_>>
    ensures { MatchOption result (AreGarbage rpcb_kind args.now) (λ r. AreRpcb args.now r) }
{
    // For the proof: the law says which bytes begin with a value.
    whole_exactly();
    let (prog, rest) = first_word(args)?;
    let (vers, rest) = first_word(rest)?;
    let (netid, rest) = first_text(rest)?;
    let (address, rest) = first_text(rest)?;
    let (_owner, rest) = first_text(rest)?;
    if args.len().saturating_sub(rest.len()) > MOST_BYTES {
        return None;
    }
    Some(Rpcb {
        prog,
        vers,
        netid,
        address,
    })
}

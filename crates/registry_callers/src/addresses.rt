//! The addresses that are looked up.
ghost use Rattle.std.specs.Prelude.{◌≡◌, ◌≤◌, ◌<◌, ◌^◌, ◌++◌, ◌∷◌, [], ℕ, List, Some, length, IfOk, MatchOption};
ghost use Rattle.rpc_message.specs.Spelling.{opaque};
ghost use Rattle.registry_uaddr.specs.Uaddrs.{uaddr_text};
ghost use Rattle.registry_answer.specs.Answering.{most};
ghost use Rattle.registry_callers.specs.Addresses as plain;
ghost use Rattle.registry_callers.specs.Addresses.{Tells};
ghost use Rattle.registry_callers.specs.Private.Texts.{HasNoText};

use registry_uaddr::{Uaddr, read_uaddr, write_uaddr};
use rpc_message::{SUCCESS, accepted_head};
use std::alloc::Global;
use xdr_units::{NoMemory, first_content, first_word, push_padded, push_word};

/// Each host of the machine.
const ANYWHERE: [u8; 4] = [0; 4];

/// What is sent for a look-up with this xid, where the plain registry sends this reply. It has at most 16777240 bytes,
/// where that has.
pub fn told(
    alloc: Global,
    host: Option<[u8; 4]>,
    xid: u32,
    reply: Vec<u8>,
) -> Result<Vec<u8>, NoMemory>
    ensures tells { IfOk result (λ v. Tells host xid (Some reply.items) (Some v.items)) }
    ensures few { IfOk result (λ v. length reply.items ≤ most → length v.items ≤ most) }
{
    let Some(address) = address_in(&reply, xid) else {
        return Ok(reply);
    };
    match placed(host, address) {
        Some(address) => address_reply(alloc, xid, address),
        None => Ok(reply),
    }
}

/// The text that a successful reply to this xid has as its result. `None`: it is no such reply. It takes no memory.
fn address_in(reply: &[u8], xid: u32) -> Option<&[u8]>
    ensures { MatchOption result
        ((text : List ℕ) → length text < 2 ^ 32 → reply.now ≡ plain.address_reply xid text → ⊥)
        (λ text. (length text.now < 2 ^ 32) × (reply.now ≡ plain.address_reply xid text.now)) }
{
    let head = accepted_head(xid, SUCCESS);
    if reply.len() < 24 {
        return None;
    }
    let (front, results) = reply.split_at(24);
    if front != head.as_slice() {
        return None;
    }
    text_in(results)
}

/// The text that is spelled by all of these bytes (RFC 4506 section 4.11). It takes no memory.
fn text_in(results: &[u8]) -> Option<&[u8]>
    ensures { MatchOption result ((text : List ℕ) → length text < 2 ^ 32 → results.now ≡ opaque text → ⊥)
        (λ text. (length text.now < 2 ^ 32) × (results.now ≡ opaque text.now)) }
{
    let (text, rest) = first_text(results)?;
    if !rest.is_empty() {
        return None;
    }
    Some(text)
}

/// The text at the front, and what follows it: a length, so many bytes, and zeros to the end of their unit (RFC 4506
/// section 4.11).
fn first_text(bytes: &[u8]) -> Option<(&[u8], &[u8])>
    ensures { MatchOption result (HasNoText bytes.now)
        (λ r. (length r.0.now < 2 ^ 32) × (bytes.now ≡ opaque r.0.now ++ r.1.now)) }
{
    let (size, behind) = first_word(bytes)?;
    match first_content(behind, size) {
        Ok((content, rest)) => Some((content, rest)),
        Err(_) => None,
    }
}

/// The address that is told for one at host 0.0.0.0. `None`: the text is told as it is. It takes no memory.
fn placed(host: Option<[u8; 4]>, text: &[u8]) -> Option<Uaddr>
    ensures { MatchOption result (plain.told host text.now ≡ text.now) (λ a. plain.told host text.now ≡ uaddr_text a) }
{
    let host = host?;
    let address = read_uaddr(text)?;
    if address.host.as_slice() != ANYWHERE.as_slice() {
        return None;
    }
    Some(Uaddr {
        host,
        port: address.port,
    })
}

/// The bytes of the successful reply to this xid whose result is this address: at most 52.
fn address_reply(alloc: Global, xid: u32, address: Uaddr) -> Result<Vec<u8>, NoMemory>
    ensures reply { IfOk result (λ v. v.items ≡ plain.address_reply xid (uaddr_text address)) }
    ensures few { IfOk result (λ v. length v.items ≤ most) }
{
    let [first, second, third, fourth] = address.host;
    let text = address_text(alloc, first, second, third, fourth, address.port)?;
    let mut reply = Vec::new(alloc);
    reply.extend_from_slice(&accepted_head(xid, SUCCESS))?;
    push_word(&mut reply, text.len() as u32)?;
    push_padded(&mut reply, &text)?;
    Ok(reply)
}

/// The text of this port at the host of these octets: at most 23 bytes.
fn address_text(
    alloc: Global,
    first: u8,
    second: u8,
    third: u8,
    fourth: u8,
    port: u16,
) -> Result<Vec<u8>, NoMemory>
    ensures text { let host = first ∷ second ∷ third ∷ fourth ∷ [] in
        IfOk result (λ v. v.items ≡ uaddr_text (record { host = host; port = port })) }
    ensures few { IfOk result (λ v. length v.items ≤ 23) }
{
    let address = Uaddr {
        host: [first, second, third, fourth],
        port,
    };
    write_uaddr(alloc, address)
}

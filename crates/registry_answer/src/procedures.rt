//! The procedures that change rows or look them up, each with the reply that it makes. What is written is written
//! before the rows change, so that refused memory leaves them as they were.
ghost use Rattle.std.specs.Prelude.{◌≡◌, ◌<◌, ◌≤◌, ◌^◌, length, ◌++◌, List, ℕ, OnOk, OnErr, vec_len, false};
ghost use Rattle.std.specs.Io.{StartsWith};
ghost use Rattle.xdr_units.specs.Numbers.{word, num4, number_of};
ghost use Rattle.rpc_message.specs.Constants.{success};
ghost use Rattle.rpc_message.specs.Heads.{accepted_head};
ghost use Rattle.registry_rows.specs.Rows.{row_of};
ghost use Rattle.registry_rows.specs.Steps.{set, unset, getversaddr};
ghost use Rattle.registry_rows.specs.LookUp.{getaddr};
ghost use Rattle.registry_rows.specs.Ports.{set_port, unset_port, get_port};
ghost use Rattle.registry_answer.specs.Owners.{owner_text};
ghost use Rattle.registry_answer.specs.Private.Parsed.{text};
ghost use Rattle.registry_answer.specs.Private.Pushes.{Reports};
ghost use Rattle.registry_answer.specs.Views.{netid_of};

use crate::arguments::{Mapping, Rpcb};
use crate::callers::Owner;
use crate::transport::Transport;
use itoa::Buffer;
use rpc_directory::Directory;
use rpc_message::{SUCCESS, append_head};
use std::alloc::Global;
use std::hash::BuildHasher;
use xdr_units::{NoMemory, push_padded, push_word};

/// Writes a successful reply whose result is FALSE.
#[tactic(auto, using(crate::proofs::Chains::begins_then, crate::proofs::Chains::begins_added))]
fn push_false(out: &mut Vec<u8>, xid: u32) -> Result<(), NoMemory>
    ensures ok { OnOk result (out.new.items ≡ out.old.items ++ (accepted_head xid success ++ num4 (number_of false))) }
    ensures begins { StartsWith out.new.items out.old.items }
{
    append_head(out, xid, SUCCESS)?;
    push_word(out, 0)?;
    Ok(())
}

/// Makes the word at the end, which is FALSE, tell what was done. There are bytes.
fn tell(out: &mut Vec<u8>, done: bool)
    requires { 0 < vec_len out.old }
    ensures { (front : List ℕ) → out.old.items ≡ front ++ num4 (number_of false)
        → out.new.items ≡ front ++ num4 (number_of done) }
{
    if done {
        let last = out.len() - 1;
        out[last] = 1;
    }
}

/// Sets a row at a port (RFC 1833 section 3.2, PMAPPROC_SET).
#[tactic(auto, using(crate::proofs::Chains::begins_then))]
pub fn push_set_port<S: BuildHasher>(
    alloc: Global,
    directory: &mut Directory<S>,
    owner: Owner,
    xid: u32,
    m: Mapping,
    out: &mut Vec<u8>,
) -> Result<(), NoMemory>
    ensures ok { let step = set_port directory.old m.prog m.vers m.prot m.port (owner_text owner) in
        OnOk result (Reports step xid out.old.items directory.new out.new.items) }
    // Where memory is refused the rows stay,
    ensures err { OnErr result (directory.new ≡ directory.old) }
    // and in either case what stood there stays.
    ensures begins { StartsWith out.new.items out.old.items }
{
    push_false(out, xid)?;
    let mut buffer = Buffer::new();
    let owner = owner.text(&mut buffer);
    match directory.set_port(alloc, m.prog, m.vers, m.prot, m.port, owner) {
        Ok(done) => {
            tell(out, done);
            Ok(())
        }
        Err(_) => Err(NoMemory),
    }
}

/// Removes rows over both transports that have a number (RFC 1833 section 3.2, PMAPPROC_UNSET).
#[tactic(auto, using(crate::proofs::Chains::begins_then))]
pub fn push_unset_port<S: BuildHasher>(
    directory: &mut Directory<S>,
    owner: Owner,
    xid: u32,
    m: Mapping,
    out: &mut Vec<u8>,
) -> Result<(), NoMemory>
    ensures ok { let step = unset_port directory.old m.prog m.vers (owner_text owner) in
        OnOk result (Reports step xid out.old.items directory.new out.new.items) }
    // Where memory is refused the rows stay,
    ensures err { OnErr result (directory.new ≡ directory.old) }
    // and in either case what stood there stays.
    ensures begins { StartsWith out.new.items out.old.items }
{
    push_false(out, xid)?;
    let mut buffer = Buffer::new();
    let owner = owner.text(&mut buffer);
    let done = directory.unset_port(m.prog, m.vers, owner);
    tell(out, done);
    Ok(())
}

/// Looks a port up (RFC 1833 section 3.2, PMAPPROC_GETPORT).
#[tactic(auto, using(crate::proofs::Chains::begins_then, crate::proofs::Chains::begins_added))]
pub fn push_port<S: BuildHasher>(
    directory: &Directory<S>,
    xid: u32,
    m: Mapping,
    out: &mut Vec<u8>,
) -> Result<(), NoMemory>
    ensures ok { let port = get_port directory.now m.prog m.vers m.prot in
        OnOk result (out.new.items ≡ out.old.items ++ (accepted_head xid success ++ word port)) }
    ensures begins { StartsWith out.new.items out.old.items }
{
    append_head(out, xid, SUCCESS)?;
    push_word(out, directory.get_port(m.prog, m.vers, m.prot))?;
    Ok(())
}

/// Sets a row (RFC 1833 section 2.2.1, RPCBPROC_SET).
#[tactic(auto, using(crate::proofs::Chains::begins_then))]
pub fn push_set<S: BuildHasher>(
    alloc: Global,
    directory: &mut Directory<S>,
    owner: Owner,
    xid: u32,
    r: Rpcb<'_>,
    out: &mut Vec<u8>,
) -> Result<(), NoMemory>
    ensures ok { let row = row_of r.entry.prog r.entry.vers r.entry.netid.now r.entry.address.now (owner_text owner) in
        OnOk result (Reports (set directory.old row) xid out.old.items directory.new out.new.items) }
    // Where memory is refused the rows stay,
    ensures err { OnErr result (directory.new ≡ directory.old) }
    // and in either case what stood there stays.
    ensures begins { StartsWith out.new.items out.old.items }
{
    push_false(out, xid)?;
    let mut buffer = Buffer::new();
    let owner = owner.text(&mut buffer);
    match directory.set(alloc, r.prog, r.vers, r.netid, r.address, owner) {
        Ok(done) => {
            tell(out, done);
            Ok(())
        }
        Err(_) => Err(NoMemory),
    }
}

/// Removes rows (RFC 1833 section 2.2.1, RPCBPROC_UNSET).
#[tactic(auto, using(crate::proofs::Chains::begins_then))]
pub fn push_unset<S: BuildHasher>(
    directory: &mut Directory<S>,
    owner: Owner,
    xid: u32,
    r: Rpcb<'_>,
    out: &mut Vec<u8>,
) -> Result<(), NoMemory>
    ensures ok { let step = unset directory.old r.entry.prog r.entry.vers r.entry.netid.now (owner_text owner) in
        OnOk result (Reports step xid out.old.items directory.new out.new.items) }
    // Where memory is refused the rows stay,
    ensures err { OnErr result (directory.new ≡ directory.old) }
    // and in either case what stood there stays.
    ensures begins { StartsWith out.new.items out.old.items }
{
    push_false(out, xid)?;
    let mut buffer = Buffer::new();
    let owner = owner.text(&mut buffer);
    let done = directory.unset(r.prog, r.vers, r.netid, owner);
    tell(out, done);
    Ok(())
}

/// Looks an address up over the transport, that of the greatest version where this one is not registered; it has at
/// most 256 bytes (RFC 1833 section 2.2.1, RPCBPROC_GETADDR).
#[tactic(auto, using(crate::proofs::Chains::begins_then, crate::proofs::Chains::begins_added))]
pub fn push_address<S: BuildHasher>(
    directory: &Directory<S>,
    transport: Transport,
    xid: u32,
    r: Rpcb<'_>,
    out: &mut Vec<u8>,
) -> Result<(), NoMemory>
    ensures ok { let address = getaddr directory.now r.entry.prog r.entry.vers (netid_of transport) in
        OnOk result (out.new.items ≡ out.old.items ++ (accepted_head xid success ++ text address)) }
    // An address has at most 256 bytes.
    ensures few { length (getaddr directory.now r.entry.prog r.entry.vers (netid_of transport)) ≤ 256 }
    // What stood there stays.
    ensures begins { StartsWith out.new.items out.old.items }
{
    let address = directory.getaddr(r.prog, r.vers, transport.netid());
    append_head(out, xid, SUCCESS)?;
    push_text(out, address)?;
    Ok(())
}

/// Looks up the address of just this version over the transport; it has at most 256 bytes (RFC 1833 section 2.2.1,
/// RPCBPROC_GETVERSADDR).
#[tactic(auto, using(crate::proofs::Chains::begins_then, crate::proofs::Chains::begins_added))]
pub fn push_version_address<S: BuildHasher>(
    directory: &Directory<S>,
    transport: Transport,
    xid: u32,
    r: Rpcb<'_>,
    out: &mut Vec<u8>,
) -> Result<(), NoMemory>
    ensures ok { let address = getversaddr directory.now r.entry.prog r.entry.vers (netid_of transport) in
        OnOk result (out.new.items ≡ out.old.items ++ (accepted_head xid success ++ text address)) }
    // An address has at most 256 bytes.
    ensures few { length (getversaddr directory.now r.entry.prog r.entry.vers (netid_of transport)) ≤ 256 }
    // What stood there stays.
    ensures begins { StartsWith out.new.items out.old.items }
{
    let address = directory.getversaddr(r.prog, r.vers, transport.netid());
    append_head(out, xid, SUCCESS)?;
    push_text(out, address)?;
    Ok(())
}

/// Writes the length of a text, its bytes, and zeros up to a multiple of four (RFC 4506 section 4.11). The text is
/// shorter than 2^32 bytes.
#[tactic(auto, using(crate::proofs::Chains::begins_then))]
fn push_text(out: &mut Vec<u8>, content: &[u8]) -> Result<(), NoMemory>
    requires { length content.now < 2 ^ 32 }
    ensures ok { OnOk result (out.new.items ≡ out.old.items ++ text content.now) }
    ensures begins { StartsWith out.new.items out.old.items }
{
    push_word(out, content.len() as u32)?;
    push_padded(out, content)
}

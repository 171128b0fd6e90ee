//! The rows of the registry as results.
ghost use Rattle.std.specs.Prelude.{◌≡◌, ◌≤◌, ◌++◌, ◌∷◌, [], ◌+◌, length, replicate, OnOk};
ghost use Rattle.std.specs.Io.{StartsWith};
ghost use Rattle.xdr_units.specs.Numbers.{word, pad, gap};
ghost use Rattle.xdr_types.specs.Spelling.{bytes_of};
ghost use Rattle.registry_rows.specs.Rows.{IsRow};
ghost use Rattle.registry_rows.specs.Views.{plain_row};
ghost use Rattle.registry_dumps.specs.Dir.{dir_kinds, rpcb_list_kind, mapping_list_kind};
ghost use Rattle.registry_dumps.specs.Dumps.{rpcb_list, mapping_list, dump_limits};
ghost use Rattle.registry_answer.specs.Private.Parsed.{text};
ghost use Rattle.registry_answer.specs.Private.Pushes.{row_bytes, front_bytes, mapping_bytes, mapping_at_bytes};

use registry_rows::prot_of_netid;
use rpc_directory::{Directory, Row, Uaddr, read_uaddr};
use std::hash::BuildHasher;
use xdr_units::{NoMemory, push_word};

/// Writes all rows in order as an `rpcblist` (RFC 1833 section 2.2.1, RPCBPROC_DUMP).
#[tactic(auto, using(crate::proofs::Chains::begins_then))]
pub fn push_rows<S: BuildHasher>(
    directory: &Directory<S>,
    out: &mut Vec<u8>,
) -> Result<(), NoMemory>
    ensures ok { let list = bytes_of dir_kinds rpcb_list_kind (rpcb_list directory.now) in
        OnOk result (out.new.items ≡ out.old.items ++ list) }
    // The list keeps to the limits of a dump.
    ensures few { length (bytes_of dir_kinds rpcb_list_kind (rpcb_list directory.now)) ≤ dump_limits.bytes }
    // What stood there stays.
    ensures begins { StartsWith out.new.items out.old.items }
{
    let rows = directory.rows();
    let mut before = 0;
    for index in 0..rows {
        match directory.row(index) {
            Some(row) => {
                push_row(row, before, out)?;
                let owner: &[u8] = &row.owner;
                before = owner.len();
            }
            None => unreachable!(),
        }
    }
    push_between(out, before, 0)?;
    Ok(())
}

/// That a row follows, and it up to its address's length, where its netid has the three bytes x, y and z, behind three
/// zeros (RFC 1833 section 2.1).
fn short_head(prog: u32, vers: u32, x: u8, y: u8, z: u8, length: u32) -> [u8; 27]
    ensures { let netid = x ∷ y ∷ z ∷ [] in
        result ≡ replicate 3 0 ++ (word 1 ++ (word prog ++ (word vers ++ (text netid ++ word length)))) }
{
    let [a, b, c, d] = prog.to_be_bytes();
    let [e, f, g, h] = vers.to_be_bytes();
    let [i, j, k, l] = length.to_be_bytes();
    [
        0, 0, 0, 0, 0, 0, 1, a, b, c, d, e, f, g, h, 0, 0, 0, 3, x, y, z, 0, i, j, k, l,
    ]
}

/// The numbers of a row and its netid's length (RFC 1833 section 2.1).
fn row_head(prog: u32, vers: u32, length: u32) -> [u8; 12]
    ensures { result ≡ word prog ++ (word vers ++ word length) }
{
    let [a, b, c, d] = prog.to_be_bytes();
    let [e, f, g, h] = vers.to_be_bytes();
    let [i, j, k, l] = length.to_be_bytes();
    [a, b, c, d, e, f, g, h, i, j, k, l]
}

/// Where the padding of a text of `size` bytes begins in three zeros (RFC 4506 section 3).
fn zeros_from(size: usize) -> usize
    ensures { result + gap size ≡ 3 }
{
    match size % 4 {
        0 => 3,
        1 => 0,
        2 => 1,
        _ => 2,
    }
}

/// Writes the padding of a text of `size` bytes and the number that follows, in one piece.
#[tactic(auto, using(crate::proofs::Chains::begins_then))]
fn push_between(out: &mut Vec<u8>, size: usize, number: u32) -> Result<(), NoMemory>
    ensures ok { OnOk result (out.new.items ≡ out.old.items ++ (pad size ++ word number)) }
    ensures begins { StartsWith out.new.items out.old.items }
{
    let [a, b, c, d] = number.to_be_bytes();
    match size % 4 {
        0 => Ok(out.extend_from_slice(&[a, b, c, d])?),
        1 => Ok(out.extend_from_slice(&[0, 0, 0, a, b, c, d])?),
        2 => Ok(out.extend_from_slice(&[0, 0, a, b, c, d])?),
        _ => Ok(out.extend_from_slice(&[0, a, b, c, d])?),
    }
}

/// Writes the padding of the text before a row, which has `before` bytes, and then the row up to its address's length.
/// They are written in one piece where the netid has three bytes, as `tcp` and `udp` have.
#[tactic(auto, using(crate::proofs::Chains::begins_then))]
fn push_front(row: &Row, before: usize, out: &mut Vec<u8>) -> Result<(), NoMemory>
    requires { IsRow (plain_row row.now) }
    ensures ok { OnOk result (out.new.items ≡ out.old.items ++ (pad before ++ front_bytes (plain_row row.now))) }
    ensures begins { StartsWith out.new.items out.old.items }
{
    let netid: &[u8] = &row.netid;
    let address: &[u8] = &row.address;
    let length = address.len() as u32;
    if let [x, y, z] = *netid {
        let head = short_head(row.prog, row.vers, x, y, z, length);
        return Ok(out.extend_from_slice(&head[zeros_from(before)..])?);
    }
    push_between(out, before, 1)?;
    out.extend_from_slice(&row_head(row.prog, row.vers, netid.len() as u32))?;
    out.extend_from_slice(netid)?;
    push_between(out, netid.len(), length)?;
    Ok(())
}

/// Writes the padding of the text before it, of `before` bytes, that a row follows, and the row without its last
/// padding.
#[tactic(auto, using(crate::proofs::Chains::begins_then))]
fn push_row(row: &Row, before: usize, out: &mut Vec<u8>) -> Result<(), NoMemory>
    requires { IsRow (plain_row row.now) }
    ensures ok { OnOk result (out.new.items ++ pad (length row.now.owner.items)
        ≡ (out.old.items ++ pad before) ++ row_bytes (plain_row row.now)) }
    ensures begins { StartsWith out.new.items out.old.items }
{
    let address: &[u8] = &row.address;
    let owner: &[u8] = &row.owner;
    push_front(row, before, out)?;
    out.extend_from_slice(address)?;
    push_between(out, address.len(), owner.len() as u32)?;
    out.extend_from_slice(owner)?;
    Ok(())
}

/// Writes the rows over `tcp` and `udp` whose address is a universal address over IPv4, in order, as a `pmaplist` (RFC
/// 1833 section 3.2, PMAPPROC_DUMP).
#[tactic(auto, using(crate::proofs::Chains::begins_then))]
pub fn push_mappings<S: BuildHasher>(
    directory: &Directory<S>,
    out: &mut Vec<u8>,
) -> Result<(), NoMemory>
    ensures ok { let list = bytes_of dir_kinds mapping_list_kind (mapping_list directory.now) in
        OnOk result (out.new.items ≡ out.old.items ++ list) }
    // The list keeps to the limits of a dump.
    ensures few { length (bytes_of dir_kinds mapping_list_kind (mapping_list directory.now)) ≤ dump_limits.bytes }
    // What stood there stays.
    ensures begins { StartsWith out.new.items out.old.items }
{
    let rows = directory.rows();
    for index in 0..rows {
        match directory.row(index) {
            Some(row) => push_mapping(row, out)?,
            None => unreachable!(),
        }
    }
    push_word(out, 0)?;
    Ok(())
}

/// Writes that a mapping follows, and the mapping, where the row has one.
#[tactic(auto, using(crate::proofs::Chains::begins_then))]
fn push_mapping(row: &Row, out: &mut Vec<u8>) -> Result<(), NoMemory>
    ensures ok { OnOk result (out.new.items ≡ out.old.items ++ mapping_bytes (plain_row row.now)) }
    ensures begins { StartsWith out.new.items out.old.items }
{
    match (prot_of_netid(&row.netid), read_uaddr(&row.address)) {
        (Some(prot), Some(address)) => push_mapping_at(row, prot, address, out),
        _ => Ok(()),
    }
}

/// Writes that a mapping follows, and the mapping.
#[tactic(auto, using(crate::proofs::Chains::begins_then))]
fn push_mapping_at(row: &Row, prot: u32, address: Uaddr, out: &mut Vec<u8>) -> Result<(), NoMemory>
    ensures ok { OnOk result (out.new.items ≡ out.old.items ++ mapping_at_bytes (plain_row row.now) prot address) }
    ensures begins { StartsWith out.new.items out.old.items }
{
    let port = u32::from(address.port);
    out.extend_from_slice(&mapping_words(row.prog, row.vers, prot, port))?;
    Ok(())
}

/// The words of a mapping, after the one that says that it is there (RFC 1833 section 3.1).
fn mapping_words(prog: u32, vers: u32, prot: u32, port: u32) -> [u8; 20]
    ensures { result ≡ word 1 ++ (word prog ++ (word vers ++ (word prot ++ word port))) }
{
    let [a, b, c, d] = prog.to_be_bytes();
    let [e, f, g, h] = vers.to_be_bytes();
    let [i, j, k, l] = prot.to_be_bytes();
    let [m, n, o, p] = port.to_be_bytes();
    [0, 0, 0, 1, a, b, c, d, e, f, g, h, i, j, k, l, m, n, o, p]
}

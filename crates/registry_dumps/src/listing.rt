//! Rows as values.
ghost use Rattle.std.specs.Prelude.{◌≡◌, ◌∷◌, [], IfOk, option_map};
ghost use Rattle.xdr_types.specs.View.{tree};
ghost use Rattle.registry_rows.specs.Views.{plain_row};
ghost use Rattle.registry_dumps.specs.Dumps.{rpcb_tree, mapping_tree, mapping_row, given, group};

use registry_rows::{Row, prot_of_netid};
use registry_uaddr::{Uaddr, read_uaddr};
use std::alloc::Global;
use std::boxed::Box;
use xdr_types::{NoMemory, Value};

/// The row as an `rpcb` (RFC 1833 section 2.1).
pub fn rpcb(alloc: Global, row: &Row) -> Result<Value, NoMemory>
    ensures { IfOk result (λ v. tree v ≡ rpcb_tree (plain_row row.now)) }
{
    let mut parts = Vec::with_capacity(alloc, 5)?;
    parts.push(Value::Unsigned(row.prog))?;
    parts.push(Value::Unsigned(row.vers))?;
    parts.push(Value::Bytes(row.netid.to_vec(alloc)?))?;
    parts.push(Value::Bytes(row.address.to_vec(alloc)?))?;
    parts.push(Value::Bytes(row.owner.to_vec(alloc)?))?;
    Ok(Value::Group(parts))
}

/// The row as a `mapping` (RFC 1833 section 3.1), where it is over `tcp` or `udp` and its address is a universal
/// address over IPv4.
pub fn mapping(alloc: Global, row: &Row) -> Result<Option<Value>, NoMemory>
    ensures { IfOk result (λ v. option_map tree v ≡ mapping_row (plain_row row.now)) }
{
    let prot = match prot_of_netid(&row.netid) {
        Some(prot) => prot,
        None => return Ok(None),
    };
    match read_uaddr(&row.address) {
        Some(address) => Ok(Some(mapping_at(alloc, row, prot, address)?)),
        None => Ok(None),
    }
}

// The row as a mapping with the transport's number and the address's port.
fn mapping_at(alloc: Global, row: &Row, prot: u32, address: Uaddr) -> Result<Value, NoMemory>
    ensures { IfOk result (λ v. tree v ≡ mapping_tree (plain_row row.now) prot address) }
{
    let mut parts = Vec::with_capacity(alloc, 4)?;
    parts.push(Value::Unsigned(row.prog))?;
    parts.push(Value::Unsigned(row.vers))?;
    parts.push(Value::Unsigned(prot))?;
    parts.push(Value::Unsigned(u32::from(address.port)))?;
    Ok(Value::Group(parts))
}

/// A chain of optional nodes with one more value at its front (RFC 4506 section 4.19).
pub fn linked(alloc: Global, first: Value, rest: Value) -> Result<Value, NoMemory>
    ensures { IfOk result (λ v. tree v ≡ given (group (tree first ∷ tree rest ∷ []))) }
{
    let mut parts = Vec::with_capacity(alloc, 2)?;
    parts.push(first)?;
    parts.push(rest)?;
    Ok(Value::Maybe(Some(Box::new(alloc, Value::Group(parts))?)))
}

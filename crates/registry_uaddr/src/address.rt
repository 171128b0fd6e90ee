//! Universal addresses as texts.
ghost use Rattle.std.specs.Prelude.{◌≡◌, ◌++◌, codes, decimal, IfOk, OnOk};
ghost use Rattle.registry_uaddr.specs.Uaddrs.{uaddr_text};

use std::alloc::Global;
use xdr_units::{NoMemory, push_decimal};

/// A host and a port over IPv4 (RFC 5665 section 5.2.3.3).
#[derive(Clone, Copy, Debug, PartialEq, Eq)]
pub struct Uaddr {
    /// The host's four octets, as they stand in its dotted text.
    pub host: [u8; 4],
    /// The port of TCP or UDP, whose high octet comes before its low one in the text.
    pub port: u16,
}

/// The universal address as a text: the host's four octets, then the port's high and low octet, in decimal and with
/// dots between them (RFC 5665 section 5.2.3.3). Its only error is `NoMemory`.
pub fn write_uaddr(alloc: Global, address: Uaddr) -> Result<Vec<u8>, NoMemory>
    ensures { IfOk result (λ v. v.items ≡ uaddr_text address) }
{
    let mut text = Vec::new(alloc);
    push_decimal(&mut text, u32::from(address.host[0]))?;
    push_dotted(&mut text, u32::from(address.host[1]))?;
    push_dotted(&mut text, u32::from(address.host[2]))?;
    push_dotted(&mut text, u32::from(address.host[3]))?;
    push_dotted(&mut text, u32::from(address.port / 256))?;
    push_dotted(&mut text, u32::from(address.port % 256))?;
    Ok(text)
}

/// Adds a dot and a number.
fn push_dotted(text: &mut Vec<u8>, number: u32) -> Result<(), NoMemory>
    ensures { OnOk result (text.new.items ≡ text.old.items ++ (codes "." ++ decimal number)) }
{
    text.push(b'.')?;
    push_decimal(text, number)
}

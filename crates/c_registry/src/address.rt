//! Universal addresses (RFC 5665 section 5.2.3.3), between texts and numbers.
ghost use Rattle.std.specs.Prelude.{◌≡◌};
ghost use Rattle.registry_uaddr.specs.declared.address.Uaddr.{Uaddr as PlainUaddr};
ghost use Rattle.registry_uaddr.specs.Uaddrs.{uaddr_of, uaddr_text, IsUaddr};
ghost use Rattle.c_registry.specs.Addresses.{address_of, reported_of, IsAddressWritten};
ghost use Rattle.c_registry.specs.Statuses.{ReportsCount};

use super::answer::Answer;
use super::buffer::place;
use registry_uaddr::{Uaddr, read_uaddr, write_uaddr};
use std::alloc::Global;

/// Reads a text as a universal address, as `oncrpc_uaddr_read` says.
pub fn read_address(text: &[u8], host: &mut [u8; 4], port: &mut u16) -> u32
    // What is reported is what the definition reads:
    ensures value { (result, address_of host.new port.new) ≡ reported_of (uaddr_of text.now) }
    // at 0 the text is that of the address,
    ensures some { result ≡ 0 → text.now ≡ uaddr_text (address_of host.new port.new) }
    // and at 25 it is that of none.
    ensures none { result ≡ 25 → (a : PlainUaddr) → IsUaddr a → text.now ≡ uaddr_text a → ⊥ }
{
    match read_uaddr(text) {
        Some(address) => {
            let octets = address.host;
            *host = octets;
            *port = address.port;
            0
        }
        None => {
            *host = [0; 4];
            *port = 0;
            25
        }
    }
}

/// The text of an address, put into the buffer.
fn address_into(alloc: Global, address: Uaddr, buffer: &mut [u8]) -> Answer
    ensures { IsAddressWritten address buffer.old buffer.new result }
{
    match write_uaddr(alloc, address) {
        Ok(text) => place(&text, buffer),
        Err(_) => Answer::NoMemory,
    }
}

/// Writes a host and a port as a universal address, as `oncrpc_uaddr_write` says.
pub fn write_address(
    alloc: Global,
    host: &[u8; 4],
    port: u16,
    buffer: &mut [u8],
    count: &mut usize,
) -> u32
    ensures { ReportsCount (IsAddressWritten (address_of host.now port) buffer.old buffer.new) result count.new }
{
    let answer = address_into(alloc, Uaddr { host: *host, port }, buffer);
    *count = answer.count();
    answer.status()
}

//! Universal addresses (RFC 5665 section 5.2.3.3).
ghost use Rattle.std.specs.Prelude.{◌≡◌};
ghost use Rattle.registry_uaddr.specs.declared.address.Uaddr.{Uaddr as PlainUaddr};
ghost use Rattle.registry_uaddr.specs.Uaddrs.{uaddr_of, uaddr_text, IsUaddr};
ghost use Rattle.c_registry.specs.Addresses.{address_of, reported_of, IsAddressWritten};
ghost use Rattle.c_registry.specs.Statuses.{ReportsCount};

use std::alloc::Global;

/// Reads a text as a universal address over IPv4 (RFC 5665 section 5.2.3.3). It takes no memory.
///
/// Status 0: it is that of `host` and `port`. 25: it is that of no host and port, and both are filled with 0.
#[unsafe(no_mangle)]
pub extern "C" fn oncrpc_uaddr_read(text: &[u8], host: &mut [u8; 4], port: &mut u16) -> u32
    // What is reported is what the definition reads:
    ensures value { (result, address_of host.new port.new) ≡ reported_of (uaddr_of text.now) }
    // at 0 the text is that of the address,
    ensures some { result ≡ 0 → text.now ≡ uaddr_text (address_of host.new port.new) }
    // and at 25 it is that of none.
    ensures none { result ≡ 25 → (a : PlainUaddr) → IsUaddr a → text.now ≡ uaddr_text a → ⊥ }
{
    c_registry::read_address(text, host, port)
}

/// Writes the universal address of a host and a port into the buffer (RFC 5665 section 5.2.3.3).
///
/// Status 0: the `count` bytes of the address are written, and the rest of the buffer is untouched. 8: the buffer is
/// too small, `count` bytes are needed. 6: memory was refused, and `count` is 0. At 6 and 8 the buffer is untouched.
#[unsafe(no_mangle)]
pub extern "C" fn oncrpc_uaddr_write(
    alloc: Global,
    host: &[u8; 4],
    port: u16,
    buffer: &mut [u8],
    count: &mut usize,
) -> u32
    ensures { ReportsCount (IsAddressWritten (address_of host.now port) buffer.old buffer.new) result count.new }
{
    c_registry::write_address(alloc, host, port, buffer, count)
}

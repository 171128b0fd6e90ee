//! Universal addresses over IPv4: which texts are read as which address, and what is written
//! (RFC 5665 section 5.2.3.3).
ghost use Rattle.std.specs.Prelude.{◌≡◌, [], ◌∷◌, codes, Some, None, IfOk, IfSome, option_map};
ghost use Rattle.registry_uaddr.specs.Uaddrs.{IsUaddr};

use registry_uaddr::{NoMemory, Uaddr, read_uaddr, uaddr_reads_back, write_uaddr};
use std::alloc::Global;

/// 256 is no octet.
pub fn reads_no_number_above_an_octet(text: &[u8]) -> Option<Uaddr>
    requires { text.now ≡ codes "1.2.3.4.0.256" }
    ensures { result ≡ None }
{
    read_uaddr(text)
}

/// A number has no leading zero, so each address has one text.
pub fn reads_no_leading_zero(text: &[u8]) -> Option<Uaddr>
    requires { text.now ≡ codes "01.2.3.4.0.1" }
    ensures { result ≡ None }
{
    read_uaddr(text)
}

/// Five numbers are no address.
pub fn reads_no_five_numbers(text: &[u8]) -> Option<Uaddr>
    requires { text.now ≡ codes "1.2.3.4.5" }
    ensures { result ≡ None }
{
    read_uaddr(text)
}

/// No text at all is none either.
pub fn reads_no_empty_text(text: &[u8]) -> Option<Uaddr>
    requires { text.now ≡ [] }
    ensures { result ≡ None }
{
    read_uaddr(text)
}

/// Numbers of two and three digits are read: the port's high octet is 8 and its low one 1.
pub fn reads_numbers_above_9(text: &[u8]) -> Option<Uaddr>
    requires { text.now ≡ codes "192.0.2.17.8.1" }
    ensures { result ≡ Some (record { host = 192 ∷ 0 ∷ 2 ∷ 17 ∷ []; port = 2049 }) }
{
    read_uaddr(text)
}

/// An address that was written is read again.
pub fn reads_what_was_written(alloc: Global, address: Uaddr) -> Result<Option<Uaddr>, NoMemory>
    requires { IsUaddr address }
    ensures { IfOk result (λ read. read ≡ Some address) }
{
    uaddr_reads_back();
    let text = write_uaddr(alloc, address)?;
    Ok(read_uaddr(&text))
}

/// An address that was read is written to the text that it was read from.
pub fn writes_what_was_read(alloc: Global, text: &[u8]) -> Option<Vec<u8>>
    ensures { IfSome result (λ v. v.items ≡ text.now) }
{
    let address = read_uaddr(text)?;
    write_uaddr(alloc, address).ok()
}

/// The last two numbers are the port's high octet and its low one.
pub fn writes_the_port_by_octets(alloc: Global) -> Result<Vec<u8>, NoMemory>
    ensures { IfOk result (λ text. text.items ≡ codes "127.0.0.1.8.1") }
{
    let address = Uaddr {
        host: [127, 0, 0, 1],
        port: 2049,
    };
    write_uaddr(alloc, address)
}

/// And so they are read.
pub fn reads_the_port_by_octets(text: &[u8]) -> Option<Uaddr>
    requires { text.now ≡ codes "127.0.0.1.8.1" }
    ensures { option_map (λ a. a.port) result ≡ Some 2049 }
{
    read_uaddr(text)
}

//! The port that a registry tells.
ghost use Rattle.std.specs.Prelude.{◌≡◌, ◌<◌, ℕ, Some, IfSome, option_map};
ghost use Rattle.registry_uaddr.specs.Uaddrs.{uaddr_of};
ghost use Rattle.oncrpc_call.specs.Ports.{BeginsWith, IsUaddrOver, TellsAddress, TellsNumber, TellsPort};

use crate::transport::Transport;
use crate::uaddr6::port_over_6;
use registry_uaddr::read_uaddr;
use xdr_units::{first_content, first_word};

/// The port that a version of the registry tells by the results of its procedure 3 over a transport. In version 2 that
/// is GETPORT, whose results are a number (RFC 1833 section 3.2). Else it is GETADDR, whose results are the text of a
/// universal address (RFC 1833 section 2.2.1). `None` where they tell none: of a program without a row they are 0 and
/// an empty text. What follows the number or the text is left out, and so is the host of the address.
pub fn told_port(registry: u32, over: Transport, results: &[u8]) -> Option<u16>
    // The results tell the port,
    ensures told { IfSome result (λ port. TellsPort registry over results.now port) }
    // and a port that they tell is found.
    ensures only { (port : ℕ) → TellsPort registry over results.now port → result ≡ Some port }
{
    let port = port_in(registry, over, results)?;
    if port > 0 { Some(port) } else { None }
}

// The port that results begin with, which may be 0.
fn port_in(registry: u32, over: Transport, results: &[u8]) -> Option<u16>
    ensures told { IfSome result (λ port. BeginsWith registry over results.now port) }
    ensures only { (port : ℕ) → BeginsWith registry over results.now port → result ≡ Some port }
{
    if registry == 2 {
        port_in_number(results)
    } else {
        port_in_address(over, results)
    }
}

// The port of the text of an address with which results begin.
fn port_in_address(over: Transport, results: &[u8]) -> Option<u16>
    ensures told { IfSome result (λ port. TellsAddress over results.now port) }
    ensures only { (port : ℕ) → TellsAddress over results.now port → result ≡ Some port }
{
    let (count, rest) = first_word(results)?;
    match first_content(rest, count) {
        Ok((text, _more)) => port_over(over, text),
        Err(_) => None,
    }
}

// The number below 65536 with which results begin.
fn port_in_number(results: &[u8]) -> Option<u16>
    ensures told { IfSome result (λ port. TellsNumber results.now port) }
    ensures only { (port : ℕ) → TellsNumber results.now port → result ≡ Some port }
{
    let (port, _more) = first_word(results)?;
    if port < 65536 {
        Some(port as u16)
    } else {
        None
    }
}

// The port of a universal address over a transport.
fn port_over(over: Transport, text: &[u8]) -> Option<u16>
    ensures told { IfSome result (λ port. IsUaddrOver over text.now port) }
    ensures only { (port : ℕ) → IsUaddrOver over text.now port → result ≡ Some port }
{
    match over {
        Transport::Tcp | Transport::Udp => port_over_4(text),
        Transport::Tcp6 | Transport::Udp6 => port_over_6(text),
    }
}

fn port_over_4(text: &[u8]) -> Option<u16>
    ensures { result ≡ option_map (λ a. a.port) (uaddr_of text.now) }
{
    match read_uaddr(text) {
        Some(address) => Some(address.port),
        None => None,
    }
}

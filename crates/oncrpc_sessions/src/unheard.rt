//! Why a registry is not heard, or no longer.
ghost use Rattle.std.specs.Prelude.{◌≡◌, Ok, Err, IfOk, IfErr, string_bytes};
ghost use Rattle.oncrpc_sessions.specs.Faults.{fault_line, place_text, socket_line, spaced, unheard_by};
ghost use Rattle.oncrpc_sessions.specs.declared.unheard.Unheard.TheVariants as fault;

use crate::cause::Cause;
use rpc_directory::NoMemory;
use std::alloc::{AllocError, Global};
use std::io;
use std::net::{IpAddr, SocketAddr};

/// What a registry wants of the system.
#[derive(Clone, Copy, Debug, PartialEq, Eq)]
pub enum Place {
    /// The socket for connections over TCP, at an address and a port.
    Tcp(SocketAddr),
    /// The socket for datagrams, at an address and a port.
    Udp(SocketAddr),
    /// The Unix socket.
    Local,
    /// To wait for all of them.
    Waiting,
    /// The random bytes behind which rows are hashed.
    Random,
}

/// Why a registry is not heard, or no longer.
#[derive(Clone, Copy, Debug, PartialEq, Eq)]
pub enum Unheard {
    /// What it wants could not be had, or failed.
    Socket { place: Place, cause: Cause },
    /// Memory was refused.
    NoMemory,
}

impl Unheard {
    /// What an error of the system is, where a registry wants this of it.
    pub fn by(place: Place, error: &io::Error) -> Unheard
        ensures { result ≡ unheard_by place error.now }
    {
        match Cause::of(error) {
            Some(cause) => Unheard::Socket { place, cause },
            None => Unheard::NoMemory,
        }
    }

    /// The line of it, with its line feed, where a Unix socket has this path. The error is an allocation failure.
    pub fn line(self, alloc: Global, path: &str) -> Result<String, AllocError>
        ensures { IfOk result (λ text. string_bytes text ≡ fault_line self path.now) }
    {
        match self {
            Unheard::Socket { place, cause } => {
                let place = place_text(alloc, place, path)?;
                let cause = cause.text(alloc)?;
                socket_line(alloc, place.as_str(), cause.as_str())
            }
            Unheard::NoMemory => String::from_str(alloc, "out of memory\n"),
        }
    }
}

impl From<AllocError> for Unheard {
    ghost from_gives = { λ _ why. why ≡ fault.NoMemory };

    fn from(_: AllocError) -> Unheard {
        Unheard::NoMemory
    }
}

impl From<NoMemory> for Unheard {
    ghost from_gives = { λ _ why. why ≡ fault.NoMemory };

    fn from(_: NoMemory) -> Unheard {
        Unheard::NoMemory
    }
}

/// What the system gave, or why a registry is not heard that wanted it.
pub fn heard<T>(place: Place, given: io::Result<T>) -> Result<T, Unheard>
    ensures ok { IfOk given (λ value. result ≡ Ok value) }
    ensures err { IfErr given (λ error. result ≡ Err (unheard_by place error)) }
{
    match given {
        Ok(value) => Ok(value),
        Err(error) => Err(Unheard::by(place, &error)),
    }
}

fn socket_line(alloc: Global, place: &str, cause: &str) -> Result<String, AllocError>
    ensures { IfOk result (λ text. string_bytes text ≡ socket_line place.now cause.now) }
{
    format!(in alloc; "socket fault: {place}: {cause}\n")
}

// What was asked for there.
fn place_text(alloc: Global, place: Place, path: &str) -> Result<String, AllocError>
    ensures { IfOk result (λ text. string_bytes text ≡ place_text place path.now) }
{
    match place {
        Place::Tcp(address) => spaced(alloc, address.ip(), address.port(), "tcp"),
        Place::Udp(address) => spaced(alloc, address.ip(), address.port(), "udp"),
        Place::Local => String::from_str(alloc, path),
        Place::Waiting => String::from_str(alloc, "waiting"),
        Place::Random => String::from_str(alloc, "random bytes"),
    }
}

fn spaced(alloc: Global, host: IpAddr, port: u16, transport: &str) -> Result<String, AllocError>
    ensures { IfOk result (λ text. string_bytes text ≡ spaced host port transport.now) }
{
    format!(in alloc; "{host} {port} over {transport}")
}

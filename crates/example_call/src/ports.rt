//! The port of a program, as a registry is asked for it and tells it.
ghost use Rattle.std.specs.Prelude.{◌≡◌, [], ◌∷◌, ◌++◌, codes, Some, IfOk};
ghost use Rattle.rpc_message.specs.View.{call_view};

use oncrpc_call::{Transport, port_question, told_port};
use rpc_message::Call;
use std::alloc::Global;
use std::net::Ipv6Addr;
use xdr_types::NoMemory;

/// Version 3 of program 100005 over TCP and IPv6 is asked for by the netid `tcp6`.
pub fn asks_over_ipv6(alloc: Global) -> Result<Call, NoMemory>
    ensures { IfOk result (λ c. (call_view c).args ≡
        0 ∷ 1 ∷ 134 ∷ 165 ∷ 0 ∷ 0 ∷ 0 ∷ 3 ∷ 0 ∷ 0 ∷ 0 ∷ 4 ∷ 116 ∷ 99 ∷ 112 ∷ 54
        ∷ 0 ∷ 0 ∷ 0 ∷ 0 ∷ 0 ∷ 0 ∷ 0 ∷ 0 ∷ []) }
{
    port_question(alloc, 4, 100005, 3, Transport::Tcp6)
}

/// Port 2049 of `::1` is told by `::1.8.1`.
pub fn tells_the_port_over_ipv6(results: &[u8]) -> Option<u16>
    requires { results.now ≡ 0 ∷ 0 ∷ 0 ∷ 7 ∷ codes "::1.8.1" ++ 0 ∷ [] }
    ensures { result ≡ Some 2049 }
{
    let _host = Ipv6Addr::new(0, 0, 0, 0, 0, 0, 0, 1);
    told_port(4, Transport::Tcp6, results)
}

/// And of 127.0.0.1 by `127.0.0.1.8.1`.
pub fn tells_the_port_over_ipv4(results: &[u8]) -> Option<u16>
    requires { results.now ≡ 0 ∷ 0 ∷ 0 ∷ 13 ∷ codes "127.0.0.1.8.1" ++ 0 ∷ 0 ∷ 0 ∷ [] }
    ensures { result ≡ Some 2049 }
{
    told_port(3, Transport::Udp, results)
}

/// Version 2 of the registry tells it as a number.
pub fn tells_the_port_as_a_number(results: &[u8]) -> Option<u16>
    requires { results.now ≡ 0 ∷ 0 ∷ 8 ∷ 1 ∷ [] }
    ensures { result ≡ Some 2049 }
{
    told_port(2, Transport::Udp, results)
}

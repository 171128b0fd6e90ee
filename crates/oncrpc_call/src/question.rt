//! The question for a program's port, as it is put to a registry.
ghost use Rattle.std.specs.Prelude.{◌≡◌, ◌≤◌, [], IfOk, length};
ghost use Rattle.rpc_message.specs.View.{auth_view, call_view};
ghost use Rattle.oncrpc_call.specs.Questions.{CanBeSent, address_args, netid, port_args, question};

use crate::transport::Transport;
use rpc_message::{Call, OpaqueAuth};
use std::alloc::Global;
use xdr_units::{NoMemory, push_padded, push_word};

/// The program of the registry (RFC 1833 section 2.1).
const REGISTRY: u32 = 100000;

/// The call by which a version of the registry, 2 to 4, is asked where a version of a program is, over a transport. It
/// is procedure 3: GETPORT in version 2, and else GETADDR (RFC 1833 sections 2.2.1 and 3.2).
pub fn port_question(
    alloc: Global,
    registry: u32,
    program: u32,
    version: u32,
    over: Transport,
) -> Result<Call, NoMemory>
    // What is asked is that question,
    ensures asks { IfOk result (λ c. call_view c ≡ question registry program version over) }
    // and it can be sent.
    ensures ready { IfOk result (λ c. CanBeSent c) }
{
    let args = if registry == 2 {
        port_args(alloc, program, version, over)?
    } else {
        address_args(alloc, program, version, over)?
    };
    Ok(Call {
        xid: registry,
        prog: REGISTRY,
        vers: registry,
        proc: 3,
        cred: nobody(alloc),
        verf: nobody(alloc),
        args,
    })
}

// A `mapping` without a port (RFC 1833 section 3.1).
fn port_args(
    alloc: Global,
    program: u32,
    version: u32,
    over: Transport,
) -> Result<Vec<u8>, NoMemory>
    ensures { IfOk result (λ args. args.items ≡ port_args program version over) }
{
    let mut args = Vec::new(alloc);
    push_word(&mut args, program)?;
    push_word(&mut args, version)?;
    push_word(&mut args, over.protocol())?;
    push_word(&mut args, 0)?;
    Ok(args)
}

// An `rpcb` without an address and an owner (RFC 1833 section 2.1).
fn address_args(
    alloc: Global,
    program: u32,
    version: u32,
    over: Transport,
) -> Result<Vec<u8>, NoMemory>
    ensures { IfOk result (λ args. args.items ≡ address_args program version over) }
{
    let mut args = Vec::new(alloc);
    push_word(&mut args, program)?;
    push_word(&mut args, version)?;
    push_word(&mut args, netid_length(over))?;
    push_padded(&mut args, over.netid())?;
    push_word(&mut args, 0)?;
    push_word(&mut args, 0)?;
    Ok(args)
}

fn netid_length(over: Transport) -> u32
    ensures { result ≡ length (netid over) }
{
    match over {
        Transport::Tcp | Transport::Udp => 3,
        Transport::Tcp6 | Transport::Udp6 => 4,
    }
}

// AUTH_NONE with an empty body (RFC 5531 section 10.1).
fn nobody(alloc: Global) -> OpaqueAuth
    ensures { auth_view result ≡ record { flavor = 0; body = [] } }
{
    OpaqueAuth {
        flavor: 0,
        body: Vec::new(alloc),
    }
}

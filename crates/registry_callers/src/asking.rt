//! Which calls change rows, and which look addresses up. Nothing here takes memory.
ghost use Rattle.std.specs.Prelude.{◌≡◌};
ghost use Rattle.rpc_message.specs.View.{lent_call_view};
ghost use Rattle.registry_callers.specs.Asking as plain;

use registry_rows::{HIGHEST_VERSION, LOWEST_VERSION, PROGRAM};
use rpc_message::LentCall;

/// The numbers of the procedures (RFC 1833 sections 2.2.1 and 3.2).
const SET: u32 = 1;

const UNSET: u32 = 2;

const GETADDR: u32 = 3;

const GETVERSADDR: u32 = 9;

/// Whether the call is of the registry, in one of its versions.
fn is_registry(call: &LentCall<'_>) -> bool
    ensures { result ≡ plain.is_registry (lent_call_view call.now) }
{
    call.prog == PROGRAM && (LOWEST_VERSION <= call.vers && call.vers <= HIGHEST_VERSION)
}

/// Whether the call is a SET of the registry.
pub fn is_set(call: &LentCall<'_>) -> bool
    ensures { result ≡ plain.is_set (lent_call_view call.now) }
{
    is_registry(call) && call.proc == SET
}

/// Whether the call is a SET or an UNSET of the registry.
pub fn is_change(call: &LentCall<'_>) -> bool
    ensures { result ≡ plain.is_change (lent_call_view call.now) }
{
    is_registry(call) && (call.proc == SET || call.proc == UNSET)
}

/// Whether the call is a GETADDR or a GETVERSADDR of the registry.
pub fn is_look_up(call: &LentCall<'_>) -> bool
    ensures { result ≡ plain.is_look_up (lent_call_view call.now) }
{
    call.prog == PROGRAM
        && ((call.vers == 3 && call.proc == GETADDR)
            || (call.vers == 4 && (call.proc == GETADDR || call.proc == GETVERSADDR)))
}

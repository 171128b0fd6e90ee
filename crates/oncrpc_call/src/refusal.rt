//! The lines of calls that are denied.
ghost use Rattle.std.specs.Prelude.{◌≡◌, IfOk, option_map, slice_get, string_bytes};
ghost use Rattle.rpc_message.specs.View.{why_view};
ghost use Rattle.oncrpc_call.specs.Lines.{auth_stat_names, auth_stat_text, denied_line};

use rpc_message::Why;
use std::alloc::{AllocError, Global};

/// The line of a call that was denied, `auth_stat` by its name (RFC 5531 section 9). The error is an allocation
/// failure.
pub fn denied_line(alloc: Global, why: Why) -> Result<String, AllocError>
    ensures { IfOk result (λ text. string_bytes text ≡ denied_line (why_view why)) }
{
    match why {
        Why::RpcMismatch { low, high } => format!(in alloc; "refused RPC_MISMATCH {low} {high}\n"),
        Why::AuthError(stat) => {
            let text = auth_stat_text(alloc, stat)?;
            format!(in alloc; "refused AUTH_ERROR {}\n", text.as_str())
        }
    }
}

// The name of an `auth_stat`, or its number where RFC 5531 has no name for it.
fn auth_stat_text(alloc: Global, stat: u32) -> Result<String, AllocError>
    ensures { IfOk result (λ text. string_bytes text ≡ auth_stat_text stat) }
{
    match auth_stat_name(stat) {
        Some(name) => String::from_str(alloc, name),
        None => format!(in alloc; "{stat}"),
    }
}

fn auth_stat_name(stat: u32) -> Option<&'static str>
    ensures { option_map (λ name. name.now) result ≡ slice_get auth_stat_names stat }
{
    match stat {
        0 => Some("AUTH_OK"),
        1 => Some("AUTH_BADCRED"),
        2 => Some("AUTH_REJECTEDCRED"),
        3 => Some("AUTH_BADVERF"),
        4 => Some("AUTH_REJECTEDVERF"),
        5 => Some("AUTH_TOOWEAK"),
        6 => Some("AUTH_INVALIDRESP"),
        7 => Some("AUTH_FAILED"),
        8 => Some("AUTH_KERB_GENERIC"),
        9 => Some("AUTH_TIMEEXPIRE"),
        10 => Some("AUTH_TKT_FILE"),
        11 => Some("AUTH_DECODE"),
        12 => Some("AUTH_NET_ADDR"),
        13 => Some("RPCSEC_GSS_CREDPROBLEM"),
        14 => Some("RPCSEC_GSS_CTXPROBLEM"),
        _ => None,
    }
}

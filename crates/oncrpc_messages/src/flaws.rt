//! Why bytes are no message, and where.
ghost use Rattle.std.specs.Prelude.{◌≡◌, IfOk};
ghost use Rattle.oncrpc_messages.specs.Messages.{IsFlaw};
ghost use Rattle.oncrpc_messages.specs.Settings.{settings_of};

use crate::judge::judge;
use crate::refusal::{Refusal, Why};
use crate::settings::Settings;
use std::alloc::Global;
use xdr_codec::Reason;
use xdr_types::NoMemory;

/// Why bytes are no message, and where: the outcome of their head, or where it ends.
pub fn flaw_of(alloc: Global, settings: &Settings<'_>, bytes: &[u8]) -> Result<Refusal, NoMemory>
    ensures { IfOk result (λ r. IsFlaw (settings_of settings.now) bytes.now r) }
{
    let heads = settings.heads;
    let schema = &heads.declared.schema;
    match judge(alloc, schema, heads.message, settings.limits, bytes) {
        Ok(used) => Ok(Refusal {
            why: Why::MoreFollows,
            at: used,
        }),
        Err(fault) if fault.why == Reason::NoMemory => Err(NoMemory),
        Err(fault) => Ok(Refusal {
            why: Why::Bytes(fault.why),
            at: fault.at,
        }),
    }
}
